//! What follows from the definitions alone: what comes of a source text is one thing.

ghost use Rattle.std.specs.Prelude.{◌≡◌, ℕ, List};
ghost use Rattle.vl_elab.specs.vl_base.specs.declared.place.Place.{Place};
ghost use Rattle.vl_elab.specs.vl_design.specs.Syntax.{Flat};
ghost use Rattle.vl_front.specs.declared.fault.Kind.{Kind};
ghost use Rattle.vl_front.specs.Sources.{but_cycle, StandsFor, IsRefusal};

/// A text stands for one design at most, or it is refused at one place for one reason, and never both. Where that is a combinational loop, several loops of
/// the lowest process on one may be shown.
pub fn a_text_is_a_design_or_refused()
    ensures design { (text : List ℕ) (d e : Flat) → StandsFor text d → StandsFor text e → d ≡ e }
    ensures refusal { (text : List ℕ) (p q : Place) (a b : Kind) → IsRefusal text p a → IsRefusal text q b → (p ≡ q) × (but_cycle a ≡ but_cycle b) }
    ensures not_both { (text : List ℕ) (d : Flat) (p : Place) (a : Kind) → StandsFor text d → IsRefusal text p a → ⊥ }
{}
