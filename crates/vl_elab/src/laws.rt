//! Laws of the definitions.

ghost use Rattle.std.specs.Prelude.{◌≡◌, ◌∷◌, List, Result, is_some, true};
ghost use Rattle.elab_plain.specs.vl_tree.specs.declared.tree.Binary.{Binary};
ghost use Rattle.elab_plain.specs.vl_tree.specs.Binding.{term_of};
ghost use Rattle.elab_plain.specs.vl_tree.specs.declared.source_tree.Module.{Module};
ghost use Rattle.elab_plain.specs.vl_tree.specs.declared.source_tree.Source.{Source};
ghost use Rattle.vl_names.specs.vl_scope.specs.declared.fault.Fault.{Fault};
ghost use Rattle.vl_names.specs.NameFaults.{IsNameFault};
ghost use Rattle.vl_design.specs.declared.stop.Stop.{Stop};
ghost use Rattle.vl_design.specs.Placed as placed;
ghost use Rattle.elab_plain.specs.vl_flat.specs.Binding.{binary};
ghost use Rattle.elab_plain.specs.vl_flat.specs.Flat.{top_of};
ghost use Rattle.vl_sound.specs.Meeting.{IsElaboration};
ghost use Rattle.vl_elab.specs.Terms.{surface};

/// A source with a module whose names have no fault has a top, so that it has a flat design or a fault of that.
pub fn a_source_without_faults_of_names_has_a_top()
    ensures { (s : Source) (m : Module) (after : List Module) → s.modules ≡ m ∷ after → ((f : Fault) → IsNameFault s f → ⊥) → is_some (top_of s) ≡ true }
{}

/// A source has one elaboration: one flat design or one first fault.
pub fn a_source_has_one_elaboration()
    ensures { (s : Source) (a b : Result placed.Design Stop) → IsElaboration s a → IsElaboration s b → a ≡ b }
{}

/// The operators of an expression are bound as the grammar binds them: by table 5-4, to the left within a row.
pub fn operators_are_bound_as_the_grammar_binds_them()
    ensures { (e : Binary) → binary e ≡ surface (term_of e) }
{}
