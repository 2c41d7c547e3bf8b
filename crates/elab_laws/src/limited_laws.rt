//! How much there is in a design that passes no limit. Each function does nothing; its contract is the law.

ghost use Rattle.std.specs.Prelude.{◌≡◌, Ok, All, map};
ghost use Rattle.vl_sound.specs.vl_tree.specs.declared.source_tree.Source.{Source};
ghost use Rattle.ten_plan.specs.vl_design.specs.Placed.{Design};
ghost use Rattle.ten_plan.specs.vl_design.specs.Rows.{range_width, row_of};
ghost use Rattle.ten_plan.specs.vl_design.specs.Sound.{IsWidth};
ghost use Rattle.vl_sound.specs.vl_flat.specs.Outcome.{flattened};
ghost use Rattle.vl_sound.specs.Meeting.{IsElaboration};
ghost use Rattle.ten_plan.specs.Written.{HasRows};
ghost use Rattle.elab_laws.specs.Limited.{IsLimited};

/// The signals of a flat design of a source, their names and the words of its memories are within the limits (own).
pub fn signals_of_a_flat_design_are_limited()
    ensures { (s : Source) (d : Design) → flattened s ≡ Ok d → IsLimited d }
{}

/// So it is in the elaboration of every source.
pub fn signals_of_an_elaborated_design_are_limited()
    ensures { (s : Source) (d : Design) → IsElaboration s (Ok d) → IsLimited d }
{}

/// A snapshot of such a design whose signals have from 1 to 128 bits has rows that can be written.
pub fn rows_of_a_limited_design_can_be_written()
    ensures { (d : Design) → IsLimited d → All (λ r. IsWidth (range_width r.left r.right)) d.signals → HasRows (map row_of d.signals) }
{}
