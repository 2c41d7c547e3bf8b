//! What came of the elaboration of a source can be judged.

ghost use Rattle.std.specs.Prelude.{Ok};
ghost use Rattle.vl_sound.specs.vl_tree.specs.declared.source_tree.Source.{Source};
ghost use Rattle.ten_plan.specs.vl_design.specs.Placed as p;
ghost use Rattle.vl_accept.specs.Fit.{IsFit};
ghost use Rattle.vl_sound.specs.Meeting.{IsElaboration};

/// The elaboration of a source is sound, no input of a function in it is a loop variable, its signals and locals have from 1 to
/// 128 bits, and its processes are as elaboration makes them.
pub fn an_elaborated_design_is_fit_to_be_judged()
    ensures { (s : Source) (d : p.Design) → IsElaboration s (Ok d) → IsFit d }
{}
