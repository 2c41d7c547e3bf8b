//! What resumed runs may count on. Each function does nothing; its contract is the law.

ghost use Rattle.std.specs.Prelude.{◌≡◌, Ok};
ghost use Rattle.vl_sound.specs.vl_tree.specs.declared.source_tree.Source.{Source};
ghost use Rattle.ten_plan.specs.vl_design.specs.Placed.{Design};
ghost use Rattle.ten_plan.specs.vl_design.specs.Plainly.{flat};
ghost use Rattle.ten_plan.specs.vl_design.specs.Trees.{flat_of};
ghost use Rattle.vl_accept.specs.vl_sites.specs.Answers.{AsksBehindCalls};
ghost use Rattle.vl_accept.specs.vl_sites.specs.Others.{WritesNoOthers};
ghost use Rattle.vl_accept.specs.Fit.{IsFit};
ghost use Rattle.vl_sound.specs.Meeting.{IsElaboration};
ghost use Rattle.vl_accept.specs.declared.accept.Accepted.{Accepted};
ghost use Rattle.vl_accept.specs.Accepted.{Stands};

/// In the elaboration of every source a statement that reads an answer stands right behind the call that gives it (IEEE 1364-2005,
/// clause 17.2; where such calls may stand is own).
pub fn processes_of_an_elaborated_design_ask_behind_calls()
    ensures { (s : Source) (d : Design) → IsElaboration s (Ok d) → AsksBehindCalls (flat d) }
{}

/// So it is in an accepted design with its loops unrolled.
pub fn unrolled_designs_ask_behind_calls()
    ensures { (d : Design) (a : Accepted) → IsFit d → AsksBehindCalls (flat d) → Stands d a → AsksBehindCalls (flat_of a.design) }
{}

/// Nothing in an accepted design with its loops unrolled writes a loop variable or a clock.
pub fn unrolled_designs_write_no_others()
    ensures { (d : Design) (a : Accepted) → IsFit d → Stands d a → WritesNoOthers (flat_of a.design) }
{}
