//! What holds of errands that are done. Each function does nothing; its contract is the law.

ghost use Rattle.std.specs.Prelude.{◌≡◌, ℕ, List, false, drop, ◌<◌};
ghost use Rattle.vl_design.specs.Alone.{Errand, save_names, stop_at};
ghost use Rattle.ten_plan.specs.Plans.{AreBefore, AreDone};

/// Where just the errands of earlier ticks are done, no snapshot of this tick is, and all of them are left.
pub fn errands_before_a_tick_are_done_at_it()
    ensures done { (errands : List Errand) (k n : ℕ) → AreBefore errands k n → AreDone errands k n }
    ensures saves { (errands : List Errand) (k n : ℕ) → AreBefore errands k n → save_names k (drop n errands) ≡ save_names k errands }
{}
