//! What holds of runs that are resumed from snapshots. Each function does nothing; its contract is the law.

ghost use Rattle.std.specs.Prelude.{◌≡◌, ℕ, List, [], ◌∷◌, false};
ghost use Rattle.vl_sites.specs.vl_design.specs.Alone.{Origin, Boundary};
ghost use Rattle.vl_sites.specs.vl_design.specs.Laws.{StartsFine};
ghost use Rattle.vl_sites.specs.vl_design.specs.Observed.{IsSameRun};
ghost use Rattle.vl_sites.specs.vl_design.specs.Queue.{Queue};
ghost use Rattle.vl_sites.specs.vl_design.specs.Syntax.{Flat};
ghost use Rattle.vl_runs.specs.Sample.{backwards};
ghost use Rattle.sub_runs.specs.Again.{CanGoOn, GoesOn};

use crate::laws::{
    a_backward_design_writes_no_nets, a_run_of_a_table_stays_tidy,
    the_table_of_a_checked_design_can_run,
};
use vl_runs::acts_laws::a_backward_design_is_told_act_by_act;
use vl_runs::settle_laws::a_backward_design_is_checked;

/// A run of such a design, from nothing or from a snapshot, goes on from each boundary, until it has finished, as the run that is
/// resumed from its snapshot there: that one prints what is printed behind it.
pub fn a_resumed_run_goes_on()
    ensures { (o : Origin) (order : List ℕ) (k : ℕ) (q : Queue) → CanGoOn o.flat order → StartsFine o.flat.rows o.resume →
        Boundary o k q → q.state.finished ≡ false → GoesOn o k q.state }
{
    the_table_of_a_checked_design_can_run();
    a_run_of_a_table_stays_tidy();
}

/// So does a run of a design with the same signals, where the runs of both are the same from every start.
pub fn the_same_run_goes_on()
    ensures { (o : Origin) (d : Flat) (k : ℕ) (q r : Queue) → o.flat.rows ≡ d.rows → ((u : Origin) → u.flat ≡ o.flat → IsSameRun u (record u { flat = d })) →
        Boundary o k q → Boundary (record o { flat = d }) k r → GoesOn (record o { flat = d }) k r.state → GoesOn o k q.state }
{}

/// The small design that meets the rules of settling meets the other premises too.
pub fn a_backward_design_can_go_on()
    ensures { CanGoOn backwards (1 ∷ 0 ∷ 2 ∷ []) }
{
    a_backward_design_is_checked();
    a_backward_design_is_told_act_by_act();
    a_backward_design_writes_no_nets();
}
