//! What holds of runs that are over in time zero. Each function does nothing; its contract is the law.

ghost use Rattle.std.specs.Prelude.{◌≡◌};
ghost use Rattle.std.specs.Arc.{arc_value};
ghost use Rattle.vl_eval.specs.vl_design.specs.declared.design.End.TheVariants.{Finished};
ghost use Rattle.vl_eval.specs.vl_design.specs.Alone.{Ends};
ghost use Rattle.vl_eval.specs.vl_design.specs.Queue.{Queue};
ghost use Rattle.ten_core.specs.Tenants.{origin_of};
ghost use Rattle.ten_zero.specs.Early.{state_in};
ghost use Rattle.ten_parcel.specs.declared.parcel.Over.{Over as OneOver};
ghost use Rattle.ten_parcel.specs.Parcels.{IsOver};

use sub_runs::laws::the_table_of_a_checked_design_can_run;

/// A run that has finished in time zero ends at its first boundary, in the state that it has come to.
pub fn a_run_over_in_time_zero_has_ended()
    ensures { (x : OneOver) → IsOver x → (q : Queue) × Ends (origin_of (arc_value x.origin)) 0 Finished q × (q.state ≡ state_in x.early) }
{
    the_table_of_a_checked_design_can_run();
}
