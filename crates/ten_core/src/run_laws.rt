//! What holds of runs on the way to their ends. Each function does nothing; its contract is the law.

ghost use Rattle.std.specs.Prelude.{◌≡◌, ◌<◌, ◌+◌, ◌^◌, ℕ, suc, true, false, List, Some, if◌then◌else◌, slice_get};
ghost use Rattle.vl_design.specs.declared.design.End.{End as Reason};
ghost use Rattle.vl_design.specs.Alone.{Origin, Boundary, Ends, reason_at};
ghost use Rattle.vl_design.specs.Queue.{Queue};
ghost use Rattle.ten_form.specs.sub_nodes.specs.Code.{table_of};
ghost use Rattle.ten_form.specs.sub_nodes.specs.Cycles.{Stage, rises};
ghost use Rattle.ten_form.specs.sub_nodes.specs.Stands.{at_trap};
ghost use Rattle.ten_core.specs.Runs.{after_cycle, after_call};
ghost use Rattle.ten_core.specs.Running.{goes_on, is_at_rest, to_come, IsRunning};

use sub_runs::laws::the_table_of_a_checked_design_can_run;

/// A run that goes on comes nearer to its end with each cycle and each served call. A tick begins with the cycle in which the clock rises,
/// and with no other.
pub fn each_act_comes_nearer()
    ensures cycle { (o : Origin) (order : List ℕ) (c : ℕ) (i : Stage) → IsRunning o order c i → goes_on o.plan o.flat i ≡ true → at_trap (table_of o.flat) i ≡ false →
        IsRunning o order (if at_trap (table_of o.flat) (after_cycle o order i) then c else suc c) (after_cycle o order i) }
    ensures call { (o : Origin) (order : List ℕ) (c : ℕ) (i : Stage) → IsRunning o order c i → at_trap (table_of o.flat) i ≡ true →
        IsRunning o order (suc c) (after_call o i) }
    ensures cycle_nearer { (o : Origin) (order : List ℕ) (c : ℕ) (i : Stage) → IsRunning o order c i → goes_on o.plan o.flat i ≡ true → at_trap (table_of o.flat) i ≡ false →
        to_come o.flat o.plan.budget (after_cycle o order i) < to_come o.flat o.plan.budget i }
    ensures call_nearer { (o : Origin) (order : List ℕ) (c : ℕ) (i : Stage) → IsRunning o order c i → at_trap (table_of o.flat) i ≡ true →
        to_come o.flat o.plan.budget (after_call o i) < to_come o.flat o.plan.budget i }
    ensures rises { (o : Origin) (order : List ℕ) (c : ℕ) (i : Stage) → IsRunning o order c i → rises (slice_get (table_of o.flat).nodes i.node) ≡ true →
        (after_cycle o order i).state.ticks ≡ i.state.ticks + 1 }
    ensures ticks { (o : Origin) (order : List ℕ) (c : ℕ) (i : Stage) → IsRunning o order c i → rises (slice_get (table_of o.flat).nodes i.node) ≡ false →
        (after_cycle o order i).state.ticks ≡ i.state.ticks }
    ensures call_ticks { (o : Origin) (order : List ℕ) (c : ℕ) (i : Stage) → IsRunning o order c i → (after_call o i).state.ticks ≡ i.state.ticks }
{}

/// Its ticks and its acts can be counted.
pub fn ticks_and_acts_can_be_counted()
    ensures ticks { (o : Origin) (order : List ℕ) (c : ℕ) (i : Stage) → IsRunning o order c i → i.state.ticks + 1 < 2 ^ 32 }
    ensures acts { (o : Origin) (order : List ℕ) (c : ℕ) (i : Stage) → IsRunning o order c i → c + 1 < 2 ^ 64 }
{}

/// Where it rests, the run alone is at the boundary of as many ticks, in the same state, and has counted as many acts; and where it has a
/// reason to end there, it ends there.
pub fn a_run_at_rest_is_at_a_boundary()
    ensures boundary { (o : Origin) (order : List ℕ) (c : ℕ) (i : Stage) → IsRunning o order c i → is_at_rest o.flat i ≡ true →
        (q : Queue) × Boundary o i.state.ticks q × (q.state ≡ i.state) }
    ensures count { (o : Origin) (order : List ℕ) (c : ℕ) (i : Stage) → IsRunning o order c i → is_at_rest o.flat i ≡ true → i.state.count ≡ c }
    ensures ends { (o : Origin) (order : List ℕ) (c : ℕ) (i : Stage) (q : Queue) (end : Reason) → IsRunning o order c i → is_at_rest o.flat i ≡ true →
        Boundary o i.state.ticks q → reason_at o.plan i.state.ticks q ≡ Some end → Ends o i.state.ticks end q }
{
    the_table_of_a_checked_design_can_run();
}
