//! What holds of shells at rest. Each function does nothing; its contract is the law.

ghost use Rattle.std.specs.Prelude.{◌≡◌, ◌<◌, ◌^◌, ℕ, Some, slice_index};
ghost use Rattle.vl_design.specs.declared.design.End.{End as Reason};
ghost use Rattle.vl_design.specs.Alone.{Boundary, Ends, Keeps, reason_at};
ghost use Rattle.vl_design.specs.Queue.{Queue};
ghost use Rattle.ten_core.specs.cell_form.specs.Data.{BankData};
ghost use Rattle.ten_core.specs.cell_form.specs.States.{table_cycled};
ghost use Rattle.ten_core.specs.sub_nodes.specs.Cycles.{Stage};
ghost use Rattle.ten_core.specs.ten_form.specs.Registers.{state_register};
ghost use Rattle.ten_core.specs.Tenants.{table_in};
ghost use Rattle.ten_shell.specs.declared.shell.Shell.{Shell as OneShell};
ghost use Rattle.ten_shell.specs.Shells.{free_in, run_of, saved_in, MayCycle, Rests, StandsFor};

use ten_core::laws::a_cycle_leads_to_a_state;
use ten_core::run_laws::{a_run_at_rest_is_at_a_boundary, ticks_and_acts_can_be_counted};

/// Where a shell rests, the run alone is at the boundary of as many ticks in the same state, and has counted as many acts; the shell keeps
/// the snapshots that are to be kept there; and where the run has a reason to end there, it ends there.
pub fn a_shell_at_rest_is_at_a_boundary()
    ensures boundary { (s : OneShell) (b : BankData) (c : ℕ) (i : Stage) → StandsFor s b c i → Rests s i →
        (q : Queue) × Boundary (run_of s) i.state.ticks q × (q.state ≡ i.state) × (q.state.count ≡ c) }
    ensures kept { (s : OneShell) (b : BankData) (c : ℕ) (i : Stage) → StandsFor s b c i → Rests s i → Keeps (run_of s) (free_in s) i.state.ticks (saved_in s) }
    ensures ends { (s : OneShell) (b : BankData) (c : ℕ) (i : Stage) (q : Queue) (end : Reason) → StandsFor s b c i → Rests s i → Boundary (run_of s) i.state.ticks q →
        reason_at (run_of s).plan i.state.ticks q ≡ Some end → Ends (run_of s) i.state.ticks end q }
{
    a_run_at_rest_is_at_a_boundary();
}

/// The number of the state that is next behind a cycle has 32 bits.
pub fn a_shells_cycle_leads_to_a_state()
    ensures { (s : OneShell) (b : BankData) (c : ℕ) (i : Stage) → StandsFor s b c i → MayCycle s i →
        slice_index (table_cycled (table_in s.engine) b).regs state_register < 2 ^ 32 }
{
    a_cycle_leads_to_a_state();
    ticks_and_acts_can_be_counted();
}
