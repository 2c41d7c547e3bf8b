//! What holds of the runs of tenants.

ghost use Rattle.std.specs.Prelude.{◌≡◌, ◌+◌, ◌<◌, ◌^◌, ℕ, List, false, slice_index};
ghost use Rattle.vl_design.specs.Alone.{Origin};
ghost use Rattle.vl_design.specs.Laws.{StartsFine};
ghost use Rattle.ten_form.specs.vl_runs.specs.Checked.{IsChecked, IsOrder};
ghost use Rattle.trap_runtime.specs.cell_form.specs.Data.{BankData};
ghost use Rattle.trap_runtime.specs.cell_form.specs.States.{table_cycled};
ghost use Rattle.ten_form.specs.sub_nodes.specs.Code.{table_of};
ghost use Rattle.ten_form.specs.sub_nodes.specs.Cycles.{Stage};
ghost use Rattle.ten_form.specs.sub_nodes.specs.Stands.{Comes};
ghost use Rattle.sub_runs.specs.Memories.{SetsNoMemories};
ghost use Rattle.sub_runs.specs.Nets.{WritesNoNets};
ghost use Rattle.ten_form.specs.sub_nodes.specs.Early.{early_from};
ghost use Rattle.ten_form.specs.Nets.{nets_of, IsTidy};
ghost use Rattle.ten_form.specs.Registers.{state_register};
ghost use Rattle.ten_core.specs.declared.engine.Engine.{Engine as OneEngine};
ghost use Rattle.ten_core.specs.Runs.{Runs};
ghost use Rattle.ten_core.specs.Tenants.{table_in, tenant_of};

use sub_runs::laws::{
    memories_hold_the_committed_words, nets_hold_over_the_committed_values,
    values_and_committed_values_stay_fine,
};
use ten_form::image_laws::a_cycle_of_states_is_one_of_nodes;

/// Each stage of a run of the table of a checked design is tidy, until the run has finished: its blocks write no nets, and its
/// clocked blocks write memories by nonblocking assignments alone.
pub fn each_stage_is_tidy()
    ensures { (o : Origin) (order : List ℕ) (c : ℕ) (i : Stage) → IsChecked o.flat → IsOrder o.flat order → StartsFine o.flat.rows o.resume →
        WritesNoNets o.flat → SetsNoMemories o.flat → Comes o (table_of o.flat) (nets_of o.flat o.files order) c i → i.node < early_from o.flat → i.state.finished ≡ false →
        IsTidy o.flat o.files order i.state i.committed }
{
    values_and_committed_values_stay_fine();
    nets_hold_over_the_committed_values();
    memories_hold_the_committed_words();
}

/// The number of the state that is next behind a cycle has 32 bits.
pub fn a_cycle_leads_to_a_state()
    ensures { (e : OneEngine) (b : BankData) → Runs (tenant_of e b) → e.waits ≡ false → e.finished ≡ false → e.ticks + 1 < 2 ^ 32 →
        slice_index (table_cycled (table_in e) b).regs state_register < 2 ^ 32 }
{
    a_cycle_of_states_is_one_of_nodes();
}
