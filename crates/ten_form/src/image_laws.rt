//! What holds of the states of every image.

ghost use Rattle.std.specs.Prelude.{◌≡◌, ◌<◌, ◌^◌, ℕ, List, true, false, slice_get, Some};
ghost use Rattle.vl_design.specs.vl_base.specs.declared.files.File.{File};
ghost use Rattle.vl_design.specs.Syntax.{Flat};
ghost use Rattle.cell_emit.specs.cell_form.specs.Data.{BankData, StateData};
ghost use Rattle.cell_emit.specs.cell_form.specs.States.{table_cycled};
ghost use Rattle.sub_split.specs.sub_nodes.specs.Nodes.{Node};
ghost use Rattle.sub_split.specs.sub_nodes.specs.Cycles.{Stage, cycle, is_trap};
ghost use Rattle.ten_form.specs.Banks.{cell_nodes};
ghost use Rattle.ten_form.specs.Nets.{nets_of, IsTidy, HoldsNoOthers};
ghost use Rattle.ten_form.specs.Registers.{state_register};
ghost use Rattle.ten_form.specs.Delays.{IsDue};
ghost use Rattle.ten_form.specs.States.{AreStates, StandsAt};
ghost use Rattle.ten_form.specs.Paired.{CallsStandApart};

/// One cycle of states is one of nodes: where a bank stands for a stage of a run that goes on, and no call is next, the bank
/// behind a cycle stands for the stage behind it.
pub fn a_cycle_of_states_is_one_of_nodes()
    ensures { (d : Flat) (order : List ℕ) (files : List File) (slots : ℕ) (states : List StateData) (b : BankData) (i : Stage) (x : Node) →
        AreStates d order slots (cell_nodes d) states → CallsStandApart (cell_nodes d) → StandsAt d order files slots (cell_nodes d) states b i → slice_get (cell_nodes d) i.node ≡ Some x → is_trap (Some x) ≡ false →
        IsTidy d files order i.state i.committed → HoldsNoOthers d i.state i.committed →
        HoldsNoOthers d (cycle d files (nets_of d files order) (cell_nodes d) i).state (cycle d files (nets_of d files order) (cell_nodes d) i).committed →
        IsDue d x i → i.state.finished ≡ false → (cycle d files (nets_of d files order) (cell_nodes d) i).state.ticks < 2 ^ 32 →
        StandsAt d order files slots (cell_nodes d) states (table_cycled (record { state = state_register; states = states }) b) (cycle d files (nets_of d files order) (cell_nodes d) i) }
{}
