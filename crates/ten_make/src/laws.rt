//! The states of a design have at most the cells that it costs, and its slack; and so have its registers the bits.

ghost use Rattle.std.specs.Prelude.{◌≡◌, ◌≤◌, ◌+◌, ◌==◌, ℕ, List, Some, count_by, length, slice_get, sum_by};
ghost use Rattle.ten_core.specs.vl_design.specs.Cost.{cost};
ghost use Rattle.ten_core.specs.vl_design.specs.Sound.{IsSound};
ghost use Rattle.ten_core.specs.vl_design.specs.Syntax.{Flat};
ghost use Rattle.sub_runs.specs.vl_runs.specs.Nets.{AllBelow};
ghost use Rattle.ten_core.specs.ten_form.specs.Delays.{DelaysVariables};
ghost use Rattle.ten_make.specs.Slack.{cell_slack, register_slack};
ghost use Rattle.cell_states.specs.Cells.{node_count};
ghost use Rattle.cell_states.specs.Widths.{register_widths};
ghost use Rattle.sub_split.specs.sub_nodes.specs.Pairs.{ArePaired};
ghost use Rattle.sub_split.specs.sub_nodes.specs.Nodes.{Node};
ghost use Rattle.ten_core.specs.ten_form.specs.Banks.{cell_nodes};

/// The state of a node behind time zero's wave has at most as many cells as the design costs, and its slack, where the order has each
/// process at most once.
pub fn nodes_are_within_cost()
    ensures { (d : Flat) (order : List ℕ) → IsSound d → DelaysVariables d → AllBelow (length d.procs) order → ((j : ℕ) → count_by (λ i. i == j) order ≤ 1) → ArePaired 0 (cell_nodes d) →
        (n : ℕ) (x : Node) → slice_get (cell_nodes d) n ≡ Some x → node_count d order (cell_nodes d) x ≤ (cost d).cells + cell_slack d }
{}

/// The registers that states set have at most as many bits as the design costs, and its slack.
pub fn registers_are_within_cost()
    ensures { (d : Flat) → DelaysVariables d → sum_by (λ w. w) (register_widths d) ≤ (cost d).regs + register_slack d }
{}
