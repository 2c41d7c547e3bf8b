//! What holds of accepted designs.

ghost use Rattle.std.specs.Prelude.{ℕ, List};
ghost use Rattle.vl_check.specs.vl_design.specs.Placed.{Design};
ghost use Rattle.vl_check.specs.vl_design.specs.Plainly.{flat};
ghost use Rattle.vl_check.specs.vl_design.specs.Syntax.{Flat};
ghost use Rattle.vl_unroll.specs.vl_loops.specs.Placed.{unrolled_placed};
ghost use Rattle.vl_accept.specs.Fit.{IsFit};
ghost use Rattle.cell_level.specs.Levelling as levelling;
ghost use Rattle.vl_accept.specs.Accepted.{IsAccepted};
ghost use Rattle.vl_runs.specs.Checked.{IsChecked, IsOrder};

/// An order of processes by their levels is one in which they settle.
pub fn an_order_of_levels_is_an_order()
    ensures { (d : Flat) (order : List ℕ) → levelling.IsOrder d order → IsOrder d order }
{}

/// An accepted design meets the rules, one by one, with its loops unrolled.
pub fn an_accepted_design_is_checked()
    ensures { (d : Design) → IsFit d → IsAccepted d → IsChecked (flat (unrolled_placed d)) }
{}
