//! What holds of accepted designs. Each function does nothing; its contract is the law.

ghost use Rattle.std.specs.Prelude.{◌≤◌, length};
ghost use Rattle.vl_loops.specs.vl_design.specs.Placed.{Design};
ghost use Rattle.vl_loops.specs.vl_design.specs.Trees.{flat_of};
ghost use Rattle.sub_runs.specs.vl_sites.specs.Own.{HasOwnFunctions};
ghost use Rattle.elab_laws.specs.vl_check.specs.Written.{HasWriters};
ghost use Rattle.elab_laws.specs.vl_accept.specs.Fit.{IsFit};
ghost use Rattle.elab_laws.specs.vl_accept.specs.declared.accept.Accepted.{Accepted};
ghost use Rattle.elab_laws.specs.vl_accept.specs.Accepted.{Stands};
ghost use Rattle.ten_make.specs.Designs.{IsTenantDesign};

use crate::functions_laws::functions_of_accepted_designs_can_be_compiled_to_cells;
use elab_laws::asked_laws::unrolled_designs_write_no_others;
use sub_runs::laws::computed_signals_are_written_one_by_one;

/// An accepted design of at most 2 ^ 28 signals is, with its loops unrolled, one that tenants run.
pub fn an_accepted_design_is_a_tenants()
    ensures { (d : Design) (a : Accepted) → IsFit d → HasOwnFunctions d → HasWriters d → Stands d a →
        length a.design.signals ≤ 268435456 → IsTenantDesign (flat_of a.design) a.order.items }
{
    functions_of_accepted_designs_can_be_compiled_to_cells();
    computed_signals_are_written_one_by_one();
    unrolled_designs_write_no_others();
}
