//! What the compiler of functions may count on. The function does nothing; its contract is the law.

ghost use Rattle.std.specs.Prelude.{All};
ghost use Rattle.vl_loops.specs.vl_design.specs.Placed.{Design};
ghost use Rattle.vl_loops.specs.vl_design.specs.Plainly.{flat};
ghost use Rattle.vl_loops.specs.vl_design.specs.Width.{names_of};
ghost use Rattle.vl_loops.specs.Placed.{unrolled_placed};
ghost use Rattle.sub_runs.specs.vl_sites.specs.Own.{HasOwnFunctions};
ghost use Rattle.elab_laws.specs.vl_accept.specs.Fit.{IsFit};
ghost use Rattle.elab_laws.specs.vl_accept.specs.Accepted.{IsAccepted};
ghost use Rattle.ten_make.specs.cell_expr.specs.Bodies.{IsCellFun};

/// Each function of an accepted design, with its loops unrolled, only tests and assigns at once to signals of its own (IEEE
/// 1364-2005, clause 10.4). The elaboration of every source can be judged, and its functions keep to their own.
pub fn functions_of_accepted_designs_can_be_compiled_to_cells()
    ensures { (d : Design) → IsFit d → HasOwnFunctions d → IsAccepted d
        → All (IsCellFun (names_of (flat (unrolled_placed d)))) (flat (unrolled_placed d)).funs }
{}
