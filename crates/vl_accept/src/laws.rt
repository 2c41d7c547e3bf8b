//! A design without faults has its loops as unrolling takes them for granted.

ghost use Rattle.std.specs.Prelude.{◌≡◌, ◌++◌, ℕ, List, [], map, All};
ghost use Rattle.vl_check.specs.vl_design.specs.Placed.{Stm, Design};
ghost use Rattle.vl_check.specs.vl_design.specs.Plainly.{stm, flat};
ghost use Rattle.vl_check.specs.vl_design.specs.Rows.{row_of};
ghost use Rattle.vl_check.specs.vl_design.specs.Sound.{IsSound};
ghost use Rattle.vl_unroll.specs.vl_loops.specs.Fits.{HasLoops, AreNoLoops, CanUnroll};
ghost use Rattle.vl_check.specs.Bodies.{Setting};
ghost use Rattle.vl_check.specs.Standing.{body_faults, standing_faults};

/// Where a body has no fault, its loop variables are assigned in the headers of their loops alone, by loop variables and
/// numbers (IEEE 1364-2005, clause 9.6).
pub fn the_loops_of_a_body_without_faults_can_be_unrolled()
    ensures { (b : Setting) (path : List ℕ) (a : Stm) → body_faults b a ≡ [] → HasLoops (map row_of b.shared ++ map row_of b.own) (stm path a) }
{}

/// A sound design without these faults, no input of a function in which is a loop variable, can be unrolled.
pub fn a_design_without_faults_can_be_unrolled()
    ensures { (d : Design) → standing_faults d ≡ [] → IsSound (flat d) → All (λ f. AreNoLoops ((flat d).rows ++ f.locals) f.inputs) (flat d).funs → CanUnroll (flat d) }
{}
