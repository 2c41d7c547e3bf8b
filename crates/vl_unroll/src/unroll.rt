//! A design within the limits with its loops unrolled.

ghost use Rattle.std.specs.Prelude.{All};
ghost use Rattle.vl_design.specs.Rows.{range_width};
ghost use Rattle.vl_design.specs.Seen.{placed};
ghost use Rattle.vl_design.specs.Sound.{IsWidth};
ghost use Rattle.vl_design.specs.Trees.{flat_of};
ghost use Rattle.vl_loops.specs.Fits.{CanUnroll};
ghost use Rattle.vl_unroll.specs.Outcome.{Unrolls};

use crate::designs::unrolled;
use std::alloc::Global;
use vl_design::design::Design;
use vl_design::stop::Stop;
use vl_limits::limits::first_limit;

/// The design with its loops unrolled, or the first of limits 8 and 9 that it passes. Loops are gone, the bodies of functions
/// are unrolled once each, and calls stay. Nothing is unrolled before the limits are judged.
pub fn unroll(alloc: Global, design: &Design) -> Result<Design, Stop>
    requires fit { CanUnroll (flat_of design.now) }
    requires signals { All (λ r. IsWidth (range_width r.left r.right)) design.now.signals }
    requires locals { All (λ f. All (λ r. IsWidth (range_width r.left r.right)) f.locals) design.now.funcs }
    ensures { Unrolls (placed design.now) result }
{
    match first_limit(alloc, design)? {
        Some(stop) => Err(stop),
        None => Ok(unrolled(alloc, design)?),
    }
}
