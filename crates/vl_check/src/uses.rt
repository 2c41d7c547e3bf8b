//! The first of the constructs 14 to 18 and 20 to 23, and of limit 10.

ghost use Rattle.std.specs.Prelude.{IfOk};
ghost use Rattle.vl_design.specs.Seen.{placed};
ghost use Rattle.vl_design.specs.Sound.{IsSound};
ghost use Rattle.vl_design.specs.Trees.{flat_of};
ghost use Rattle.vl_design.specs.First.{IsFirst};
ghost use Rattle.vl_check.specs.Uses.{IsUseFault};

use crate::recursion::recursive_call;
use crate::saves::saves_fault;
use crate::standing::standing_fault;
use std::alloc::{AllocError, Global};
use vl_bits::drivers::driven_twice;
use vl_design::design::Design;
use vl_design::firsts::first_of;
use vl_design::stop::Stop;

/// The first fault of a design in who drives and writes what, what may stand in a process or a function, loops, what processes
/// wait for, recursion, and names of snapshots. None where there is none.
pub fn uses(alloc: Global, design: &Design) -> Result<Option<Stop>, AllocError>
    requires { IsSound (flat_of design.now) }
    ensures { IfOk result (IsFirst (IsUseFault (placed design.now))) }
{
    let standing = standing_fault(alloc, design)?;
    let driven = driven_twice(alloc, design)?;
    let recursive = recursive_call(alloc, design)?;
    let saved = saves_fault(alloc, design)?;
    let later = first_of(driven, first_of(recursive, saved));
    Ok(first_of(standing, later))
}
