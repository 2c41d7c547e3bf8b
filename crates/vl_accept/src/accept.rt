//! Whether a design is accepted.

ghost use Rattle.vl_check.specs.vl_design.specs.Seen.{placed};
ghost use Rattle.vl_check.specs.vl_design.specs.Sound.{IsSound};
ghost use Rattle.vl_check.specs.vl_design.specs.Trees.{flat_of};
ghost use Rattle.vl_accept.specs.Fit.{IsFit};
ghost use Rattle.vl_runs.specs.vl_paths.specs.Graph.{Edge};
ghost use Rattle.vl_check.specs.vl_design.specs.First.{IsFirst};
ghost use Rattle.vl_check.specs.Uses.{IsUseFault};
ghost use Rattle.vl_latch.specs.Faults.{IsPathFault};
ghost use Rattle.cell_level.specs.Cycles.{IsLowestCycle};
ghost use Rattle.vl_accept.specs.declared.fault.Fault.TheVariants as f;
ghost use Rattle.vl_accept.specs.Accepted.{Accepts, IsLoop};
ghost use Rattle.vl_accept.specs.Orders.{Orders, Settles};
ghost use Rattle.vl_accept.specs.Stopping.{Judges};

use crate::fault::{Fault, passed};
use cell_level::level::level;
use cell_level::nets::Levels;
use std::alloc::Global;
use vl_check::design::Design;
use vl_check::uses::uses;
use vl_latch::paths::paths;
use vl_latch::{Nums, Place};
use vl_unroll::unroll::unroll;

/// A design that is accepted.
#[derive(Drop)]
pub struct Accepted {
    /// The design, with its loops unrolled.
    pub design: Design,
    /// Its processes by their numbers, each behind the combinational ones that drive what it reads.
    pub order: Vec<u32>,
}

/// Stops at what is used in a way that is refused.
fn judge_uses(alloc: Global, design: &Design) -> Result<(), Fault>
    requires sound { IsSound (flat_of design.now) }
    ensures { Judges (IsFirst (IsUseFault (placed design.now))) result }
{
    let found = uses(alloc, design)?;
    passed(found)
}

/// Stops at the first fault of paths in an unrolled design.
fn judge_paths(alloc: Global, design: &Design) -> Result<(), Fault>
    requires sound { IsSound (flat_of design.now) }
    ensures { Judges (IsFirst (IsPathFault (placed design.now))) result }
{
    let found = paths(alloc, design)?;
    passed(found)
}

/// The place of the first process of a combinational loop.
fn place_of(design: &Design, cycle: &[u32]) -> Place
    requires { IsLowestCycle (Edge (flat_of design.now)) cycle.now }
    ensures { IsLoop (placed design.now) (f.Loop result cycle.now) }
{
    let first = cycle[0] as usize;
    design.processes.as_slice()[first].place
}

/// A combinational loop, as a fault.
fn loop_of(design: &Design, cycle: Vec<u32>) -> Fault
    requires { IsLowestCycle (Edge (flat_of design.now)) cycle.items }
    ensures { IsLoop (placed design.now) result }
{
    let place = place_of(design, cycle.as_slice());
    Fault::Loop(place, Nums::from_vec(cycle))
}

/// The order of the processes of an unrolled design.
fn order_of(alloc: Global, design: &Design) -> Result<Vec<u32>, Fault>
    requires sound { IsSound (flat_of design.now) }
    ensures { Orders (placed design.now) result }
{
    match level(alloc, design)? {
        Levels::Ordered(order) => Ok(order),
        Levels::Loop(cycle) => Err(loop_of(design, cycle)),
    }
}

/// Accepts an unrolled design, or stops at its first fault.
fn accept_unrolled(alloc: Global, design: Design) -> Result<Accepted, Fault>
    requires sound { IsSound (flat_of design) }
    ensures { Settles (placed design) result }
{
    judge_paths(alloc, &design)?;
    let order = order_of(alloc, &design)?;
    Ok(Accepted { design, order })
}

/// Accepts a design that the elaboration of a source gave, or stops at its first fault: a construct from 14 to 23 or limit 10 of
/// what it uses, then limit 8 or 9, then, with its loops unrolled, construct 19, then a combinational loop. Within each the least
/// place comes first, then the least number.
pub fn accept(alloc: Global, design: &Design) -> Result<Accepted, Fault>
    requires { IsFit (placed design.now) }
    ensures { Accepts (placed design.now) result }
{
    judge_uses(alloc, design)?;
    let unrolled = unroll(alloc, design)?;
    accept_unrolled(alloc, unrolled)
}
