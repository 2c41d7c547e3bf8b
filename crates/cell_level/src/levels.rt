//! The order of nets, or the lowest cycle.

ghost use Rattle.std.specs.Prelude.{◌≡◌, ◌↔◌, ℕ, true, IfOk};
ghost use Rattle.cell_level.specs.Cycles.{IsOnCycle};
ghost use Rattle.cell_level.specs.Nets as spec;

use crate::cycles::lowest_cycle;
use crate::nets::{Levels, Net};
use crate::orders::walk_all;
use crate::tables::{drivers, readers};
use std::alloc::{AllocError, Global};

/// An order in which each net stands behind those that drive what it reads, or a cycle from the lowest net on one. The nets'
/// bits are of so many signals. More than `u32::MAX` nets are too many for memory.
pub fn levels(alloc: Global, signals: usize, nets: &[Net]) -> Result<Levels, AllocError>
    requires { spec.AreNets signals nets.now }
    ensures answer { IfOk result (spec.IsAnswer nets.now) }
    ensures exact { IfOk result (λ l. (spec.is_ordered l ≡ true) ↔ ((p : ℕ) → IsOnCycle (spec.Edge nets.now) p → ⊥)) }
{
    if nets.len() > u32::MAX as usize {
        return Err(AllocError);
    }
    let drivers = drivers(alloc, signals, nets)?;
    let walk = walk_all(alloc, nets, drivers.as_slice())?;
    if !walk.cyclic {
        return Ok(Levels::Ordered(walk.order));
    }
    let readers = readers(alloc, signals, nets)?;
    let cycle = lowest_cycle(alloc, nets, readers.as_slice(), walk.order)?;
    Ok(Levels::Loop(cycle))
}
