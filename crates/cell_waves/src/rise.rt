//! The clock's rise.

ghost use Rattle.std.specs.Prelude.{◌≡◌, IfOk};
ghost use Rattle.cell_emit.specs.cell_form.specs.Views.{list_of};
ghost use Rattle.cell_emit.specs.Slots.{Grows};
ghost use Rattle.cell_emit.specs.Envs.{env_of, IsSlot};
ghost use Rattle.cell_waves.specs.Rises.{Rises};

use cell_emit::at::At;
use cell_emit::cell::CellList;
use cell_emit::{BinOp, steps};
use std::alloc::{AllocError, Global};

/// The clock rises: from here on the time is one tick more. The slot, of 32 bits, of the new number of ticks. An `Err` is want of
/// memory.
pub fn rise(alloc: Global, cells: &mut CellList, at: &mut At) -> Result<u32, AllocError>
    requires time { IsSlot (list_of cells.old) at.old.time 64 }
    ensures grows { Grows (list_of cells.old) (list_of cells.new) }
    ensures rises { IfOk result (λ r. Rises (env_of at.old) (env_of at.new) (list_of cells.old) (list_of cells.new) r) }
{
    let one = steps::constant(alloc, cells, 1, 64)?;
    let time = steps::binary(alloc, cells, BinOp::Add, false, at.time, one)?;
    let ticks = steps::resize(alloc, cells, time, false, 32)?;
    at.time = time;
    Ok(ticks)
}
