//! The update (IEEE 1364-2005, clause 11.4).

ghost use Rattle.std.specs.Prelude.{◌≡◌, ◌≤◌, ◌<◌, [], if◌then◌else◌, length, map, IfOk, OnOk};
ghost use Rattle.ten_form.specs.vl_design.specs.Sound.{IsWidth};
ghost use Rattle.ten_form.specs.vl_design.specs.Trees.{flat_of, row_of};
ghost use Rattle.cell_emit.specs.cell_form.specs.Cycle.{masked};
ghost use Rattle.cell_emit.specs.cell_form.specs.Data.{BankData};
ghost use Rattle.cell_emit.specs.cell_form.specs.Sound.{Shape};
ghost use Rattle.cell_emit.specs.cell_form.specs.Views.{list_of};
ghost use Rattle.cell_emit.specs.Slots.{held, AreSound, Grows, Gives, IsIn, Longer, Nothing};
ghost use Rattle.cell_emit.specs.Envs.{IsSlot};
ghost use Rattle.cell_waves.specs.Applies.{Applies, HasOwn, HasUpdate, HasUpdateIf};
ghost use Rattle.cell_waves.specs.Copies.{marked_one};

use crate::widths::variable_width;
use crate::writes::{is_marked, write_marked};
use cell_emit::cell::{CellList, Write};
use cell_emit::{BinOp, steps};
use std::alloc::{AllocError, Global};
use ten_form::design::{Design, Signal};
use ten_form::places::{MASK, UPDATE, VALUE, WORK, register};

/// A slot with the bits that are set in a mask replaced by those of another one, all of so many bits.
fn replaced(
    alloc: Global,
    cells: &mut CellList,
    width: u8,
    old: u32,
    new: u32,
    mask: u32,
) -> Result<u32, AllocError>
    requires width { IsWidth width }
    requires old { IsSlot (list_of cells.old) old width }
    requires new { IsSlot (list_of cells.old) new width }
    requires mask { IsSlot (list_of cells.old) mask width }
    ensures grows { Grows (list_of cells.old) (list_of cells.new) }
    ensures gives { IfOk result (λ r. Gives Nothing 3 (list_of cells.old) (list_of cells.new) r width
        (λ b. masked (held b (list_of cells.old) old) (held b (list_of cells.old) new) (held b (list_of cells.old) mask))) }
{
    let differing = steps::binary(alloc, cells, BinOp::Xor, false, old, new)?;
    let chosen = steps::binary(alloc, cells, BinOp::And, false, differing, mask)?;
    steps::binary(alloc, cells, BinOp::Xor, false, old, chosen)
}

/// The slot of a variable's value behind the update, from its registers; none of a signal that is computed, and of one without a value.
fn updated(
    alloc: Global,
    cells: &mut CellList,
    signal: &Signal,
    number: u32,
) -> Result<Option<u32>, AllocError>
    requires few { number < 268435456 }
    ensures grows { Grows (list_of cells.old) (list_of cells.new) }
    ensures longer { IfOk result (λ e. Longer (HasOwn number) 6 (list_of cells.old) (list_of cells.new)) }
    ensures updates { IfOk result (λ e. HasUpdate (row_of signal.now) number (list_of cells.new) e) }
{
    match variable_width(signal) {
        None => Ok(None),
        Some(width) => {
            let old = steps::register(alloc, cells, register(number, WORK), width)?;
            let new = steps::register(alloc, cells, register(number, UPDATE), width)?;
            let mask = steps::register(alloc, cells, register(number, MASK), width)?;
            let slot = replaced(alloc, cells, width, old, new, mask)?;
            Ok(Some(slot))
        }
    }
}

/// The same where updates of the signal may be pending (`delayed`); else none.
fn updated_if(
    alloc: Global,
    cells: &mut CellList,
    signal: &Signal,
    number: u32,
    delayed: bool,
) -> Result<Option<u32>, AllocError>
    requires few { number < 268435456 }
    ensures grows { Grows (list_of cells.old) (list_of cells.new) }
    ensures longer { IfOk result (λ e. Longer (HasOwn number) (if delayed then 6 else 0) (list_of cells.old) (list_of cells.new)) }
    ensures updates { IfOk result (λ e. HasUpdateIf delayed (row_of signal.now) number (list_of cells.new) e) }
{
    if delayed {
        updated(alloc, cells, signal, number)
    } else {
        Ok(None)
    }
}

/// The update (IEEE 1364-2005, clause 11.4): each variable takes the bits of its pending updates, and nothing is pending any more:
/// the cells, at most six for each signal that is marked (`delayed`), and the writes. Updates can be pending of these alone: the others
/// have neither cells nor writes, and keep what was committed. `here` is a slot that holds 0. An `Err` is want of memory.
pub fn applied(
    alloc: Global,
    cells: &mut CellList,
    design: &Design,
    here: u32,
    delayed: &[bool],
    sets: &mut Vec<Write>,
) -> Result<(), AllocError>
    requires few { length (flat_of design.now).rows ≤ 268435456 }
    requires here { IsIn (list_of cells.old) here }
    requires zero { (z : Shape) (b : BankData) → AreSound z (list_of cells.old) → held b (list_of cells.old) here ≡ 0 }
    ensures grows { Grows (list_of cells.old) (list_of cells.new) }
    ensures applies { OnOk result (Applies (flat_of design.now) (marked_one delayed.now) here (list_of cells.old) (list_of cells.new) sets.old.items sets.new.items) }
{
    let signals = design.signals.as_slice();
    let mut values = Vec::new(alloc);
    for (number, signal) in signals.iter().enumerate() {
        let marked = is_marked(delayed, number);
        let slot = updated_if(alloc, cells, signal, number as u32, marked)?;
        values.push(slot)?;
    }
    write_marked(signals, VALUE, delayed, values.as_slice(), here, sets)?;
    write_marked(signals, WORK, delayed, values.as_slice(), here, sets)?;
    write_marked(signals, MASK, delayed, &[], here, sets)
}
