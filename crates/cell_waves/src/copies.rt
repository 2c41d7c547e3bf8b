//! Registers of signals in slots.

ghost use Rattle.std.specs.Prelude.{◌≡◌, ◌≤◌, ◌<◌, ◌+◌, false, true, if◌then◌else◌, None, [], length, map, IfOk};
ghost use Rattle.ten_form.specs.vl_design.specs.Sound.{IsWidth, HasValue};
ghost use Rattle.ten_form.specs.vl_design.specs.Trees.{row_of};
ghost use Rattle.cell_emit.specs.cell_form.specs.Views.{list_of};
ghost use Rattle.cell_emit.specs.Slots.{Grows, Longer};
ghost use Rattle.cell_emit.specs.vl_sites.specs.Others.{is_other};
ghost use Rattle.cell_emit.specs.Entries.{HasCopy, read_count};
ghost use Rattle.cell_waves.specs.Copies.{HasSignals, AreCopies};

use crate::widths::read_width;
use cell_emit::cell::CellList;
use cell_emit::pending::Pending;
use cell_emit::steps;
use std::alloc::{AllocError, Global};
use ten_form::design::Signal;
use ten_form::places::{MASK, UPDATE, register};

/// A slot with what a register holds of a signal: none of a memory, a loop variable or a clock, and none where the signal has no width
/// from 1 to 128 bits.
fn copy(
    alloc: Global,
    cells: &mut CellList,
    signal: &Signal,
    register: u32,
) -> Result<Option<u32>, AllocError>
    ensures grows { Grows (list_of cells.old) (list_of cells.new) }
    ensures longer { IfOk result (λ e. Longer (λ s. register < s.regs) (if is_other (row_of signal.now).kind then 0 else 1) (list_of cells.old) (list_of cells.new)) }
    ensures copies { IfOk result (λ e. HasValue (row_of signal.now).kind → is_other (row_of signal.now).kind ≡ false → IsWidth (row_of signal.now).width →
        HasCopy (list_of cells.new) (row_of signal.now).width register e) }
    ensures others { IfOk result (λ e. is_other (row_of signal.now).kind ≡ true → e ≡ None) }
{
    match read_width(signal) {
        None => Ok(None),
        Some(width) => {
            let slot = steps::register(alloc, cells, register, width)?;
            Ok(Some(slot))
        }
    }
}

/// Of each signal a slot with what its register of a copy holds: one cell each at most, and none of loop variables and clocks.
fn copies(
    alloc: Global,
    cells: &mut CellList,
    signals: &[Signal],
    which: u32,
) -> Result<Vec<Option<u32>>, AllocError>
    requires few { length signals.now ≤ 268435456 }
    requires which { which ≤ 6 }
    ensures grows { Grows (list_of cells.old) (list_of cells.new) }
    ensures longer { IfOk result (λ es. Longer (HasSignals (length signals.now)) (read_count (map row_of signals.now)) (list_of cells.old) (list_of cells.new)) }
    ensures copies { IfOk result (λ es. AreCopies (map row_of signals.now) which (list_of cells.new) es.items) }
{
    let mut slots = Vec::new(alloc);
    for (number, signal) in signals.iter().enumerate() {
        let slot = copy(alloc, cells, signal, register(number as u32, which))?;
        slots.push(slot)?;
    }
    Ok(slots)
}

/// The slots of the updates that are pending: what their registers hold. Two cells for each signal at most, and none
/// for loop variables and clocks.
pub fn pending(
    alloc: Global,
    cells: &mut CellList,
    signals: &[Signal],
) -> Result<Pending, AllocError>
    requires few { length signals.now ≤ 268435456 }
    ensures grows { Grows (list_of cells.old) (list_of cells.new) }
    ensures longer { IfOk result (λ p.
        Longer (HasSignals (length signals.now)) (read_count (map row_of signals.now) + read_count (map row_of signals.now)) (list_of cells.old) (list_of cells.new)) }
    ensures update { IfOk result (λ p. AreCopies (map row_of signals.now) 5 (list_of cells.new) p.update.items) }
    ensures mask { IfOk result (λ p. AreCopies (map row_of signals.now) 6 (list_of cells.new) p.mask.items) }
    ensures sites { IfOk result (λ p. p.sites.items ≡ []) }
{
    let update = copies(alloc, cells, signals, UPDATE)?;
    let mask = copies(alloc, cells, signals, MASK)?;
    let sites = Vec::new(alloc);
    Ok(Pending {
        update,
        mask,
        sites,
    })
}
