//! The writes of registers of signals.

ghost use Rattle.std.specs.Prelude.{◌≡◌, ◌≤◌, ◌<◌, ◌+◌, ◌*◌, ◌&&◌, map, length, Some, slice_index_or, None, OnOk};
ghost use Rattle.ten_form.specs.vl_design.specs.Trees.{row_of};
ghost use Rattle.cell_waves.specs.Copies as s;

use crate::begin_begin::is_computed;
use crate::widths::has_width;
use cell_emit::cell::Write;
use std::alloc::AllocError;
use ten_form::design::{SigKind, Signal};
use ten_form::places::{WORK, register};

/// Whether a signal of a kind has a register of a copy that writes change: a memory, a loop variable and a clock have none, and of a
/// computed signal only what is pending is written.
fn has_copy(kind: SigKind, copy: u32) -> bool
    ensures { result ≡ s.has_copy copy kind }
{
    match kind {
        SigKind::Mem | SigKind::Loop | SigKind::Clock => false,
        _ => copy > WORK || !is_computed(kind),
    }
}

/// Whether the register of a copy of a signal is one that writes change.
fn is_written(signal: &Signal, copy: u32) -> bool
    ensures { result ≡ s.is_written copy (Some (row_of signal.now)) }
{
    has_copy(signal.kind, copy) && has_width(signal)
}

/// Whether entries differ.
fn differs(before: Option<u32>, after: Option<u32>) -> bool
    ensures { result ≡ s.differs before after }
{
    match (before, after) {
        (None, None) => false,
        (Some(before), Some(after)) => before != after,
        _ => true,
    }
}

/// The entry of a signal by its number; none past the last.
fn entry(slots: &[Option<u32>], number: usize) -> Option<u32>
    ensures { result ≡ slice_index_or slots.now number None }
{
    match slots.get(number) {
        None => None,
        Some(slot) => *slot,
    }
}

/// Whether the signal of a number is one of those that are marked; none past the last is.
pub(crate) fn is_marked(marks: &[bool], number: usize) -> bool
    ensures { result ≡ s.marked_one marks.now number }
{
    match marks.get(number) {
        None => false,
        Some(mark) => *mark,
    }
}

/// Whether the signal of a number is one of those that are marked, and its entry isn't what it was.
fn is_marked_change(marks: &[bool], number: usize, before: Option<u32>, after: Option<u32>) -> bool
    ensures { result ≡ (s.marked_one marks.now number && s.differs before after) }
{
    is_marked(marks, number) && differs(before, after)
}

/// Adds the write of a signal's register of a copy from a slot, where that is wanted and the register is one that writes change.
#[tactic(auto, using(crate::proofs::Choosing::unwanted))]
fn write_one(
    signal: &Signal,
    number: u32,
    copy: u32,
    chosen: bool,
    slot: u32,
    sets: &mut Vec<Write>,
) -> Result<(), AllocError>
    requires few { number < 268435456 }
    requires copy { copy ≤ 6 }
    ensures { OnOk result (sets.new.items ≡ s.with_write (s.is_written copy (Some (row_of signal.now)) && chosen) (4 * number + copy) slot sets.old.items) }
{
    if chosen && is_written(signal, copy) {
        sets.push(Write::Reg(register(number, copy), slot))?;
    }
    Ok(())
}

/// Adds writes to the registers `copy` (`VALUE`, `WORK`, `UPDATE` or `MASK`) of signals whose entry isn't what it was. Memories, loop
/// variables and clocks have none, and of a computed signal only what is pending is written. An entry without a slot is 0: `here` is a slot that holds 0.
pub fn write_changed(
    signals: &[Signal],
    copy: u32,
    before: &[Option<u32>],
    after: &[Option<u32>],
    here: u32,
    sets: &mut Vec<Write>,
) -> Result<(), AllocError>
    requires few { length signals.now ≤ 268435456 }
    requires copy { copy ≤ 6 }
    ensures { OnOk result (s.Sets (map row_of signals.now) copy (s.changed before.now after.now) after.now here sets.old.items sets.new.items) }
{
    for (number, signal) in signals.iter().enumerate() {
        let slot = entry(after, number);
        let chosen = differs(entry(before, number), slot);
        write_one(
            signal,
            number as u32,
            copy,
            chosen,
            slot.unwrap_or(here),
            sets,
        )?;
    }
    Ok(())
}

/// Adds writes to the registers `copy` of the signals that are marked, whose entry isn't what it was: as `write_changed`.
pub fn write_pending(
    signals: &[Signal],
    copy: u32,
    marks: &[bool],
    before: &[Option<u32>],
    after: &[Option<u32>],
    here: u32,
    sets: &mut Vec<Write>,
) -> Result<(), AllocError>
    requires few { length signals.now ≤ 268435456 }
    requires copy { copy ≤ 6 }
    ensures { OnOk result (s.Sets (map row_of signals.now) copy (s.marked_change marks.now before.now after.now) after.now here sets.old.items sets.new.items) }
{
    for (number, signal) in signals.iter().enumerate() {
        let slot = entry(after, number);
        let chosen = is_marked_change(marks, number, entry(before, number), slot);
        write_one(
            signal,
            number as u32,
            copy,
            chosen,
            slot.unwrap_or(here),
            sets,
        )?;
    }
    Ok(())
}

/// Adds writes to the registers `copy` of the signals that are marked: as `write_changed`.
pub(crate) fn write_marked(
    signals: &[Signal],
    copy: u32,
    marks: &[bool],
    after: &[Option<u32>],
    here: u32,
    sets: &mut Vec<Write>,
) -> Result<(), AllocError>
    requires few { length signals.now ≤ 268435456 }
    requires copy { copy ≤ 6 }
    ensures { OnOk result (s.Sets (map row_of signals.now) copy (s.marked_one marks.now) after.now here sets.old.items sets.new.items) }
{
    for (number, signal) in signals.iter().enumerate() {
        let slot = entry(after, number).unwrap_or(here);
        let chosen = is_marked(marks, number);
        write_one(signal, number as u32, copy, chosen, slot, sets)?;
    }
    Ok(())
}

/// Adds writes to the registers `copy` of all signals: as `write_changed`.
pub fn write_all(
    signals: &[Signal],
    copy: u32,
    after: &[Option<u32>],
    here: u32,
    sets: &mut Vec<Write>,
) -> Result<(), AllocError>
    requires few { length signals.now ≤ 268435456 }
    requires copy { copy ≤ 6 }
    ensures { OnOk result (s.Sets (map row_of signals.now) copy s.each_one after.now here sets.old.items sets.new.items) }
{
    for (number, signal) in signals.iter().enumerate() {
        let slot = entry(after, number).unwrap_or(here);
        write_one(signal, number as u32, copy, true, slot, sets)?;
    }
    Ok(())
}
