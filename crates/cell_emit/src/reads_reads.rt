//! Reads of registers and memories.

ghost use Rattle.std.specs.Prelude.{◌≡◌, if◌then◌else◌, ◌+◌, ◌<◌, ℕ, map, length, IfOk, IfSome, Some};
ghost use Rattle.vl_sites.specs.vl_design.specs.Sound.{IsWidth};
ghost use Rattle.vl_sites.specs.vl_design.specs.Trees.{flat_of, row_of};
ghost use Rattle.vl_sites.specs.vl_design.specs.Value.{Sample};
ghost use Rattle.vl_sites.specs.vl_design.specs.Width.{names_of};
ghost use Rattle.vl_sites.specs.Others.{is_other};
ghost use Rattle.cell_form.specs.Data.{BankData};
ghost use Rattle.cell_form.specs.Sound.{Shape};
ghost use Rattle.cell_form.specs.Views.{list_of};
ghost use Rattle.cell_emit.specs.Slots.{AreSound, Grows, Longer};
ghost use Rattle.cell_emit.specs.Envs.{env_of, Fits, HasMemories, Stands};
ghost use Rattle.cell_emit.specs.Entries.{HasCopy, HasRegister, ReadsRow, HasRegisters, ReadsRows, read_count};
ghost use Rattle.cell_emit.specs.Reads.{IsRead, HasPlaces};

use crate::at::At;
use crate::steps;
use cell_form::cell::CellList;
use std::alloc::{AllocError, Global};
use vl_sites::design::{Design, SigKind, Signal};

/// The width of a signal's words in bits, where it is from 1 to 128.
fn width_of(signal: &Signal) -> Option<u8>
    ensures there { IsWidth (row_of signal.now).width → result ≡ Some (row_of signal.now).width }
    ensures within { IfSome result (λ w. (w ≡ (row_of signal.now).width) × IsWidth w) }
{
    match u8::try_from(signal.left.abs_diff(signal.right)) {
        Ok(distance) if distance < 128 => Some(distance + 1),
        _ => None,
    }
}

/// A slot that holds what a register holds of a signal: none where the signal has no width from 1 to 128.
fn copy(
    alloc: Global,
    cells: &mut CellList,
    signal: &Signal,
    register: u32,
) -> Result<Option<u32>, AllocError>
    ensures grows { Grows (list_of cells.old) (list_of cells.new) }
    ensures longer { IfOk result (λ e. Longer (λ s. IsWidth (row_of signal.now).width → register < s.regs) 1 (list_of cells.old) (list_of cells.new)) }
    ensures copies { IfOk result (λ e. IsWidth (row_of signal.now).width → HasCopy (list_of cells.new) (row_of signal.now).width register e) }
{
    match width_of(signal) {
        None => Ok(None),
        Some(width) => {
            let slot = steps::register(alloc, cells, register, width)?;
            Ok(Some(slot))
        }
    }
}

/// The entry of a signal whose register, or of a memory whose number, is given. A loop variable or a clock has none: it is 0.
fn entry(
    alloc: Global,
    cells: &mut CellList,
    signal: &Signal,
    place: u32,
) -> Result<Option<u32>, AllocError>
    ensures grows { Grows (list_of cells.old) (list_of cells.new) }
    ensures longer { IfOk result (λ e. Longer (HasRegister (row_of signal.now) place) (if is_other (row_of signal.now).kind then 0 else 1) (list_of cells.old) (list_of cells.new)) }
    ensures reads { IfOk result (λ e. ReadsRow (list_of cells.new) (row_of signal.now) place e) }
{
    match signal.kind {
        SigKind::Mem => Ok(Some(place)),
        SigKind::Loop | SigKind::Clock => Ok(None),
        _ => copy(alloc, cells, signal, place),
    }
}

/// The entries of signals, by the registers of signals and the numbers of memories.
fn entries(
    alloc: Global,
    cells: &mut CellList,
    signals: &[Signal],
    places: &[u32],
) -> Result<Vec<Option<u32>>, AllocError>
    requires { length places.now ≡ length signals.now }
    ensures grows { Grows (list_of cells.old) (list_of cells.new) }
    ensures longer { IfOk result (λ es. Longer (HasRegisters (map row_of signals.now) places.now) (read_count (map row_of signals.now)) (list_of cells.old) (list_of cells.new)) }
    ensures reads { IfOk result (λ es. ReadsRows (list_of cells.new) (map row_of signals.now) places.now es.items) }
{
    let mut entries = Vec::new(alloc);
    for (number, signal) in signals.iter().enumerate() {
        let slot = entry(alloc, cells, signal, places[number])?;
        entries.push(slot)?;
    }
    Ok(entries)
}

/// The cells that read all that expressions of a process read, one at most for each signal, and four more: a constant 0 and a
/// constant 1 of 1 bit, the register of the ticks begun (64 bits) and that of the answer of the system function called last (32 bits).
/// `places` has for each signal the number of its register, and for a memory the memory's number. Clocks and loop variables are 0, and
/// are read by no cell. A signal of no width from 1 to 128 bits gets no cell. An `Err` is want of memory; slots that were
/// there stay then too.
pub fn reads(
    alloc: Global,
    cells: &mut CellList,
    design: &Design,
    places: &[u32],
    time: u32,
    answer: u32,
) -> Result<At, AllocError>
    requires { length places.now ≡ length design.now.signals }
    ensures grows { Grows (list_of cells.old) (list_of cells.new) }
    ensures first { IfOk result (λ at. at.first ≡ 0) }
    ensures fits { IfOk result (λ at. Fits (names_of (flat_of design.now)) (list_of cells.new) (env_of at)) }
    ensures longer { IfOk result (λ at. Longer (HasPlaces (names_of (flat_of design.now)) places.now time answer) (read_count (flat_of design.now).rows + 4) (list_of cells.old) (list_of cells.new)) }
    ensures memories { IfOk result (λ at. (s : Shape) → HasPlaces (names_of (flat_of design.now)) places.now time answer s → HasMemories (names_of (flat_of design.now)) (env_of at) s) }
    ensures stands { IfOk result (λ at. (s : Shape) (b : BankData) (x : Sample) → AreSound s (list_of cells.old) →
        IsRead (names_of (flat_of design.now)) b places.now time answer x → Stands (names_of (flat_of design.now)) b (list_of cells.new) (env_of at) x) }
{
    let here = steps::constant(alloc, cells, 0, 1)?;
    let away = steps::constant(alloc, cells, 1, 1)?;
    let ticks = steps::register(alloc, cells, time, 64)?;
    let last = steps::register(alloc, cells, answer, 32)?;
    let slots = entries(alloc, cells, design.signals.as_slice(), places)?;
    Ok(At {
        first: 0,
        slots,
        time: ticks,
        answer: last,
        here,
        away,
    })
}
