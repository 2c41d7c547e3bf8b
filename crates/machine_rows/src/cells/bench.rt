//! Banks in which registers hold what rows tell.

ghost use Rattle.std.specs.Prelude.{◌≡◌, ◌<◌, ◌≤◌, map, length, IfOk};
ghost use Rattle.vl_design.specs.Trees.{flat_of, row_of};
ghost use Rattle.vl_design.specs.Width.{names_of};
ghost use Rattle.cell_emit.specs.cell_form.specs.Sound.{shape_of};
ghost use Rattle.cell_emit.specs.cell_form.specs.Views.{bank_of};
ghost use Rattle.cell_emit.specs.Reads.{HasPlaces};
ghost use Rattle.machine_rows.specs.Benches.{IsPlaced, ArePlaced, Extends};

use crate::cells::row::Told;
use cell_emit::Bank;
use std::alloc::{AllocError, Global};
use vl_design::design::{Design, SigKind, Signal};
use vl_eval::selects::word_count;

/// A bank, and where a design's signals stand in it.
#[derive(Drop)]
pub struct Bench {
    /// The bank, without slots.
    pub bank: Bank,
    /// For each signal the number of its register, and for a memory the memory's number.
    pub places: Vec<u32>,
    /// The register of the ticks begun.
    pub time: u32,
    /// The register of the answer of the system function called last.
    pub answer: u32,
}

/// What a register is told to hold: 0 where nothing is told.
fn told_value(told: &[Told], signal: &Signal) -> u128 {
    for one in told {
        if one.signal.as_bytes() == signal.name.as_slice() {
            return one.value;
        }
    }
    0
}

/// The lowest bits of a number, as many as a signal has.
fn cut(signal: &Signal, number: u128) -> u128 {
    let distance = signal.left.abs_diff(signal.right);
    if distance < 128 {
        number & (u128::MAX >> (127 - distance))
    } else {
        number
    }
}

/// The words of a memory: from 0 on each is 37 more than the one before, from 11 on.
fn words(alloc: Global, signal: &Signal) -> Result<Vec<u128>, AllocError> {
    let mut words = Vec::new(alloc);
    for number in 0..word_count(signal) {
        words.push(cut(signal, u128::from(number) * 37 + 11))?;
    }
    Ok(words)
}

/// One register more, and its number.
fn register(bank: &mut Bank, value: u128) -> Result<u32, AllocError>
    ensures there { IfOk result (λ r. r < length bank.new.regs.items) }
    ensures extends { IfOk result (λ r. Extends bank.old bank.new) }
{
    let Ok(number) = u32::try_from(bank.regs.len()) else {
        return Err(AllocError);
    };
    bank.regs.push(value)?;
    Ok(number)
}

/// One memory more, and its number.
fn memory(bank: &mut Bank, words: Vec<u128>) -> Result<u32, AllocError>
    ensures there { IfOk result (λ m. m < length bank.new.mems.items) }
    ensures extends { IfOk result (λ m. Extends bank.old bank.new) }
{
    let Ok(number) = u32::try_from(bank.mems.len()) else {
        return Err(AllocError);
    };
    bank.mems.push(words)?;
    Ok(number)
}

/// A register for a signal, or a memory where it is one; its place.
fn place(alloc: Global, bank: &mut Bank, signal: &Signal, told: &[Told]) -> Result<u32, AllocError>
    ensures placed { IfOk result (λ p. IsPlaced (row_of signal.now) p (length bank.new.regs.items) (length bank.new.mems.items)) }
    ensures extends { IfOk result (λ p. Extends bank.old bank.new) }
{
    match signal.kind {
        SigKind::Mem => memory(bank, words(alloc, signal)?),
        _ => register(bank, told_value(told, signal)),
    }
}

/// The places of signals.
fn places(
    alloc: Global,
    bank: &mut Bank,
    signals: &[Signal],
    told: &[Told],
) -> Result<Vec<u32>, AllocError>
    ensures { IfOk result (λ ps. ArePlaced (map row_of signals.now) ps.items (length bank.new.regs.items) (length bank.new.mems.items)) }
{
    let mut places = Vec::new(alloc);
    for signal in signals {
        let place = place(alloc, bank, signal, told)?;
        places.push(place)?;
    }
    Ok(places)
}

/// A bank for the signals of a design.
pub fn set_up(alloc: Global, design: &Design, told: &[Told]) -> Result<Bench, AllocError>
    ensures many { IfOk result (λ b. length b.places.items ≡ length design.now.signals) }
    ensures there { IfOk result (λ b. HasPlaces (names_of (flat_of design.now)) b.places.items b.time b.answer (shape_of (bank_of b.bank))) }
{
    let mut bank = Bank {
        regs: Vec::new(alloc),
        mems: Vec::new(alloc),
        slots: Vec::new(alloc),
    };
    let places = places(alloc, &mut bank, design.signals.as_slice(), told)?;
    let time = register(&mut bank, 0)?;
    let answer = register(&mut bank, 0)?;
    Ok(Bench {
        bank,
        places,
        time,
        answer,
    })
}
