//! The bank of a machine at a boundary.

ghost use Rattle.std.specs.Prelude.{◌≡◌, ◌<◌, ◌*◌, ◌^◌, ◌++◌, ◌∷◌, [], length, map, replicate, IfOk, OnOk};
ghost use Rattle.vl_eval.specs.vl_design.specs.Laws.{IsFine, IsUnrolled};
ghost use Rattle.vl_eval.specs.vl_design.specs.Sound.{IsSound};
ghost use Rattle.vl_eval.specs.vl_design.specs.Trees.{flat_of, row_of};
ghost use Rattle.ten_core.specs.cell_form.specs.Views.{bank_of};
ghost use Rattle.ten_form.specs.Banks.{stores_in};
ghost use Rattle.ten_parcel.specs.Banks.{HoldsAt};
ghost use Rattle.ten_parcel.specs.Lists as b;

use std::alloc::{AllocError, Global};
use ten_core::Bank;
use ten_core::image::Image;
use ten_form::stores_laws::stores_are_of_memories;
use vl_eval::design::{SigKind, Signal};
use vl_eval::selects::word_count;
use vl_eval::words::Kept;
use vl_run::machine::Machine;

/// What the registers of a signal hold: the value of a variable; 0 of a signal that combinational processes compute, and of a
/// memory.
fn held(kind: SigKind, words: &Kept) -> u128
    ensures { result ≡ b.held kind words.now }
{
    match kind {
        SigKind::Net | SigKind::Comb | SigKind::Mem => 0,
        SigKind::Var | SigKind::Loop | SigKind::Clock => words.word(0),
    }
}

/// Adds the registers of a signal: its value, committed and now, and no update.
fn push_registers(regs: &mut Vec<u128>, value: u128) -> Result<(), AllocError>
    ensures { OnOk result (regs.new.items ≡ regs.old.items ++ (value ∷ value ∷ 0 ∷ 0 ∷ [])) }
{
    regs.push(value)?;
    regs.push(value)?;
    regs.push(0)?;
    regs.push(0)?;
    Ok(())
}

/// The registers: the state that is next, the answer and the ticks, and those of each signal.
fn registers(
    alloc: Global,
    signals: &[Signal],
    m: &Machine,
    first: u32,
) -> Result<Vec<u128>, AllocError>
    requires { length m.now.values.items ≡ length signals.now }
    ensures regs { IfOk result (λ regs. regs.items ≡ first ∷ m.now.answer ∷ m.now.ticks ∷ b.registers (map row_of signals.now) m.now.values.items) }
    ensures small { IfOk result (λ regs. m.now.answer < 2 ^ 32) }
{
    let mut regs = Vec::new(alloc);
    regs.push(u128::from(first))?;
    regs.push(u128::from(m.answer))?;
    regs.push(u128::from(m.ticks))?;
    for number in 0..signals.len() {
        push_registers(&mut regs, held(signals[number].kind, &m.values[number]))?;
    }
    Ok(regs)
}

/// So many words of a signal.
fn some_words(alloc: Global, words: &Kept, count: usize) -> Result<Vec<u128>, AllocError>
    ensures { IfOk result (λ all. all.items ≡ b.some_words count words.now) }
{
    let mut all = Vec::new(alloc);
    for number in 0..count {
        all.push(words.word(number))?;
    }
    Ok(all)
}

/// The words of a memory; none where a signal is none.
fn memory(alloc: Global, signal: &Signal, words: &Kept) -> Result<Vec<u128>, AllocError>
    ensures { IfOk result (λ all. all.items ≡ b.memory (row_of signal.now) words.now) }
{
    match signal.kind {
        SigKind::Mem => some_words(alloc, words, word_count(signal) as usize),
        _ => Ok(Vec::new(alloc)),
    }
}

/// The words of each signal's memory.
fn memories(
    alloc: Global,
    signals: &[Signal],
    values: &[Kept],
) -> Result<Vec<Vec<u128>>, AllocError>
    requires { length values.now ≡ length signals.now }
    ensures { IfOk result (λ all. map (λ m. m.items) all.items ≡ b.memories (map row_of signals.now) values.now) }
{
    let mut all = Vec::new(alloc);
    for number in 0..signals.len() {
        all.push(memory(alloc, &signals[number], &values[number])?)?;
    }
    Ok(all)
}

/// Adds the registers of so many stores: no word is written.
fn push_stores(alloc: Global, regs: &mut Vec<u128>, stores: u32) -> Result<(), AllocError>
    ensures { OnOk result (regs.new.items ≡ regs.old.items ++ replicate (4 * stores) 0) }
{
    let mut idle = vec![in alloc; 0; 4 * stores as usize]?;
    regs.append(&mut idle)
}

/// The bank of a machine, list by list.
fn bank_at(alloc: Global, image: &Image, m: &Machine) -> Result<Bank, AllocError>
    requires { length m.now.values.items ≡ length image.now.design.signals }
    ensures bank { IfOk result (λ bank. b.IsBankAt (map row_of image.now.design.signals) m.now image.now.stores image.now.slots image.now.rise (bank_of bank)) }
    ensures small { IfOk result (λ bank. m.now.answer < 2 ^ 32) }
{
    let signals = image.design.signals.as_slice();
    let mut regs = registers(alloc, signals, m, image.rise)?;
    push_stores(alloc, &mut regs, image.stores)?;
    let mems = memories(alloc, signals, &m.values)?;
    let slots = vec![in alloc; 0; image.slots as usize]?;
    Ok(Bank { regs, mems, slots })
}

/// The bank that holds what a machine has at a boundary, where all is committed and no update is pending; the state with which a tick
/// begins is next. It has the slots of the image, each 0.
pub fn boundary_bank(alloc: Global, image: &Image, m: &Machine) -> Result<Bank, AllocError>
    requires sound { IsSound (flat_of image.now.design) }
    requires unrolled { IsUnrolled (flat_of image.now.design) }
    requires stores { image.now.stores ≡ length (stores_in (flat_of image.now.design)) }
    requires fine { IsFine (flat_of image.now.design).rows m.now.values.items }
    requires few { m.now.ticks < 2 ^ 32 }
    ensures { IfOk result (λ bank. HoldsAt (flat_of image.now.design) m.now image.now.slots image.now.rise (bank_of bank)) }
{
    stores_are_of_memories();
    let bank = bank_at(alloc, image, m)?;
    Ok(bank)
}
