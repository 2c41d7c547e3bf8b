//! Parts of banks.

ghost use Rattle.std.specs.Prelude.{◌≡◌, ◌+◌, ◌≤◌, ◌++◌, length, map, take, drop, IfOk, OnOk};
ghost use Rattle.trap_runtime.specs.cell_form.specs.Views.{bank_of};
ghost use Rattle.trap_runtime.specs.cell_form.specs.Sound.{shape_of};
ghost use Rattle.fab_join.specs.Banks.{words_of, part, IsWithin, pasted, with_part, side_by_side, BeginsAs, IsLonger};
ghost use Rattle.fab_join.specs.Laid.{shape_of_span};

use crate::span::Span;
use std::alloc::{AllocError, Global};
use trap_runtime::Bank;

/// Adds copies of memories.
fn push_copies(
    alloc: Global,
    mems: &mut Vec<Vec<u128>>,
    more: &[Vec<u128>],
) -> Result<(), AllocError>
    ensures kept { BeginsAs (map words_of mems.old.items) (map words_of mems.new.items) }
    ensures ok { OnOk result (map words_of mems.new.items ≡ map words_of mems.old.items ++ map words_of more.now) }
{
    for words in more {
        mems.push(Vec::from_slice(alloc, words)?)?;
    }
    Ok(())
}

/// Adds a copy of a bank behind a bank. Want of memory may leave some of it there, behind what was there.
pub(crate) fn grow(alloc: Global, bank: &mut Bank, more: &Bank) -> Result<(), AllocError>
    ensures kept { IsLonger (bank_of bank.old) (bank_of bank.new) }
    ensures ok { OnOk result (bank_of bank.new ≡ side_by_side (bank_of bank.old) (bank_of more.now)) }
{
    bank.regs.extend_from_slice(&more.regs)?;
    bank.slots.extend_from_slice(&more.slots)?;
    push_copies(alloc, &mut bank.mems, &more.mems)
}

/// Copies of memories.
fn copies(alloc: Global, mems: &[Vec<u128>]) -> Result<Vec<Vec<u128>>, AllocError>
    ensures { IfOk result (λ v. map words_of v.items ≡ map words_of mems.now) }
{
    let mut all = Vec::new(alloc);
    for words in mems {
        all.push(Vec::from_slice(alloc, words)?)?;
    }
    Ok(all)
}

/// Copies of so many memories, from a number on.
#[tactic(auto, using(crate::proofs::Grown::part_mapped))]
fn mems_from(
    alloc: Global,
    mems: &[Vec<u128>],
    first: usize,
    many: usize,
) -> Result<Vec<Vec<u128>>, AllocError>
    requires { first + many ≤ length mems.now }
    ensures { IfOk result (λ v. map words_of v.items ≡ take many (drop first (map words_of mems.now))) }
{
    copies(alloc, &mems[first..first + many])
}

/// A copy of so many words, from a number on.
fn words_from(
    alloc: Global,
    words: &[u128],
    first: usize,
    many: usize,
) -> Result<Vec<u128>, AllocError>
    requires { first + many ≤ length words.now }
    ensures { IfOk result (λ v. v.items ≡ take many (drop first words.now)) }
{
    Vec::from_slice(alloc, &words[first..first + many])
}

/// A copy of a part of a bank.
pub(crate) fn copy_of(
    alloc: Global,
    bank: &Bank,
    place: Span,
    size: Span,
) -> Result<Bank, AllocError>
    requires { IsWithin (shape_of_span place) (shape_of_span size) (shape_of (bank_of bank.now)) }
    ensures { IfOk result (λ b. bank_of b ≡ part (shape_of_span place) (shape_of_span size) (bank_of bank.now)) }
{
    let regs = words_from(alloc, &bank.regs, place.regs as usize, size.regs as usize)?;
    let mems = mems_from(alloc, &bank.mems, place.mems as usize, size.mems as usize)?;
    let slots = words_from(
        alloc,
        &bank.slots,
        place.slots as usize,
        size.slots as usize,
    )?;
    Ok(Bank { regs, mems, slots })
}

/// Exchanges items with those that stand from a number on.
fn exchange_items<T>(all: &mut Vec<T>, first: usize, own: &mut Vec<T>)
    requires { first + length own.old.items ≤ length all.old.items }
    ensures all { all.new.items ≡ pasted all.old.items first own.old.items }
    ensures own { own.new.items ≡ take (length own.old.items) (drop first all.old.items) }
{
    let many = own.len();
    all[first..first + many].swap_with_slice(own);
}

/// Exchanges a bank with the part of another that begins at a place. Memories change places, and no word of them is copied.
pub(crate) fn exchange(bank: &mut Bank, place: Span, own: &mut Bank)
    requires { IsWithin (shape_of_span place) (shape_of (bank_of own.old)) (shape_of (bank_of bank.old)) }
    ensures bank { bank_of bank.new ≡ with_part (shape_of_span place) (bank_of own.old) (bank_of bank.old) }
    ensures own { bank_of own.new ≡ part (shape_of_span place) (shape_of (bank_of own.old)) (bank_of bank.old) }
{
    exchange_items(&mut bank.regs, place.regs as usize, &mut own.regs);
    exchange_items(&mut bank.mems, place.mems as usize, &mut own.mems);
    exchange_items(&mut bank.slots, place.slots as usize, &mut own.slots);
}
