//! Memories read from files (IEEE 1364-2005, clause 17.2.9).

ghost use Rattle.std.specs.Prelude.{◌≡◌, ◌≤◌, ◌^◌, IfOk, OnOk, OnErr, length};
ghost use Rattle.fmt_text.specs.vl_design.specs.Rows.{lower_of, range_width};
ghost use Rattle.fmt_text.specs.vl_design.specs.ReadHex.{words_read};
ghost use Rattle.fmt_text.specs.vl_design.specs.Sound.{IsWidth};
ghost use Rattle.cell_form.specs.Views.{bank_of};
ghost use Rattle.trap_runtime.specs.Served as s;
ghost use Rattle.trap_runtime.specs.Traps.{HasMemory};

use cell_form::bank::Bank;
use cell_form::table::Trap;
use fmt_text::words::Kept;
use std::alloc::{AllocError, Global};
use vl_hex::load::{Memory, load};

/// The same words, as the reader of a text takes them.
fn kept(alloc: Global, words: &[u128]) -> Result<Kept, AllocError>
    ensures { IfOk result (λ k. k ≡ words.now) }
{
    let mut all = Kept::zeros(alloc, words.len())?;
    for number in 0..words.len() {
        all.set(number, words[number]);
    }
    Ok(all)
}

/// Replaces words by others, of which there are as many.
fn replace(words: &mut Vec<u128>, kept: &Kept)
    requires { length kept.now ≡ length words.old.items }
    ensures { words.new.items ≡ kept.now }
{
    for number in 0..words.len() {
        words[number] = kept.word(number);
    }
}

/// The memory of these first and last addresses, with words of so many bits.
fn shape(width: u8, first: i32, last: i32) -> Memory
    ensures width { result.width ≡ width }
    ensures lowest { result.lowest ≡ lower_of first last }
    ensures count { result.count ≡ range_width first last }
    ensures narrow { result.count ≤ 2 ^ 32 }
{
    Memory {
        width: u32::from(width),
        lowest: if first <= last { first } else { last },
        count: u64::from(first.abs_diff(last)) + 1,
    }
}

/// Reads the words of a memory from a text. Want of memory leaves the bank as it was.
pub(crate) fn load_memory(
    alloc: Global,
    trap: &Trap,
    width: u8,
    first: i32,
    last: i32,
    text: &[u8],
    bank: &mut Bank,
) -> Result<(), AllocError>
    requires { HasMemory (bank_of bank.old) width (range_width first last) trap.now.target }
    ensures ok { OnOk result (bank_of bank.new ≡ s.with_memory trap.now.target (words_read width (lower_of first last) (range_width first last) text.now (s.memory_at (bank_of bank.old) trap.now.target)) (bank_of bank.old)) }
    ensures err { OnErr result (bank_of bank.new ≡ bank_of bank.old) }
{
    let Some(memory) = trap.target else {
        unreachable!();
    };
    let words = &mut bank.mems[memory as usize];
    let mut all = kept(alloc, words.as_slice())?;
    load(shape(width, first, last), text, &mut all);
    replace(words, &all);
    Ok(())
}
