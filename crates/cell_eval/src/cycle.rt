//! One cycle of a list of cells.

ghost use Rattle.std.specs.Prelude.{◌≡◌, ◌+◌, ◌<◌, ◌≤◌, [], map, length, slice_index, slice_set};
ghost use Rattle.std.specs.List.{AllByRecursion};
ghost use Rattle.cell_form.specs.Views.{cell_of, list_of, bank_of};
ghost use Rattle.cell_form.specs.Sound.{AreCells, IsWrite, IsList, shape_of};
ghost use Rattle.cell_form.specs.Cycle.{cycled, filled, written, wrote, with_word};

use crate::value::value_of;
use cell_form::bank::Bank;
use cell_form::cell::{Cell, CellList, Write};

/// Sets a slot.
fn set_slot(bank: &mut Bank, slot: usize, value: u128)
    requires { slot < length bank.old.slots.items }
    ensures { bank_of bank.new ≡ record { regs = bank.old.regs.items; mems = (bank_of bank.old).mems; slots = slice_set bank.old.slots.items slot value } }
{
    bank.slots[slot] = value;
}

/// Gives each cell's slot its value.
fn fill(cells: &[Cell], first: u32, bank: &mut Bank)
    requires cells { AreCells (shape_of (bank_of bank.old)) first [] (map cell_of cells.now) }
    requires slots { first + length cells.now ≤ length bank.old.slots.items }
    ensures { bank_of bank.new ≡ filled first (map cell_of cells.now) (bank_of bank.old) }
{
    for number in 0..cells.len() {
        let value = value_of(&cells[..number], &cells[number], first, &*bank);
        set_slot(bank, first as usize + number, value);
    }
}

/// Writes a word of a memory under a mask; nothing where there is no such word.
fn put_word(words: &mut Vec<u128>, word: u128, new: u128, mask: u128)
    ensures { words.new.items ≡ with_word words.old.items word new mask }
{
    if word < words.len() as u128 {
        let old = words[word as usize];
        words[word as usize] = old ^ ((old ^ new) & mask);
    }
}

/// Does one write.
fn write(bank: &mut Bank, write: Write)
    requires { IsWrite (shape_of (bank_of bank.old)) 0 (length bank.old.slots.items) write }
    ensures { bank_of bank.new ≡ wrote (slice_index bank.old.slots.items) write (bank_of bank.old) }
{
    match write {
        Write::Reg(register, slot) => {
            bank.regs[register as usize] = bank.slots[slot as usize];
        }
        Write::Mem(memory, enable, word, new, mask) => {
            if bank.slots[enable as usize] != 0 {
                let word = bank.slots[word as usize];
                let new = bank.slots[new as usize];
                let mask = bank.slots[mask as usize];
                let words = &mut bank.mems[memory as usize];
                put_word(words, word, new, mask);
            }
        }
    }
}

/// Does writes in order.
fn write_all(sets: &[Write], bank: &mut Bank)
    requires { AllByRecursion (IsWrite (shape_of (bank_of bank.old)) 0 (length bank.old.slots.items)) sets.now }
    ensures { bank_of bank.new ≡ written (slice_index bank.old.slots.items) sets.now (bank_of bank.old) }
{
    for number in 0..sets.len() {
        write(bank, sets[number]);
    }
}

/// One cycle: each cell's slot gets its operation over registers, memories and earlier slots, then the writes are done
/// from these slots. It takes no memory: the slots are the bank's.
pub fn cycle(cells: &CellList, bank: &mut Bank)
    requires { IsList (shape_of (bank_of bank.old)) (list_of cells.now) }
    ensures { bank_of bank.new ≡ cycled (list_of cells.now) (bank_of bank.old) }
{
    fill(cells.cells.as_slice(), cells.first, bank);
    write_all(cells.sets.as_slice(), bank);
}
