//! Slots by their new numbers.

ghost use Rattle.std.specs.Prelude.{◌≡◌, [], ◌∷◌, ◌++◌, map, IfOk, OnOk};
ghost use Rattle.cell_emit.specs.cell_form.specs.Views.{cell_of};
ghost use Rattle.cell_trim.specs.Moves.{number_of, moved, moved_write};

use cell_emit::Items;
use cell_emit::cell::{Cell, Write};
use smallvec::SmallVec;
use std::alloc::{AllocError, Global};

/// The new number of a slot, and `next` where it isn't in the list.
fn number(numbers: &[u32], first: u32, next: u32, slot: u32) -> u32
    ensures { result ≡ number_of first numbers.now next slot }
{
    match numbers.get(slot.saturating_sub(first) as usize) {
        Some(number) => *number,
        None => next,
    }
}

/// The new numbers of operands.
fn operands(
    alloc: Global,
    numbers: &[u32],
    first: u32,
    next: u32,
    args: &[u32],
) -> Result<SmallVec<u32, 4>, AllocError>
    ensures { IfOk result (λ v. v.items ≡ map (number_of first numbers.now next) args.now) }
{
    let mut moved = SmallVec::new(alloc);
    for slot in args {
        moved.push(number(numbers, first, next, *slot))?;
    }
    Ok(moved)
}

/// A cell with new numbers, behind others.
pub(crate) fn keep(
    alloc: Global,
    kept: &mut Items<Cell>,
    numbers: &[u32],
    first: u32,
    next: u32,
    cell: &Cell,
) -> Result<(), AllocError>
    ensures { OnOk result (map cell_of kept.new ≡ map cell_of kept.old ++ moved (number_of first numbers.now next) (cell_of cell.now) ∷ []) }
{
    let args = operands(alloc, numbers, first, next, cell.args.as_slice())?;
    let copy = Cell {
        op: cell.op,
        args,
        width: cell.width,
        low: cell.low,
    };
    match kept.push(copy) {
        Ok(()) => Ok(()),
        Err(_) => Err(AllocError),
    }
}

/// The new numbers of slots.
pub(crate) fn slots(
    alloc: Global,
    numbers: &[u32],
    first: u32,
    next: u32,
    wanted: &[u32],
) -> Result<Vec<u32>, AllocError>
    ensures { IfOk result (λ v. v.items ≡ map (number_of first numbers.now next) wanted.now) }
{
    let mut moved = Vec::new(alloc);
    for slot in wanted {
        moved.push(number(numbers, first, next, *slot))?;
    }
    Ok(moved)
}

/// A write with new numbers.
fn write(numbers: &[u32], first: u32, next: u32, write: Write) -> Write
    ensures { result ≡ moved_write (number_of first numbers.now next) write }
{
    match write {
        Write::Reg(register, value) => Write::Reg(register, number(numbers, first, next, value)),
        Write::Mem(memory, enable, word, value, mask) => Write::Mem(
            memory,
            number(numbers, first, next, enable),
            number(numbers, first, next, word),
            number(numbers, first, next, value),
            number(numbers, first, next, mask),
        ),
    }
}

/// Writes with new numbers.
pub(crate) fn writes(
    alloc: Global,
    numbers: &[u32],
    first: u32,
    next: u32,
    sets: &[Write],
) -> Result<Vec<Write>, AllocError>
    ensures { IfOk result (λ v. v.items ≡ map (moved_write (number_of first numbers.now next)) sets.now) }
{
    let mut moved = Vec::new(alloc);
    for set in sets {
        moved.push(write(numbers, first, next, *set))?;
    }
    Ok(moved)
}
