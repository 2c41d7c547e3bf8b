//! Copies of the marked cells.

ghost use Rattle.std.specs.Prelude.{◌≡◌, ◌+◌, ◌<◌, ◌^◌, ℕ, List, [], ◌∷◌, ◌++◌, if◌then◌else◌, length, map, IfOk, OnOk};
ghost use Rattle.cell_emit.specs.cell_form.specs.Views.{cell_of};
ghost use Rattle.cell_trim.specs.Marks.{AreClosed, AreMarked};
ghost use Rattle.cell_trim.specs.Moves.{number_of, moved};
ghost use Rattle.cell_trim.specs.Copies.{Shows, AreOwed};

use crate::moves::keep;
use cell_emit::Items;
use cell_emit::cell::Cell;
use std::alloc::{AllocError, Global};

/// Copied cells, and the new numbers of all slots of the list that they come from.
#[derive(Drop)]
pub(crate) struct Copied {
    /// The new number of each slot.
    pub numbers: Vec<u32>,
    /// The cells.
    pub cells: Items<Cell>,
}

/// The number of one cell more, and a copy of it if it is marked.
fn put(
    alloc: Global,
    numbers: &mut Vec<u32>,
    kept: &mut Items<Cell>,
    first: u32,
    next: u32,
    cell: &Cell,
    marked: bool,
) -> Result<(), AllocError>
    ensures numbers { OnOk result (numbers.new.items ≡ numbers.old.items ++ next ∷ []) }
    ensures kept { OnOk result (map cell_of kept.new
        ≡ map cell_of kept.old ++ (if marked then moved (number_of first numbers.old.items next) (cell_of cell.now) ∷ [] else [])) }
{
    if marked {
        keep(alloc, kept, numbers.as_slice(), first, next, cell)?;
    }
    numbers.push(next)?;
    Ok(())
}

/// The marked cells of a list that begins with the slot `first`, in their order, with slots from `next` on.
pub(crate) fn copy_marked(
    alloc: Global,
    cells: &[Cell],
    first: u32,
    marks: &[bool],
    next: u32,
) -> Result<Copied, AllocError>
    requires fits { next + length cells.now < 2 ^ 32 }
    requires long { length marks.now ≡ length cells.now }
    requires closed { AreClosed first (map cell_of cells.now) marks.now }
    ensures shows { IfOk result (λ c. Shows first next marks.now (map cell_of cells.now) c.numbers.items (map cell_of c.cells)) }
    ensures owed { IfOk result (λ c. (slots : List ℕ) → AreMarked first (map cell_of cells.now) slots marks.now →
        AreOwed first next (length cells.now) slots marks.now (map cell_of cells.now) c.numbers.items (map cell_of c.cells)) }
{
    let mut numbers = Vec::new(alloc);
    let mut kept = Items::new(alloc);
    for (index, cell) in cells.iter().enumerate() {
        let slot = next + kept.as_slice().len() as u32;
        let marked = marks[index];
        put(alloc, &mut numbers, &mut kept, first, slot, cell, marked)?;
    }
    Ok(Copied {
        numbers,
        cells: kept,
    })
}
