//! Marks of the cells that are needed.

ghost use Rattle.std.specs.Prelude.{◌≡◌, ◌<◌, ◌≤◌, ℕ, [], ◌∷◌, ◌++◌, false, length, map, IfOk};
ghost use Rattle.std.specs.List.{flat_map};
ghost use Rattle.cell_emit.specs.cell_form.specs.Views.{cell_of};
ghost use Rattle.cell_trim.specs.Marks.{on, Marked, Closes, AreMarked};
ghost use Rattle.cell_trim.specs.Needs.{sources, roots};

use cell_emit::cell::{Cell, Write};
use std::alloc::{AllocError, Global};

/// No cell is marked.
fn none(alloc: Global, count: usize) -> Result<Vec<bool>, AllocError>
    ensures long { IfOk result (λ v. length v.items ≡ count) }
    ensures off { IfOk result (λ v. (k : ℕ) → on v.items k ≡ false) }
{
    vec![in alloc; false; count]
}

/// Marks the cell with this slot, if it is one of the first so many.
fn mark(marks: &mut Vec<bool>, first: u32, count: usize, slot: u32)
    requires { count ≤ length marks.old.items }
    ensures { Marked first count (slot ∷ []) marks.old.items marks.new.items }
{
    let index = slot.saturating_sub(first) as usize;
    if index < count {
        marks[index] = true;
    }
}

/// Marks the cells with these slots.
fn mark_all(marks: &mut Vec<bool>, first: u32, count: usize, slots: &[u32])
    requires { count ≤ length marks.old.items }
    ensures { Marked first count slots.now marks.old.items marks.new.items }
{
    for slot in slots {
        mark(marks, first, count, *slot);
    }
}

/// Marks the cells that a write is done from.
fn mark_write(marks: &mut Vec<bool>, first: u32, count: usize, write: &Write)
    requires { count ≤ length marks.old.items }
    ensures { Marked first count (sources write.now) marks.old.items marks.new.items }
{
    match *write {
        Write::Reg(_, value) => mark(marks, first, count, value),
        Write::Mem(_, enable, word, value, mask) => {
            mark_all(marks, first, count, &[enable, word, value, mask])
        }
    }
}

/// Marks the cells that writes are done from.
fn mark_writes(marks: &mut Vec<bool>, first: u32, count: usize, sets: &[Write])
    requires { count ≤ length marks.old.items }
    ensures { Marked first count (flat_map sources sets.now) marks.old.items marks.new.items }
{
    for write in sets {
        mark_write(marks, first, count, write);
    }
}

/// Marks the cells that marked ones need, from the last to the first.
fn close(marks: &mut Vec<bool>, first: u32, cells: &[Cell])
    requires { length marks.old.items ≡ length cells.now }
    ensures { Closes first 0 (map cell_of cells.now) marks.old.items marks.new.items }
{
    for index in (0..cells.len()).rev() {
        if marks[index] {
            mark_all(marks, first, index, cells[index].args.as_slice());
        }
    }
}

/// Marks of the cells that writes and wanted slots need, of a list whose first slot is given.
pub(crate) fn marks(
    alloc: Global,
    cells: &[Cell],
    first: u32,
    sets: &[Write],
    wanted: &[u32],
) -> Result<Vec<bool>, AllocError>
    ensures { IfOk result (λ v. AreMarked first (map cell_of cells.now) (roots sets.now wanted.now) v.items) }
{
    let mut marks = none(alloc, cells.len())?;
    mark_writes(&mut marks, first, cells.len(), sets);
    mark_all(&mut marks, first, cells.len(), wanted);
    close(&mut marks, first, cells);
    Ok(marks)
}
