//! A list of cells without those that its writes don't need.

ghost use Rattle.std.specs.Prelude.{◌≡◌, ◌+◌, ◌<◌, ◌≤◌, ◌^◌, ℕ, length, map, IfOk};
ghost use Rattle.std.specs.List.{AllByRecursion};
ghost use Rattle.cell_emit.specs.cell_form.specs.Data.{BankData};
ghost use Rattle.cell_emit.specs.cell_form.specs.Values.{slots_of};
ghost use Rattle.cell_emit.specs.cell_form.specs.Cycle.{value_at, written};
ghost use Rattle.cell_emit.specs.cell_form.specs.Sound.{Shape, IsWrite, IsList};
ghost use Rattle.cell_emit.specs.cell_form.specs.Views.{list_of, cell_of};
ghost use Rattle.cell_emit.specs.Slots.{slot, IsIn, AreSound};
ghost use Rattle.cell_trim.specs.Moves.{number_of, AreMoved};
ghost use Rattle.cell_trim.specs.Needs.{IsNeeded};
ghost use Rattle.cell_trim.specs.Widths.{IsWithin};

use crate::copies::{Copied, copy_marked};
use crate::marks::marks;
use crate::moves;
use cell_emit::Items;
use cell_emit::cell::{CellList, Write};
use std::alloc::{AllocError, Global};

/// A list of cells that are needed, and the slots that were wanted.
#[derive(Drop)]
pub struct Trimmed {
    /// The cells, and the writes behind them.
    pub cells: CellList,
    /// The wanted slots by their new numbers.
    pub slots: Vec<u32>,
}

/// Copied cells with these writes behind them, and the wanted slots.
fn finish(
    alloc: Global,
    old: u32,
    sets: &[Write],
    wanted: &[u32],
    first: u32,
    copied: Copied,
) -> Result<Trimmed, AllocError>
    requires { first + length copied.cells < 2 ^ 32 }
    ensures { IfOk result (λ t. AreMoved (number_of old copied.numbers.items (first + length copied.cells)) first (map cell_of copied.cells) sets.now wanted.now
        (list_of t.cells) t.slots.items) }
{
    let next = first + copied.cells.as_slice().len() as u32;
    let numbers = copied.numbers.as_slice();
    let slots = moves::slots(alloc, numbers, old, next, wanted)?;
    let sets = moves::writes(alloc, numbers, old, next, sets)?;
    Ok(Trimmed {
        cells: CellList {
            first,
            cells: copied.cells,
            sets: Items::from_vec(sets),
        },
        slots,
    })
}

/// The cells of a list that these writes and the wanted slots need, in their order, with slots from `first` on; and the wanted slots
/// by their new numbers. The writes behind `cells` itself aren't looked at. It takes time that is linear in cells, operands, writes
/// and wanted slots. An `Err` is want of memory.
pub fn trim(
    alloc: Global,
    cells: &CellList,
    sets: &[Write],
    wanted: &[u32],
    first: u32,
) -> Result<Trimmed, AllocError>
    requires { first + length cells.now.cells < 2 ^ 32 }
    ensures first { IfOk result (λ t. t.cells.first ≡ first) }
    ensures few { IfOk result (λ t. length t.cells.cells ≤ length cells.now.cells) }
    ensures there { IfOk result (λ t. AllByRecursion (IsIn (list_of cells.now)) wanted.now → AllByRecursion (IsIn (list_of t.cells)) t.slots.items) }
    ensures sound { IfOk result (λ t. (s : Shape) → AreSound s (list_of cells.now) →
        AllByRecursion (IsWrite s cells.now.first (length cells.now.cells)) sets.now → first + length t.cells.cells ≤ s.slots → IsList s (list_of t.cells)) }
    ensures values { IfOk result (λ t. (b : BankData) → map (slot b (list_of t.cells)) t.slots.items ≡ map (slot b (list_of cells.now)) wanted.now) }
    ensures writes { IfOk result (λ t. (b c : BankData) →
        written (value_at first (slots_of first b.regs b.mems (list_of t.cells).cells)) t.cells.sets c
        ≡ written (value_at cells.now.first (slots_of cells.now.first b.regs b.mems (list_of cells.now).cells)) sets.now c) }
    ensures widths { IfOk result (λ t. (most : ℕ → ℕ) → AllByRecursion (IsWithin most (list_of cells.now)) sets.now → AllByRecursion (IsWithin most (list_of t.cells)) t.cells.sets) }
    ensures needed { IfOk result (λ t. (k : ℕ) → k < length t.cells.cells → IsNeeded (list_of t.cells) t.slots.items k) }
{
    let list = cells.cells.as_slice();
    let marks = marks(alloc, list, cells.first, sets, wanted)?;
    let copied = copy_marked(alloc, list, cells.first, marks.as_slice(), first)?;
    finish(alloc, cells.first, sets, wanted, first, copied)
}
