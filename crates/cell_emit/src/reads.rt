//! Numbers, values that are there, words of memories, and selects.

ghost use Rattle.std.specs.Prelude.{◌≡◌, ◌+◌, ◌<◌, ◌≤◌, ◌%◌, ◌^◌, ◌-ℤ◌, [], slice_index_or, IfOk};
ghost use Rattle.vl_base.specs.Value.{reading, resized};
ghost use Rattle.vl_base.specs.Selects.{picked};
ghost use Rattle.vl_sites.specs.vl_design.specs.Value.{lowest_bit};
ghost use Rattle.cell_form.specs.Data.{BankData};
ghost use Rattle.cell_form.specs.Sound.{Shape};
ghost use Rattle.cell_form.specs.Views.{list_of};
ghost use Rattle.cell_form.specs.Values.{word_at};
ghost use Rattle.cell_emit.specs.Slots.{held, width_at, IsIn, AreSound, Grows, Gives, Nothing};
ghost use Rattle.cell_emit.specs.Counts.{resizes};

use crate::steps;
use cell_form::cell::{CellList, Index};
use std::alloc::{AllocError, Global};
use vl_base::bits::{Bits, resize};
use vl_sites::design::LowestBit;

/// A number of its own width, extended or cut as the cells are made (clause 3.5).
pub fn number(
    alloc: Global,
    cells: &mut CellList,
    value: u128,
    own: u8,
    signed: bool,
    width: u8,
) -> Result<u32, AllocError>
    requires own { 1 ≤ own }
    requires own_narrow { own ≤ 128 }
    requires fits { value < 2 ^ own }
    requires wide { 1 ≤ width }
    requires narrow { width ≤ 128 }
    ensures grows { Grows (list_of cells.old) (list_of cells.new) }
    ensures gives { IfOk result (λ r. Gives Nothing 1 (list_of cells.old) (list_of cells.new) r width (λ b. resized signed own width value)) }
{
    let number = resize(Bits { value, width: own }, signed, width);
    steps::constant(alloc, cells, number.value, width)
}

/// 0.
pub fn nothing(alloc: Global, cells: &mut CellList, width: u8) -> Result<u32, AllocError>
    requires wide { 1 ≤ width }
    requires narrow { width ≤ 128 }
    ensures grows { Grows (list_of cells.old) (list_of cells.new) }
    ensures gives { IfOk result (λ r. Gives Nothing 1 (list_of cells.old) (list_of cells.new) r width (λ b. 0)) }
{
    steps::constant(alloc, cells, 0, width)
}

/// A value that is there: a name's, a call's, an answer, or what is cast (clause 5.5).
pub fn read(
    alloc: Global,
    cells: &mut CellList,
    slot: u32,
    signed: bool,
    width: u8,
) -> Result<u32, AllocError>
    requires there { IsIn (list_of cells.old) slot }
    requires wide { 1 ≤ width }
    requires narrow { width ≤ 128 }
    ensures grows { Grows (list_of cells.old) (list_of cells.new) }
    ensures gives { IfOk result (λ r. Gives Nothing (resizes (width_at (list_of cells.old) slot) width) (list_of cells.old) (list_of cells.new) r width
        (λ b. resized signed (width_at (list_of cells.old) slot) width (held b (list_of cells.old) slot))) }
{
    steps::resize(alloc, cells, slot, signed, width)
}

/// The word of a memory at an address, of its own width (clause 5.2.2); 0 where there is none.
pub fn word(
    alloc: Global,
    cells: &mut CellList,
    memory: u32,
    address: u32,
    address_signed: bool,
    lowest: i64,
    own: u8,
    signed: bool,
    width: u8,
) -> Result<u32, AllocError>
    requires there { IsIn (list_of cells.old) address }
    requires own { 1 ≤ own }
    requires own_narrow { own ≤ 128 }
    requires wide { 1 ≤ width }
    requires narrow { width ≤ 128 }
    ensures grows { Grows (list_of cells.old) (list_of cells.new) }
    ensures gives { IfOk result (λ r. Gives (λ s. memory < s.mems) (1 + resizes own width) (list_of cells.old) (list_of cells.new) r width
        (λ b. resized signed own width (word_at (slice_index_or b.mems memory [])
        (reading address_signed (width_at (list_of cells.old) address) (held b (list_of cells.old) address) -ℤ lowest) % 2 ^ own))) }
{
    let word = steps::word(alloc, cells, memory, address, address_signed, lowest, own)?;
    steps::resize(alloc, cells, word, signed, width)
}

/// Bits of a base, as many as its own width, from the one on that an index names (clause 5.2.1); a bit that isn't there
/// is 0.
pub fn select(
    alloc: Global,
    cells: &mut CellList,
    base: u32,
    index: u32,
    index_signed: bool,
    from: LowestBit,
    own: u8,
    signed: bool,
    width: u8,
) -> Result<u32, AllocError>
    requires base { IsIn (list_of cells.old) base }
    requires index { IsIn (list_of cells.old) index }
    requires own { 1 ≤ own }
    requires own_narrow { own ≤ 128 }
    requires wide { 1 ≤ width }
    requires narrow { width ≤ 128 }
    ensures grows { Grows (list_of cells.old) (list_of cells.new) }
    ensures gives { IfOk result (λ r. Gives Nothing (1 + resizes own width) (list_of cells.old) (list_of cells.new) r width
        (λ b. resized signed own width (picked (width_at (list_of cells.old) base) (held b (list_of cells.old) base)
        (lowest_bit from (reading index_signed (width_at (list_of cells.old) index) (held b (list_of cells.old) index))) own))) }
{
    let by = Index {
        signed: index_signed,
        taken: from.taken,
    };
    let bits = steps::pick(alloc, cells, base, index, by, from.constant, own)?;
    steps::resize(alloc, cells, bits, signed, width)
}

/// Bits of a base, as many as its own width, from a constant one on (clause 5.2.1); a bit that isn't there is 0. `here`
/// is a slot that holds 0.
pub fn slice(
    alloc: Global,
    cells: &mut CellList,
    here: u32,
    base: u32,
    low: i32,
    own: u8,
    signed: bool,
    width: u8,
) -> Result<u32, AllocError>
    requires here { IsIn (list_of cells.old) here }
    requires zero { (s : Shape) (b : BankData) → AreSound s (list_of cells.old) → held b (list_of cells.old) here ≡ 0 }
    requires base { IsIn (list_of cells.old) base }
    requires own { 1 ≤ own }
    requires own_narrow { own ≤ 128 }
    requires wide { 1 ≤ width }
    requires narrow { width ≤ 128 }
    ensures grows { Grows (list_of cells.old) (list_of cells.new) }
    ensures gives { IfOk result (λ r. Gives Nothing (1 + resizes own width) (list_of cells.old) (list_of cells.new) r width
        (λ b. resized signed own width (picked (width_at (list_of cells.old) base) (held b (list_of cells.old) base) low own))) }
{
    let by = Index {
        signed: false,
        taken: false,
    };
    let bits = steps::pick(alloc, cells, base, here, by, i64::from(low), own)?;
    steps::resize(alloc, cells, bits, signed, width)
}
