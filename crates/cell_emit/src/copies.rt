//! Concatenations and replications (IEEE 1364-2005, clause 5.1.14).

ghost use Rattle.std.specs.Prelude.{◌≡◌, ◌+◌, ◌*◌, ◌%◌, ◌^◌, ◌<◌, ◌≤◌, IfOk};
ghost use Rattle.vl_base.specs.Value.{resized};
ghost use Rattle.vl_base.specs.Selects.{appended};
ghost use Rattle.vl_sites.specs.vl_design.specs.Value.{repeated};
ghost use Rattle.cell_form.specs.Views.{list_of};
ghost use Rattle.cell_emit.specs.Slots.{held, width_at, IsIn, Grows, Gives, Nothing};
ghost use Rattle.cell_emit.specs.Counts.{resizes, copied};

use crate::steps;
use cell_form::cell::CellList;
use std::alloc::{AllocError, Global};
use vl_base::bits::BinOp;

/// One part more of a concatenation: two values side by side, the first at the top.
pub fn beside(alloc: Global, cells: &mut CellList, high: u32, low: u32) -> Result<u32, AllocError>
    requires high { IsIn (list_of cells.old) high }
    requires low { IsIn (list_of cells.old) low }
    requires narrow { width_at (list_of cells.old) high + width_at (list_of cells.old) low ≤ 128 }
    ensures grows { Grows (list_of cells.old) (list_of cells.new) }
    ensures gives { IfOk result (λ r. Gives Nothing 1 (list_of cells.old) (list_of cells.new) r
        (width_at (list_of cells.old) high + width_at (list_of cells.old) low)
        (λ b. appended (held b (list_of cells.old) high) (width_at (list_of cells.old) low) (held b (list_of cells.old) low))) }
{
    steps::append(alloc, cells, high, low)
}

/// So many ones, with a distance in bits between them, the lowest at bit 0.
fn ones_apart(count: u8, width: u8) -> u128
    requires wide { 1 ≤ width }
    requires narrow { width < 128 }
    requires fits { count * width ≤ 128 }
    ensures { result ≡ repeated count width 1 }
{
    let mut ones: u128 = 0;
    for copy in 0..count {
        ones = (ones << width) + 1;
    }
    ones
}

/// Copies of a slot side by side: at most two, or of one bit.
fn copies(alloc: Global, cells: &mut CellList, count: u8, part: u32) -> Result<u32, AllocError>
    requires there { IsIn (list_of cells.old) part }
    requires wide { 1 ≤ count * width_at (list_of cells.old) part }
    requires narrow { count * width_at (list_of cells.old) part ≤ 128 }
    requires few { 3 ≤ count → width_at (list_of cells.old) part ≡ 1 }
    ensures grows { Grows (list_of cells.old) (list_of cells.new) }
    ensures gives { IfOk result (λ r. Gives Nothing (copied count) (list_of cells.old) (list_of cells.new) r (count * width_at (list_of cells.old) part)
        (λ b. repeated count (width_at (list_of cells.old) part) (held b (list_of cells.old) part))) }
{
    if count == 1 {
        Ok(part)
    } else if steps::width_of(&*cells, part) == 1 {
        steps::resize(alloc, cells, part, true, count)
    } else {
        steps::append(alloc, cells, part, part)
    }
}

/// A concatenation at most twice, from its slot, or a bit so many times: copies of a bit are its extension by its sign.
pub fn repeat(
    alloc: Global,
    cells: &mut CellList,
    count: u8,
    part: u32,
    signed: bool,
    width: u8,
) -> Result<u32, AllocError>
    requires there { IsIn (list_of cells.old) part }
    requires own { 1 ≤ count * width_at (list_of cells.old) part }
    requires own_narrow { count * width_at (list_of cells.old) part ≤ 128 }
    requires few { 3 ≤ count → width_at (list_of cells.old) part ≡ 1 }
    requires wide { 1 ≤ width }
    requires narrow { width ≤ 128 }
    ensures grows { Grows (list_of cells.old) (list_of cells.new) }
    ensures gives { IfOk result (λ r. Gives Nothing (copied count + resizes (count * width_at (list_of cells.old) part) width) (list_of cells.old) (list_of cells.new) r width
        (λ b. resized signed (count * width_at (list_of cells.old) part) width
        (repeated count (width_at (list_of cells.old) part) (held b (list_of cells.old) part)))) }
{
    let value = copies(alloc, cells, count, part)?;
    steps::resize(alloc, cells, value, signed, width)
}

/// The product of a slot with so many ones that are `own` bits apart, as wide as the slot: where the slot has no more than `own` bits
/// that aren't 0, these so many times side by side.
pub fn multiply(
    alloc: Global,
    cells: &mut CellList,
    count: u8,
    own: u8,
    part: u32,
) -> Result<u32, AllocError>
    requires there { IsIn (list_of cells.old) part }
    requires several { 2 ≤ count }
    requires own { 1 ≤ own }
    requires fits { count * own ≤ width_at (list_of cells.old) part }
    requires narrow { width_at (list_of cells.old) part ≤ 128 }
    ensures grows { Grows (list_of cells.old) (list_of cells.new) }
    ensures gives { IfOk result (λ r. Gives Nothing 2 (list_of cells.old) (list_of cells.new) r (width_at (list_of cells.old) part)
        (λ b. held b (list_of cells.old) part * repeated count own 1 % 2 ^ width_at (list_of cells.old) part)) }
{
    let ones = ones_apart(count, own);
    let width = steps::width_of(&*cells, part);
    let factor = steps::constant(alloc, cells, ones, width)?;
    steps::binary(alloc, cells, BinOp::Mul, false, part, factor)
}
