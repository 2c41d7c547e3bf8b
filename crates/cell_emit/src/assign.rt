//! Assignments to signals.

ghost use Rattle.std.specs.Prelude.{◌≡◌, ◌≤◌, ◌==◌, ℕ, true, pos, if◌then◌else◌, IfOk, OnOk};
ghost use Rattle.vl_base.specs.Selects.{placed};
ghost use Rattle.vl_sites.specs.vl_design.specs.Width.{Names};
ghost use Rattle.cell_form.specs.Data.{BankData};
ghost use Rattle.cell_form.specs.Sound.{Shape};
ghost use Rattle.cell_form.specs.Views.{list_of};
ghost use Rattle.cell_emit.specs.Slots.{held, width_at, IsIn, AreSound, Grows, Gives, Nothing};
ghost use Rattle.cell_emit.specs.Envs.{env_of, entry, held_or, IsSlot, IsEntry, Always};
ghost use Rattle.cell_emit.specs.Paths.{Low, low_of, IsLow, low_in, written_in, IsAway, Distant, IsWritable, Assigns};
ghost use Rattle.cell_emit.specs.Paths as path;

use crate::at::At;
use crate::place::Place;
use crate::steps;
use cell_form::cell::{CellList, Index};
use std::alloc::{AllocError, Global};

/// The slot of what a signal of such a width holds: that of its entry, or a new one that holds 0, by one cell.
fn begun(
    alloc: Global,
    cells: &mut CellList,
    entry: Option<u32>,
    wide: u8,
) -> Result<u32, AllocError>
    requires wide { 1 ≤ wide }
    requires narrow { wide ≤ 128 }
    requires there { IsEntry (list_of cells.old) wide entry }
    ensures grows { Grows (list_of cells.old) (list_of cells.new) }
    ensures gives { IfOk result (λ r. Gives Nothing 1 (list_of cells.old) (list_of cells.new) r wide (λ b. held_or b (list_of cells.old) entry)) }
{
    match entry {
        Some(slot) => Ok(slot),
        None => steps::constant(alloc, cells, 0, wide),
    }
}

/// A slot with a part written to it, by one cell. `here` is a slot that holds 0.
fn with_part(
    alloc: Global,
    cells: &mut CellList,
    here: u32,
    before: u32,
    low: Place,
    part: u32,
) -> Result<u32, AllocError>
    requires here { IsSlot (list_of cells.old) here 1 }
    requires zero { Always (list_of cells.old) here 0 }
    requires before { IsIn (list_of cells.old) before }
    requires wide { 1 ≤ width_at (list_of cells.old) before }
    requires narrow { width_at (list_of cells.old) before ≤ 128 }
    requires low { IsLow (list_of cells.old) (low_of low) }
    requires part { IsIn (list_of cells.old) part }
    ensures grows { Grows (list_of cells.old) (list_of cells.new) }
    ensures gives { IfOk result (λ r. Gives Nothing 1 (list_of cells.old) (list_of cells.new) r (width_at (list_of cells.old) before)
        (λ b. placed (width_at (list_of cells.old) before) (held b (list_of cells.old) before) (low_in b (list_of cells.old) (low_of low))
        (width_at (list_of cells.old) part) (held b (list_of cells.old) part))) }
{
    match low {
        Place::Constant(low) => {
            let from = Index {
                signed: false,
                taken: false,
            };
            steps::place_in(alloc, cells, before, here, part, from, low)
        }
        Place::By(index, signed, bit) => {
            let from = Index {
                signed,
                taken: bit.taken,
            };
            steps::place_in(alloc, cells, before, index, part, from, bit.constant)
        }
    }
}

/// The new one of two slots where a path is taken, else the old one: no cell where the path is `here`, which is taken
/// always, else one cell.
pub fn on_path(
    alloc: Global,
    cells: &mut CellList,
    here: u32,
    off: u32,
    before: u32,
    after: u32,
) -> Result<u32, AllocError>
    requires zero { Always (list_of cells.old) here 0 }
    requires off { IsIn (list_of cells.old) off }
    requires before { IsIn (list_of cells.old) before }
    requires after { IsIn (list_of cells.old) after }
    requires one_width { width_at (list_of cells.old) before ≡ width_at (list_of cells.old) after }
    requires wide { 1 ≤ width_at (list_of cells.old) before }
    requires narrow { width_at (list_of cells.old) before ≤ 128 }
    ensures grows { Grows (list_of cells.old) (list_of cells.new) }
    ensures gives { IfOk result (λ r. Gives Nothing 1 (list_of cells.old) (list_of cells.new) r (width_at (list_of cells.old) before)
        (λ b. if held b (list_of cells.old) off == 0 then held b (list_of cells.old) after else held b (list_of cells.old) before)) }
{
    if off == here {
        return Ok(after);
    }
    steps::mux(alloc, cells, off, before, after)
}

/// The part is all of a signal of such a width.
fn is_whole(cells: &CellList, wide: u8, low: Place, part: u32) -> bool
    requires { IsIn (list_of cells.now) part }
    ensures width { result ≡ true → width_at (list_of cells.now) part ≡ wide }
    ensures low { result ≡ true → low_of low ≡ path.Constant (pos 0) }
{
    match low {
        Place::Constant(low) => low == 0 && steps::width_of(cells, part) == wide,
        Place::By(_, _, _) => false,
    }
}

/// The slot of a signal that is assigned to as a whole: at most two cells.
fn whole(
    alloc: Global,
    cells: &mut CellList,
    here: u32,
    entry: Option<u32>,
    wide: u8,
    part: u32,
    off: u32,
) -> Result<u32, AllocError>
    requires zero { Always (list_of cells.old) here 0 }
    requires wide { 1 ≤ wide }
    requires narrow { wide ≤ 128 }
    requires there { IsEntry (list_of cells.old) wide entry }
    requires part { IsSlot (list_of cells.old) part wide }
    requires off { IsIn (list_of cells.old) off }
    ensures grows { Grows (list_of cells.old) (list_of cells.new) }
    ensures gives { IfOk result (λ r. Gives Nothing 2 (list_of cells.old) (list_of cells.new) r wide
        (λ b. if held b (list_of cells.old) off == 0 then held b (list_of cells.old) part else held_or b (list_of cells.old) entry)) }
{
    if off == here {
        return Ok(part);
    }
    let before = begun(alloc, cells, entry, wide)?;
    steps::mux(alloc, cells, off, before, part)
}

/// A slot with a part written to it where a path is taken: at most two cells. `here` is a slot that holds 0.
pub fn rewritten(
    alloc: Global,
    cells: &mut CellList,
    here: u32,
    before: u32,
    low: Place,
    part: u32,
    off: u32,
) -> Result<u32, AllocError>
    requires here { IsSlot (list_of cells.old) here 1 }
    requires zero { Always (list_of cells.old) here 0 }
    requires before { IsIn (list_of cells.old) before }
    requires wide { 1 ≤ width_at (list_of cells.old) before }
    requires narrow { width_at (list_of cells.old) before ≤ 128 }
    requires low { IsLow (list_of cells.old) (low_of low) }
    requires part { IsIn (list_of cells.old) part }
    requires off { IsIn (list_of cells.old) off }
    ensures grows { Grows (list_of cells.old) (list_of cells.new) }
    ensures gives { IfOk result (λ r. Gives Nothing 2 (list_of cells.old) (list_of cells.new) r (width_at (list_of cells.old) before)
        (λ b. path.on_path b (list_of cells.old) off (width_at (list_of cells.old) before) (held b (list_of cells.old) before) (low_in b (list_of cells.old) (low_of low)) (width_at (list_of cells.old) part) (held b (list_of cells.old) part))) }
{
    let after = with_part(alloc, cells, here, before, low, part)?;
    on_path(alloc, cells, here, off, before, after)
}

/// The slot of a signal of which a part is assigned to: at most three cells.
fn partly(
    alloc: Global,
    cells: &mut CellList,
    here: u32,
    entry: Option<u32>,
    wide: u8,
    low: Place,
    part: u32,
    off: u32,
) -> Result<u32, AllocError>
    requires here { IsSlot (list_of cells.old) here 1 }
    requires zero { Always (list_of cells.old) here 0 }
    requires wide { 1 ≤ wide }
    requires narrow { wide ≤ 128 }
    requires there { IsEntry (list_of cells.old) wide entry }
    requires low { IsLow (list_of cells.old) (low_of low) }
    requires part { IsIn (list_of cells.old) part }
    requires off { IsIn (list_of cells.old) off }
    ensures grows { Grows (list_of cells.old) (list_of cells.new) }
    ensures gives { IfOk result (λ r. Gives Nothing 3 (list_of cells.old) (list_of cells.new) r wide
        (λ b. written_in b (list_of cells.old) wide entry (low_of low) part off)) }
{
    let before = begun(alloc, cells, entry, wide)?;
    let after = with_part(alloc, cells, here, before, low, part)?;
    on_path(alloc, cells, here, off, before, after)
}

/// The slot of what a signal of a width holds behind a part that is assigned to it where a path is taken: at most three cells.
/// `here` is a slot that holds 0.
pub fn assigned(
    alloc: Global,
    cells: &mut CellList,
    here: u32,
    entry: Option<u32>,
    wide: u8,
    low: Place,
    part: u32,
    off: u32,
) -> Result<u32, AllocError>
    requires here { IsSlot (list_of cells.old) here 1 }
    requires zero { Always (list_of cells.old) here 0 }
    requires wide { 1 ≤ wide }
    requires narrow { wide ≤ 128 }
    requires there { IsEntry (list_of cells.old) wide entry }
    requires low { IsLow (list_of cells.old) (low_of low) }
    requires part { IsIn (list_of cells.old) part }
    requires off { IsIn (list_of cells.old) off }
    ensures grows { Grows (list_of cells.old) (list_of cells.new) }
    ensures gives { IfOk result (λ r. Gives Nothing 3 (list_of cells.old) (list_of cells.new) r wide
        (λ b. written_in b (list_of cells.old) wide entry (low_of low) part off)) }
{
    if is_whole(&*cells, wide, low, part) {
        return whole(alloc, cells, here, entry, wide, part, off);
    }
    partly(alloc, cells, here, entry, wide, low, part, off)
}

/// Assigns a part to bits of a signal of `wide` bits (IEEE 1364-2005, clause 9.2): its entry gets the slot of its new value, which
/// holds the part from its lowest bit on where the path is taken, and is the old one elsewhere. At most three cells. Bits of the
/// part that fall outside the signal have no effect.
pub fn assign(
    alloc: Global,
    cells: &mut CellList,
    at: &mut At,
    signal: u32,
    wide: u8,
    low: Place,
    part: u32,
    off: u32,
) -> Result<(), AllocError>
    requires signal { (names : Names) × IsWritable names (list_of cells.old) (env_of at.old) signal wide }
    requires low { IsLow (list_of cells.old) (low_of low) }
    requires part { IsIn (list_of cells.old) part }
    requires off { IsSlot (list_of cells.old) off 1 }
    ensures grows { Grows (list_of cells.old) (list_of cells.new) }
    ensures assigns { OnOk result ((names : Names) → IsWritable names (list_of cells.old) (env_of at.old) signal wide →
        Assigns names 3 signal (low_of low) part off (env_of at.old) (env_of at.new) (list_of cells.old) (list_of cells.new)) }
{
    let index = (signal - at.first) as usize;
    let entry = at.slots[index];
    let slot = assigned(alloc, cells, at.here, entry, wide, low, part, off)?;
    at.slots[index] = Some(slot);
    Ok(())
}

/// The slots of two entries of signals of such a width: one that holds 0, by one cell, stands for both where they are none.
pub fn begun_both(
    alloc: Global,
    cells: &mut CellList,
    one: Option<u32>,
    other: Option<u32>,
    wide: u8,
) -> Result<(u32, u32), AllocError>
    requires wide { 1 ≤ wide }
    requires narrow { wide ≤ 128 }
    requires one { IsEntry (list_of cells.old) wide one }
    requires other { IsEntry (list_of cells.old) wide other }
    ensures grows { Grows (list_of cells.old) (list_of cells.new) }
    ensures one { IfOk result (λ r. Gives Nothing 1 (list_of cells.old) (list_of cells.new) r.0 wide (λ b. held_or b (list_of cells.old) one)) }
    ensures other { IfOk result (λ r. Gives Nothing 1 (list_of cells.old) (list_of cells.new) r.1 wide (λ b. held_or b (list_of cells.old) other)) }
{
    match one {
        Some(first) => {
            let second = begun(alloc, cells, other, wide)?;
            Ok((first, second))
        }
        None => {
            let zero = steps::constant(alloc, cells, 0, wide)?;
            match other {
                Some(second) => Ok((zero, second)),
                None => Ok((zero, zero)),
            }
        }
    }
}

/// The index of a path: 0 where it is taken, else beyond each bit. At most one cell. `here` is a slot that holds 0.
pub fn distant(alloc: Global, cells: &mut CellList, here: u32, off: u32) -> Result<u32, AllocError>
    requires here { IsIn (list_of cells.old) here }
    requires zero { Always (list_of cells.old) here 0 }
    requires off { IsSlot (list_of cells.old) off 1 }
    ensures grows { Grows (list_of cells.old) (list_of cells.new) }
    ensures distant { IfOk result (λ r. Distant 1 (list_of cells.old) (list_of cells.new) r off) }
{
    if off == here {
        return Ok(here);
    }
    steps::resize(alloc, cells, off, true, 9)
}

/// The slot of what a signal of a width holds behind a part that is assigned to it from a constant bit on where a path is taken, by
/// the index of the path: one cell.
pub fn placed_by(
    alloc: Global,
    cells: &mut CellList,
    far: u32,
    entry: Option<u32>,
    wide: u8,
    low: i64,
    part: u32,
) -> Result<u32, AllocError>
    requires far { IsIn (list_of cells.old) far }
    requires away { (s : Shape) (b : BankData) → AreSound s (list_of cells.old) → IsAway (held b (list_of cells.old) far) }
    requires wide { 1 ≤ wide }
    requires narrow { wide ≤ 128 }
    requires there { IsEntry (list_of cells.old) wide entry }
    requires part { IsIn (list_of cells.old) part }
    requires part_narrow { width_at (list_of cells.old) part ≤ 128 }
    ensures grows { Grows (list_of cells.old) (list_of cells.new) }
    ensures gives { IfOk result (λ r. Gives Nothing 1 (list_of cells.old) (list_of cells.new) r wide
        (λ b. path.on_path b (list_of cells.old) far wide (held_or b (list_of cells.old) entry) low (width_at (list_of cells.old) part) (held b (list_of cells.old) part))) }
{
    if low < -127 {
        return begun(alloc, cells, entry, wide);
    }
    if low > 127 {
        return begun(alloc, cells, entry, wide);
    }
    let from = Index {
        signed: false,
        taken: false,
    };
    match entry {
        Some(before) => steps::place_in(alloc, cells, before, far, part, from, low),
        None => steps::pick(alloc, cells, part, far, from, -low, wide),
    }
}
