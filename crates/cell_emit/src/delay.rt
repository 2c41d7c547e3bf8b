//! Nonblocking assignments to signals and to words of memories.

ghost use Rattle.std.specs.Prelude.{◌≡◌, ◌≤◌, ◌-◌, ◌^◌, ◌++◌, [], ◌∷◌, pos, IfOk, OnOk};
ghost use Rattle.vl_sites.specs.vl_design.specs.Width.{Names};
ghost use Rattle.cell_form.specs.Views.{list_of};
ghost use Rattle.cell_emit.specs.Slots.{width_at, IsIn, Grows, Gives, Nothing};
ghost use Rattle.cell_emit.specs.Envs.{IsSlot, Always};
ghost use Rattle.cell_emit.specs.Paths.{low_of, IsLow, update_in};
ghost use Rattle.cell_emit.specs.Paths as path;
ghost use Rattle.cell_emit.specs.Pendings.{slots_of, memories_of};
ghost use Rattle.cell_emit.specs.Delays.{IsDelayable, IsStorable, stored_in, delay_count, Delays};

use crate::assign::{assigned, begun_both, distant, on_path, placed_by, rewritten};
use crate::pending::{Pending, Site};
use crate::place::Place;
use crate::steps;
use cell_form::cell::CellList;
use std::alloc::{AllocError, Global};

/// Ones, as many as a slot has bits: one cell.
fn ones(alloc: Global, cells: &mut CellList, part: u32) -> Result<u32, AllocError>
    requires part { IsIn (list_of cells.old) part }
    requires wide { 1 ≤ width_at (list_of cells.old) part }
    requires narrow { width_at (list_of cells.old) part ≤ 128 }
    ensures grows { Grows (list_of cells.old) (list_of cells.new) }
    ensures gives { IfOk result (λ r. Gives Nothing 1 (list_of cells.old) (list_of cells.new) r (width_at (list_of cells.old) part) (λ b. 2 ^ width_at (list_of cells.old) part - 1)) }
{
    let width = steps::width_of(&*cells, part);
    steps::constant(alloc, cells, u128::MAX, width)
}

/// Makes an update of a whole signal of `wide` bits pending (IEEE 1364-2005, clause 9.2.2): where the path is taken, its update value
/// is the part, and its mask ones. At most four cells. `here` is a slot that holds 0.
fn delay_whole(
    alloc: Global,
    cells: &mut CellList,
    pending: &mut Pending,
    here: u32,
    signal: u32,
    wide: u8,
    part: u32,
    off: u32,
) -> Result<(), AllocError>
    requires signal { (names : Names) × IsDelayable names (list_of cells.old) (slots_of pending.old) signal wide }
    requires here { IsSlot (list_of cells.old) here 1 }
    requires zero { Always (list_of cells.old) here 0 }
    requires part { IsSlot (list_of cells.old) part wide }
    requires wide { 1 ≤ wide }
    requires narrow { wide ≤ 128 }
    requires off { IsSlot (list_of cells.old) off 1 }
    ensures grows { Grows (list_of cells.old) (list_of cells.new) }
    ensures delays { OnOk result ((names : Names) → IsDelayable names (list_of cells.old) (slots_of pending.old) signal wide →
        Delays names 4 (λ b. update_in b (list_of cells.old) signal (path.Constant (pos 0)) part ∷ []) off (slots_of pending.old) (slots_of pending.new) (list_of cells.old) (list_of cells.new)) }
    ensures sites { OnOk result (pending.new.sites.items ≡ pending.old.sites.items) }
{
    let number = signal as usize;
    let set = ones(alloc, cells, part)?;
    let (first, second) = begun_both(
        alloc,
        cells,
        pending.update[number],
        pending.mask[number],
        wide,
    )?;
    let update = on_path(alloc, cells, here, off, first, part)?;
    let mask = on_path(alloc, cells, here, off, second, set)?;
    pending.update[number] = Some(update);
    pending.mask[number] = Some(mask);
    Ok(())
}

/// Makes an update of bits of a signal of `wide` bits pending (IEEE 1364-2005, clause 9.2.2): where the path is taken, its update
/// value gets the part from its lowest bit on, and its mask ones in the same bits. At most six cells. Bits of the part that fall
/// outside the signal have no effect. `here` is a slot that holds 0.
fn delay_by(
    alloc: Global,
    cells: &mut CellList,
    pending: &mut Pending,
    here: u32,
    signal: u32,
    wide: u8,
    low: Place,
    part: u32,
    off: u32,
) -> Result<(), AllocError>
    requires signal { (names : Names) × IsDelayable names (list_of cells.old) (slots_of pending.old) signal wide }
    requires here { IsSlot (list_of cells.old) here 1 }
    requires zero { Always (list_of cells.old) here 0 }
    requires low { IsLow (list_of cells.old) (low_of low) }
    requires part { IsIn (list_of cells.old) part }
    requires wide { 1 ≤ width_at (list_of cells.old) part }
    requires narrow { width_at (list_of cells.old) part ≤ 128 }
    requires off { IsSlot (list_of cells.old) off 1 }
    ensures grows { Grows (list_of cells.old) (list_of cells.new) }
    ensures delays { OnOk result ((names : Names) → IsDelayable names (list_of cells.old) (slots_of pending.old) signal wide →
        Delays names 6 (λ b. update_in b (list_of cells.old) signal (low_of low) part ∷ []) off (slots_of pending.old) (slots_of pending.new) (list_of cells.old) (list_of cells.new)) }
    ensures sites { OnOk result (pending.new.sites.items ≡ pending.old.sites.items) }
{
    let number = signal as usize;
    let set = ones(alloc, cells, part)?;
    let (first, second) = begun_both(
        alloc,
        cells,
        pending.update[number],
        pending.mask[number],
        wide,
    )?;
    let update = rewritten(alloc, cells, here, first, low, part, off)?;
    let mask = rewritten(alloc, cells, here, second, low, set, off)?;
    pending.update[number] = Some(update);
    pending.mask[number] = Some(mask);
    Ok(())
}

/// Makes an update of bits of a signal from a constant one on pending, by the index of the path: at most four cells. `here` is a slot
/// that holds 0.
fn delay_at(
    alloc: Global,
    cells: &mut CellList,
    pending: &mut Pending,
    here: u32,
    signal: u32,
    wide: u8,
    low: i64,
    part: u32,
    off: u32,
) -> Result<(), AllocError>
    requires signal { (names : Names) × IsDelayable names (list_of cells.old) (slots_of pending.old) signal wide }
    requires here { IsSlot (list_of cells.old) here 1 }
    requires zero { Always (list_of cells.old) here 0 }
    requires part { IsIn (list_of cells.old) part }
    requires wide { 1 ≤ width_at (list_of cells.old) part }
    requires narrow { width_at (list_of cells.old) part ≤ 128 }
    requires off { IsSlot (list_of cells.old) off 1 }
    ensures grows { Grows (list_of cells.old) (list_of cells.new) }
    ensures delays { OnOk result ((names : Names) → IsDelayable names (list_of cells.old) (slots_of pending.old) signal wide →
        Delays names 4 (λ b. update_in b (list_of cells.old) signal (path.Constant low) part ∷ []) off (slots_of pending.old) (slots_of pending.new) (list_of cells.old) (list_of cells.new)) }
    ensures sites { OnOk result (pending.new.sites.items ≡ pending.old.sites.items) }
{
    let number = signal as usize;
    let set = ones(alloc, cells, part)?;
    let far = distant(alloc, cells, here, off)?;
    let update = placed_by(alloc, cells, far, pending.update[number], wide, low, part)?;
    let mask = placed_by(alloc, cells, far, pending.mask[number], wide, low, set)?;
    pending.update[number] = Some(update);
    pending.mask[number] = Some(mask);
    Ok(())
}

/// Makes an update of bits of a signal of `wide` bits pending (IEEE 1364-2005, clause 9.2.2): where the path is taken, its update
/// value gets the part from its lowest bit on, and its mask ones in the same bits. At most four cells, or six where an index names the
/// lowest bit. Bits of the part that fall outside the signal have no effect. `here` is a slot that holds 0.
pub fn delay(
    alloc: Global,
    cells: &mut CellList,
    pending: &mut Pending,
    here: u32,
    signal: u32,
    wide: u8,
    low: Place,
    part: u32,
    off: u32,
) -> Result<(), AllocError>
    requires signal { (names : Names) × IsDelayable names (list_of cells.old) (slots_of pending.old) signal wide }
    requires here { IsSlot (list_of cells.old) here 1 }
    requires zero { Always (list_of cells.old) here 0 }
    requires low { IsLow (list_of cells.old) (low_of low) }
    requires part { IsIn (list_of cells.old) part }
    requires wide { 1 ≤ width_at (list_of cells.old) part }
    requires narrow { width_at (list_of cells.old) part ≤ 128 }
    requires off { IsSlot (list_of cells.old) off 1 }
    ensures grows { Grows (list_of cells.old) (list_of cells.new) }
    ensures delays { OnOk result ((names : Names) → IsDelayable names (list_of cells.old) (slots_of pending.old) signal wide →
        Delays names (delay_count (low_of low)) (λ b. update_in b (list_of cells.old) signal (low_of low) part ∷ []) off (slots_of pending.old) (slots_of pending.new) (list_of cells.old) (list_of cells.new)) }
    ensures sites { OnOk result (pending.new.sites.items ≡ pending.old.sites.items) }
{
    match low {
        Place::By(_, _, _) => delay_by(alloc, cells, pending, here, signal, wide, low, part, off),
        Place::Constant(number) => {
            if number == 0 && steps::width_of(&*cells, part) == wide {
                return delay_whole(alloc, cells, pending, here, signal, wide, part, off);
            }
            delay_at(alloc, cells, pending, here, signal, wide, number, part, off)
        }
    }
}

/// Makes an update of bits of a word of a memory of words of `wide` bits pending (IEEE 1364-2005, clauses 5.2.2 and 9.2.2): a site
/// more writes the part from its lowest bit on to the word that a slot numbers, from 0 at the lowest address, where another slot
/// isn't 0. At most seven cells. Bits of the part that fall outside the word have no effect. `here` is a slot that holds 0.
pub fn delay_word(
    alloc: Global,
    cells: &mut CellList,
    pending: &mut Pending,
    here: u32,
    memory: u32,
    wide: u8,
    enable: u32,
    word: u32,
    low: Place,
    part: u32,
) -> Result<(), AllocError>
    requires memory { (names : Names) × IsStorable names (list_of cells.old) (slots_of pending.old) memory wide }
    requires here { IsSlot (list_of cells.old) here 1 }
    requires zero { Always (list_of cells.old) here 0 }
    requires enable { IsSlot (list_of cells.old) enable 1 }
    requires word { IsSlot (list_of cells.old) word 32 }
    requires low { IsLow (list_of cells.old) (low_of low) }
    requires part { IsIn (list_of cells.old) part }
    requires wide { 1 ≤ width_at (list_of cells.old) part }
    requires narrow { width_at (list_of cells.old) part ≤ 128 }
    ensures grows { Grows (list_of cells.old) (list_of cells.new) }
    ensures delays { OnOk result ((names : Names) → IsStorable names (list_of cells.old) (slots_of pending.old) memory wide →
        Delays names 7 (λ b. stored_in b (list_of cells.old) memory enable word (low_of low) part) here (slots_of pending.old) (slots_of pending.new) (list_of cells.old) (list_of cells.new)) }
    ensures sites { OnOk result (memories_of pending.new.sites.items ≡ memories_of pending.old.sites.items ++ memory ∷ []) }
{
    let set = ones(alloc, cells, part)?;
    let value = assigned(alloc, cells, here, None, wide, low, part, here)?;
    let mask = assigned(alloc, cells, here, None, wide, low, set, here)?;
    pending.sites.push(Site {
        memory,
        enable,
        word,
        value,
        mask,
    })?;
    Ok(())
}
