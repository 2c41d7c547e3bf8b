//! The words of memories that are assigned to, by their addresses (IEEE 1364-2005, clause 5.2.2).

ghost use Rattle.std.specs.Prelude.{◌≡◌, ◌==◌, ◌-◌, ◌-ℤ◌, pos, nat_lt, IfOk, if◌then◌else◌, unsigned_abs};
ghost use Rattle.vl_base.specs.Value.{wrapped, truth};
ghost use Rattle.vl_design.specs.Sound.{IsMemory};
ghost use Rattle.vl_eval.specs.Rooms as rooms;
ghost use Rattle.cell_emit.specs.cell_form.specs.Views.{list_of};
ghost use Rattle.cell_emit.specs.Slots.{held, width_at, IsIn, Grows, Gives, Nothing};
ghost use Rattle.cell_emit.specs.Envs.{IsSlot, Always};
ghost use Rattle.cell_expr.specs.Chosen.{Chooses};
ghost use Rattle.cell_expr.specs.Words.{found_in};

use crate::leaf::lower;
use cell_emit::cell::CellList;
use cell_emit::steps;
use std::alloc::{AllocError, Global};
use vl_base::bits::BinOp;
use vl_eval::eval::signal_at;
use vl_eval::room::Room;
use vl_eval::selects::word_count;

/// The address of a word of a memory.
#[derive(Clone, Copy, Debug, PartialEq, Eq)]
pub struct Address {
    /// The slot of its value.
    pub slot: u32,
    /// It is read as signed.
    pub signed: bool,
}

/// The word that an address names.
#[derive(Clone, Copy, Debug, PartialEq, Eq)]
pub struct Chosen {
    /// The slot that says whether it is there and the path is taken, of 1 bit: 1 where it is so.
    pub enable: u32,
    /// The slot of its number where it is there, of 32 bits: 0 at the lowest address.
    pub number: u32,
}

/// How far an address of 128 bits is behind the lowest one: at most two cells.
fn moved(alloc: Global, cells: &mut CellList, slot: u32, lowest: i64) -> Result<u32, AllocError>
    requires slot { IsSlot (list_of cells.old) slot 128 }
    ensures grows { Grows (list_of cells.old) (list_of cells.new) }
    ensures gives { IfOk result (λ r. Gives Nothing 2 (list_of cells.old) (list_of cells.new) r 128 (λ b. wrapped 128 (pos (held b (list_of cells.old) slot) -ℤ lowest))) }
{
    if lowest == 0 {
        return Ok(slot);
    }
    let far = steps::constant(alloc, cells, u128::from(lowest.unsigned_abs()), 128)?;
    if lowest < 0 {
        steps::binary(alloc, cells, BinOp::Add, false, slot, far)
    } else {
        steps::binary(alloc, cells, BinOp::Sub, false, slot, far)
    }
}

/// Whether what a slot of 128 bits holds is below a number: two cells.
fn below(alloc: Global, cells: &mut CellList, slot: u32, count: u64) -> Result<u32, AllocError>
    requires slot { IsSlot (list_of cells.old) slot 128 }
    ensures grows { Grows (list_of cells.old) (list_of cells.new) }
    ensures gives { IfOk result (λ r. Gives Nothing 2 (list_of cells.old) (list_of cells.new) r 1 (λ b. truth (nat_lt (held b (list_of cells.old) slot) count))) }
{
    let end = steps::constant(alloc, cells, u128::from(count), 128)?;
    steps::binary(alloc, cells, BinOp::Lt, false, slot, end)
}

/// How many words stand at addresses from 0 on, where the lowest one is below 0.
fn words_from_zero(lowest: i64, words: u64) -> u64
    ensures { result ≡ words - unsigned_abs lowest }
{
    let before = lowest.unsigned_abs();
    if words <= before { 0 } else { words - before }
}

/// Whether an address names a word, by its slot of 128 bits and by how far it is behind the lowest one: two cells. One that is never
/// negative names one of the words from address 0 on.
fn found(
    alloc: Global,
    cells: &mut CellList,
    wide: u32,
    moved: u32,
    signed: bool,
    lowest: i64,
    words: u64,
) -> Result<u32, AllocError>
    requires wide { IsSlot (list_of cells.old) wide 128 }
    requires moved { IsSlot (list_of cells.old) moved 128 }
    ensures grows { Grows (list_of cells.old) (list_of cells.new) }
    ensures gives { IfOk result (λ r. Gives Nothing 2 (list_of cells.old) (list_of cells.new) r 1
        (λ b. truth (found_in signed lowest words (held b (list_of cells.old) wide) (held b (list_of cells.old) moved)))) }
{
    if !signed && lowest < 0 {
        below(alloc, cells, wide, words_from_zero(lowest, words))
    } else {
        below(alloc, cells, moved, words)
    }
}

/// What a slot of 1 bit holds where a path is taken, else 0: no cell where the path is `here`, which is taken always, else one cell.
fn enabled(
    alloc: Global,
    cells: &mut CellList,
    here: u32,
    off: u32,
    slot: u32,
) -> Result<u32, AllocError>
    requires here { IsSlot (list_of cells.old) here 1 }
    requires zero { Always (list_of cells.old) here 0 }
    requires off { IsSlot (list_of cells.old) off 1 }
    requires slot { IsSlot (list_of cells.old) slot 1 }
    ensures grows { Grows (list_of cells.old) (list_of cells.new) }
    ensures gives { IfOk result (λ r. Gives Nothing 1 (list_of cells.old) (list_of cells.new) r 1
        (λ b. if held b (list_of cells.old) off == 0 then held b (list_of cells.old) slot else 0)) }
{
    if off == here {
        return Ok(slot);
    }
    steps::mux(alloc, cells, off, here, slot)
}

/// The word of a memory that an address names, and whether it is there where a path is taken: at most seven cells. `here` is a slot
/// that holds 0.
#[tactic(auto, using(crate::proofs::Leaves::leaves, crate::proofs::Walking::walking))]
pub fn choose(
    alloc: Global,
    cells: &mut CellList,
    room: &Room<'_>,
    here: u32,
    memory: u32,
    address: Address,
    off: u32,
) -> Result<Chosen, AllocError>
    requires memory { IsMemory (rooms.names_of room.now) memory }
    requires here { IsSlot (list_of cells.old) here 1 }
    requires zero { Always (list_of cells.old) here 0 }
    requires address { IsIn (list_of cells.old) address.slot }
    requires off { IsSlot (list_of cells.old) off 1 }
    ensures grows { Grows (list_of cells.old) (list_of cells.new) }
    ensures chooses { IfOk result (λ c. Chooses (rooms.names_of room.now).rows 7 memory address off (list_of cells.old) (list_of cells.new) c.enable c.number) }
{
    let row = signal_at(room, memory);
    let lowest = lower(row.first, row.last);
    let words = word_count(row);
    let wide = steps::resize(alloc, cells, address.slot, address.signed, 128)?;
    let far = moved(alloc, cells, wide, lowest)?;
    let there = found(alloc, cells, wide, far, address.signed, lowest, words)?;
    let enable = enabled(alloc, cells, here, off, there)?;
    let number = steps::resize(alloc, cells, far, false, 32)?;
    Ok(Chosen { enable, number })
}
