//! The spots that assignments write (IEEE 1364-2005, clauses 9.2 and 5.1.14).

ghost use Rattle.std.specs.Prelude.{◌≡◌, ◌≤◌, ◌<◌, ℕ, ◌-◌, ◌*◌, ◌%◌, ◌/◌, ◌^◌, ◌++◌, [], ◌∷◌, true, false, length, map, All, IfOk, OnOk};
ghost use Rattle.vl_design.specs.Sound.{IsSoundTarget, IsWidth};
ghost use Rattle.vl_design.specs.Targets as targets;
ghost use Rattle.vl_eval.specs.Rooms as rooms;
ghost use Rattle.cell_emit.specs.Envs.{env_of, Always, Fits, IsSlot};
ghost use Rattle.cell_emit.specs.Paths.{Updates};
ghost use Rattle.cell_emit.specs.Delays.{Delays};
ghost use Rattle.cell_emit.specs.Pendings.{slots_of, memories_of, ArePending};
ghost use Rattle.cell_expr.specs.Spots as sp;
ghost use Rattle.vl_design.specs.Trees.{target_of};
ghost use Rattle.cell_emit.specs.cell_form.specs.Data.{BankData};
ghost use Rattle.cell_emit.specs.cell_form.specs.Sound.{Shape};
ghost use Rattle.cell_emit.specs.cell_form.specs.Views.{list_of};
ghost use Rattle.cell_emit.specs.Slots.{held, width_at, IsIn, AreSound, Grows, Gives, Nothing};

use crate::address::{Address, choose};
use cell_emit::assign::assign;
use cell_emit::at::At;
use cell_emit::cell::CellList;
use cell_emit::delay::{delay, delay_word};
use cell_emit::pending::Pending;
use cell_emit::place::Place;
use cell_emit::reads::{read, slice};
use std::alloc::{AllocError, Global};
use vl_design::design::{Target, TargetNode};
use vl_eval::form::signal_form;
use vl_eval::room::Room;

/// Some bits of a signal, or of a word of a memory.
#[derive(Clone, Copy, Debug, PartialEq, Eq)]
pub struct Spot {
    /// The signal's number.
    pub signal: u32,
    /// The word's address, if the signal is a memory.
    pub word: Option<Address>,
    /// Where the lowest of them stands.
    pub low: Place,
    /// How many there are, 1 to 128.
    pub width: u8,
}

/// How many bits spots have.
#[tactic(auto, using(crate::proofs::Spotting::listed))]
fn bits_of(spots: &[Spot]) -> u32
    requires narrow { sp.bits_of spots.now ≤ 128 }
    ensures { result ≡ sp.bits_of spots.now }
{
    let mut bits = 0;
    for spot in spots {
        bits += u32::from(spot.width);
    }
    bits
}

/// Bits of a slot from a bit on.
fn part_of(
    alloc: Global,
    cells: &mut CellList,
    here: u32,
    source: u32,
    low: u32,
    width: u8,
) -> Result<u32, AllocError>
    requires here { IsIn (list_of cells.old) here }
    requires zero { (s : Shape) (b : BankData) → AreSound s (list_of cells.old) → held b (list_of cells.old) here ≡ 0 }
    requires source { IsIn (list_of cells.old) source }
    requires low { low ≤ width_at (list_of cells.old) source }
    requires within { width_at (list_of cells.old) source ≤ 128 }
    requires width { IsWidth width }
    ensures grows { Grows (list_of cells.old) (list_of cells.new) }
    ensures gives { IfOk result (λ r. Gives Nothing 1 (list_of cells.old) (list_of cells.new) r width (λ b. held b (list_of cells.old) source / 2 ^ low % 2 ^ width)) }
{
    if low == 0 {
        read(alloc, cells, source, false, width)
    } else {
        slice(alloc, cells, here, source, low as i32, width, false, width)
    }
}

/// How many bits a target has.
#[cycle(width)]
#[tactic(auto, using(crate::proofs::Spotting::listed))]
pub fn target_width(room: &Room<'_>, target: &Target) -> u32
    requires sound { IsSoundTarget (rooms.names_of room.now) (target_of target.now) }
    ensures { result ≡ targets.target_width (rooms.names_of room.now) (target_of target.now) }
{
    match &target.node {
        TargetNode::Sig(number) | TargetNode::Word(number, _) => signal_form(room, *number).width,
        TargetNode::Pick(_, _, _, width) | TargetNode::Slice(_, _, width) => u32::from(*width),
        TargetNode::List(parts) => {
            let mut all = 0;
            for part in parts {
                all += target_width(room, part);
            }
            all
        }
    }
}

/// Writes a value to spots of signals where a path is taken: the first takes the highest bits.
pub fn assign_all(
    alloc: Global,
    cells: &mut CellList,
    room: &Room<'_>,
    at: &mut At,
    spots: &[Spot],
    value: u32,
    off: u32,
) -> Result<(), AllocError>
    requires fits { Fits (rooms.names_of room.now) (list_of cells.old) (env_of at.old) }
    requires spots { All (sp.IsSpot (rooms.names_of room.now) at.old.first (list_of cells.old)) spots.now }
    requires whole { sp.stored_by spots.now ≡ [] }
    requires value { IsIn (list_of cells.old) value }
    requires within { sp.bits_of spots.now ≤ width_at (list_of cells.old) value }
    requires narrow { width_at (list_of cells.old) value ≤ 128 }
    requires off { IsSlot (list_of cells.old) off 1 }
    ensures grows { Grows (list_of cells.old) (list_of cells.new) }
    ensures updates { OnOk result (Updates (rooms.names_of room.now) (sp.cells_of false spots.now)
        (λ b. targets.updates_at (map (sp.spot_in (rooms.names_of room.now).rows b (list_of cells.old)) spots.now) (held b (list_of cells.old) value))
        off (env_of at.old) (env_of at.new) (list_of cells.old) (list_of cells.new)) }
{
    let mut left = bits_of(spots);
    for spot in spots {
        left -= u32::from(spot.width);
        let part = part_of(alloc, cells, at.here, value, left, spot.width)?;
        let wide = signal_form(room, spot.signal).width as u8;
        assign(alloc, cells, at, spot.signal, wide, spot.low, part, off)?;
    }
    Ok(())
}

/// Makes the update of a part to a spot pending where a path is taken (IEEE 1364-2005, clause 9.2.2).
fn delay_one(
    alloc: Global,
    cells: &mut CellList,
    room: &Room<'_>,
    here: u32,
    pending: &mut Pending,
    spot: Spot,
    part: u32,
    off: u32,
) -> Result<(), AllocError>
    requires first { (first : ℕ) × sp.IsSpot (rooms.names_of room.now) first (list_of cells.old) spot }
    requires here { IsSlot (list_of cells.old) here 1 }
    requires zero { Always (list_of cells.old) here 0 }
    requires pending { ArePending (rooms.names_of room.now) (list_of cells.old) (slots_of pending.old) }
    requires many { length pending.old.update.items ≡ length (rooms.names_of room.now).rows }
    requires part { IsSlot (list_of cells.old) part spot.width }
    requires off { IsSlot (list_of cells.old) off 1 }
    ensures grows { Grows (list_of cells.old) (list_of cells.new) }
    ensures delays { OnOk result (Delays (rooms.names_of room.now) (sp.spot_cells true spot - 1)
        (λ b. sp.update_of (rooms.names_of room.now).rows b (list_of cells.old) spot part ∷ [])
        off (slots_of pending.old) (slots_of pending.new) (list_of cells.old) (list_of cells.new)) }
    ensures sites { OnOk result (memories_of pending.new.sites.items ≡ memories_of pending.old.sites.items ++ sp.memory_at spot.signal spot.word) }
{
    let wide = signal_form(room, spot.signal).width as u8;
    match spot.word {
        None => delay(
            alloc,
            cells,
            pending,
            here,
            spot.signal,
            wide,
            spot.low,
            part,
            off,
        ),
        Some(address) => {
            let chosen = choose(alloc, cells, room, here, spot.signal, address, off)?;
            delay_word(
                alloc,
                cells,
                pending,
                here,
                spot.signal,
                wide,
                chosen.enable,
                chosen.number,
                spot.low,
                part,
            )
        }
    }
}

/// Makes the updates of a value to spots pending where a path is taken (IEEE 1364-2005, clause 9.2.2): the first takes the highest
/// bits.
pub fn delay_all(
    alloc: Global,
    cells: &mut CellList,
    room: &Room<'_>,
    at: &At,
    pending: &mut Pending,
    spots: &[Spot],
    value: u32,
    off: u32,
) -> Result<(), AllocError>
    requires fits { Fits (rooms.names_of room.now) (list_of cells.old) (env_of at.now) }
    requires pending { ArePending (rooms.names_of room.now) (list_of cells.old) (slots_of pending.old) }
    requires many { length pending.old.update.items ≡ length (rooms.names_of room.now).rows }
    requires spots { All (sp.IsSpot (rooms.names_of room.now) at.now.first (list_of cells.old)) spots.now }
    requires value { IsIn (list_of cells.old) value }
    requires within { sp.bits_of spots.now ≤ width_at (list_of cells.old) value }
    requires narrow { width_at (list_of cells.old) value ≤ 128 }
    requires off { IsSlot (list_of cells.old) off 1 }
    ensures grows { Grows (list_of cells.old) (list_of cells.new) }
    ensures delays { OnOk result (Delays (rooms.names_of room.now) (sp.cells_of true spots.now)
        (λ b. targets.updates_at (map (sp.spot_in (rooms.names_of room.now).rows b (list_of cells.old)) spots.now) (held b (list_of cells.old) value))
        off (slots_of pending.old) (slots_of pending.new) (list_of cells.old) (list_of cells.new)) }
    ensures sites { OnOk result (memories_of pending.new.sites.items ≡ memories_of pending.old.sites.items ++ sp.stored_by spots.now) }
{
    let mut below = bits_of(spots);
    for spot in spots {
        below -= u32::from(spot.width);
        let part = part_of(alloc, cells, at.here, value, below, spot.width)?;
        delay_one(alloc, cells, room, at.here, pending, *spot, part, off)?;
    }
    Ok(())
}
