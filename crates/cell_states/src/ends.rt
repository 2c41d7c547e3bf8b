//! The writes at the end of a state.

ghost use Rattle.std.specs.Prelude.{◌≡◌, ◌≤◌, ◌<◌, ◌^◌, All, length, map, take, IfOk, OnOk};
ghost use Rattle.vl_design.specs.Trees.{flat_of, row_of};
ghost use Rattle.cell_emit.specs.Envs.{env_of};
ghost use Rattle.cell_emit.specs.Pendings.{memories_of, slots_of};
ghost use Rattle.ten_form.specs.declared.store.Store.{Store};
ghost use Rattle.ten_form.specs.Holding.{mask_register};
ghost use Rattle.cell_states.specs.Ended.{AreChanges, Commits, with_ticks, IsEnd, IsKeptEnd};

use cell_emit::at::At;
use cell_emit::cell::Write;
use cell_emit::pending::Site;
use cell_waves::begun::Begun;
use cell_waves::keep::keep;
use cell_waves::writes::{write_all, write_changed, write_pending};
use std::alloc::{AllocError, Global};
use ten_form::places::{MASK, STATE, TICKS, UPDATE, VALUE, WORK};
use ten_form::store::Store;
use vl_design::design::{Design, Signal};

/// The writes of the registers of signals that changed; of what is pending those alone that nonblocking assignments name (`delayed`).
fn changes(
    alloc: Global,
    signals: &[Signal],
    delayed: &[bool],
    before: &Begun,
    after: &Begun,
) -> Result<Vec<Write>, AllocError>
    requires few { length signals.now ≤ 268435456 }
    ensures { IfOk result (λ sets. AreChanges (map row_of signals.now) delayed.now (env_of before.now.at) (env_of after.now.at) (slots_of before.now.pending) (slots_of after.now.pending) sets.items) }
{
    let here = after.at.here;
    let mut sets = Vec::new(alloc);
    write_changed(
        signals,
        WORK,
        &before.at.slots,
        &after.at.slots,
        here,
        &mut sets,
    )?;
    write_pending(
        signals,
        UPDATE,
        delayed,
        &before.pending.update,
        &after.pending.update,
        here,
        &mut sets,
    )?;
    write_pending(
        signals,
        MASK,
        delayed,
        &before.pending.mask,
        &after.pending.mask,
        here,
        &mut sets,
    )?;
    Ok(sets)
}

/// Adds the writes of all values, where a wave ends.
fn commit(
    signals: &[Signal],
    after: &At,
    commits: bool,
    sets: &mut Vec<Write>,
) -> Result<(), AllocError>
    requires few { length signals.now ≤ 268435456 }
    ensures { OnOk result (Commits (map row_of signals.now) commits (env_of after.now) sets.old.items sets.new.items) }
{
    if commits {
        write_all(signals, VALUE, &after.slots, after.here, sets)
    } else {
        Ok(())
    }
}

/// Adds the write of the ticks, where the clock rises.
fn count(ticks: Option<u32>, sets: &mut Vec<Write>) -> Result<(), AllocError>
    ensures { OnOk result (sets.new.items ≡ with_ticks ticks sets.old.items) }
{
    match ticks {
        Some(slot) => {
            sets.push(Write::Reg(TICKS, slot))?;
            Ok(())
        }
        None => Ok(()),
    }
}

/// The writes of what changed; at the end of a wave, of what is committed; of the ticks, and of the node that is next.
fn ends(
    alloc: Global,
    design: &Design,
    delayed: &[bool],
    before: &Begun,
    after: &Begun,
    commits: bool,
    ticks: Option<u32>,
    next: u32,
) -> Result<Vec<Write>, AllocError>
    requires few { length (flat_of design.now).rows ≤ 268435456 }
    ensures { IfOk result (λ sets. IsEnd (flat_of design.now) commits delayed.now (env_of before.now.at) (env_of after.now.at) (slots_of before.now.pending) (slots_of after.now.pending) ticks next sets.items) }
{
    let signals = design.signals.as_slice();
    let mut sets = changes(alloc, signals, delayed, before, after)?;
    commit(signals, &after.at, commits, &mut sets)?;
    count(ticks, &mut sets)?;
    sets.push(Write::Reg(STATE, next))?;
    Ok(sets)
}

/// How many of the first sites are those that were read.
fn unchanged(read: &[Site], sites: &[Site]) -> usize
    ensures few { result ≤ length read.now }
    ensures there { result ≤ length sites.now }
    ensures same { take result read.now ≡ take result sites.now }
{
    for number in 0..read.len() {
        if number >= sites.len() || read[number] != sites[number] {
            return number;
        }
    }
    read.len()
}

/// The same, and behind them those of the registers of stores: what is pending in them is kept. The registers of stores whose sites are
/// those that were read stay as they are.
pub(crate) fn writes(
    alloc: Global,
    design: &Design,
    stores: &[Store],
    earlier: &[Site],
    delayed: &[bool],
    before: &Begun,
    after: &Begun,
    commits: bool,
    ticks: Option<u32>,
    next: u32,
) -> Result<Vec<Write>, AllocError>
    requires few { length (flat_of design.now).rows ≤ 268435456 }
    requires registers { All (λ x. mask_register x < 2 ^ 32) stores.now }
    requires same { map (λ (x : Store). x.memory) stores.now ≡ memories_of after.now.pending.sites.items }
    ensures { IfOk result (λ sets. IsKeptEnd (flat_of design.now) commits delayed.now (env_of before.now.at) (env_of after.now.at) (slots_of before.now.pending) (slots_of after.now.pending) ticks next stores.now earlier.now sets.items) }
{
    let mut sets = ends(alloc, design, delayed, before, after, commits, ticks, next)?;
    let sites = after.pending.sites.as_slice();
    let same = unchanged(earlier, sites);
    keep(&stores[same..], &sites[same..], &mut sets)?;
    Ok(sets)
}
