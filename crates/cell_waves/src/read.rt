//! The registers of stores in slots.

ghost use Rattle.std.specs.Prelude.{◌≡◌, ◌≤◌, ◌<◌, ◌^◌, ◌++◌, map, slice_get, All, IfOk, OnOk};
ghost use Rattle.ten_form.specs.vl_design.specs.Sound.{IsOf, IsMem};
ghost use Rattle.ten_form.specs.vl_design.specs.Trees.{row_of};
ghost use Rattle.ten_form.specs.vl_design.specs.Width.{signal_form};
ghost use Rattle.cell_emit.specs.cell_form.specs.Views.{list_of};
ghost use Rattle.cell_emit.specs.Slots.{Grows, Longer};
ghost use Rattle.cell_emit.specs.Pendings.{memories_of};
ghost use Rattle.ten_form.specs.declared.store.Store.{Store};
ghost use Rattle.ten_form.specs.Holding.{mask_register};
ghost use Rattle.cell_waves.specs.Reading.{HasStore, IsRead, Reads};

use cell_emit::cell::CellList;
use cell_emit::pending::Site;
use cell_emit::steps;
use std::alloc::{AllocError, Global};
use ten_form::design::Signal;
use ten_form::store::Store;

/// The width of a memory's words in bits.
fn word_width(signals: &[Signal], memory: u32) -> u8
    requires { IsOf IsMem (slice_get (map row_of signals.now) memory) }
    ensures wide { 1 ≤ result }
    ensures narrow { result ≤ 128 }
    ensures is { result ≡ (signal_form (map row_of signals.now) memory).width }
{
    let signal = &signals[memory as usize];
    (signal.left.abs_diff(signal.right) + 1) as u8
}

/// The slots of a store's registers: four cells.
fn read_one(
    alloc: Global,
    cells: &mut CellList,
    signals: &[Signal],
    store: Store,
) -> Result<Site, AllocError>
    requires memory { IsOf IsMem (slice_get (map row_of signals.now) store.memory) }
    requires few { mask_register store < 2 ^ 32 }
    ensures grows { Grows (list_of cells.old) (list_of cells.new) }
    ensures longer { IfOk result (λ s. Longer (λ z. HasStore z store) 4 (list_of cells.old) (list_of cells.new)) }
    ensures read { IfOk result (λ s. IsRead (map row_of signals.now) (list_of cells.new) store s) }
{
    let width = word_width(signals, store.memory);
    let enable = steps::register(alloc, cells, store.first, 1)?;
    let word = steps::register(alloc, cells, store.first + 1, 32)?;
    let value = steps::register(alloc, cells, store.first + 2, width)?;
    let mask = steps::register(alloc, cells, store.first + 3, width)?;
    Ok(Site {
        memory: store.memory,
        enable,
        word,
        value,
        mask,
    })
}

/// Reads the registers of stores as sites, behind those that are there: four cells each. An `Err` is want of memory.
pub fn read(
    alloc: Global,
    cells: &mut CellList,
    stores: &[Store],
    signals: &[Signal],
    sites: &mut Vec<Site>,
) -> Result<(), AllocError>
    requires memories { All (λ x. IsOf IsMem (slice_get (map row_of signals.now) x.memory)) stores.now }
    requires few { All (λ x. mask_register x < 2 ^ 32) stores.now }
    ensures grows { Grows (list_of cells.old) (list_of cells.new) }
    ensures reads { OnOk result (Reads (map row_of signals.now) stores.now (list_of cells.old) (list_of cells.new) sites.old.items sites.new.items) }
    ensures memories { OnOk result (memories_of sites.new.items ≡ memories_of sites.old.items ++ map (λ (x : Store). x.memory) stores.now) }
{
    for store in stores {
        let site = read_one(alloc, cells, signals, *store)?;
        sites.push(site)?;
    }
    Ok(())
}
