//! The update of words.

ghost use Rattle.std.specs.Prelude.{◌≡◌, ◌++◌, map, OnOk};
ghost use Rattle.cell_emit.specs.declared.pending.Site.{Site};
ghost use Rattle.ten_form.specs.declared.store.Store.{Store};
ghost use Rattle.cell_waves.specs.Keeping.{each_written};
ghost use Rattle.cell_waves.specs.Applying.{apply_writes, Applies};

use cell_emit::cell::Write;
use cell_emit::pending::Site;
use std::alloc::AllocError;
use ten_form::store::Store;

/// Adds the write of a store's word from its slots, and that of its register that says whether it writes one. `here` is a slot that
/// holds 0.
fn write(store: Store, site: Site, here: u32, sets: &mut Vec<Write>) -> Result<(), AllocError>
    ensures { OnOk result (sets.new.items ≡ sets.old.items ++ apply_writes here store site) }
{
    sets.push(Write::Mem(site.memory, site.enable, site.word, site.value, site.mask))?;
    sets.push(Write::Reg(store.first, here))?;
    Ok(())
}

/// The update of words (IEEE 1364-2005, clause 11.4): adds the writes by which stores in order write their words from the slots of
/// their sites, one for one, and write none from then on. `here` is a slot that holds 0. An `Err` is want of memory.
pub fn apply(
    stores: &[Store],
    sites: &[Site],
    here: u32,
    sets: &mut Vec<Write>,
) -> Result<(), AllocError>
    requires same { map (λ (x : Store). x.memory) stores.now ≡ map (λ (s : Site). s.memory) sites.now }
    ensures writes { OnOk result (sets.new.items ≡ sets.old.items ++ each_written (apply_writes here) stores.now sites.now) }
    ensures applies { OnOk result (Applies stores.now sites.now here sets.old.items sets.new.items) }
{
    for (number, store) in stores.iter().enumerate() {
        write(*store, sites[number], here, sets)?;
    }
    Ok(())
}
