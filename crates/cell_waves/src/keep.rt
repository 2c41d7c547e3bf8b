//! The registers of a segment's pending writes to words.

ghost use Rattle.std.specs.Prelude.{◌≡◌, ◌<◌, ◌^◌, ◌++◌, map, All, OnOk};
ghost use Rattle.cell_emit.specs.declared.pending.Site.{Site};
ghost use Rattle.ten_form.specs.declared.store.Store.{Store};
ghost use Rattle.ten_form.specs.Holding.{mask_register};
ghost use Rattle.cell_waves.specs.Keeping.{keep_writes, Keeps};

use cell_emit::cell::Write;
use cell_emit::pending::Site;
use std::alloc::AllocError;
use ten_form::store::Store;

/// Adds the writes of a store's registers from a site's slots.
fn keep_one(store: Store, site: Site, sets: &mut Vec<Write>) -> Result<(), AllocError>
    requires { mask_register store < 2 ^ 32 }
    ensures { OnOk result (sets.new.items ≡ sets.old.items ++ keep_writes store site) }
{
    sets.push(Write::Reg(store.first, site.enable))?;
    sets.push(Write::Reg(store.first + 1, site.word))?;
    sets.push(Write::Reg(store.first + 2, site.value))?;
    sets.push(Write::Reg(store.first + 3, site.mask))?;
    Ok(())
}

/// Adds the writes of the registers of a segment's stores from the slots of its sites, one for one: what the segment made pending
/// (IEEE 1364-2005, clause 9.2.2) is kept in them. An `Err` is want of memory.
pub fn keep(stores: &[Store], sites: &[Site], sets: &mut Vec<Write>) -> Result<(), AllocError>
    requires same { map (λ (x : Store). x.memory) stores.now ≡ map (λ (s : Site). s.memory) sites.now }
    requires few { All (λ x. mask_register x < 2 ^ 32) stores.now }
    ensures { OnOk result (Keeps stores.now sites.now sets.old.items sets.new.items) }
{
    for (number, store) in stores.iter().enumerate() {
        keep_one(*store, sites[number], sets)?;
    }
    Ok(())
}
