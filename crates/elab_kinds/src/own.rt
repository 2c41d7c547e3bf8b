//! How many signals a module declares.

ghost use Rattle.std.specs.Prelude.{◌≡◌, ◌+◌, ◌++◌, ◌∷◌, List, map, flat_map, IfOk, OnOk};
ghost use Rattle.indexmap.specs.IndexSet.{index_set_len};
ghost use Rattle.elab_plain.specs.vl_flat.specs.Items as x;
ghost use Rattle.elab_plain.specs.vl_flat.specs.Kinds.{signals_in};
ghost use Rattle.elab_plain.specs.SeenItems.{seen_declared, seen_item, seen_module};
ghost use Rattle.elab_kinds.specs.Names.{has};
ghost use Rattle.elab_kinds.specs.Sized.{count_new, own_signals};

use crate::names::NameSet;
use elab_plain::items::{Declared, Item, Module};
use indexmap::IndexSet;
use std::alloc::{AllocError, Global};

/// Adds the name of a declaration.
fn note<'m>(known: &mut NameSet<'m>, d: &'m Declared) -> Result<(), AllocError>
    ensures { OnOk result ((type : x.DataType) (others : List x.Declared) →
        index_set_len known.new + count_new (has known.new) others ≡ index_set_len known.old + count_new (has known.old) (seen_declared type d.entry.now ∷ others)) }
{
    known.insert(d.name.name.as_slice())?;
    Ok(())
}

/// Adds the names of declarations.
fn note_all<'m>(known: &mut NameSet<'m>, ds: &'m [Declared]) -> Result<(), AllocError>
    ensures { OnOk result ((type : x.DataType) (others : List x.Declared) →
        index_set_len known.new + count_new (has known.new) others ≡ index_set_len known.old + count_new (has known.old) (map (seen_declared type) ds.entry.now ++ others)) }
{
    for d in ds {
        note(known, d)?;
    }
    Ok(())
}

/// Adds the names that an item declares.
fn note_item<'m>(known: &mut NameSet<'m>, item: &'m Item) -> Result<(), AllocError>
    ensures { OnOk result ((others : List x.Declared) →
        index_set_len known.new + count_new (has known.new) others ≡ index_set_len known.old + count_new (has known.old) (signals_in (seen_item item.entry.now) ++ others)) }
{
    match item {
        Item::Signals(_, ds) => note_all(known, ds.as_slice()),
        _ => Ok(()),
    }
}

/// Adds the names that items declare.
fn note_items<'m>(known: &mut NameSet<'m>, items: &'m [Item]) -> Result<(), AllocError>
    ensures { OnOk result (index_set_len known.new ≡ index_set_len known.old + count_new (has known.old) (flat_map signals_in (map seen_item items.entry.now))) }
{
    for item in items {
        note_item(known, item)?;
    }
    Ok(())
}

/// What is kept of how many signals a module declares.
pub(crate) fn own_count(alloc: Global, m: &Module) -> Result<u32, AllocError>
    ensures { IfOk result (λ n. n ≡ own_signals (seen_module m.now)) }
{
    let mut known = IndexSet::new(alloc);
    let noted = note_items(&mut known, m.items.as_slice());
    noted.and(Ok(known.len().min(4294967295) as u32))
}

/// What is kept of how many signals each module declares.
pub(crate) fn own_counts(alloc: Global, modules: &[Module]) -> Result<Vec<u32>, AllocError>
    ensures { IfOk result (λ v. v.items ≡ map own_signals (map seen_module modules.now)) }
{
    let mut all = Vec::new(alloc);
    for m in modules {
        all.push(own_count(alloc, m)?)?;
    }
    Ok(all)
}
