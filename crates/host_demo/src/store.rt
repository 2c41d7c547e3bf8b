//! The store of the demonstration.

ghost use Rattle.std.specs.Prelude.{◌≡◌, IfOk, OnOk};
ghost use Rattle.std.specs.String.{string_bytes};
ghost use Rattle.host_files.specs.fab_io.specs.Memory as m;
ghost use Rattle.host_files.specs.fab_io.specs.Outside.{with_file};
ghost use Rattle.host_demo.specs.Sources as s;
ghost use Rattle.host_demo.specs.Texts as t;

use crate::source::source_text;
use host_files::steady_store::SteadyStore;
use std::alloc::{AllocError, Global};

/// The name of the source of the tenant of a number.
fn name_of(alloc: Global, number: u32) -> Result<String, AllocError>
    ensures { IfOk result (λ name. string_bytes name ≡ s.name_of number) }
{
    let digits = number.to_string(alloc)?;
    let mut name = String::from_str(alloc, "t")?;
    name.push_str(&digits)?;
    name.push_str(".v")?;
    Ok(name)
}

/// Adds the source of the tenant of a number.
fn add_source(alloc: Global, number: u32, store: &mut SteadyStore) -> Result<(), AllocError>
    ensures { OnOk result (m.files_of store.new.files ≡ with_file (s.name_of number) (t.source number) (m.files_of store.old.files)) }
{
    let name = name_of(alloc, number)?;
    let text = source_text(alloc, number)?;
    store.add(&name, &text)
}

/// A store that never fails, with the sources of so many tenants, and no other file.
pub fn store_of(alloc: Global, tenants: u32) -> Result<SteadyStore, AllocError>
    ensures { IfOk result (λ store. m.files_of store.files ≡ s.files_of tenants) }
{
    let mut store = SteadyStore::new(alloc);
    for before in 0..tenants {
        add_source(alloc, before + 1, &mut store)?;
    }
    Ok(store)
}
