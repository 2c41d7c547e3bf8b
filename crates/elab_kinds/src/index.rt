//! Modules by name.

ghost use Rattle.std.specs.Prelude.{◌≡◌, ℕ, List, [], map, IfOk, OnOk};
ghost use Rattle.std.specs.Str.{bytes_eq};
ghost use Rattle.elab_plain.specs.vl_flat.specs.Items as x;
ghost use Rattle.elab_plain.specs.SeenItems.{seen_module};
ghost use Rattle.elab_kinds.specs.Places.{place_named, place_in, place_after, place_of, IsPlaceOf};

use elab_plain::items::Module;
use indexmap::IndexMap;
use std::alloc::{AllocError, Global};

/// The place of the first module of each name.
#[derive(Drop)]
pub struct Index<'m> {
    /// The places by names.
    pub places: IndexMap<&'m [u8], usize>,
}

/// Gives a name a place, unless it has one.
fn add_place<'m>(
    places: &mut IndexMap<&'m [u8], usize>,
    name: &'m [u8],
    place: usize,
) -> Result<(), AllocError>
    ensures { OnOk result ((t : List ℕ) → place_in places.new t ≡ place_after (place_in places.old t) (bytes_eq t name.entry.now) place) }
{
    if places.contains_key(name) {
        return Ok(());
    }
    places.insert(name, place)?;
    Ok(())
}

/// Gives the names of modules their places.
fn add_places<'m>(
    places: &mut IndexMap<&'m [u8], usize>,
    modules: &'m [Module],
) -> Result<(), AllocError>
    requires { place_in places.old ≡ place_named [] }
    ensures { OnOk result (place_in places.new ≡ place_named (map seen_module modules.entry.now)) }
{
    for i in 0..modules.len() {
        add_place(places, modules[i].name.name.as_slice(), i)?;
    }
    Ok(())
}

/// The places of the first modules of their names.
pub fn index_of(alloc: Global, modules: &[Module]) -> Result<Index<'_>, AllocError>
    ensures { IfOk result (λ s. place_of s ≡ place_named (map seen_module modules.entry.now)) }
{
    let mut places = IndexMap::new(alloc);
    add_places(&mut places, modules).and(Ok(Index { places }))
}

/// The place of the first module of this name.
pub fn module_at(index: &Index<'_>, name: &[u8]) -> Option<usize>
    ensures place { result ≡ place_of index.now name.now }
    ensures module { (ms : List x.Module) → place_of index.now ≡ place_named ms → IsPlaceOf ms name.now result }
{
    index.places.get(name).copied()
}
