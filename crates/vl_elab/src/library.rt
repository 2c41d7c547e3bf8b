//! The modules of a source, and what is known of each.

ghost use Rattle.std.specs.Prelude.{◌≡◌, ◌<◌, map, length, slice_get, Some, IfOk, true, false};
ghost use Rattle.elab_plain.specs.vl_flat.specs.Items as x;
ghost use Rattle.elab_plain.specs.SeenItems.{seen_module};
ghost use Rattle.elab_kinds.specs.Facts.{facts, facts_of};
ghost use Rattle.elab_kinds.specs.Sized.{Tells};
ghost use Rattle.vl_elab.specs.Libraries.{IsLibrary, modules_of, sizes_by};

use elab_kinds::index::{Index, index_of};
use elab_kinds::roles::{Roles, make_roles};
use elab_kinds::sizes::{Sizes, no_sizes, sizes_of};
use elab_plain::items::Module;
use std::alloc::{AllocError, Global};

/// The modules of a source, and what is known of each.
#[derive(Drop)]
pub struct Library<'m> {
    /// The modules.
    pub modules: &'m [Module],
    /// What names are in each module.
    pub roles: Vec<Roles<'m>>,
    /// The modules by name.
    pub index: Index<'m>,
    /// How many signals and functions each has.
    pub sizes: Sizes<'m>,
    /// Signals and functions are numbered: else sizes tell of none, and only faults are right.
    pub numbered: bool,
}

/// What names are in each module.
fn all_roles<'m>(alloc: Global, modules: &'m [Module]) -> Result<Vec<Roles<'m>>, AllocError>
    ensures { IfOk result (λ v. map facts_of v.items ≡ map (λ m. facts (seen_module m)) modules.entry.now) }
{
    let mut all = Vec::new(alloc);
    for definition in modules {
        all.push(make_roles(alloc, definition)?)?;
    }
    Ok(all)
}

/// What is known of modules whose sizes are these.
fn library_with<'m>(
    alloc: Global,
    modules: &'m [Module],
    sizes: Sizes<'m>,
    numbered: bool,
) -> Result<Library<'m>, AllocError>
    requires { Tells sizes (sizes_by numbered (map seen_module modules.now)) }
    ensures modules { IfOk result (λ l. l.modules.now ≡ modules.entry.now) }
    ensures numbered { IfOk result (λ l. l.numbered ≡ numbered) }
    ensures known { IfOk result IsLibrary }
{
    let roles = all_roles(alloc, modules)?;
    let index = index_of(alloc, modules)?;
    Ok(Library {
        modules,
        roles,
        index,
        sizes,
        numbered,
    })
}

/// What is known of modules.
pub fn library_of<'m>(alloc: Global, modules: &'m [Module]) -> Result<Library<'m>, AllocError>
    ensures modules { IfOk result (λ l. l.modules.now ≡ modules.entry.now) }
    ensures numbered { IfOk result (λ l. l.numbered ≡ true) }
    ensures known { IfOk result IsLibrary }
{
    let sizes = sizes_of(alloc, modules)?;
    library_with(alloc, modules, sizes, true)
}

/// What is known of modules whose signals and functions aren't numbered.
pub fn unnumbered_library<'m>(
    alloc: Global,
    modules: &'m [Module],
) -> Result<Library<'m>, AllocError>
    ensures modules { IfOk result (λ l. l.modules.now ≡ modules.entry.now) }
    ensures numbered { IfOk result (λ l. l.numbered ≡ false) }
    ensures known { IfOk result IsLibrary }
{
    let sizes = no_sizes(alloc, modules)?;
    library_with(alloc, modules, sizes, false)
}

/// The module of this number.
pub fn definition_at<'m>(library: &Library<'m>, number: usize) -> &'m Module
    requires { number < length library.now.modules.now }
    ensures { (m : x.Module) → slice_get (modules_of library.now) number ≡ Some m → seen_module result.now ≡ m }
{
    &library.modules[number]
}

/// What names are in the module of this number.
pub fn roles_at<'s, 'm>(library: &'s Library<'m>, number: usize) -> &'s Roles<'m>
    requires known { IsLibrary library.now }
    requires number { number < length library.now.modules.now }
    ensures { (m : x.Module) → slice_get (modules_of library.entry.now) number ≡ Some m → facts_of result.now ≡ facts m }
{
    &library.roles[number]
}
