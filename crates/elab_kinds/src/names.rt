//! Sets of names.

ghost use Rattle.std.specs.Prelude.{◌≡◌, ℕ, List, OnOk};
ghost use Rattle.std.specs.Str.{bytes_eq};
ghost use Rattle.elab_kinds.specs.Names.{has as has_lem, nothing, Adds};

use indexmap::IndexSet;
use std::alloc::AllocError;

/// A set of names.
pub type NameSet<'m> = IndexSet<&'m [u8]>;

/// The name is in the set.
pub fn has(names: &NameSet<'_>, name: &[u8]) -> bool
    ensures { result ≡ has_lem names.now name.now }
{
    names.contains(name)
}

/// Adds a name.
pub(crate) fn add<'m>(names: &mut NameSet<'m>, name: &'m [u8]) -> Result<(), AllocError>
    ensures { OnOk result (Adds names.old names.new nothing (λ t. bytes_eq t name.entry.now)) }
{
    names.insert(name)?;
    Ok(())
}

/// Adds a name that isn't hidden.
pub(crate) fn add_shown<'m>(
    names: &mut NameSet<'m>,
    hidden: &NameSet<'_>,
    name: &'m [u8],
) -> Result<(), AllocError>
    ensures { OnOk result (Adds names.old names.new (has_lem hidden.now) (λ t. bytes_eq t name.entry.now)) }
{
    if has(hidden, name) {
        return Ok(());
    }
    add(names, name)
}
