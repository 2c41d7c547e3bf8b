//! The names in left sides.

ghost use Rattle.std.specs.Prelude.{◌≡◌, OnOk};
ghost use Rattle.std.specs.List.{list_any};
ghost use Rattle.elab_plain.specs.vl_flat.specs.Statements.{first_name as first_name_lem, first_among as first_among_lem};
ghost use Rattle.elab_plain.specs.SeenStatements.{seen_left};
ghost use Rattle.elab_kinds.specs.Names.{has, nothing, Adds};
ghost use Rattle.elab_kinds.specs.Parts.{target_uses, target_writes};

use crate::names::{NameSet, add, add_shown};
use crate::uses::add_selects;
use elab_plain::surface::Left;
use std::alloc::AllocError;

/// The first name in a left side.
#[cycle(first)]
pub(crate) fn first_name(l: &Left) -> &[u8]
    ensures { result.now ≡ first_name_lem (seen_left l.entry.now) }
{
    match l {
        Left::Name(_, name, _) => name.as_slice(),
        Left::List(_, parts) => match parts.as_slice() {
            [] => &[],
            [first, ..] => first_name(first),
        },
    }
}

/// Adds the names in a left side that aren't hidden.
#[cycle(left_uses)]
pub(crate) fn add_left_uses<'m>(
    names: &mut NameSet<'m>,
    hidden: &NameSet<'_>,
    l: &'m Left,
) -> Result<(), AllocError>
    ensures { OnOk result (Adds names.old names.new (has hidden.now) (λ t. target_uses t l.entry.now)) }
{
    match l {
        Left::Name(_, name, selects) => {
            add_shown(names, hidden, name.as_slice())?;
            add_selects(names, hidden, selects.as_slice())
        }
        Left::List(_, parts) => add_part_uses(names, hidden, parts.as_slice()),
    }
}

/// Adds the names in left sides.
#[cycle(left_uses)]
fn add_part_uses<'m>(
    names: &mut NameSet<'m>,
    hidden: &NameSet<'_>,
    parts: &'m [Left],
) -> Result<(), AllocError>
    ensures { OnOk result (Adds names.old names.new (has hidden.now) (λ t. list_any (target_uses t) parts.entry.now)) }
{
    for l in parts {
        add_left_uses(names, hidden, l)?;
    }
    Ok(())
}

/// Adds the names that an assignment to a left side writes.
#[cycle(left_writes)]
pub(crate) fn add_left_writes<'m>(names: &mut NameSet<'m>, l: &'m Left) -> Result<(), AllocError>
    ensures { OnOk result (Adds names.old names.new nothing (λ t. target_writes t l.entry.now)) }
{
    match l {
        Left::Name(_, name, _) => add(names, name.as_slice()),
        Left::List(_, parts) => add_part_writes(names, parts.as_slice()),
    }
}

/// Adds the names that an assignment to left sides writes.
#[cycle(left_writes)]
fn add_part_writes<'m>(names: &mut NameSet<'m>, parts: &'m [Left]) -> Result<(), AllocError>
    ensures { OnOk result (Adds names.old names.new nothing (λ t. list_any (target_writes t) parts.entry.now)) }
{
    for l in parts {
        add_left_writes(names, l)?;
    }
    Ok(())
}
