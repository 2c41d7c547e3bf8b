//! The names that control a `for` (IEEE 1364-2005, clause 9.6).

ghost use Rattle.std.specs.Prelude.{◌≡◌, OnOk};
ghost use Rattle.std.specs.List.{list_any};
ghost use Rattle.elab_kinds.specs.Names.{has, Adds};
ghost use Rattle.elab_kinds.specs.Parts.{controls_in, case_controls};

use crate::lefts::first_name;
use crate::names::{NameSet, add_shown};
use elab_plain::surface::{CaseItem, Statement};
use std::alloc::AllocError;

/// Adds the names that control a `for` of a statement and aren't hidden.
#[cycle(controls)]
pub(crate) fn add_controls<'m>(
    names: &mut NameSet<'m>,
    hidden: &NameSet<'_>,
    a: &'m Statement,
) -> Result<(), AllocError>
    ensures { OnOk result (Adds names.old names.new (has hidden.now) (λ t. controls_in t a.entry.now)) }
{
    match a {
        Statement::Null(_) => Ok(()),
        Statement::Block(_, parts) => add_all_controls(names, hidden, parts.as_slice()),
        Statement::If(_, _, chosen, other) => {
            add_controls(names, hidden, chosen)?;
            add_controls(names, hidden, other)
        }
        Statement::Case(_, _, _, items) => add_case_controls(names, hidden, items.as_slice()),
        Statement::For(_, target, _, _, _, _, body) => {
            add_shown(names, hidden, first_name(target))?;
            add_controls(names, hidden, body)
        }
        Statement::Repeat(_, _, body) => add_controls(names, hidden, body),
        Statement::Assign(_, _, _, _) => Ok(()),
        Statement::Task(_, _, _) => Ok(()),
    }
}

/// Adds those of statements.
#[cycle(controls)]
fn add_all_controls<'m>(
    names: &mut NameSet<'m>,
    hidden: &NameSet<'_>,
    parts: &'m [Statement],
) -> Result<(), AllocError>
    ensures { OnOk result (Adds names.old names.new (has hidden.now) (λ t. list_any (controls_in t) parts.entry.now)) }
{
    for a in parts {
        add_controls(names, hidden, a)?;
    }
    Ok(())
}

/// Adds those of an item of a case.
#[cycle(controls)]
fn add_item_controls<'m>(
    names: &mut NameSet<'m>,
    hidden: &NameSet<'_>,
    one: &'m CaseItem,
) -> Result<(), AllocError>
    ensures { OnOk result (Adds names.old names.new (has hidden.now) (λ t. case_controls t one.entry.now)) }
{
    match one {
        CaseItem::Labelled(_, body) => add_controls(names, hidden, body),
        CaseItem::Default(body) => add_controls(names, hidden, body),
    }
}

/// Adds those of items of a case.
#[cycle(controls)]
fn add_case_controls<'m>(
    names: &mut NameSet<'m>,
    hidden: &NameSet<'_>,
    items: &'m [CaseItem],
) -> Result<(), AllocError>
    ensures { OnOk result (Adds names.old names.new (has hidden.now) (λ t. list_any (case_controls t) items.entry.now)) }
{
    for one in items {
        add_item_controls(names, hidden, one)?;
    }
    Ok(())
}
