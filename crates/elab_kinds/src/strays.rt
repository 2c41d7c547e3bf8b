//! The names that statements name outside each `for` that they control.

ghost use Rattle.std.specs.Prelude.{◌≡◌, ◌||◌, not, OnOk, IfOk};
ghost use Rattle.std.specs.List.{list_any};
ghost use Rattle.std.specs.Str.{bytes_eq};
ghost use Rattle.elab_kinds.specs.Names.{has, nothing, Adds};
ghost use Rattle.elab_kinds.specs.Parts.{ex_uses, target_uses, strays_in, case_strays};

use crate::lefts::{add_left_uses, first_name};
use crate::names::NameSet;
use crate::uses::{add_all_uses, add_argument_uses, add_uses};
use elab_plain::surface::{CaseItem, Ex, Left, Statement};
use std::alloc::AllocError;

/// Hides a name. Whether it wasn't hidden before.
fn hide<'m>(hidden: &mut NameSet<'m>, name: &'m [u8]) -> Result<bool, AllocError>
    ensures hidden { OnOk result (Adds hidden.old hidden.new nothing (λ t. bytes_eq t name.entry.now)) }
    ensures is_new { IfOk result (λ r. r ≡ not (has hidden.old name.entry.now)) }
{
    let is_new = hidden.insert(name)?;
    Ok(is_new)
}

/// Hides a name no more, if it wasn't hidden before.
fn show(hidden: &mut NameSet<'_>, is_new: bool, name: &[u8])
    ensures { (hides : _) → is_new ≡ not (hides name.now) → has hidden.old ≡ (λ t. hides t || bytes_eq t name.now) → has hidden.new ≡ hides }
{
    if is_new {
        hidden.swap_remove(name);
    }
}

/// Adds the names in the assignments and the test of a `for` that aren't hidden.
fn add_head_uses<'m>(
    names: &mut NameSet<'m>,
    hidden: &NameSet<'_>,
    target: &'m Left,
    start: &'m Ex,
    test: &'m Ex,
    stepped: &'m Left,
    step: &'m Ex,
) -> Result<(), AllocError>
    ensures { OnOk result (Adds names.old names.new (has hidden.now) (λ t.
        target_uses t target.entry.now || (ex_uses t start.entry.now || (ex_uses t test.entry.now || (target_uses t stepped.entry.now || ex_uses t step.entry.now))))) }
{
    add_left_uses(names, hidden, target)?;
    add_uses(names, hidden, start)?;
    add_uses(names, hidden, test)?;
    add_left_uses(names, hidden, stepped)?;
    add_uses(names, hidden, step)
}

/// Adds the names of a statement that aren't hidden, and stand outside each `for` that they control.
#[cycle(strays)]
pub(crate) fn add_strays<'m>(
    names: &mut NameSet<'m>,
    hidden: &mut NameSet<'m>,
    a: &'m Statement,
) -> Result<(), AllocError>
    ensures names { OnOk result (Adds names.old names.new (has hidden.old) (λ t. strays_in t a.entry.now)) }
    ensures hidden { OnOk result (has hidden.new ≡ has hidden.old) }
{
    match a {
        Statement::Null(_) => Ok(()),
        Statement::Block(_, parts) => add_all_strays(names, hidden, parts.as_slice()),
        Statement::If(_, test, chosen, other) => {
            add_uses(names, hidden, test)?;
            add_strays(names, hidden, chosen)?;
            add_strays(names, hidden, other)
        }
        Statement::Case(_, _, subject, items) => {
            add_uses(names, hidden, subject)?;
            add_case_strays(names, hidden, items.as_slice())
        }
        Statement::For(_, target, start, test, stepped, step, body) => {
            let name = first_name(target);
            let is_new = hide(hidden, name)?;
            add_head_uses(names, hidden, target, start, test, stepped, step)?;
            add_strays(names, hidden, body)?;
            show(hidden, is_new, name);
            Ok(())
        }
        Statement::Repeat(_, count, body) => {
            add_uses(names, hidden, count)?;
            add_strays(names, hidden, body)
        }
        Statement::Assign(_, _, target, value) => {
            add_left_uses(names, hidden, target)?;
            add_uses(names, hidden, value)
        }
        Statement::Task(_, _, given) => add_argument_uses(names, hidden, given.as_slice()),
    }
}

/// Adds those of statements.
#[cycle(strays)]
fn add_all_strays<'m>(
    names: &mut NameSet<'m>,
    hidden: &mut NameSet<'m>,
    parts: &'m [Statement],
) -> Result<(), AllocError>
    ensures names { OnOk result (Adds names.old names.new (has hidden.old) (λ t. list_any (strays_in t) parts.entry.now)) }
    ensures hidden { OnOk result (has hidden.new ≡ has hidden.old) }
{
    for a in parts {
        add_strays(names, hidden, a)?;
    }
    Ok(())
}

/// Adds those of an item of a case.
#[cycle(strays)]
fn add_item_strays<'m>(
    names: &mut NameSet<'m>,
    hidden: &mut NameSet<'m>,
    one: &'m CaseItem,
) -> Result<(), AllocError>
    ensures names { OnOk result (Adds names.old names.new (has hidden.old) (λ t. case_strays t one.entry.now)) }
    ensures hidden { OnOk result (has hidden.new ≡ has hidden.old) }
{
    match one {
        CaseItem::Labelled(labels, body) => {
            add_all_uses(names, hidden, labels.as_slice())?;
            add_strays(names, hidden, body)
        }
        CaseItem::Default(body) => add_strays(names, hidden, body),
    }
}

/// Adds those of items of a case.
#[cycle(strays)]
fn add_case_strays<'m>(
    names: &mut NameSet<'m>,
    hidden: &mut NameSet<'m>,
    items: &'m [CaseItem],
) -> Result<(), AllocError>
    ensures names { OnOk result (Adds names.old names.new (has hidden.old) (λ t. list_any (case_strays t) items.entry.now)) }
    ensures hidden { OnOk result (has hidden.new ≡ has hidden.old) }
{
    for one in items {
        add_item_strays(names, hidden, one)?;
    }
    Ok(())
}
