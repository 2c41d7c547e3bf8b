//! The names in expressions.

ghost use Rattle.std.specs.Prelude.{◌≡◌, OnOk};
ghost use Rattle.std.specs.List.{list_any};
ghost use Rattle.elab_kinds.specs.Names.{has, Adds};
ghost use Rattle.elab_kinds.specs.Parts.{ex_uses, select_uses, argument_uses};

use crate::names::{NameSet, add_shown};
use elab_plain::surface::{Argument, Ex, Select};
use std::alloc::AllocError;

/// Adds the names in an expression that aren't hidden.
#[cycle(uses)]
pub(crate) fn add_uses<'m>(
    names: &mut NameSet<'m>,
    hidden: &NameSet<'_>,
    e: &'m Ex,
) -> Result<(), AllocError>
    ensures { OnOk result (Adds names.old names.new (has hidden.now) (λ t. ex_uses t e.entry.now)) }
{
    match e {
        Ex::Number(_, _) => Ok(()),
        Ex::Text(_, _) => Ok(()),
        Ex::Named(_, name, selects) => {
            add_shown(names, hidden, name.as_slice())?;
            add_selects(names, hidden, selects.as_slice())
        }
        Ex::Paren(_, a) => add_uses(names, hidden, a),
        Ex::Unary(_, _, a) => add_uses(names, hidden, a),
        Ex::Binary(_, _, a, b) => {
            add_uses(names, hidden, a)?;
            add_uses(names, hidden, b)
        }
        Ex::Choice(_, test, a, b) => {
            add_uses(names, hidden, test)?;
            add_uses(names, hidden, a)?;
            add_uses(names, hidden, b)
        }
        Ex::Joined(_, parts) => add_all_uses(names, hidden, parts.as_slice()),
        Ex::Repeated(_, count, parts) => {
            add_uses(names, hidden, count)?;
            add_all_uses(names, hidden, parts.as_slice())
        }
        Ex::Called(_, _, given) => add_all_uses(names, hidden, given.as_slice()),
        Ex::System(_, _, given) => add_argument_uses(names, hidden, given.as_slice()),
    }
}

/// Adds the names in expressions.
#[cycle(uses)]
pub(crate) fn add_all_uses<'m>(
    names: &mut NameSet<'m>,
    hidden: &NameSet<'_>,
    es: &'m [Ex],
) -> Result<(), AllocError>
    ensures { OnOk result (Adds names.old names.new (has hidden.now) (λ t. list_any (ex_uses t) es.entry.now)) }
{
    for e in es {
        add_uses(names, hidden, e)?;
    }
    Ok(())
}

/// Adds the names in a select.
#[cycle(uses)]
fn add_select<'m>(
    names: &mut NameSet<'m>,
    hidden: &NameSet<'_>,
    one: &'m Select,
) -> Result<(), AllocError>
    ensures { OnOk result (Adds names.old names.new (has hidden.now) (λ t. select_uses t one.entry.now)) }
{
    match one {
        Select::Index(_, i) => add_uses(names, hidden, i),
        Select::Range(_, _, left, right) => {
            add_uses(names, hidden, left)?;
            add_uses(names, hidden, right)
        }
    }
}

/// Adds the names in selects.
#[cycle(uses)]
pub(crate) fn add_selects<'m>(
    names: &mut NameSet<'m>,
    hidden: &NameSet<'_>,
    selects: &'m [Select],
) -> Result<(), AllocError>
    ensures { OnOk result (Adds names.old names.new (has hidden.now) (λ t. list_any (select_uses t) selects.entry.now)) }
{
    for one in selects {
        add_select(names, hidden, one)?;
    }
    Ok(())
}

/// Adds the names in an argument.
#[cycle(uses)]
fn add_argument<'m>(
    names: &mut NameSet<'m>,
    hidden: &NameSet<'_>,
    one: &'m Argument,
) -> Result<(), AllocError>
    ensures { OnOk result (Adds names.old names.new (has hidden.now) (λ t. argument_uses t one.entry.now)) }
{
    match one {
        Argument::Null => Ok(()),
        Argument::Value(e) => add_uses(names, hidden, e),
    }
}

/// Adds the names in arguments of a system call.
#[cycle(uses)]
pub(crate) fn add_argument_uses<'m>(
    names: &mut NameSet<'m>,
    hidden: &NameSet<'_>,
    given: &'m [Argument],
) -> Result<(), AllocError>
    ensures { OnOk result (Adds names.old names.new (has hidden.now) (λ t. list_any (argument_uses t) given.entry.now)) }
{
    for one in given {
        add_argument(names, hidden, one)?;
    }
    Ok(())
}
