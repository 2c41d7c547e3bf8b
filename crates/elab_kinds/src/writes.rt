//! The names that statements write.

ghost use Rattle.std.specs.Prelude.{◌≡◌, OnOk, codes};
ghost use Rattle.std.specs.List.{list_any};
ghost use Rattle.std.specs.Str.{bytes_eq};
ghost use Rattle.elab_plain.specs.vl_flat.specs.Surface as x;
ghost use Rattle.elab_plain.specs.vl_flat.specs.Uses.{first_is};
ghost use Rattle.elab_plain.specs.Seen.{seen, args_before};
ghost use Rattle.elab_kinds.specs.Names.{nothing, Adds};
ghost use Rattle.elab_kinds.specs.Parts.{writes_in, case_writes};

use crate::lefts::add_left_writes;
use crate::names::{NameSet, add};
use elab_plain::surface::{Argument, CaseItem, Ex, Statement};
use std::alloc::AllocError;

/// The name is `$fread`.
fn is_fread(name: &[u8]) -> bool
    ensures { result ≡ bytes_eq name.now (codes "$fread") }
{
    name == b"$fread".as_slice()
}

/// Adds the name that an argument is.
fn add_named<'m>(names: &mut NameSet<'m>, e: &'m Ex) -> Result<(), AllocError>
    ensures { OnOk result (Adds names.old names.new nothing (λ t. first_is t (x.MoreArgs (seen e.entry.now) x.NoArgs))) }
{
    match e {
        Ex::Named(_, name, _) => add(names, name.as_slice()),
        _ => Ok(()),
    }
}

/// Adds the name that the first argument is.
fn add_first<'m>(names: &mut NameSet<'m>, given: &'m [Argument]) -> Result<(), AllocError>
    ensures { OnOk result (Adds names.old names.new nothing (λ t. first_is t (args_before given.entry.now x.NoArgs))) }
{
    match given {
        [Argument::Value(e), ..] => add_named(names, e),
        _ => Ok(()),
    }
}

/// Adds the names that a statement writes.
#[cycle(writes)]
pub(crate) fn add_writes<'m>(names: &mut NameSet<'m>, a: &'m Statement) -> Result<(), AllocError>
    ensures { OnOk result (Adds names.old names.new nothing (λ t. writes_in t a.entry.now)) }
{
    match a {
        Statement::Null(_) => Ok(()),
        Statement::Block(_, parts) => add_all_writes(names, parts.as_slice()),
        Statement::If(_, _, chosen, other) => {
            add_writes(names, chosen)?;
            add_writes(names, other)
        }
        Statement::Case(_, _, _, items) => add_case_writes(names, items.as_slice()),
        Statement::For(_, target, _, _, stepped, _, body) => {
            add_left_writes(names, target)?;
            add_left_writes(names, stepped)?;
            add_writes(names, body)
        }
        Statement::Repeat(_, _, body) => add_writes(names, body),
        Statement::Assign(_, _, target, _) => add_left_writes(names, target),
        Statement::Task(_, name, given) => {
            if !is_fread(name.as_slice()) {
                return Ok(());
            }
            add_first(names, given.as_slice())
        }
    }
}

/// Adds those of statements.
#[cycle(writes)]
fn add_all_writes<'m>(names: &mut NameSet<'m>, parts: &'m [Statement]) -> Result<(), AllocError>
    ensures { OnOk result (Adds names.old names.new nothing (λ t. list_any (writes_in t) parts.entry.now)) }
{
    for a in parts {
        add_writes(names, a)?;
    }
    Ok(())
}

/// Adds those of an item of a case.
#[cycle(writes)]
fn add_item_writes<'m>(names: &mut NameSet<'m>, one: &'m CaseItem) -> Result<(), AllocError>
    ensures { OnOk result (Adds names.old names.new nothing (λ t. case_writes t one.entry.now)) }
{
    match one {
        CaseItem::Labelled(_, body) => add_writes(names, body),
        CaseItem::Default(body) => add_writes(names, body),
    }
}

/// Adds those of items of a case.
#[cycle(writes)]
fn add_case_writes<'m>(names: &mut NameSet<'m>, items: &'m [CaseItem]) -> Result<(), AllocError>
    ensures { OnOk result (Adds names.old names.new nothing (λ t. list_any (case_writes t) items.entry.now)) }
{
    for one in items {
        add_item_writes(names, one)?;
    }
    Ok(())
}
