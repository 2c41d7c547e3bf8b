//! What the names of a module are (IEEE 1364-2005, clauses 4.2 and 9.6).

ghost use Rattle.std.specs.Prelude.{◌≡◌, ◌&&◌, not, map, IfOk};
ghost use Rattle.std.specs.List.{list_any};
ghost use Rattle.elab_plain.specs.vl_flat.specs.Items as x;
ghost use Rattle.elab_plain.specs.vl_flat.specs.Kinds as k;
ghost use Rattle.elab_plain.specs.SeenItems.{seen_item, seen_module};
ghost use Rattle.elab_kinds.specs.Names.{has as has_lem};
ghost use Rattle.elab_kinds.specs.Facts.{facts, facts_of, variable_by, kind_by};

pub use crate::declared::{Declaration, Declarations};
use crate::declared::{declaration_at, declarations};
use crate::items::{controls_of, strays_of, writes_of};
use crate::locals::BodyRoles;
use crate::names::{NameSet, has};
use elab_plain::design::SigKind;
use elab_plain::items::{Item, Module};
use std::alloc::{AllocError, Global};

/// What the declarations of a module say of each name, and what its items do with it.
#[derive(Drop)]
pub struct Roles<'m> {
    /// What is said of each name.
    pub declared: Declarations<'m>,
    /// The names that control a `for`.
    pub controls: NameSet<'m>,
    /// The names that are named outside each `for` that they control.
    pub strays: NameSet<'m>,
    /// The names that combinational processes write.
    pub writes: NameSet<'m>,
}

/// The names that control a `for` of the items, and those that are named outside each `for` that they control.
fn loops_of(alloc: Global, items: &[Item]) -> Result<BodyRoles<'_>, AllocError>
    ensures controls { IfOk result (λ r. has_lem r.controls ≡ (λ t. list_any (k.item_controls t) (map seen_item items.entry.now))) }
    ensures strays { IfOk result (λ r. has_lem r.strays ≡ (λ t. list_any (k.item_strays t) (map seen_item items.entry.now))) }
{
    let controls = controls_of(alloc, items)?;
    let strays = strays_of(alloc, items)?;
    Ok(BodyRoles { controls, strays })
}

/// What the names of a module are, in a time that goes with its text.
pub fn make_roles(alloc: Global, m: &Module) -> Result<Roles<'_>, AllocError>
    ensures { IfOk result (λ r. facts_of r ≡ facts (seen_module m.entry.now)) }
{
    let items = m.items.as_slice();
    let declared = declarations(alloc, items)?;
    let writes = writes_of(alloc, items)?;
    let BodyRoles { controls, strays } = loops_of(alloc, items)?;
    Ok(Roles {
        declared,
        controls,
        strays,
        writes,
    })
}

/// The name is an input.
pub fn is_input(roles: &Roles<'_>, name: &[u8]) -> bool
    ensures table { result ≡ (facts_of roles.now name.now).input }
    ensures module { (m : x.Module) → facts_of roles.now ≡ facts m → result ≡ k.is_input m name.now }
{
    declaration_at(&roles.declared, name).input
}

/// The name is a loop variable, if it is a variable and not a connected output.
fn is_loop(roles: &Roles<'_>, valued: bool, name: &[u8]) -> bool
    ensures { result ≡ (not valued && ((facts_of roles.now name.now).controls && not (facts_of roles.now name.now).strays)) }
{
    !valued && has(&roles.controls, name) && !has(&roles.strays, name)
}

/// The kind of a variable.
fn variable_kind(roles: &Roles<'_>, wired: bool, valued: bool, name: &[u8]) -> SigKind
    requires { valued ≡ (facts_of roles.now name.now).valued }
    ensures { result ≡ variable_by (facts_of roles.now name.now) wired }
{
    if !wired && is_loop(roles, valued, name) {
        return SigKind::Loop;
    }
    if has(&roles.writes, name) {
        return SigKind::Comb;
    }
    SigKind::Var
}

/// The kind of a name by what the tables say of it.
fn kind_known(roles: &Roles<'_>, clock: bool, wired: bool, name: &[u8]) -> SigKind
    ensures { result ≡ kind_by (facts_of roles.now name.now) clock wired }
{
    if clock {
        return SigKind::Clock;
    }
    let declaration = declaration_at(&roles.declared, name);
    if declaration.memory {
        return SigKind::Mem;
    }
    if declaration.variable {
        return variable_kind(roles, wired, declaration.valued, name);
    }
    SigKind::Net
}

/// The kind of a name, of which is told whether it is a clock, and an output that is connected.
pub fn kind_of(roles: &Roles<'_>, clock: bool, wired: bool, name: &[u8]) -> SigKind
    ensures table { result ≡ kind_by (facts_of roles.now name.now) clock wired }
    ensures module { (m : x.Module) → facts_of roles.now ≡ facts m → result ≡ k.kind_of m clock wired name.now }
{
    kind_known(roles, clock, wired, name)
}
