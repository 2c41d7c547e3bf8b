//! What the variables of a function are (IEEE 1364-2005, clauses 9.6 and 10.4).

ghost use Rattle.std.specs.Prelude.{◌≡◌, IfOk};
ghost use Rattle.elab_plain.specs.vl_flat.specs.Items as x;
ghost use Rattle.elab_plain.specs.vl_flat.specs.Functions as f;
ghost use Rattle.elab_plain.specs.SeenStatements.{seen_statement};
ghost use Rattle.elab_kinds.specs.Names.{has as has_lem};
ghost use Rattle.elab_kinds.specs.Parts.{controls_in, strays_in};
ghost use Rattle.elab_kinds.specs.Facts.{body_facts, body_facts_of, free_kind};

use crate::controls::add_controls;
use crate::names::{NameSet, has};
use crate::strays::add_strays;
use elab_plain::design::SigKind;
use elab_plain::surface::Statement;
use indexmap::IndexSet;
use std::alloc::{AllocError, Global};

/// What a body, or items, do with each name.
#[derive(Drop)]
pub struct BodyRoles<'m> {
    /// The names that control a `for`.
    pub controls: NameSet<'m>,
    /// The names that are named outside each `for` that they control.
    pub strays: NameSet<'m>,
}

/// The names that control a `for` of a body.
fn body_controls(alloc: Global, body: &Statement) -> Result<NameSet<'_>, AllocError>
    ensures { IfOk result (λ s. has_lem s ≡ (λ t. controls_in t body.entry.now)) }
{
    let hidden = IndexSet::new(alloc);
    let mut controls = IndexSet::new(alloc);
    add_controls(&mut controls, &hidden, body).and(Ok(controls))
}

/// The names that a body names outside each `for` that they control.
fn body_strays(alloc: Global, body: &Statement) -> Result<NameSet<'_>, AllocError>
    ensures { IfOk result (λ s. has_lem s ≡ (λ t. strays_in t body.entry.now)) }
{
    let mut hidden = IndexSet::new(alloc);
    let mut strays = IndexSet::new(alloc);
    add_strays(&mut strays, &mut hidden, body).and(Ok(strays))
}

/// What a body does with names, in a time that goes with its text.
pub fn body_roles(alloc: Global, body: &Statement) -> Result<BodyRoles<'_>, AllocError>
    ensures { IfOk result (λ r. body_facts_of r ≡ body_facts (seen_statement body.entry.now)) }
{
    let controls = body_controls(alloc, body)?;
    let strays = body_strays(alloc, body)?;
    Ok(BodyRoles { controls, strays })
}

/// The kind of a function's variable by what the tables say of it.
fn kind_known(roles: &BodyRoles<'_>, is_free: bool, name: &[u8]) -> SigKind
    ensures { result ≡ free_kind is_free (body_facts_of roles.now name.now) }
{
    if is_free && has(&roles.controls, name) && !has(&roles.strays, name) {
        SigKind::Loop
    } else {
        SigKind::Var
    }
}

/// The kind of a function's variable, of which is told whether it is neither an input nor the result.
pub fn local_kind(roles: &BodyRoles<'_>, is_free: bool, name: &[u8]) -> SigKind
    ensures known { result ≡ free_kind is_free (body_facts_of roles.now name.now) }
    ensures local { (a : x.Function) (l : x.Local) → body_facts_of roles.now ≡ body_facts a.body → l.is_free ≡ is_free → l.name.name ≡ name.now → result ≡ f.local_kind a l }
{
    kind_known(roles, is_free, name)
}
