//! What the names of a scope mean.

ghost use Rattle.std.specs.Prelude.{◌≡◌, ℕ, List, Some, IfOk, OnOk};
ghost use Rattle.vl_scope.specs.Declarations as spec;
ghost use Rattle.vl_scope.specs.Keys.{value_at};
ghost use Rattle.vl_scope.specs.Scopes.{look, look_within};

use crate::declaration::Declaration;
use crate::kind::{Class, Kind};
use indexmap::IndexMap;
use std::alloc::{AllocError, Global};

/// What the names of a scope mean.
#[derive(Drop)]
pub struct Scope<'a> {
    kinds: IndexMap<&'a [u8], Kind>,
}

impl<'a> Scope<'a> {
    /// The scope of these declarations.
    #[tactic(auto, unfolding(crate::specs::Scopes::look))]
    pub fn of(alloc: Global, declarations: &[Declaration<'a>]) -> Result<Scope<'a>, AllocError>
        ensures { IfOk result (λ scope. (t : List ℕ) → look scope t ≡ spec.kind_in (spec.all_seen declarations.now) t) }
    {
        let kinds = kinds_of(alloc, declarations)?;
        Ok(Scope { kinds })
    }

    /// What a name means, if it is declared.
    #[tactic(auto, unfolding(crate::specs::Scopes::look))]
    pub fn kind(&self, name: &[u8]) -> Option<Kind>
        ensures { result ≡ look self.now name.now }
    {
        self.kinds.get(name).copied()
    }
}

/// What a name means in a scope inside another, as a function's in its module's.
pub fn kind_within(outer: &Scope<'_>, inner: &Scope<'_>, name: &[u8]) -> Option<Kind>
    ensures { result ≡ look_within outer.now inner.now name.now }
{
    match inner.kind(name) {
        Some(kind) => Some(kind),
        None => outer.kind(name),
    }
}

/// Whether a class is a net or a variable.
fn is_signal(class: Class) -> bool
    ensures { result ≡ spec.is_signal class }
{
    matches!(class, Class::Net | Class::Variable)
}

/// Whether a declaration adds to what is known of a name of this class, and doesn't clash.
fn adds_to(known: Class, declaration: Declaration<'_>) -> bool
    ensures { result ≡ spec.adds_to known (spec.seen declaration.entry) }
{
    match known {
        Class::Port => declaration.direction.is_none() && is_signal(declaration.kind.class),
        _ => declaration.direction.is_some() && !declaration.typed && is_signal(known),
    }
}

/// A class, after a declaration that adds to it.
fn joined_class(known: Class, class: Class) -> Class
    ensures { result ≡ spec.joined_class known class }
{
    match known {
        Class::Port => class,
        _ => known,
    }
}

/// What is known and what a declaration adds.
fn joined(known: Kind, kind: Kind) -> Kind
    ensures { result ≡ spec.joined known kind }
{
    Kind {
        class: joined_class(known.class, kind.class),
        vector: known.vector || kind.vector,
    }
}

/// What a name means after one more declaration of it.
fn with_declaration(known: Option<Kind>, declaration: Declaration<'_>) -> Kind
    ensures { Some result ≡ spec.with_declaration known (spec.seen declaration.entry) }
{
    match known {
        None => declaration.kind,
        Some(known) => {
            if adds_to(known.class, declaration) {
                joined(known, declaration.kind)
            } else {
                known
            }
        }
    }
}

/// Adds a declaration to what names mean.
fn add<'a>(
    kinds: &mut IndexMap<&'a [u8], Kind>,
    declaration: Declaration<'a>,
) -> Result<(), AllocError>
    ensures { OnOk result ((t : List ℕ) → value_at kinds.new t ≡ spec.kind_after t (value_at kinds.old t) (spec.seen declaration.entry)) }
{
    let name = declaration.name.name.as_slice();
    let known = kinds.get(name).copied();
    kinds.insert(name, with_declaration(known, declaration))?;
    Ok(())
}

/// What the names of these declarations mean.
fn kinds_of<'a>(
    alloc: Global,
    declarations: &[Declaration<'a>],
) -> Result<IndexMap<&'a [u8], Kind>, AllocError>
    ensures { IfOk result (λ kinds. (t : List ℕ) → value_at kinds t ≡ spec.kind_in (spec.all_seen declarations.now) t) }
{
    let mut kinds = IndexMap::new(alloc);
    for declaration in declarations {
        add(&mut kinds, *declaration)?;
    }
    Ok(kinds)
}
