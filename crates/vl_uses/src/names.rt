//! What names mean at a place.

ghost use Rattle.std.specs.Prelude.{◌≡◌};
ghost use Rattle.vl_uses.specs.Walks.{means};

use vl_scope::kind::Kind;
use vl_scope::scope::{Scope, kind_within};

/// The scopes that hold at a place: those of a module, and of a function in it, which are empty outside functions.
#[derive(Clone, Copy)]
pub struct Names<'s> {
    /// What the module declares.
    pub outer: &'s Scope<'s>,
    /// What the function declares.
    pub inner: &'s Scope<'s>,
    /// What the function declares, but for its result.
    pub called: &'s Scope<'s>,
}

/// What a name means that is read or assigned.
pub fn read_kind(names: &Names<'_>, name: &[u8]) -> Option<Kind>
    ensures { result ≡ (means names.now).read name.now }
{
    kind_within(names.outer, names.inner, name)
}

/// What a name means that is called.
pub fn called_kind(names: &Names<'_>, name: &[u8]) -> Option<Kind>
    ensures { result ≡ (means names.now).called name.now }
{
    kind_within(names.outer, names.called, name)
}
