//! Where a statement stands.

ghost use Rattle.std.specs.Prelude.{◌≡◌};
ghost use Rattle.vl_check.specs.Bodies as b;

use vl_design::design::{ProcKind, Signal};

/// What a statement is for.
#[derive(Clone, Copy)]
pub(crate) enum Role {
    /// It is done once, at time zero.
    Initial,
    /// A clock's edge begins it.
    Clocked,
    /// It follows what it reads.
    Combinational,
    /// It is the body of a function.
    Function,
}

/// Where a statement stands.
#[derive(Clone, Copy)]
pub(crate) struct Setting<'a> {
    /// What it is for.
    pub(crate) role: Role,
    /// The signals of the design.
    pub(crate) shared: &'a [Signal],
    /// Those of its function, whose numbers follow.
    pub(crate) own: &'a [Signal],
}

/// What a process of this kind is for.
pub(crate) fn role_of(kind: ProcKind) -> Role
    ensures { result ≡ b.role_of kind }
{
    match kind {
        ProcKind::Init => Role::Initial,
        ProcKind::Rise | ProcKind::Fall => Role::Clocked,
        ProcKind::Comb | ProcKind::Assign => Role::Combinational,
    }
}
