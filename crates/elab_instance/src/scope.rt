//! The scope of a module, and of a function in it.

ghost use Rattle.std.specs.Prelude.{◌≡◌, is_some, option_map};
ghost use Rattle.elab_plain.specs.vl_flat.specs.Processes.{is_clock as flat_is_clock};
ghost use Rattle.elab_plain.specs.vl_flat.specs.Connections as c;
ghost use Rattle.elab_plain.specs.Seen.{seen};
ghost use Rattle.elab_constant.specs.Seen.{binding_of, look, seen_scope};
ghost use Rattle.elab_instance.specs.Tables.{inside};

use elab_constant::scope::{Known, Names, Scope, found_in};
use elab_plain::design::SigKind;
use elab_plain::surface::Ex;

/// The scope of a function with these variables in a module with these names.
pub fn function_scope<'s, 'a>(names: &'s Names<'a>, locals: &'s Names<'a>) -> Scope<'s, 'a>
    ensures { seen_scope result ≡ inside (look names.now) (look locals.now) }
{
    Scope {
        module: names,
        locals: Some(locals),
    }
}

/// The name stands for something.
pub fn is_known(names: &Names<'_>, name: &[u8]) -> bool
    ensures { result ≡ is_some (look names.now name.now) }
{
    found_in(names, name).is_some()
}

/// The kind is that of a clock.
pub fn is_clock(kind: SigKind) -> bool
    ensures { result ≡ flat_is_clock kind }
{
    matches!(kind, SigKind::Clock)
}

/// What a name stands for is a clock.
pub fn is_clock_known(known: Option<Known>) -> bool
    ensures { result ≡ c.is_clock_binding (option_map binding_of known) }
{
    match known {
        Some(Known::Signal(_, shape)) => is_clock(shape.kind),
        _ => false,
    }
}

/// The expression is just a clock name, in parentheses or not.
#[tactic(auto, using(crate::proofs::Clocks::clocks))]
pub fn is_clock_name(names: &Names<'_>, e: &Ex) -> bool
    ensures { result ≡ c.is_clock_name (look names.now) (seen e.now) }
{
    match e {
        Ex::Named(_, name, selects) => match selects.as_slice() {
            [] => is_clock_known(found_in(names, name.as_slice())),
            _ => false,
        },
        Ex::Paren(_, a) => is_clock_name(names, a),
        _ => false,
    }
}
