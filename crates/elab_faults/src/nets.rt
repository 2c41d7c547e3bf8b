//! Expressions of nets alone (IEEE 1364-2005, clause 12.3.9.2).

ghost use Rattle.std.specs.Prelude.{◌≡◌, ◌&&◌, ◌∷◌, [], map, option_map};
ghost use Rattle.elab_plain.specs.vl_flat.specs.Surface as x;
ghost use Rattle.elab_plain.specs.vl_flat.specs.Connections as k;
ghost use Rattle.elab_plain.specs.Seen.{seen, selects_before};
ghost use Rattle.elab_plain.specs.Listed.{of_list};
ghost use Rattle.elab_constant.specs.Seen.{seen_scope, binding_of};

use elab_constant::constant::is_constant;
use elab_constant::scope::{Known, Scope, meaning};
use elab_plain::surface::{Ex, Select};
use vl_design::design::SigKind;

/// Both tests hold.
fn both(a: bool, b: bool) -> bool
    ensures { result ≡ (a && b) }
{
    a && b
}

/// The name is a net's.
fn is_net(known: Option<Known>) -> bool
    ensures { result ≡ k.is_net (option_map binding_of known) }
{
    match known {
        Some(Known::Signal(_, s)) => match s.kind {
            SigKind::Net => true,
            _ => false,
        },
        _ => false,
    }
}

/// The select is of constants.
fn is_constant_select(scope: &Scope<'_, '_>, one: &Select) -> bool
    ensures { result ≡ k.are_constant (seen_scope scope.now).names (selects_before (one.now ∷ []) x.NoSelects) }
{
    match one {
        Select::Index(_, i) => is_constant(scope, i),
        Select::Range(_, _, left, right) => is_constant(scope, left) && is_constant(scope, right),
    }
}

/// The selects are of constants.
fn are_constant(scope: &Scope<'_, '_>, selects: &[Select]) -> bool
    ensures { result ≡ k.are_constant (seen_scope scope.now).names (selects_before selects.now x.NoSelects) }
{
    let mut all = true;
    for one in selects {
        let holds = is_constant_select(scope, one);
        let next = both(all, holds);
        all = next;
    }
    all
}

/// The expression is a net, a constant select of one, or a concatenation of these.
#[cycle(nets)]
pub fn are_nets(scope: &Scope<'_, '_>, e: &Ex) -> bool
    ensures { result ≡ k.are_nets (seen_scope scope.now).names (seen e.now) }
{
    match e {
        Ex::Named(_, name, selects) => {
            let named = is_net(meaning(scope, name.as_slice()));
            both(named, are_constant(scope, selects.as_slice()))
        }
        Ex::Paren(_, a) => are_nets(scope, a),
        Ex::Joined(_, parts) => all_nets(scope, parts.as_slice()),
        Ex::Number(_, _)
        | Ex::Text(_, _)
        | Ex::Unary(_, _, _)
        | Ex::Binary(_, _, _, _)
        | Ex::Choice(_, _, _, _)
        | Ex::Repeated(_, _, _)
        | Ex::Called(_, _, _)
        | Ex::System(_, _, _) => false,
    }
}

/// Each of these expressions is one.
#[cycle(nets)]
fn all_nets(scope: &Scope<'_, '_>, es: &[Ex]) -> bool
    ensures { result ≡ k.all_nets (seen_scope scope.now).names (of_list (map seen es.now)) }
{
    let mut all = true;
    for e in es {
        let holds = are_nets(scope, e);
        let next = both(all, holds);
        all = next;
    }
    all
}
