//! Left sides in the design, and what outputs are connected to (IEEE 1364-2005, clauses 6.1, 9.2 and 12.3.9.2).

ghost use Rattle.std.specs.Prelude.{◌≡◌, map, IfOk};
ghost use Rattle.vl_design.specs.Placed as p;
ghost use Rattle.elab_plain.specs.vl_flat.specs.Targets as lefts;
ghost use Rattle.elab_plain.specs.vl_flat.specs.Connections.{left_of};
ghost use Rattle.vl_design.specs.Seen.{target_of};
ghost use Rattle.elab_plain.specs.Seen.{seen};
ghost use Rattle.elab_plain.specs.SeenStatements.{seen_left};
ghost use Rattle.elab_constant.specs.Seen.{seen_scope};
ghost use Rattle.elab_expr.specs.Walked as n;

use crate::lefts::written;
use elab_constant::scope::{Scope, meaning};
use elab_plain::places::place_of;
use elab_plain::surface::{Ex, Left};
use std::alloc::{AllocError, Global};
use vl_base::place::Place;
use vl_design::design::{Target, TargetNode};

/// A left side.
#[cycle(target)]
pub fn target(alloc: Global, scope: &Scope<'_, '_>, l: &Left) -> Result<Target, AllocError>
    ensures { IfOk result (λ t. target_of t ≡ lefts.target (seen_scope scope.now) (seen_left l.now)) }
{
    match l {
        Left::Name(at, name, selects) => {
            let known = meaning(scope, name.as_slice());
            written(alloc, scope, *at, known, selects.as_slice())
        }
        Left::List(at, parts) => {
            let parts = targets(alloc, scope, parts.as_slice())?;
            Ok(Target {
                place: *at,
                node: TargetNode::List(parts),
            })
        }
    }
}

/// Left sides one by one.
#[cycle(target)]
fn targets(alloc: Global, scope: &Scope<'_, '_>, ls: &[Left]) -> Result<Vec<Target>, AllocError>
    ensures { IfOk result (λ v. map target_of v.items ≡ map (n.seen_target (seen_scope scope.now)) ls.now) }
{
    let mut all = Vec::new(alloc);
    for l in ls {
        all.push(target(alloc, scope, l)?)?;
    }
    Ok(all)
}

/// A concatenation of nothing.
fn nothing(alloc: Global, at: Place) -> Target
    ensures { target_of result ≡ p.Several at p.NoTargets }
{
    Target {
        place: at,
        node: TargetNode::List(Vec::new(alloc)),
    }
}

/// What an output is connected to, as a left side: names with selects, and concatenations of these, parentheses passed
/// over; anything else is a concatenation of nothing.
#[cycle(output_target)]
pub fn output_target(alloc: Global, scope: &Scope<'_, '_>, e: &Ex) -> Result<Target, AllocError>
    ensures { IfOk result (λ t. target_of t ≡ lefts.target (seen_scope scope.now) (left_of (seen e.now))) }
{
    match e {
        Ex::Named(at, name, selects) => {
            let known = meaning(scope, name.as_slice());
            written(alloc, scope, *at, known, selects.as_slice())
        }
        Ex::Paren(_, a) => output_target(alloc, scope, a),
        Ex::Joined(at, parts) => {
            let parts = output_targets(alloc, scope, parts.as_slice())?;
            Ok(Target {
                place: *at,
                node: TargetNode::List(parts),
            })
        }
        _ => Ok(nothing(alloc, place_of(e))),
    }
}

/// What an output is connected to, part by part.
#[cycle(output_target)]
fn output_targets(
    alloc: Global,
    scope: &Scope<'_, '_>,
    es: &[Ex],
) -> Result<Vec<Target>, AllocError>
    ensures { IfOk result (λ v. map target_of v.items ≡ map (n.seen_output (seen_scope scope.now)) es.now) }
{
    let mut all = Vec::new(alloc);
    for e in es {
        all.push(output_target(alloc, scope, e)?)?;
    }
    Ok(all)
}
