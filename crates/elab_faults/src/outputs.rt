//! The faults of what an output is connected to (IEEE 1364-2005, clause 12.3.9.2).

ghost use Rattle.std.specs.Prelude.{◌≡◌, min, map};
ghost use Rattle.vl_design.specs.Rows.{has_width};
ghost use Rattle.elab_plain.specs.vl_flat.specs.Connections as k;
ghost use Rattle.vl_design.specs.Stops as s;
ghost use Rattle.elab_plain.specs.vl_flat.specs.Targets as t;
ghost use Rattle.elab_plain.specs.Seen.{seen};
ghost use Rattle.elab_plain.specs.Listed.{of_list};
ghost use Rattle.elab_constant.specs.Seen.{look, seen_scope};

use crate::checks::{has_width, node_place};
use crate::faults::{faults, name_faults};
use crate::nets::are_nets;
use elab_constant::form::named_form;
use elab_constant::scope::{Names, Scope, meaning, module_scope};
use elab_plain::surface::Ex;
use vl_base::place::Place;
use vl_design::stop::Stop;
use vl_design::stops::{construct_if, earlier};

/// How many bits an expression has as a left side, kept within 129.
#[cycle(widths)]
fn width_as_left(scope: &Scope<'_, '_>, e: &Ex) -> u32
    ensures { result ≡ min 129 (t.left_width (seen_scope scope.now) (k.left_of (seen e.now))) }
{
    match e {
        Ex::Named(_, name, selects) => {
            let known = meaning(scope, name.as_slice());
            named_form(scope, known, selects.as_slice()).width
        }
        Ex::Paren(_, a) => width_as_left(scope, a),
        Ex::Joined(_, parts) => widths_as_lefts(scope, parts.as_slice()),
        Ex::Number(_, _)
        | Ex::Text(_, _)
        | Ex::Unary(_, _, _)
        | Ex::Binary(_, _, _, _)
        | Ex::Choice(_, _, _, _)
        | Ex::Repeated(_, _, _)
        | Ex::Called(_, _, _)
        | Ex::System(_, _, _) => 0,
    }
}

/// How many bits expressions have together as left sides, kept within 129.
#[cycle(widths)]
fn widths_as_lefts(scope: &Scope<'_, '_>, es: &[Ex]) -> u32
    ensures { result ≡ min 129 (t.lefts_width (seen_scope scope.now) (k.lefts_of (of_list (map seen es.now)))) }
{
    let mut total = 0;
    for e in es {
        total = (total + width_as_left(scope, e)).min(129);
    }
    total
}

/// An expression as a left side has from 1 to 128 bits.
fn is_fitting(scope: &Scope<'_, '_>, e: &Ex) -> bool
    ensures { result ≡ has_width (t.left_width (seen_scope scope.now) (k.left_of (seen e.now))) }
{
    has_width(width_as_left(scope, e))
}

/// The fault of an expression that hasn't from 1 to 128 bits as a left side.
fn width_fault(best: Option<Stop>, scope: &Scope<'_, '_>, e: &Ex) -> Option<Stop>
    ensures { result ≡ s.earliest best (t.width_faults (seen_scope scope.now) (k.left_of (seen e.now))) }
{
    construct_if(best, !is_fitting(scope, e), node_place(e), 10)
}

/// The faults of an expression as a left side.
#[cycle(lefts)]
fn faults_as_left(best: Option<Stop>, scope: &Scope<'_, '_>, e: &Ex) -> Option<Stop>
    ensures { result ≡ s.earliest best (t.target_faults (seen_scope scope.now) (k.left_of (seen e.now))) }
{
    match e {
        Ex::Named(at, name, selects) => {
            let own = width_fault(best, scope, e);
            let known = meaning(scope, name.as_slice());
            name_faults(own, scope, *at, known, selects.as_slice())
        }
        Ex::Paren(_, a) => faults_as_left(best, scope, a),
        Ex::Joined(_, parts) => {
            let own = width_fault(best, scope, e);
            faults_as_lefts(own, scope, parts.as_slice())
        }
        Ex::Number(_, _)
        | Ex::Text(_, _)
        | Ex::Unary(_, _, _)
        | Ex::Binary(_, _, _, _)
        | Ex::Choice(_, _, _, _)
        | Ex::Repeated(_, _, _)
        | Ex::Called(_, _, _)
        | Ex::System(_, _, _) => width_fault(best, scope, e),
    }
}

/// The faults of expressions as left sides one by one.
#[cycle(lefts)]
fn faults_as_lefts(best: Option<Stop>, scope: &Scope<'_, '_>, es: &[Ex]) -> Option<Stop>
    ensures { result ≡ s.earliest best (t.targets_faults (seen_scope scope.now) (k.lefts_of (of_list (map seen es.now)))) }
{
    let mut all = best;
    for e in es {
        all = faults_as_left(all, scope, e);
    }
    all
}

/// The faults of an output's connection at a place: an output is assigned to nets, and what else it is connected to is
/// judged as an expression.
pub fn output_faults(best: Option<Stop>, names: &Names<'_>, at: Place, e: &Ex) -> Option<Stop>
    ensures { result ≡ s.earliest best (k.output_faults (look names.now) at (seen e.now)) }
{
    let scope = module_scope(names);
    if are_nets(&scope, e) {
        faults_as_left(best, &scope, e)
    } else {
        let first = earlier(best, Stop::Construct(at, 13));
        faults(first, &scope, e)
    }
}
