//! The faults of expressions: refused constructs 10, 11 and 24.

ghost use Rattle.std.specs.Prelude.{◌≡◌, map, option_map};
ghost use Rattle.elab_plain.specs.vl_flat.specs.ExpressionFaults as f;
ghost use Rattle.vl_design.specs.Stops as s;
ghost use Rattle.elab_plain.specs.vl_flat.specs.Surface as x;
ghost use Rattle.elab_plain.specs.Seen.{seen, select, argument, selects_before, args_before};
ghost use Rattle.elab_plain.specs.Listed.{of_list};
ghost use Rattle.elab_constant.specs.Seen.{seen_scope, binding_of};

use crate::checks::{is_kept, left_bound, must_be_count, past, right_bound};
use crate::directions::directions;
use elab_constant::form::keeps_texts;
use elab_constant::scope::{Known, Scope, meaning};
use elab_plain::surface::{Argument, Ex, Select};
use vl_base::place::Place;
use vl_design::stop::Stop;
use vl_design::stops::construct_if;

/// The faults of an expression.
#[cycle(faults)]
pub fn faults(best: Option<Stop>, scope: &Scope<'_, '_>, e: &Ex) -> Option<Stop>
    ensures { result ≡ s.earliest best (f.faults (seen_scope scope.now) (seen e.now)) }
{
    match e {
        Ex::Number(_, _) => best,
        Ex::Text(at, text) => construct_if(best, text.as_slice().len() > 16, *at, 24),
        Ex::Named(at, name, selects) => {
            let own = past(best, scope, e);
            let known = meaning(scope, name.as_slice());
            name_faults(own, scope, *at, known, selects.as_slice())
        }
        Ex::Paren(_, a) => faults(best, scope, a),
        Ex::Unary(_, _, a) => {
            let own = past(best, scope, e);
            faults(own, scope, a)
        }
        Ex::Binary(_, _, a, b) => {
            let own = past(best, scope, e);
            let left = faults(own, scope, a);
            faults(left, scope, b)
        }
        Ex::Choice(_, t, a, b) => {
            let own = past(best, scope, e);
            let test = faults(own, scope, t);
            let chosen = faults(test, scope, a);
            faults(chosen, scope, b)
        }
        Ex::Joined(_, parts) => {
            let own = past(best, scope, e);
            all_faults(own, scope, parts.as_slice())
        }
        Ex::Repeated(_, n, parts) => {
            let own = past(best, scope, e);
            let inner = faults(own, scope, n);
            let count = must_be_count(inner, scope, n);
            all_faults(count, scope, parts.as_slice())
        }
        Ex::Called(_, _, given) => {
            let own = past(best, scope, e);
            all_faults(own, scope, given.as_slice())
        }
        Ex::System(_, name, given) => {
            let own = past(best, scope, e);
            let keeps = keeps_texts(name.as_slice());
            args_faults(own, scope, keeps, given.as_slice())
        }
    }
}

/// The faults of expressions one by one.
#[cycle(faults)]
pub fn all_faults(best: Option<Stop>, scope: &Scope<'_, '_>, es: &[Ex]) -> Option<Stop>
    ensures { result ≡ s.earliest best (f.all_faults (seen_scope scope.now) (of_list (map seen es.now))) }
{
    let mut all = best;
    for e in es {
        all = faults(all, scope, e);
    }
    all
}

/// The faults of what stands in one select.
#[cycle(faults)]
fn select_faults(best: Option<Stop>, scope: &Scope<'_, '_>, one: &Select) -> Option<Stop>
    ensures { (others : x.Selects) → s.earliest result (f.selects_faults (seen_scope scope.now) others) ≡ s.earliest best (f.selects_faults (seen_scope scope.now) (select one.now others)) }
{
    match one {
        Select::Index(_, i) => faults(best, scope, i),
        Select::Range(_, mark, left, right) => {
            let before = faults(best, scope, left);
            let bound = left_bound(before, scope, *mark, left);
            let behind = faults(bound, scope, right);
            right_bound(behind, scope, *mark, right)
        }
    }
}

/// The faults of what stands in selects, one by one.
#[cycle(faults)]
fn selects_faults(best: Option<Stop>, scope: &Scope<'_, '_>, selects: &[Select]) -> Option<Stop>
    ensures { result ≡ s.earliest best (f.selects_faults (seen_scope scope.now) (selects_before selects.now x.NoSelects)) }
{
    let mut all = best;
    for one in selects {
        all = select_faults(all, scope, one);
    }
    all
}

/// The faults of the selects behind a name at a place.
#[cycle(faults)]
pub fn name_faults(
    best: Option<Stop>,
    scope: &Scope<'_, '_>,
    at: Place,
    known: Option<Known>,
    selects: &[Select],
) -> Option<Stop>
    ensures { result ≡ s.earliest best (f.name_faults (seen_scope scope.now) at (option_map binding_of known) (selects_before selects.now x.NoSelects)) }
{
    let turned = directions(best, scope, at, known, selects);
    selects_faults(turned, scope, selects)
}

/// The faults of an argument of a system call.
#[cycle(faults)]
fn argument_faults(
    best: Option<Stop>,
    scope: &Scope<'_, '_>,
    keeps: bool,
    a: &Argument,
) -> Option<Stop>
    ensures { (others : x.Args) → s.earliest result (f.args_faults (seen_scope scope.now) keeps others) ≡ s.earliest best (f.args_faults (seen_scope scope.now) keeps (argument a.now others)) }
{
    match a {
        Argument::Null => best,
        Argument::Value(e) => {
            if is_kept(keeps, e) {
                best
            } else {
                faults(best, scope, e)
            }
        }
    }
}

/// The faults of the arguments of a system call; a string is none of them where they stay as they are.
#[cycle(faults)]
pub fn args_faults(
    best: Option<Stop>,
    scope: &Scope<'_, '_>,
    keeps: bool,
    given: &[Argument],
) -> Option<Stop>
    ensures { result ≡ s.earliest best (f.args_faults (seen_scope scope.now) keeps (args_before given.now x.NoArgs)) }
{
    let mut all = best;
    for a in given {
        all = argument_faults(all, scope, keeps, a);
    }
    all
}
