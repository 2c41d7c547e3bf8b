//! The faults of left sides: from 1 to 128 bits are written (IEEE 1364-2005, clauses 6.1 and 9.2).

ghost use Rattle.std.specs.Prelude.{◌≡◌, min, map};
ghost use Rattle.vl_design.specs.Rows.{has_width};
ghost use Rattle.vl_design.specs.Stops as s;
ghost use Rattle.elab_plain.specs.vl_flat.specs.Surface as x;
ghost use Rattle.elab_plain.specs.vl_flat.specs.Targets as t;
ghost use Rattle.elab_plain.specs.SeenStatements.{seen_left, lefts_of};
ghost use Rattle.elab_constant.specs.Seen.{seen_scope};

use crate::checks::has_width;
use crate::faults::name_faults;
use elab_constant::form::named_form;
use elab_constant::scope::{Scope, meaning};
use elab_plain::surface::Left;
use vl_base::place::Place;
use vl_design::stop::Stop;
use vl_design::stops::construct_if;

/// The place of a left side's first token.
fn left_place(l: &Left) -> Place
    ensures { result ≡ x.left_place (seen_left l.now) }
{
    match l {
        Left::Name(at, _, _) | Left::List(at, _) => *at,
    }
}

/// How many bits a left side has, kept within 129.
#[cycle(widths)]
fn left_width(scope: &Scope<'_, '_>, l: &Left) -> u32
    ensures { result ≡ min 129 (t.left_width (seen_scope scope.now) (seen_left l.now)) }
{
    match l {
        Left::Name(_, name, selects) => {
            let known = meaning(scope, name.as_slice());
            named_form(scope, known, selects.as_slice()).width
        }
        Left::List(_, parts) => lefts_width(scope, parts.as_slice()),
    }
}

/// How many bits left sides have together, kept within 129.
#[cycle(widths)]
fn lefts_width(scope: &Scope<'_, '_>, ls: &[Left]) -> u32
    ensures { result ≡ min 129 (t.lefts_width (seen_scope scope.now) (lefts_of (map seen_left ls.now))) }
{
    let mut total = 0;
    for l in ls {
        total = (total + left_width(scope, l)).min(129);
    }
    total
}

/// A left side has from 1 to 128 bits.
fn is_fitting(scope: &Scope<'_, '_>, l: &Left) -> bool
    ensures { result ≡ has_width (t.left_width (seen_scope scope.now) (seen_left l.now)) }
{
    has_width(left_width(scope, l))
}

/// The fault of a left side that hasn't from 1 to 128 bits.
fn width_fault(best: Option<Stop>, scope: &Scope<'_, '_>, l: &Left) -> Option<Stop>
    ensures { result ≡ s.earliest best (t.width_faults (seen_scope scope.now) (seen_left l.now)) }
{
    construct_if(best, !is_fitting(scope, l), left_place(l), 10)
}

/// The faults of a left side.
#[cycle(lefts)]
pub fn target_faults(best: Option<Stop>, scope: &Scope<'_, '_>, l: &Left) -> Option<Stop>
    ensures { result ≡ s.earliest best (t.target_faults (seen_scope scope.now) (seen_left l.now)) }
{
    let own = width_fault(best, scope, l);
    match l {
        Left::Name(at, name, selects) => {
            let known = meaning(scope, name.as_slice());
            name_faults(own, scope, *at, known, selects.as_slice())
        }
        Left::List(_, parts) => targets_faults(own, scope, parts.as_slice()),
    }
}

/// The faults of left sides one by one.
#[cycle(lefts)]
fn targets_faults(best: Option<Stop>, scope: &Scope<'_, '_>, ls: &[Left]) -> Option<Stop>
    ensures { result ≡ s.earliest best (t.targets_faults (seen_scope scope.now) (lefts_of (map seen_left ls.now))) }
{
    let mut all = best;
    for l in ls {
        all = target_faults(all, scope, l);
    }
    all
}
