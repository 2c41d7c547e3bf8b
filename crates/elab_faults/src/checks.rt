//! What an expression or a select has to pass by itself, but for its operands.

ghost use Rattle.std.specs.Prelude.{◌≡◌, ◌&&◌};
ghost use Rattle.vl_design.specs.Rows.{has_width};
ghost use Rattle.elab_plain.specs.vl_flat.specs.Constants as c;
ghost use Rattle.elab_plain.specs.vl_flat.specs.Expressions as flat;
ghost use Rattle.elab_plain.specs.vl_flat.specs.ExpressionFaults as f;
ghost use Rattle.vl_design.specs.Stops as s;
ghost use Rattle.elab_plain.specs.vl_flat.specs.Surface as x;
ghost use Rattle.elab_plain.specs.Seen.{seen};
ghost use Rattle.elab_constant.specs.Seen.{seen_scope};
ghost use Rattle.elab_faults.specs.Walked.{is_text};

use crate::long::holds_long;
use elab_constant::form::form;
use elab_constant::scope::Scope;
use elab_constant::whole::{is_bound, is_count, is_width};
use elab_plain::surface::Ex;
use vl_base::place::Place;
use vl_design::stop::Stop;
use vl_design::stops::construct_if;
use vl_tree::tree::SelectMark;

/// The place of a node: parentheses around it are passed over.
pub fn node_place(e: &Ex) -> Place
    ensures { result ≡ x.node_place (seen e.now) }
{
    match e {
        Ex::Paren(_, a) => node_place(a),
        Ex::Number(at, _)
        | Ex::Text(at, _)
        | Ex::Named(at, _, _)
        | Ex::Unary(at, _, _)
        | Ex::Binary(at, _, _, _)
        | Ex::Choice(at, _, _, _)
        | Ex::Joined(at, _)
        | Ex::Repeated(at, _, _)
        | Ex::Called(at, _, _)
        | Ex::System(at, _, _) => *at,
    }
}

/// The expression is a bare string.
pub fn is_text(e: &Ex) -> bool
    ensures { result ≡ is_text (seen e.now) }
{
    match e {
        Ex::Text(_, _) => true,
        Ex::Number(_, _)
        | Ex::Named(_, _, _)
        | Ex::Paren(_, _)
        | Ex::Unary(_, _, _)
        | Ex::Binary(_, _, _, _)
        | Ex::Choice(_, _, _, _)
        | Ex::Joined(_, _)
        | Ex::Repeated(_, _, _)
        | Ex::Called(_, _, _)
        | Ex::System(_, _, _) => false,
    }
}

/// The expression is a bare string that stays as it is.
pub fn is_kept(keeps: bool, e: &Ex) -> bool
    ensures { result ≡ (keeps && is_text (seen e.now)) }
{
    keeps && is_text(e)
}

/// So many bits are from 1 to 128.
pub fn has_width(width: u32) -> bool
    ensures { result ≡ has_width width }
{
    width >= 1 && width <= 128
}

/// The expression is from 1 to 128 bits wide.
fn is_fitting(scope: &Scope<'_, '_>, e: &Ex) -> bool
    ensures { result ≡ has_width (flat.form (seen_scope scope.now) (seen e.now)).width }
{
    has_width(form(scope, e).width)
}

/// An expression that isn't from 1 to 128 bits wide, unless a string in it is too long.
pub fn past(best: Option<Stop>, scope: &Scope<'_, '_>, e: &Ex) -> Option<Stop>
    ensures { result ≡ s.earliest best (f.past (seen_scope scope.now) (seen e.now)) }
{
    let is_past = !is_fitting(scope, e) && !holds_long(e);
    construct_if(best, is_past, node_place(e), 10)
}

/// What is no bound, unless a string in it is too long.
pub fn must_be_bound(best: Option<Stop>, scope: &Scope<'_, '_>, e: &Ex) -> Option<Stop>
    ensures { result ≡ s.earliest best (f.constant_must (seen_scope scope.now) c.is_bound (seen e.now) 10) }
{
    let fails = !holds_long(e) && !is_bound(scope, e);
    construct_if(best, fails, node_place(e), 10)
}

/// What is no count of a replication, unless a string in it is too long.
pub fn must_be_count(best: Option<Stop>, scope: &Scope<'_, '_>, e: &Ex) -> Option<Stop>
    ensures { result ≡ s.earliest best (f.constant_must (seen_scope scope.now) c.is_count (seen e.now) 10) }
{
    let fails = !holds_long(e) && !is_count(scope, e);
    construct_if(best, fails, node_place(e), 10)
}

/// What is no width of a select, unless a string in it is too long.
fn must_be_width(best: Option<Stop>, scope: &Scope<'_, '_>, e: &Ex) -> Option<Stop>
    ensures { result ≡ s.earliest best (f.constant_must (seen_scope scope.now) c.is_width (seen e.now) 11) }
{
    let fails = !holds_long(e) && !is_width(scope, e);
    construct_if(best, fails, node_place(e), 11)
}

/// What stands before `:` has to be a bound.
pub fn left_bound(
    best: Option<Stop>,
    scope: &Scope<'_, '_>,
    mark: SelectMark,
    left: &Ex,
) -> Option<Stop>
    ensures { result ≡ s.earliest best (f.left_bound (seen_scope scope.now) mark (seen left.now)) }
{
    match mark {
        SelectMark::Range => must_be_bound(best, scope, left),
        SelectMark::Up | SelectMark::Down => best,
    }
}

/// What stands behind `:` has to be a bound, and behind `+:` or `-:` a width.
pub fn right_bound(
    best: Option<Stop>,
    scope: &Scope<'_, '_>,
    mark: SelectMark,
    right: &Ex,
) -> Option<Stop>
    ensures { result ≡ s.earliest best (f.right_bound (seen_scope scope.now) mark (seen right.now)) }
{
    match mark {
        SelectMark::Range => must_be_bound(best, scope, right),
        SelectMark::Up | SelectMark::Down => must_be_width(best, scope, right),
    }
}
