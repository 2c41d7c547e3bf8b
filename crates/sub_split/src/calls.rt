//! What stands in statements: system calls that come before them, and the default of a case.

ghost use Rattle.std.specs.Prelude.{◌≡◌, ◌||◌, ◌<◌, ℕ, List, [], length, IfSome};
ghost use Rattle.std.specs.Option.{option_copied};
ghost use Rattle.vl_design.specs.vl_base.specs.declared.bits.UnOp.TheVariants.{LogNot};
ghost use Rattle.vl_design.specs.vl_base.specs.declared.place.Place.{Place};
ghost use Rattle.vl_design.specs.Acts.{default_body};
ghost use Rattle.vl_design.specs.Exec as x;
ghost use Rattle.vl_design.specs.Placed as p;
ghost use Rattle.vl_design.specs.Plainly.{called_first};
ghost use Rattle.vl_design.specs.Seen as seen;
ghost use Rattle.vl_design.specs.Syntax as y;
ghost use Rattle.vl_design.specs.Trees.{exp_of, stm_of, target_of};
ghost use Rattle.sub_split.specs.Items.{behind_call, body_at, is_default, is_not, items_of};
ghost use Rattle.sub_split.specs.Views.{piece_view};

use crate::table::Piece;
use vl_design::UnOp;
use vl_design::design::{CaseItem, Expr, ExprNode, Stmt, SysCall, Target};

/// An operator is `!`.
fn is_not(op: UnOp) -> bool
    ensures { result ≡ is_not op }
{
    matches!(op, UnOp::LogNot)
}

/// The system call that an expression is, if it is one: it comes before a statement also where this stands behind a `!`.
fn own_call(e: &Expr) -> Option<&SysCall>
    ensures { (path : List ℕ) (at : Place) (a : y.Stm) → called_first path (p.Un at LogNot (seen.exp_of e.now)) a ≡ behind_call path (option_copied result) a }
{
    match &e.node {
        ExprNode::Sys(call) => Some(call),
        _ => None,
    }
}

/// The system call that comes before a statement with this source or condition, if there is one: it is that, also behind one
/// `!`.
pub(crate) fn call_of(e: &Expr) -> Option<&SysCall>
    ensures { (path : List ℕ) (a : y.Stm) → called_first path (seen.exp_of e.now) a ≡ behind_call path (option_copied result) a }
{
    match &e.node {
        ExprNode::Sys(call) => Some(call),
        ExprNode::Un(op, a) => { if is_not(*op) { own_call(a) } else { None } }
        _ => None,
    }
}

/// One of two holds.
pub(crate) fn either(a: bool, b: bool) -> bool
    ensures { result ≡ (a || b) }
{
    a || b
}

/// A condition is the answer of a system function, or made of one by operators on one operand.
pub(crate) fn asks(e: &Expr) -> bool
    ensures { result ≡ x.asks (exp_of e.now) }
{
    match &e.node {
        ExprNode::Sys(_) => true,
        ExprNode::Un(_, a) => asks(a),
        _ => false,
    }
}

/// An item is the default.
pub(crate) fn is_default(item: &CaseItem) -> bool
    ensures { result ≡ is_default item.now }
{
    item.labels.as_slice().is_empty()
}

/// The place of the default; none where there is none.
pub(crate) fn default_of(items: &[CaseItem]) -> Option<usize>
    ensures there { IfSome result (λ i. i < length items.now) }
    ensures body { (path : List ℕ) → body_at path items.now result ≡ default_body (items_of path items.now) }
{
    for number in 0..items.len() {
        if is_default(&items[number]) {
            return Some(number);
        }
    }
    None
}

/// A blocking assignment behind the call before it, if there is one.
pub(crate) fn set_of<'a>(a: &'a Stmt, target: &'a Target, source: &'a Expr) -> Piece<'a>
    ensures { stm_of [] a.now ≡ called_first [] (seen.exp_of source.now) (y.Set (target_of target.now) (exp_of source.now)) → piece_view result ≡ y.Set (target_of target.now) (exp_of source.now) }
{
    match call_of(source) {
        None => Piece::Whole(a),
        Some(_) => Piece::Set(target, source),
    }
}

/// Likewise a nonblocking assignment.
pub(crate) fn later_of<'a>(a: &'a Stmt, target: &'a Target, source: &'a Expr) -> Piece<'a>
    ensures { stm_of [] a.now ≡ called_first [] (seen.exp_of source.now) (y.Later (target_of target.now) (exp_of source.now)) → piece_view result ≡ y.Later (target_of target.now) (exp_of source.now) }
{
    match call_of(source) {
        None => Piece::Whole(a),
        Some(_) => Piece::Later(target, source),
    }
}
