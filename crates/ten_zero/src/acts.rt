//! Whether statements hold acts: system calls, and conditions that are the answers of some (IEEE 1364-2005, clause 17).

ghost use Rattle.std.specs.Prelude.{◌≡◌, ◌||◌, ℕ, List};
ghost use Rattle.vl_design.specs.Exec as x;
ghost use Rattle.vl_design.specs.Laws.{can_act, items_can_act};
ghost use Rattle.vl_design.specs.Seen as seen;
ghost use Rattle.vl_design.specs.Trees.{exp_of, stm_of, then_of};
ghost use Rattle.vl_run.specs.Cases.{items_of};
ghost use Rattle.ten_zero.specs.Calls as k;

use vl_design::UnOp;
use vl_design::design::{CaseItem, Expr, ExprNode, Stmt, StmtNode};

/// An operator is `!`.
fn is_not(op: UnOp) -> bool
    ensures { result ≡ k.is_not op }
{
    matches!(op, UnOp::LogNot)
}

/// An expression is a system call.
fn is_call(e: &Expr) -> bool
    ensures { result ≡ k.is_call (seen.exp_of e.now) }
{
    matches!(&e.node, ExprNode::Sys(_))
}

/// A system call comes before a statement with this source or condition: it is that, also behind one `!`.
pub(crate) fn calls(e: &Expr) -> bool
    ensures { result ≡ k.calls (seen.exp_of e.now) }
{
    match &e.node {
        ExprNode::Sys(_) => true,
        ExprNode::Un(op, a) => { if is_not(*op) { is_call(a) } else { false } }
        _ => false,
    }
}

/// One of two holds.
fn either(a: bool, b: bool) -> bool
    ensures { result ≡ (a || b) }
{
    a || b
}

/// A condition is the answer of a system function, or made of one by operators on one operand.
fn asks(e: &Expr) -> bool
    ensures { result ≡ x.asks (exp_of e.now) }
{
    match &e.node {
        ExprNode::Sys(_) => true,
        ExprNode::Un(_, a) => asks(a),
        _ => false,
    }
}

/// Some statement holds an act.
#[cycle(acts)]
fn some_acts(list: &[Stmt]) -> bool
    ensures { (path : List ℕ) → result ≡ can_act (then_of path list.now) }
{
    let mut all = false;
    for item in list {
        all = either(all, acts(item));
    }
    all
}

/// The statement of some item holds an act.
#[cycle(acts)]
fn some_item_acts(items: &[CaseItem]) -> bool
    ensures { (path : List ℕ) → result ≡ items_can_act (items_of path items.now) }
{
    let mut all = false;
    for item in items {
        all = either(all, acts(&item.body));
    }
    all
}

/// A statement holds an act.
#[cycle(acts)]
pub(crate) fn acts(s: &Stmt) -> bool
    ensures { (path : List ℕ) → result ≡ can_act (stm_of path s.now) }
{
    match &s.node {
        StmtNode::Nop => false,
        StmtNode::Seq(list) => some_acts(list.as_slice()),
        StmtNode::If(test, a, b) => {
            let branches = either(acts(a), acts(b));
            either(asks(test), branches)
        }
        StmtNode::Case(_, items, _) => some_item_acts(items.as_slice()),
        StmtNode::For(_, start, _, step, a) => {
            let turn = either(acts(step), acts(a));
            either(acts(start), turn)
        }
        StmtNode::Repeat(_, a) => acts(a),
        StmtNode::Set(_, source) | StmtNode::Later(_, source) => calls(source),
        StmtNode::Sys(_) => true,
    }
}
