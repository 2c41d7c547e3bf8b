//! What expressions, and the indices of left sides, count (IEEE 1364-2005, clauses 5 and 9.2).

ghost use Rattle.std.specs.Prelude.{◌≡◌, ◌+◌, min};
ghost use Rattle.vl_design.specs.Trees.{exp_of, exps_of, target_of};
ghost use Rattle.vl_loops.specs.Limits.{exp_count, exps_count, target_count, targets_count};
ghost use Rattle.vl_limits.specs.Tallies.{counted_of, targets_of};

use crate::sums::{Tally, body_at, plus};
use vl_design::design::{Expr, ExprNode, Target, TargetNode};

/// A sum with what an expression counts.
#[cycle(expressions)]
#[tactic(auto, using(crate::proofs::Rows::rows))]
pub(crate) fn exp_sum(tally: &Tally<'_>, sum: u32, e: &Expr) -> u32
    ensures { result ≡ min tally.now.cap (sum + exp_count (counted_of tally.now) (exp_of e.now)) }
{
    let own = plus(tally.cap, sum, tally.node);
    match &e.node {
        ExprNode::Num(_, _) | ExprNode::Label(_) | ExprNode::Sig(_) => own,
        ExprNode::Word(_, a) => {
            let memory = plus(tally.cap, own, tally.node);
            exp_sum(tally, memory, a)
        }
        ExprNode::Pick(base, index, _, _) => {
            let first = exp_sum(tally, own, base);
            exp_sum(tally, first, index)
        }
        ExprNode::Slice(base, _, _) => exp_sum(tally, own, base),
        ExprNode::Un(_, a) => exp_sum(tally, own, a),
        ExprNode::Bin(_, a, b) => {
            let left = exp_sum(tally, own, a);
            exp_sum(tally, left, b)
        }
        ExprNode::Cond(test, a, b) => {
            let tested = exp_sum(tally, own, test);
            let chosen = exp_sum(tally, tested, a);
            exp_sum(tally, chosen, b)
        }
        ExprNode::Cat(parts) => exps_sum(tally, own, parts.as_slice()),
        ExprNode::Rep(_, parts) => exps_sum(tally, own, parts.as_slice()),
        ExprNode::Cast(_, a) => exp_sum(tally, sum, a),
        ExprNode::Call(function, given) => {
            let arguments = exps_sum(tally, own, given.as_slice());
            plus(tally.cap, arguments, body_at(tally, *function))
        }
        ExprNode::Time | ExprNode::Sys(_) => plus(tally.cap, sum, 0),
    }
}

/// A sum with what expressions count.
#[cycle(expressions)]
#[tactic(auto, using(crate::proofs::Rows::rows))]
pub(crate) fn exps_sum(tally: &Tally<'_>, sum: u32, es: &[Expr]) -> u32
    ensures { result ≡ min tally.now.cap (sum + exps_count (counted_of tally.now) (exps_of es.now)) }
{
    let mut all = plus(tally.cap, sum, 0);
    for e in es {
        all = exp_sum(tally, all, e);
    }
    all
}

/// A sum with what the indices of a left side count.
#[cycle(targets)]
#[tactic(auto, using(crate::proofs::Rows::rows))]
pub(crate) fn target_sum(tally: &Tally<'_>, sum: u32, t: &Target) -> u32
    ensures { result ≡ min tally.now.cap (sum + target_count (counted_of tally.now) (target_of t.now)) }
{
    match &t.node {
        TargetNode::Sig(_) => plus(tally.cap, sum, 0),
        TargetNode::Word(_, address) => exp_sum(tally, sum, address),
        TargetNode::Pick(base, index, _, _) => {
            let first = target_sum(tally, sum, base);
            exp_sum(tally, first, index)
        }
        TargetNode::Slice(base, _, _) => target_sum(tally, sum, base),
        TargetNode::List(parts) => targets_sum(tally, sum, parts.as_slice()),
    }
}

/// A sum with what the indices of left sides count.
#[cycle(targets)]
#[tactic(auto, using(crate::proofs::Rows::rows))]
fn targets_sum(tally: &Tally<'_>, sum: u32, ts: &[Target]) -> u32
    ensures { result ≡ min tally.now.cap (sum + targets_count (counted_of tally.now) (targets_of ts.now)) }
{
    let mut all = plus(tally.cap, sum, 0);
    for t in ts {
        all = target_sum(tally, all, t);
    }
    all
}
