//! Cells of expressions and of left sides (IEEE 1364-2005, clauses 5 and 9.2).

ghost use Rattle.std.specs.Prelude.{◌≡◌, slice_index};
ghost use Rattle.vl_design.specs.Cost.{exp_cells, exps_cells, arguments_cells, labels_cells, target_cells, targets_cells};
ghost use Rattle.vl_design.specs.Trees.{exp_of, exps_of, target_of};
ghost use Rattle.vl_limits.specs.Tallies.{targets_of};
ghost use Rattle.vl_design.specs.Costs.{saturated};

use crate::sums::{body_at, plus};
use vl_design::design::{Expr, ExprNode, Target, TargetNode};

/// The cells of an expression: 2 for each node, 6 for each argument of a function, and its body.
#[cycle(expressions)]
#[tactic(auto, using(vl_limits::proofs::Rows::rows))]
pub(crate) fn exp_cells(bodies: &[u64], e: &Expr) -> u64
    ensures { result ≡ saturated (exp_cells (λ f. slice_index bodies.now f) (exp_of e.now)) }
{
    match &e.node {
        ExprNode::Num(_, _) | ExprNode::Label(_) | ExprNode::Sig(_) => 2,
        ExprNode::Word(_, a) => plus(4, exp_cells(bodies, a)),
        ExprNode::Pick(base, index, _, _) => {
            let first = plus(2, exp_cells(bodies, base));
            plus(first, exp_cells(bodies, index))
        }
        ExprNode::Slice(base, _, _) => plus(2, exp_cells(bodies, base)),
        ExprNode::Un(_, a) => plus(2, exp_cells(bodies, a)),
        ExprNode::Bin(_, a, b) => {
            let left = plus(2, exp_cells(bodies, a));
            plus(left, exp_cells(bodies, b))
        }
        ExprNode::Cond(test, a, b) => {
            let tested = plus(2, exp_cells(bodies, test));
            let chosen = plus(tested, exp_cells(bodies, a));
            plus(chosen, exp_cells(bodies, b))
        }
        ExprNode::Cat(parts) => plus(2, exps_cells(bodies, parts.as_slice())),
        ExprNode::Rep(_, parts) => plus(2, exps_cells(bodies, parts.as_slice())),
        ExprNode::Cast(_, a) => exp_cells(bodies, a),
        ExprNode::Call(function, given) => {
            let arguments = plus(2, arguments_cells(bodies, given.as_slice()));
            plus(arguments, body_at(bodies, *function))
        }
        ExprNode::Time | ExprNode::Sys(_) => 0,
    }
}

/// The cells of expressions.
#[cycle(expressions)]
#[tactic(auto, using(vl_limits::proofs::Rows::rows))]
fn exps_cells(bodies: &[u64], es: &[Expr]) -> u64
    ensures { result ≡ saturated (exps_cells (λ f. slice_index bodies.now f) (exps_of es.now)) }
{
    let mut all = 0;
    for e in es {
        all = plus(all, exp_cells(bodies, e));
    }
    all
}

/// The cells of a function's arguments.
#[cycle(expressions)]
#[tactic(auto, using(vl_limits::proofs::Rows::rows))]
fn arguments_cells(bodies: &[u64], es: &[Expr]) -> u64
    ensures { result ≡ saturated (arguments_cells (λ f. slice_index bodies.now f) (exps_of es.now)) }
{
    let mut all = 0;
    for e in es {
        let given = plus(6, exp_cells(bodies, e));
        all = plus(all, given);
    }
    all
}

/// The cells of the labels of a case's item, and 3 for each.
#[tactic(auto, using(vl_limits::proofs::Rows::rows))]
pub(crate) fn labels_cells(bodies: &[u64], es: &[Expr]) -> u64
    ensures { result ≡ saturated (labels_cells (λ f. slice_index bodies.now f) (exps_of es.now)) }
{
    let mut all = 0;
    for e in es {
        let label = plus(3, exp_cells(bodies, e));
        all = plus(all, label);
    }
    all
}

/// The cells of a left side: its indices, and 2 for each part of a concatenation.
#[cycle(targets)]
#[tactic(auto, using(vl_limits::proofs::Rows::rows))]
pub(crate) fn target_cells(bodies: &[u64], t: &Target) -> u64
    ensures { result ≡ saturated (target_cells (λ f. slice_index bodies.now f) (target_of t.now)) }
{
    match &t.node {
        TargetNode::Sig(_) => 0,
        TargetNode::Word(_, address) => exp_cells(bodies, address),
        TargetNode::Pick(base, index, _, _) => {
            let first = target_cells(bodies, base);
            plus(first, exp_cells(bodies, index))
        }
        TargetNode::Slice(base, _, _) => target_cells(bodies, base),
        TargetNode::List(parts) => targets_cells(bodies, parts.as_slice()),
    }
}

/// The cells of the parts of a left side.
#[cycle(targets)]
#[tactic(auto, using(vl_limits::proofs::Rows::rows))]
fn targets_cells(bodies: &[u64], ts: &[Target]) -> u64
    ensures { result ≡ saturated (targets_cells (λ f. slice_index bodies.now f) (targets_of ts.now)) }
{
    let mut all = 0;
    for t in ts {
        let part = plus(2, target_cells(bodies, t));
        all = plus(all, part);
    }
    all
}
