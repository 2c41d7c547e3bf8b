//! Cells of statements without loops (IEEE 1364-2005, clauses 9.2 to 9.5).

ghost use Rattle.std.specs.Prelude.{◌≡◌, ◌+◌, [], slice_index};
ghost use Rattle.vl_design.specs.Cost.{exp_cells, target_cells};
ghost use Rattle.vl_design.specs.Plainly.{items};
ghost use Rattle.vl_design.specs.Seen as seen;
ghost use Rattle.vl_design.specs.Trees.{exp_of, stm_of, then_of, target_of};
ghost use Rattle.vl_limits.specs.Walks.{items_of};
ghost use Rattle.vl_design.specs.Costs.{saturated};
ghost use Rattle.vl_cost.specs.Walks.{called_cells, cells_of, item_cells_of, HasNoLoop, HaveNoLoop, ItemsHaveNoLoop};

use crate::expressions::{exp_cells, labels_cells, target_cells};
use crate::sums::plus;
use crate::tasks::{task_cells, whole_cells};
use vl_design::design::{CaseItem, Expr, Stmt, StmtNode, Target};

/// The cells of an assignment: its right side, what its left side counts, and 6.
fn assignment_cells(bodies: &[u64], target: &Target, source: &Expr) -> u64
    ensures { result ≡ saturated (called_cells (λ f. slice_index bodies.now f) (seen.exp_of source.now) + (exp_cells (λ f. slice_index bodies.now f) (exp_of source.now) + (target_cells (λ f. slice_index bodies.now f) (target_of target.now) + 6))) }
{
    let right = plus(6, whole_cells(bodies, source));
    plus(right, target_cells(bodies, target))
}

/// The cells of a statement.
#[cycle(statements)]
#[tactic(auto, using(crate::proofs::Counting::counts))]
pub(crate) fn stm_cells(bodies: &[u64], a: &Stmt) -> u64
    requires { HasNoLoop (seen.stm_of a.now) }
    ensures { result ≡ saturated (cells_of bodies.now (stm_of [] a.now)) }
{
    match &a.node {
        StmtNode::Nop => 0,
        StmtNode::Seq(parts) => stms_cells(bodies, parts.as_slice()),
        StmtNode::If(test, chosen, other) => {
            let tested = plus(4, whole_cells(bodies, test));
            let first = plus(tested, stm_cells(bodies, chosen));
            plus(first, stm_cells(bodies, other))
        }
        StmtNode::Case(subject, items, _) => {
            let tested = exp_cells(bodies, subject);
            plus(tested, items_cells(bodies, items.as_slice()))
        }
        StmtNode::For(_, _, _, _, _) | StmtNode::Repeat(_, _) => 0,
        StmtNode::Set(target, source) => assignment_cells(bodies, target, source),
        StmtNode::Later(target, source) => assignment_cells(bodies, target, source),
        StmtNode::Sys(call) => task_cells(bodies, call),
    }
}

/// The cells of statements one after another.
#[cycle(statements)]
#[tactic(auto, using(crate::proofs::Counting::counts))]
fn stms_cells(bodies: &[u64], parts: &[Stmt]) -> u64
    requires { HaveNoLoop (seen.stms_of parts.now) }
    ensures { result ≡ saturated (cells_of bodies.now (then_of [] parts.now)) }
{
    let mut all = 0;
    for a in parts {
        all = plus(all, stm_cells(bodies, a));
    }
    all
}

/// The cells of the items of a case: 4 for each, its labels and its statement.
#[cycle(statements)]
#[tactic(auto, using(crate::proofs::Counting::counts))]
fn items_cells(bodies: &[u64], given: &[CaseItem]) -> u64
    requires { ItemsHaveNoLoop (items_of given.now) }
    ensures { result ≡ saturated (item_cells_of bodies.now (items [] (items_of given.now))) }
{
    let mut all = 0;
    for one in given {
        let labelled = plus(4, labels_cells(bodies, one.labels.as_slice()));
        let item = plus(labelled, stm_cells(bodies, &one.body));
        all = plus(all, item);
    }
    all
}
