//! Register bits of nonblocking assignments to words of memories (IEEE 1364-2005, clause 9.2.2).

ghost use Rattle.std.specs.Prelude.{◌≡◌, [], map};
ghost use Rattle.vl_design.specs.Cost.{word_regs, words_regs};
ghost use Rattle.vl_design.specs.Plain.{plain_scope};
ghost use Rattle.vl_design.specs.Plainly.{items};
ghost use Rattle.vl_design.specs.Rows.{row_of};
ghost use Rattle.vl_design.specs.Seen as seen;
ghost use Rattle.vl_design.specs.Trees.{stm_of, then_of, target_of};
ghost use Rattle.vl_limits.specs.Tallies.{targets_of};
ghost use Rattle.vl_limits.specs.Walks.{items_of};
ghost use Rattle.vl_design.specs.Costs.{saturated};
ghost use Rattle.vl_cost.specs.Walks.{regs_of, item_regs_of, HasNoLoop, HaveNoLoop, ItemsHaveNoLoop};

use crate::signals::width_at;
use crate::sums::plus;
use vl_design::design::{CaseItem, Signal, Stmt, StmtNode, Target, TargetNode};

/// The register bits of an assignment: a word's width and 33 for each word of a memory that it writes.
#[cycle(words)]
#[tactic(auto, using(vl_limits::proofs::Rows::rows))]
fn word_regs(signals: &[Signal], t: &Target) -> u64
    ensures { result ≡ saturated (word_regs (plain_scope (map row_of signals.now)) (λ f. 0) (target_of t.now)) }
{
    match &t.node {
        TargetNode::Sig(_) => 0,
        TargetNode::Word(memory, _) => plus(width_at(signals, *memory), 33),
        TargetNode::Pick(base, _, _, _) => word_regs(signals, base),
        TargetNode::Slice(base, _, _) => word_regs(signals, base),
        TargetNode::List(parts) => words_regs(signals, parts.as_slice()),
    }
}

/// The register bits of an assignment to several parts.
#[cycle(words)]
#[tactic(auto, using(vl_limits::proofs::Rows::rows))]
fn words_regs(signals: &[Signal], ts: &[Target]) -> u64
    ensures { result ≡ saturated (words_regs (plain_scope (map row_of signals.now)) (λ f. 0) (targets_of ts.now)) }
{
    let mut all = 0;
    for t in ts {
        all = plus(all, word_regs(signals, t));
    }
    all
}

/// The register bits of a statement.
#[cycle(registers)]
#[tactic(auto, using(crate::proofs::Counting::counts))]
pub(crate) fn stm_regs(signals: &[Signal], a: &Stmt) -> u64
    requires { HasNoLoop (seen.stm_of a.now) }
    ensures { result ≡ saturated (regs_of signals.now (stm_of [] a.now)) }
{
    match &a.node {
        StmtNode::Nop | StmtNode::Set(_, _) | StmtNode::Sys(_) => 0,
        StmtNode::Seq(parts) => stms_regs(signals, parts.as_slice()),
        StmtNode::If(_, chosen, other) => {
            let first = stm_regs(signals, chosen);
            plus(first, stm_regs(signals, other))
        }
        StmtNode::Case(_, items, _) => items_regs(signals, items.as_slice()),
        StmtNode::For(_, _, _, _, _) | StmtNode::Repeat(_, _) => 0,
        StmtNode::Later(target, _) => word_regs(signals, target),
    }
}

/// The register bits of statements one after another.
#[cycle(registers)]
#[tactic(auto, using(crate::proofs::Counting::counts))]
fn stms_regs(signals: &[Signal], parts: &[Stmt]) -> u64
    requires { HaveNoLoop (seen.stms_of parts.now) }
    ensures { result ≡ saturated (regs_of signals.now (then_of [] parts.now)) }
{
    let mut all = 0;
    for a in parts {
        all = plus(all, stm_regs(signals, a));
    }
    all
}

/// The register bits of the items of a case.
#[cycle(registers)]
#[tactic(auto, using(crate::proofs::Counting::counts))]
fn items_regs(signals: &[Signal], given: &[CaseItem]) -> u64
    requires { ItemsHaveNoLoop (items_of given.now) }
    ensures { result ≡ saturated (item_regs_of signals.now (items [] (items_of given.now))) }
{
    let mut all = 0;
    for one in given {
        all = plus(all, stm_regs(signals, &one.body));
    }
    all
}
