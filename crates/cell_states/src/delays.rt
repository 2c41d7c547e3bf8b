//! The signals that nonblocking assignments name (IEEE 1364-2005, clause 9.2.2).

ghost use Rattle.std.specs.Prelude.{◌≡◌, slice_set, true, IfOk};
ghost use Rattle.vl_design.specs.Seen as seen;
ghost use Rattle.vl_design.specs.Trees.{flat_of};
ghost use Rattle.cell_emit.specs.vl_sites.specs.Lists.{items_of, targets_of};
ghost use Rattle.cell_states.specs.Marks as s;

use std::alloc::{AllocError, Global};
use vl_design::design::{CaseItem, Design, Stmt, StmtNode, Target, TargetNode};

/// Marks a signal, if there is one of this number.
fn mark(marks: &mut Vec<bool>, signal: u32)
    ensures { marks.new.items ≡ slice_set marks.old.items signal true }
{
    let number = signal as usize;
    if number < marks.len() {
        marks[number] = true;
    }
}

/// Marks the signals that a left side names.
#[cycle(targets)]
#[tactic(auto, using(crate::proofs::Marking::marks))]
fn target(marks: &mut Vec<bool>, t: &Target)
    ensures { marks.new.items ≡ s.marked marks.old.items (s.target_signals (seen.target_of t.now)) }
{
    match &t.node {
        TargetNode::Sig(number) => mark(marks, *number),
        TargetNode::Word(memory, _) => mark(marks, *memory),
        TargetNode::Pick(base, _, _, _) => target(marks, base),
        TargetNode::Slice(base, _, _) => target(marks, base),
        TargetNode::List(parts) => targets(marks, parts.as_slice()),
    }
}

/// Marks the signals that the parts of a left side name.
#[cycle(targets)]
#[tactic(auto, using(crate::proofs::Marking::marks))]
fn targets(marks: &mut Vec<bool>, ts: &[Target])
    ensures { marks.new.items ≡ s.marked marks.old.items (s.targets_signals (targets_of ts.now)) }
{
    for t in ts {
        target(marks, t);
    }
}

/// Marks the signals that nonblocking assignments in a statement name.
#[cycle(statements)]
#[tactic(auto, using(crate::proofs::Marking::marks))]
fn statement(marks: &mut Vec<bool>, a: &Stmt)
    ensures { marks.new.items ≡ s.marked marks.old.items (s.stm_signals (seen.stm_of a.now)) }
{
    match &a.node {
        StmtNode::Nop => {}
        StmtNode::Seq(list) => statements(marks, list.as_slice()),
        StmtNode::If(_, first, second) => {
            statement(marks, first);
            statement(marks, second);
        }
        StmtNode::Case(_, items, _) => cases(marks, items.as_slice()),
        StmtNode::For(_, start, _, step, body) => {
            statement(marks, start);
            statement(marks, step);
            statement(marks, body);
        }
        StmtNode::Repeat(_, body) => statement(marks, body),
        StmtNode::Later(left, _) => target(marks, left),
        StmtNode::Set(_, _) | StmtNode::Sys(_) => {}
    }
}

/// The same of statements one after another.
#[cycle(statements)]
#[tactic(auto, using(crate::proofs::Marking::marks))]
fn statements(marks: &mut Vec<bool>, list: &[Stmt])
    ensures { marks.new.items ≡ s.marked marks.old.items (s.stms_signals (seen.stms_of list.now)) }
{
    for a in list {
        statement(marks, a);
    }
}

/// The same of the items of a case.
#[cycle(statements)]
#[tactic(auto, using(crate::proofs::Marking::marks))]
fn cases(marks: &mut Vec<bool>, items: &[CaseItem])
    ensures { marks.new.items ≡ s.marked marks.old.items (s.items_signals (items_of items.now)) }
{
    for item in items {
        statement(marks, &item.body);
    }
}

/// Of each signal of a design, by its number, whether a nonblocking assignment names it: of these alone updates can be pending. An
/// `Err` is want of memory.
pub(crate) fn delayed(alloc: Global, design: &Design) -> Result<Vec<bool>, AllocError>
    ensures { IfOk result (λ marks. s.AreDelayed (flat_of design.now) marks.items) }
{
    let signals = design.signals.as_slice().len();
    let mut marks = vec![in alloc; false; signals]?;
    for process in design.processes.as_slice() {
        statement(&mut marks, &process.body);
    }
    Ok(marks)
}
