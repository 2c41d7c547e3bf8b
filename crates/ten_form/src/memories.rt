//! The memories whose words nonblocking assignments name (IEEE 1364-2005, clause 9.2.2).

ghost use Rattle.std.specs.Prelude.{◌≡◌, ◌++◌, [], map, IfOk, OnOk};
ghost use Rattle.cell_emit.specs.vl_sites.specs.Stored.{target_stored, targets_stored, stored_words, items_stored, default_stored};
ghost use Rattle.vl_design.specs.Plainly as plain;
ghost use Rattle.vl_design.specs.Seen as seen;
ghost use Rattle.vl_design.specs.Syntax as y;
ghost use Rattle.vl_design.specs.Trees.{stm_of, target_of, then_of};
ghost use Rattle.cell_emit.specs.vl_sites.specs.Lists.{targets_of};
ghost use Rattle.sub_split.specs.Items.{is_default, items_of};
ghost use Rattle.sub_split.specs.Views.{node_view, piece_view};
ghost use Rattle.ten_form.specs.Stores.{all_stored, node_words, words_down};

use std::alloc::{AllocError, Global};
use sub_split::table::{Node, Piece};
use vl_design::design::{CaseItem, Stmt, StmtNode, Target, TargetNode};

/// Adds the memories of the words that a left side names.
#[cycle(targets)]
#[tactic(auto, using(crate::proofs::Naming::targets))]
fn target(memories: &mut Vec<u32>, t: &Target) -> Result<(), AllocError>
    ensures { OnOk result (memories.new.items ≡ memories.old.items ++ target_stored (target_of t.now)) }
{
    match &t.node {
        TargetNode::Sig(_) => Ok(()),
        TargetNode::Word(memory, _) => {
            memories.push(*memory)?;
            Ok(())
        }
        TargetNode::Pick(base, _, _, _) | TargetNode::Slice(base, _, _) => target(memories, base),
        TargetNode::List(parts) => targets(memories, parts.as_slice()),
    }
}

/// The same of the parts of a left side.
#[cycle(targets)]
#[tactic(auto, using(crate::proofs::Naming::targets))]
fn targets(memories: &mut Vec<u32>, ts: &[Target]) -> Result<(), AllocError>
    ensures { OnOk result (memories.new.items ≡ memories.old.items ++ targets_stored (plain.targets (targets_of ts.now))) }
{
    for t in ts {
        target(memories, t)?;
    }
    Ok(())
}

/// An item of a case is the default.
fn is_default(item: &CaseItem) -> bool
    ensures { result ≡ is_default item.now }
{
    item.labels.as_slice().is_empty()
}

/// Adds the memories of the words that nonblocking assignments in a statement name.
#[cycle(statements)]
#[tactic(auto, using(crate::proofs::Naming::statements))]
fn statement(memories: &mut Vec<u32>, a: &Stmt) -> Result<(), AllocError>
    ensures { OnOk result (memories.new.items ≡ memories.old.items ++ stored_words (stm_of [] a.now)) }
{
    match &a.node {
        StmtNode::Seq(list) => statements(memories, list.as_slice()),
        StmtNode::If(_, first, second) => {
            statement(memories, first)?;
            statement(memories, second)
        }
        StmtNode::Case(_, items, _) => {
            labelled(memories, items.as_slice())?;
            otherwise(memories, items.as_slice())
        }
        StmtNode::Later(left, _) => target(memories, left),
        StmtNode::Nop | StmtNode::Sys(_) => Ok(()),
        StmtNode::For(_, _, _, _, _) | StmtNode::Repeat(_, _) | StmtNode::Set(_, _) => Ok(()),
    }
}

/// The same of statements one after another.
#[cycle(statements)]
#[tactic(auto, using(crate::proofs::Naming::statements))]
fn statements(memories: &mut Vec<u32>, list: &[Stmt]) -> Result<(), AllocError>
    ensures { OnOk result (memories.new.items ≡ memories.old.items ++ stored_words (then_of [] list.now)) }
{
    for a in list {
        statement(memories, a)?;
    }
    Ok(())
}

/// The same of an item of a case, if it has labels.
#[cycle(statements)]
fn one_item(memories: &mut Vec<u32>, item: &CaseItem) -> Result<(), AllocError>
    ensures { OnOk result ((others : y.Items) → memories.old.items ++ items_stored (plain.item (seen.exps_of item.now.labels.items) (stm_of [] item.now.body) others) ≡ memories.new.items ++ items_stored others) }
{
    if is_default(item) {
        return Ok(());
    }
    statement(memories, &item.body)
}

/// The same of the items of a case that have labels.
#[cycle(statements)]
fn labelled(memories: &mut Vec<u32>, items: &[CaseItem]) -> Result<(), AllocError>
    ensures { OnOk result (memories.new.items ≡ memories.old.items ++ items_stored (items_of [] items.now)) }
{
    for item in items {
        one_item(memories, item)?;
    }
    Ok(())
}

/// The same of the default of a case, if it has one.
#[cycle(statements)]
fn otherwise(memories: &mut Vec<u32>, items: &[CaseItem]) -> Result<(), AllocError>
    ensures { OnOk result (memories.new.items ≡ memories.old.items ++ default_stored (items_of [] items.now)) }
{
    for item in items {
        if is_default(item) {
            return statement(memories, &item.body);
        }
    }
    Ok(())
}

/// The same of a statement of a segment.
fn piece(memories: &mut Vec<u32>, a: &Piece<'_>) -> Result<(), AllocError>
    ensures { OnOk result (memories.new.items ≡ memories.old.items ++ stored_words (piece_view a.now)) }
{
    match a {
        Piece::Whole(a) => statement(memories, a),
        Piece::Loop(_, a) => statement(memories, a),
        Piece::Set(_, _) => Ok(()),
        Piece::Later(left, _) => target(memories, left),
    }
}

/// The same of a segment's statements.
fn pieces(memories: &mut Vec<u32>, list: &[Piece<'_>]) -> Result<(), AllocError>
    ensures { OnOk result (memories.new.items ≡ memories.old.items ++ all_stored (map piece_view list.now)) }
{
    for a in list {
        piece(memories, a)?;
    }
    Ok(())
}

/// The same of a node.
fn node(memories: &mut Vec<u32>, x: &Node<'_>) -> Result<(), AllocError>
    ensures { OnOk result (memories.new.items ≡ memories.old.items ++ node_words (node_view x.now)) }
{
    match x {
        Node::Run(segment, _) => pieces(memories, segment.statements.as_slice()),
        Node::Trap(_, _, _) | Node::Apply(_) => Ok(()),
    }
}

/// The memories of all nodes, those of the last node first.
pub(crate) fn memories_of(alloc: Global, nodes: &[Node<'_>]) -> Result<Vec<u32>, AllocError>
    ensures { IfOk result (λ v. v.items ≡ words_down (map node_view nodes.now)) }
{
    let mut memories = Vec::new(alloc);
    let mut left = nodes.len();
    while left > 0 {
        left -= 1;
        node(&mut memories, &nodes[left])?;
    }
    Ok(memories)
}
