//! Statements as nodes, from the last one on (IEEE 1364-2005, clause 9).

ghost use Rattle.std.specs.Prelude.{◌≡◌, ◌++◌, ◌∷◌, Bool, List, [], IfOk};
ghost use Rattle.std.specs.Vec.Iter.{into_iter_items};
ghost use Rattle.vl_design.specs.Acts.{default_body};
ghost use Rattle.vl_design.specs.Plainly as plain;
ghost use Rattle.vl_design.specs.Plainly.{called_first};
ghost use Rattle.vl_design.specs.Seen as seen;
ghost use Rattle.vl_design.specs.Syntax as y;
ghost use Rattle.vl_design.specs.Trees.{exp_of, stm_of, then_of};
ghost use Rattle.sub_nodes.specs.Code.{Made, chosen, leading, placed, split, split_items, split_default};
ghost use Rattle.sub_split.specs.Items.{items_of};
ghost use Rattle.sub_split.specs.Makes.{made_view, nodes_view, head_view, switch, Makes, Splits, SplitsItem, SplitsItems};
ghost use Rattle.sub_split.specs.Marks.{marks_of, item_marks, default_marks};
ghost use Rattle.sub_split.specs.Views.{call_view};

use crate::calls::{call_of, default_of, is_default, later_of, set_of};
use crate::making::{Head, Next, Nodes};
use crate::marks::next_mark;
use crate::table::{Piece, Way, WayOn};
use std::alloc::{AllocError, Global};
use std::vec::IntoIter;
use vl_design::Text;
use vl_design::design::{CaseItem, Expr, Stmt, StmtNode, SysCall};

/// A system call before what begins so.
fn call<'a>(
    alloc: Global,
    nodes: &mut Nodes<'a>,
    path: &'a Text,
    call: &'a SysCall,
    head: Head<'a>,
) -> Result<Head<'a>, AllocError>
    ensures { IfOk result (λ h. Makes nodes.old nodes.new h (split nodes.old.from (y.Sys (call_view path.now call.now)) (made_view nodes.old head.entry))) }
{
    let to = nodes.number()?;
    nodes.follow(alloc, head, Next::Calls(path, call, to))
}

/// The system call that comes before a statement with this source or condition, if there is one, before what begins so.
fn call_first<'a>(
    alloc: Global,
    nodes: &mut Nodes<'a>,
    path: &'a Text,
    source: &'a Expr,
    head: Head<'a>,
) -> Result<Head<'a>, AllocError>
    ensures { IfOk result (λ h. (a : y.Stm) (m : Made) → made_view nodes.old head.entry ≡ split nodes.old.from a m → Makes nodes.old nodes.new h (split nodes.old.from (called_first path.now (seen.exp_of source.now) a) m)) }
{
    match call_of(source) {
        None => Ok(head),
        Some(first) => call(alloc, nodes, path, first, head),
    }
}

/// A choice by an `if` of two branches that begin so.
fn choose<'a>(
    alloc: Global,
    nodes: &mut Nodes<'a>,
    test: &'a Expr,
    first: Head<'a>,
    second: Head<'a>,
) -> Result<Head<'a>, AllocError>
    ensures { IfOk result (λ h. Makes nodes.old nodes.new h (chosen nodes.old.from (exp_of test.now) (head_view first.entry) (made_view nodes.old second.entry))) }
{
    let yes = nodes.number()?;
    nodes.place(false, first)?;
    let no = nodes.number()?;
    nodes.follow(alloc, second, Next::Leads(WayOn::Branch(test, yes, no)))
}

/// The way to an item of a case, before what stands behind the case.
#[cycle(split)]
fn way<'a>(
    alloc: Global,
    nodes: &mut Nodes<'a>,
    marks: &mut IntoIter<bool>,
    path: &'a Text,
    item: &'a CaseItem,
    behind: &Head<'a>,
) -> Result<Way<'a>, AllocError>
    ensures { IfOk result (λ w. SplitsItem (into_iter_items marks.old) (into_iter_items marks.new) (marks_of (stm_of [] item.now.body)) nodes.old nodes.new w item.now.labels.items (split nodes.old.from (stm_of path.now item.now.body) (made_view nodes.old behind.now))) }
{
    let head = split(alloc, nodes, marks, path, &item.body, behind.copied(alloc)?)?;
    let to = nodes.number()?;
    nodes.place(false, head)?;
    Ok(Way {
        labels: item.labels.as_slice(),
        to,
    })
}

/// The ways to the items of a case that have labels.
#[cycle(split)]
fn ways<'a>(
    alloc: Global,
    nodes: &mut Nodes<'a>,
    marks: &mut IntoIter<bool>,
    path: &'a Text,
    items: &'a [CaseItem],
    behind: &Head<'a>,
) -> Result<Vec<Way<'a>>, AllocError>
    ensures { IfOk result (λ v. SplitsItems (into_iter_items marks.old) (into_iter_items marks.new) (item_marks (items_of [] items.now)) nodes.old nodes.new v.items (split_items nodes.old.from (items_of path.now items.now) (made_view nodes.old behind.now))) }
{
    let mut all = Vec::new(alloc);
    for item in items {
        if is_default(item) {
            continue;
        }
        all.push(way(alloc, nodes, marks, path, item, behind)?)?;
    }
    Ok(all)
}

/// The default of a case before what stands behind the case; only that where there is none.
#[cycle(split)]
fn default<'a>(
    alloc: Global,
    nodes: &mut Nodes<'a>,
    marks: &mut IntoIter<bool>,
    path: &'a Text,
    items: &'a [CaseItem],
    head: Head<'a>,
) -> Result<Head<'a>, AllocError>
    ensures { IfOk result (λ h. Splits (into_iter_items marks.old) (into_iter_items marks.new) (default_marks (items_of [] items.now)) nodes.old nodes.new h (split_default nodes.old.from (items_of path.now items.now) (made_view nodes.old head.entry))) }
{
    match default_of(items) {
        None => Ok(head),
        Some(number) => split(alloc, nodes, marks, path, &items[number].body, head),
    }
}

/// A case that holds a call, before what begins so.
#[cycle(split)]
fn switch<'a>(
    alloc: Global,
    nodes: &mut Nodes<'a>,
    marks: &mut IntoIter<bool>,
    path: &'a Text,
    items: &'a [CaseItem],
    subject: &'a Expr,
    head: Head<'a>,
) -> Result<Head<'a>, AllocError>
    ensures { IfOk result (λ h. Splits (into_iter_items marks.old) (into_iter_items marks.new) (item_marks (items_of [] items.now) ++ default_marks (items_of [] items.now)) nodes.old nodes.new h (switch nodes.old.from (exp_of subject.now) (items_of path.now items.now) (made_view nodes.old head.entry))) }
{
    let all = ways(alloc, nodes, marks, path, items, &head)?;
    let other = default(alloc, nodes, marks, path, items, head)?;
    let otherwise = nodes.number()?;
    nodes.follow(
        alloc,
        other,
        Next::Leads(WayOn::Switch(subject, all, otherwise)),
    )
}

/// Statements one after another, before what begins so.
#[cycle(split)]
fn split_list<'a>(
    alloc: Global,
    nodes: &mut Nodes<'a>,
    marks: &mut IntoIter<bool>,
    path: &'a Text,
    list: &'a [Stmt],
    head: Head<'a>,
) -> Result<Head<'a>, AllocError>
    ensures { IfOk result (λ h. Splits (into_iter_items marks.old) (into_iter_items marks.new) (marks_of (then_of [] list.now)) nodes.old nodes.new h (split nodes.old.from (then_of path.now list.now) (made_view nodes.old head.entry))) }
{
    let mut before = head;
    let mut left = list.len();
    while left > 0 {
        left -= 1;
        before = split(alloc, nodes, marks, path, &list[left], before)?;
    }
    Ok(before)
}

/// A statement before what begins so.
#[cycle(split)]
pub(crate) fn split<'a>(
    alloc: Global,
    nodes: &mut Nodes<'a>,
    marks: &mut IntoIter<bool>,
    path: &'a Text,
    a: &'a Stmt,
    head: Head<'a>,
) -> Result<Head<'a>, AllocError>
    ensures { IfOk result (λ h. Splits (into_iter_items marks.old) (into_iter_items marks.new) (marks_of (stm_of [] a.now)) nodes.old nodes.new h (split nodes.old.from (stm_of path.now a.now) (made_view nodes.old head.entry))) }
{
    match &a.node {
        StmtNode::Nop => Ok(head),
        StmtNode::Seq(list) => split_list(alloc, nodes, marks, path, list.as_slice(), head),
        StmtNode::If(test, first, second) => {
            if next_mark(marks) {
                let behind = head.copied(alloc)?;
                let yes = split(alloc, nodes, marks, path, first, behind)?;
                let no = split(alloc, nodes, marks, path, second, head)?;
                let chosen = choose(alloc, nodes, test, yes, no)?;
                call_first(alloc, nodes, path, test, chosen)
            } else {
                head.with(Piece::Whole(a))
            }
        }
        StmtNode::Case(subject, items, _) => {
            if next_mark(marks) {
                switch(alloc, nodes, marks, path, items.as_slice(), subject, head)
            } else {
                head.with(Piece::Whole(a))
            }
        }
        StmtNode::For(_, _, _, _, _) => head.with(Piece::Loop(path, a)),
        StmtNode::Repeat(_, _) => head.with(Piece::Loop(path, a)),
        StmtNode::Set(target, source) => {
            let begun = head.with(set_of(a, target, source))?;
            call_first(alloc, nodes, path, source, begun)
        }
        StmtNode::Later(target, source) => {
            let begun = head.with(later_of(a, target, source))?;
            call_first(alloc, nodes, path, source, begun)
        }
        StmtNode::Sys(first) => call(alloc, nodes, path, first, head),
    }
}
