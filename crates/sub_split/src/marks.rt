//! Which choices hold a call, in the order in which a splitter comes to them.

ghost use Rattle.std.specs.Prelude.{◌≡◌, ◌||◌, ◌++◌, ◌∷◌, Bool, List, [], true, false, take, IfOk, OnOk, if◌then◌else◌};
ghost use Rattle.std.specs.Vec.Iter.{into_iter_items};
ghost use Rattle.vl_design.specs.Acts.{default_body};
ghost use Rattle.vl_design.specs.Laws.{can_act, items_can_act};
ghost use Rattle.vl_design.specs.Plainly as plain;
ghost use Rattle.vl_design.specs.Seen as seen;
ghost use Rattle.vl_design.specs.Syntax as y;
ghost use Rattle.vl_design.specs.Trees.{exp_of, stm_of, then_of};
ghost use Rattle.sub_split.specs.Items.{is_default, items_of};
ghost use Rattle.sub_split.specs.Marks.{marks_of, item_marks, default_marks, others_act};

use crate::calls::{asks, call_of, default_of, either, is_default};
use std::alloc::{AllocError, Global};
use std::vec::IntoIter;
use vl_design::design::{CaseItem, Stmt, StmtNode};

/// Settles the mark of a choice that stands at this place, and behind it the marks of what stands in it: where it holds no call,
/// those count for nothing.
fn settle(all: &mut Vec<bool>, here: usize, acts: bool) -> Result<(), AllocError>
    ensures { OnOk result (all.new.items ≡ (if acts then all.old.items else take here all.old.items ++ false ∷ [])) }
{
    if acts {
        return Ok(());
    }
    all.truncate(here);
    all.push(false)?;
    Ok(())
}

/// Whether a statement holds a call; it is not marked.
#[cycle(mark)]
fn holds_call(all: &mut Vec<bool>, a: &Stmt) -> Result<bool, AllocError>
    ensures acts { IfOk result (λ b. b ≡ can_act (stm_of [] a.now)) }
    ensures marks { OnOk result (all.new.items ≡ all.old.items) }
{
    let here = all.len();
    let acts = mark(all, a)?;
    all.truncate(here);
    Ok(acts)
}

/// Marks statements, the last one first.
#[cycle(mark)]
fn mark_list(all: &mut Vec<bool>, list: &[Stmt]) -> Result<bool, AllocError>
    ensures acts { IfOk result (λ b. b ≡ can_act (then_of [] list.now)) }
    ensures marks { OnOk result (all.new.items ≡ all.old.items ++ marks_of (then_of [] list.now)) }
{
    let mut acts = false;
    let mut left = list.len();
    while left > 0 {
        left -= 1;
        acts = either(mark(all, &list[left])?, acts);
    }
    Ok(acts)
}

/// Marks an item of a case, if it has labels. A default counts where there is an earlier one.
#[cycle(mark)]
fn mark_item(all: &mut Vec<bool>, earlier: bool, item: &CaseItem) -> Result<bool, AllocError>
    ensures acts { IfOk result (λ b. (others : y.Items) → others_act earlier (plain.item (seen.exps_of item.now.labels.items) (stm_of [] item.now.body) others) ≡ (b || others_act (earlier || is_default item.now) others)) }
    ensures marks { OnOk result ((others : y.Items) → all.old.items ++ item_marks (plain.item (seen.exps_of item.now.labels.items) (stm_of [] item.now.body) others) ≡ all.new.items ++ item_marks others) }
{
    if !is_default(item) {
        return mark(all, &item.body);
    }
    if earlier {
        return holds_call(all, &item.body);
    }
    Ok(false)
}

/// Marks the items of a case that have labels: whether one of them holds a call, or a default behind the first one.
#[cycle(mark)]
fn mark_items(all: &mut Vec<bool>, items: &[CaseItem]) -> Result<bool, AllocError>
    ensures acts { IfOk result (λ b. b ≡ others_act false (items_of [] items.now)) }
    ensures marks { OnOk result (all.new.items ≡ all.old.items ++ item_marks (items_of [] items.now)) }
{
    let mut acts = false;
    let mut earlier = false;
    for item in items {
        acts = either(acts, mark_item(all, earlier, item)?);
        earlier = either(earlier, is_default(item));
    }
    Ok(acts)
}

/// Marks the default of a case, if it has one.
#[cycle(mark)]
fn mark_default(all: &mut Vec<bool>, items: &[CaseItem]) -> Result<bool, AllocError>
    ensures acts { IfOk result (λ b. b ≡ can_act (default_body (items_of [] items.now))) }
    ensures marks { OnOk result (all.new.items ≡ all.old.items ++ marks_of (default_body (items_of [] items.now))) }
{
    match default_of(items) {
        None => Ok(false),
        Some(number) => mark(all, &items[number].body),
    }
}

/// Marks a statement, and says whether it holds a call, or a condition that is the answer of one.
#[cycle(mark)]
fn mark(all: &mut Vec<bool>, a: &Stmt) -> Result<bool, AllocError>
    ensures acts { IfOk result (λ b. b ≡ can_act (stm_of [] a.now)) }
    ensures marks { OnOk result (all.new.items ≡ all.old.items ++ marks_of (stm_of [] a.now)) }
{
    match &a.node {
        StmtNode::Nop => Ok(false),
        StmtNode::Seq(list) => mark_list(all, list.as_slice()),
        StmtNode::If(test, first, second) => {
            let here = all.len();
            all.push(true)?;
            let inside = either(mark(all, first)?, mark(all, second)?);
            let acts = either(asks(test), inside);
            settle(all, here, acts)?;
            Ok(acts)
        }
        StmtNode::Case(_, items, _) => {
            let here = all.len();
            all.push(true)?;
            let labelled = mark_items(all, items.as_slice())?;
            let acts = either(labelled, mark_default(all, items.as_slice())?);
            settle(all, here, acts)?;
            Ok(acts)
        }
        StmtNode::For(_, start, _, step, body) => {
            let head = either(holds_call(all, step)?, holds_call(all, body)?);
            Ok(either(holds_call(all, start)?, head))
        }
        StmtNode::Repeat(_, body) => holds_call(all, body),
        StmtNode::Set(_, source) => Ok(call_of(source).is_some()),
        StmtNode::Later(_, source) => Ok(call_of(source).is_some()),
        StmtNode::Sys(_) => Ok(true),
    }
}

/// The marks of a statement.
pub(crate) fn marks_in(alloc: Global, a: &Stmt) -> Result<Vec<bool>, AllocError>
    ensures { IfOk result (λ v. v.items ≡ marks_of (stm_of [] a.now)) }
{
    let mut all = Vec::new(alloc);
    mark(&mut all, a)?;
    Ok(all)
}

/// The next mark.
pub(crate) fn next_mark(marks: &mut IntoIter<bool>) -> bool
    ensures { (b : Bool) (rest : List Bool) → into_iter_items marks.old ≡ b ∷ rest → (result ≡ b) × (into_iter_items marks.new ≡ rest) }
{
    marks.next().unwrap_or(false)
}
