//! Walks through statements.

ghost use Rattle.std.specs.Prelude.{◌≡◌, length, IfOk};
ghost use Rattle.vl_design.specs.Sound.{IsSoundStm, AreSound, AreSoundItems};
ghost use Rattle.vl_design.specs.Trees.{exps_of, stm_of, then_of};
ghost use Rattle.vl_bits.specs.Seen.{names_seen};
ghost use Rattle.vl_bits.specs.Cases.{items_of};
ghost use Rattle.vl_bits.specs.Walks.{Walks, WalksItem, WalksItems, Branches};

use crate::looks::{look, looks};
use crate::meanings::Meanings;
use crate::parts::{Part, gain, hide, shared};
use crate::sets::{Sets, assign, join, stays_open};
use std::alloc::{AllocError, Global};
use vl_design::design::{CaseItem, Stmt, StmtNode};

/// A walk through a statement of an instance of a path. Gives the bits that become known: those that it assigns on every path
/// and that weren't known. A statement that doesn't stand in a combinational process whose loops are unrolled adds nothing.
#[cycle(walk)]
#[tactic(auto, using(crate::proofs::Statements::statements))]
pub fn walk(
    alloc: Global,
    m: &Meanings<'_>,
    path: &[u8],
    sets: &mut Sets,
    s: &Stmt,
) -> Result<Vec<Part>, AllocError>
    requires sound { IsSoundStm (names_seen m.now) (stm_of path.now s.now) }
    requires long { length sets.old.known.items ≡ length (names_seen m.now).rows }
    ensures { IfOk result (λ v. Walks (names_seen m.now) (stm_of path.now s.now) sets.old sets.new v.items) }
{
    match &s.node {
        StmtNode::Seq(list) => sequence(alloc, m, path, sets, list.as_slice()),
        StmtNode::If(test, a, b) => {
            look(m, &sets.known, &mut sets.read, test)?;
            let first = branch(alloc, m, path, sets, a)?;
            let second = branch(alloc, m, path, sets, b)?;
            join(alloc, &mut sets.known, first.as_slice(), second.as_slice())
        }
        StmtNode::Case(subject, items, _) => {
            look(m, &sets.known, &mut sets.read, subject)?;
            cases(alloc, m, path, sets, items.as_slice())
        }
        StmtNode::Set(target, source) => assign(alloc, m, sets, target, source),
        StmtNode::Nop => Ok(Vec::new(alloc)),
        StmtNode::For(_, _, _, _, _) => Ok(Vec::new(alloc)),
        StmtNode::Repeat(_, _) => Ok(Vec::new(alloc)),
        StmtNode::Later(_, _) => Ok(Vec::new(alloc)),
        StmtNode::Sys(_) => Ok(Vec::new(alloc)),
    }
}

/// Statements one after another.
#[cycle(walk)]
fn sequence(
    alloc: Global,
    m: &Meanings<'_>,
    path: &[u8],
    sets: &mut Sets,
    list: &[Stmt],
) -> Result<Vec<Part>, AllocError>
    requires sound { IsSoundStm (names_seen m.now) (then_of path.now list.now) }
    requires long { length sets.old.known.items ≡ length (names_seen m.now).rows }
    ensures { IfOk result (λ v. Walks (names_seen m.now) (then_of path.now list.now) sets.old sets.new v.items) }
{
    let mut all = Vec::new(alloc);
    for item in list {
        let mut more = walk(alloc, m, path, sets, item)?;
        all.append(&mut more)?;
    }
    Ok(all)
}

/// A branch: behind it what it assigns isn't known. Gives that.
#[cycle(walk)]
fn branch(
    alloc: Global,
    m: &Meanings<'_>,
    path: &[u8],
    sets: &mut Sets,
    s: &Stmt,
) -> Result<Vec<Part>, AllocError>
    requires sound { IsSoundStm (names_seen m.now) (stm_of path.now s.now) }
    requires long { length sets.old.known.items ≡ length (names_seen m.now).rows }
    ensures { IfOk result (λ v. Branches (names_seen m.now) (stm_of path.now s.now) sets.old sets.new v.items) }
{
    let more = walk(alloc, m, path, sets, s)?;
    hide(&mut sets.known, more.as_slice());
    Ok(more)
}

/// An item of a case, as a branch behind its labels.
#[cycle(walk)]
fn labelled(
    alloc: Global,
    m: &Meanings<'_>,
    path: &[u8],
    sets: &mut Sets,
    item: &CaseItem,
) -> Result<Vec<Part>, AllocError>
    requires labels { AreSound (names_seen m.now) (exps_of item.now.labels.items) }
    requires body { IsSoundStm (names_seen m.now) (stm_of path.now item.now.body) }
    requires long { length sets.old.known.items ≡ length (names_seen m.now).rows }
    ensures { IfOk result (λ v. WalksItem (names_seen m.now) (exps_of item.now.labels.items) (stm_of path.now item.now.body) sets.old sets.new v.items) }
{
    looks(m, &sets.known, &mut sets.read, item.labels.as_slice())?;
    branch(alloc, m, path, sets, &item.body)
}

/// The items of a case, one of which is done, or none where none of them is the default.
#[cycle(walk)]
fn cases(
    alloc: Global,
    m: &Meanings<'_>,
    path: &[u8],
    sets: &mut Sets,
    items: &[CaseItem],
) -> Result<Vec<Part>, AllocError>
    requires sound { AreSoundItems (names_seen m.now) (items_of path.now items.now) }
    requires long { length sets.old.known.items ≡ length (names_seen m.now).rows }
    ensures { IfOk result (λ v. WalksItems (names_seen m.now) (items_of path.now items.now) sets.old sets.new v.items) }
{
    let [first, ..] = items else {
        return Ok(Vec::new(alloc));
    };
    let mut all = labelled(alloc, m, path, sets, first)?;
    let mut is_open = stays_open(true, first.labels.as_slice());
    for number in 1..items.len() {
        let item = &items[number];
        let more = labelled(alloc, m, path, sets, item)?;
        all = shared(alloc, &mut sets.known, all.as_slice(), more.as_slice())?;
        is_open = stays_open(is_open, item.labels.as_slice());
    }
    if is_open {
        return Ok(Vec::new(alloc));
    }
    gain(alloc, &mut sets.known, all.as_slice())
}
