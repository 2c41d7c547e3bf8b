//! The loops in statements: refused construct 21.

ghost use Rattle.std.specs.Prelude.{◌≡◌, ◌++◌, ◌∷◌, [], IfOk};
ghost use Rattle.vl_design.specs.Seen as seen;
ghost use Rattle.vl_design.specs.Stops.{earliest};
ghost use Rattle.vl_sites.specs.Lists.{items_of};
ghost use Rattle.vl_check.specs.Headers as h;
ghost use Rattle.vl_check.specs.Seen.{setting_of};

use crate::headers::is_wrong;
use crate::place::Setting;
use std::alloc::{AllocError, Global};
use vl_design::design::{CaseItem, Stmt, StmtNode};
use vl_design::stop::Stop;
use vl_design::stops::construct_if;

/// These variables, and one more behind them.
fn with(alloc: Global, around: &[u32], variable: u32) -> Result<Vec<u32>, AllocError>
    ensures { IfOk result (λ v. v.items ≡ around.now ++ (variable ∷ [])) }
{
    let mut all = Vec::new(alloc);
    all.extend_from_slice(around)?;
    all.push(variable)?;
    Ok(all)
}

/// The first of a fault so far and those of the loops in a statement that stands in loops over these variables.
#[cycle(loops)]
#[tactic(auto, using(vl_sites::proofs::Rows::lists))]
pub(crate) fn loop_fault(
    alloc: Global,
    s: &Setting<'_>,
    around: &[u32],
    best: Option<Stop>,
    a: &Stmt,
) -> Result<Option<Stop>, AllocError>
    ensures { IfOk result (λ r. r ≡ earliest best (h.loop_faults (setting_of s.now) around.now (seen.stm_of a.now))) }
{
    match &a.node {
        StmtNode::For(variable, _, _, _, body) => {
            let within = with(alloc, around, *variable)?;
            let wrong = is_wrong(alloc, s, around, &within, a)?;
            let own = construct_if(best, wrong, a.place, 21);
            loop_fault(alloc, s, &within, own, body)
        }
        StmtNode::Seq(list) => loops_fault(alloc, s, around, best, list.as_slice()),
        StmtNode::If(_, first, second) => {
            let chosen = loop_fault(alloc, s, around, best, first)?;
            loop_fault(alloc, s, around, chosen, second)
        }
        StmtNode::Case(_, items, _) => cases_fault(alloc, s, around, best, items.as_slice()),
        StmtNode::Repeat(_, body) => loop_fault(alloc, s, around, best, body),
        StmtNode::Nop | StmtNode::Set(_, _) | StmtNode::Later(_, _) | StmtNode::Sys(_) => Ok(best),
    }
}

/// The same of statements one after another.
#[cycle(loops)]
#[tactic(auto, using(vl_sites::proofs::Rows::lists))]
fn loops_fault(
    alloc: Global,
    s: &Setting<'_>,
    around: &[u32],
    best: Option<Stop>,
    list: &[Stmt],
) -> Result<Option<Stop>, AllocError>
    ensures { IfOk result (λ r. r ≡ earliest best (h.loops_faults (setting_of s.now) around.now (seen.stms_of list.now))) }
{
    let mut all = best;
    for a in list {
        all = loop_fault(alloc, s, around, all, a)?;
    }
    Ok(all)
}

/// The same of the items of a case.
#[cycle(loops)]
#[tactic(auto, using(vl_sites::proofs::Rows::lists))]
fn cases_fault(
    alloc: Global,
    s: &Setting<'_>,
    around: &[u32],
    best: Option<Stop>,
    items: &[CaseItem],
) -> Result<Option<Stop>, AllocError>
    ensures { IfOk result (λ r. r ≡ earliest best (h.items_faults (setting_of s.now) around.now (items_of items.now))) }
{
    let mut all = best;
    for item in items {
        all = loop_fault(alloc, s, around, all, &item.body)?;
    }
    Ok(all)
}
