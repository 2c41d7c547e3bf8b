//! Statements as plain trees.

ghost use Rattle.std.specs.Prelude.{◌≡◌, map, IfOk};
ghost use Rattle.elab_plain.specs.vl_flat.specs.Surface as x;
ghost use Rattle.elab_plain.specs.vl_flat.specs.Binding as f;
ghost use Rattle.elab_plain.specs.SeenStatements as s;

use crate::expressions::{bind, bind_all, bind_arguments, copied};
use crate::lefts::bind_left;
use elab_plain::surface::{CaseItem, Statement};
use std::alloc::{AllocError, Global};
use vl_tree::Place;
use vl_tree::source_tree::{
    AssignMark, Assignment, CaseItem as CaseItemTree, CaseKeyword, Statement as StatementTree,
};
use vl_tree::tree::{Expression, SystemCall};

/// The word is `casez`.
fn wild_of(word: CaseKeyword) -> bool
    ensures { result ≡ f.is_wild word }
{
    match word {
        CaseKeyword::Case => false,
        CaseKeyword::Casez => true,
    }
}

/// A system task.
#[tactic(auto, using(elab_plain::proofs::StatementTrees::statements))]
fn bind_task(alloc: Global, at: Place, call: &SystemCall) -> Result<Statement, AllocError>
    ensures { IfOk result (λ a. s.seen_statement a ≡ f.task at (f.system call.now)) }
{
    let name = copied(alloc, &call.name)?;
    match &call.arguments {
        None => Ok(Statement::Task(at, name, Vec::new(alloc))),
        Some(given) => {
            let arguments = bind_arguments(alloc, given.as_slice())?;
            Ok(Statement::Task(at, name, arguments))
        }
    }
}

/// A loop of this body.
#[tactic(auto, using(elab_plain::proofs::StatementTrees::statements))]
fn bind_for(
    alloc: Global,
    at: Place,
    start: &Assignment,
    test: &Expression,
    step: &Assignment,
    body: Box<Statement>,
) -> Result<Statement, AllocError>
    ensures { IfOk result (λ a. s.seen_statement a ≡ x.For at (f.left start.now.target) (f.ex start.now.value) (f.ex test.now) (f.left step.now.target) (f.ex step.now.value) (s.seen_statement body.value)) }
{
    let target = bind_left(alloc, &start.target)?;
    let first = bind(alloc, &start.value)?;
    let test = bind(alloc, test)?;
    let stepped = bind_left(alloc, &step.target)?;
    let next = bind(alloc, &step.value)?;
    Ok(Statement::For(at, target, first, test, stepped, next, body))
}

/// A condition with these branches.
#[tactic(auto, using(elab_plain::proofs::StatementTrees::statements))]
fn bind_if(
    alloc: Global,
    at: Place,
    test: &Expression,
    chosen: Box<Statement>,
    otherwise: Box<Statement>,
) -> Result<Statement, AllocError>
    ensures { IfOk result (λ a. s.seen_statement a ≡ x.If at (f.ex test.now) (s.seen_statement chosen.value) (s.seen_statement otherwise.value)) }
{
    let test = bind(alloc, test)?;
    Ok(Statement::If(at, test, chosen, otherwise))
}

/// A statement with its operators bound.
#[cycle(statements)]
#[tactic(auto, using(elab_plain::proofs::StatementTrees::statements))]
pub fn bind_statement(alloc: Global, a: &StatementTree) -> Result<Statement, AllocError>
    ensures { IfOk result (λ b. s.seen_statement b ≡ f.statement a.now) }
{
    match a {
        StatementTree::Null(at) => Ok(Statement::Null(*at)),
        StatementTree::Block(at, parts) => {
            Ok(Statement::Block(*at, bind_statements(alloc, parts.as_slice())?))
        }
        StatementTree::If(at, test, chosen, otherwise) => {
            let chosen = Box::new(alloc, bind_statement(alloc, chosen.get())?)?;
            match otherwise {
                None => {
                    let none = Box::new(alloc, Statement::Null(*at))?;
                    bind_if(alloc, *at, test, chosen, none)
                }
                Some(other) => {
                    let other = Box::new(alloc, bind_statement(alloc, other.get())?)?;
                    bind_if(alloc, *at, test, chosen, other)
                }
            }
        }
        StatementTree::Case(at, word, subject, items) => {
            let wild = wild_of(*word);
            let subject = bind(alloc, subject)?;
            Ok(Statement::Case(*at, wild, subject, bind_items(alloc, items.as_slice())?))
        }
        StatementTree::For(at, start, test, step, body) => {
            let body = Box::new(alloc, bind_statement(alloc, body.get())?)?;
            bind_for(alloc, *at, start, test, step, body)
        }
        StatementTree::Repeat(at, count, body) => {
            let body = Box::new(alloc, bind_statement(alloc, body.get())?)?;
            let count = bind(alloc, count)?;
            Ok(Statement::Repeat(*at, count, body))
        }
        StatementTree::Assign(at, target, mark, value) => {
            let blocking = *mark == AssignMark::Blocking;
            let target = bind_left(alloc, target)?;
            Ok(Statement::Assign(*at, blocking, target, bind(alloc, value)?))
        }
        StatementTree::System(at, call) => bind_task(alloc, *at, call),
    }
}

/// Statements one by one.
#[cycle(statements)]
#[tactic(auto, using(elab_plain::proofs::StatementTrees::statements))]
fn bind_statements(alloc: Global, parts: &[StatementTree]) -> Result<Vec<Statement>, AllocError>
    ensures { IfOk result (λ v. map s.seen_statement v.items ≡ map f.statement parts.now) }
{
    let mut all = Vec::new(alloc);
    for a in parts {
        all.push(bind_statement(alloc, a)?)?;
    }
    Ok(all)
}

/// An item of a case.
#[cycle(statements)]
#[tactic(auto, using(elab_plain::proofs::StatementTrees::statements))]
fn bind_item(alloc: Global, a: &CaseItemTree) -> Result<CaseItem, AllocError>
    ensures { IfOk result (λ b. (others : x.CaseItems) → s.item b others ≡ f.case_item a.now others) }
{
    match a {
        CaseItemTree::Labels(_, labels, body) => {
            let labels = bind_all(alloc, labels.as_slice())?;
            Ok(CaseItem::Labelled(labels, bind_statement(alloc, body.get())?))
        }
        CaseItemTree::Default(_, body) => {
            Ok(CaseItem::Default(bind_statement(alloc, body.get())?))
        }
    }
}

/// Items one by one.
#[cycle(statements)]
#[tactic(auto, using(elab_plain::proofs::StatementTrees::statements))]
fn bind_items(alloc: Global, items: &[CaseItemTree]) -> Result<Vec<CaseItem>, AllocError>
    ensures { IfOk result (λ v. (others : x.CaseItems) → s.items_before v.items others ≡ s.trees_before items.now others) }
{
    let mut all = Vec::new(alloc);
    for a in items {
        all.push(bind_item(alloc, a)?)?;
    }
    Ok(all)
}
