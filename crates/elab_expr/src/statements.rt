//! Statements in the design (IEEE 1364-2005, clause 9).

ghost use Rattle.std.specs.Prelude.{◌≡◌, map, IfOk};
ghost use Rattle.elab_plain.specs.vl_flat.specs.Surface as x;
ghost use Rattle.vl_design.specs.Placed as p;
ghost use Rattle.elab_plain.specs.vl_flat.specs.Scopes as scopes;
ghost use Rattle.elab_plain.specs.vl_flat.specs.Expressions as flat;
ghost use Rattle.elab_plain.specs.vl_flat.specs.Statements as spec;
ghost use Rattle.vl_design.specs.Seen.{exp_of, stm_of};
ghost use Rattle.elab_plain.specs.Seen.{seen, args_before};
ghost use Rattle.elab_plain.specs.SeenStatements.{seen_left, seen_statement, item, items_before};
ghost use Rattle.elab_constant.specs.Seen.{seen_scope};
ghost use Rattle.elab_expr.specs.Walked as n;

use crate::expressions::{arguments, copied, exp};
use crate::labels::labels;
use crate::targets::target;
use elab_constant::form::keeps_texts;
use elab_constant::scope::{Scope, meaning};
use elab_constant::selects::number_of;
use elab_constant::whole::repeats;
use elab_plain::surface::{Argument, CaseItem as Branch, Ex, Left, Statement};
use std::alloc::{AllocError, Global};
use vl_base::items::Text;
use vl_base::place::Place;
use vl_design::design::{CaseItem, Stmt, StmtNode, SysCall};

/// The place of a left side's first token.
pub fn left_place(l: &Left) -> Place
    ensures { result ≡ x.left_place (seen_left l.now) }
{
    match l {
        Left::Name(at, _, _) | Left::List(at, _) => *at,
    }
}

/// The first name in a left side; none where it names nothing.
fn first_name(l: &Left) -> &[u8]
    ensures { result.now ≡ spec.first_name (seen_left l.now) }
{
    match l {
        Left::Name(_, name, _) => name.as_slice(),
        Left::List(_, parts) => match parts.as_slice() {
            [] => b"".as_slice(),
            [first, ..] => first_name(first),
        },
    }
}

/// An assignment in the head of a loop, in a place of its own.
fn set(alloc: Global, scope: &Scope<'_, '_>, l: &Left, e: &Ex) -> Result<Box<Stmt>, AllocError>
    ensures { IfOk result (λ s. stm_of s.value ≡ spec.set (seen_scope scope.now) (seen_left l.now) (seen e.now)) }
{
    let written = target(alloc, scope, l)?;
    let source = exp(alloc, scope, e)?;
    let set = Stmt {
        place: left_place(l),
        node: StmtNode::Set(written, source),
    };
    Ok(Box::new(alloc, set)?)
}

/// An assignment.
fn assigned(
    alloc: Global,
    scope: &Scope<'_, '_>,
    at: Place,
    blocking: bool,
    l: &Left,
    e: &Ex,
) -> Result<Stmt, AllocError>
    ensures { IfOk result (λ s. stm_of s ≡ spec.statement (seen_scope scope.now) (x.Assign at blocking (seen_left l.now) (seen e.now))) }
{
    let written = target(alloc, scope, l)?;
    let source = exp(alloc, scope, e)?;
    if blocking {
        return Ok(Stmt {
            place: at,
            node: StmtNode::Set(written, source),
        });
    }
    Ok(Stmt {
        place: at,
        node: StmtNode::Later(written, source),
    })
}

/// A condition with its two branches.
fn branched(
    alloc: Global,
    scope: &Scope<'_, '_>,
    at: Place,
    test: &Ex,
    chosen: Box<Stmt>,
    otherwise: Box<Stmt>,
) -> Result<Stmt, AllocError>
    ensures { IfOk result (λ s. stm_of s ≡ p.If at (flat.exp (seen_scope scope.now) (seen test.now)) (stm_of chosen.value) (stm_of otherwise.value)) }
{
    let test = exp(alloc, scope, test)?;
    Ok(Stmt {
        place: at,
        node: StmtNode::If(test, chosen, otherwise),
    })
}

/// The variable of a loop whose first assignment has this left side.
fn variable(scope: &Scope<'_, '_>, l: &Left) -> u32
    ensures { result ≡ scopes.number_of ((seen_scope scope.now).names (spec.first_name (seen_left l.now))) }
{
    number_of(meaning(scope, first_name(l)))
}

/// A loop over a variable, with this body.
fn counted(
    alloc: Global,
    scope: &Scope<'_, '_>,
    at: Place,
    target: &Left,
    start: &Ex,
    test: &Ex,
    stepped: &Left,
    step: &Ex,
    body: Box<Stmt>,
) -> Result<Stmt, AllocError>
    ensures { IfOk result (λ s. stm_of s ≡ p.For at (scopes.number_of ((seen_scope scope.now).names (spec.first_name (seen_left target.now)))) (spec.set (seen_scope scope.now) (seen_left target.now) (seen start.now)) (flat.exp (seen_scope scope.now) (seen test.now)) (spec.set (seen_scope scope.now) (seen_left stepped.now) (seen step.now)) (stm_of body.value)) }
{
    let start = set(alloc, scope, target, start)?;
    let step = set(alloc, scope, stepped, step)?;
    let test = exp(alloc, scope, test)?;
    Ok(Stmt {
        place: at,
        node: StmtNode::For(variable(scope, target), start, test, step, body),
    })
}

/// A system task.
fn task(
    alloc: Global,
    scope: &Scope<'_, '_>,
    at: Place,
    name: &Text,
    given: &[Argument],
) -> Result<Stmt, AllocError>
    ensures { IfOk result (λ s. stm_of s ≡ p.Task at name.now (flat.args (seen_scope scope.now) (flat.keeps_texts name.now) (args_before given.now x.NoArgs))) }
{
    let keeps = keeps_texts(name.as_slice());
    let args = arguments(alloc, scope, keeps, given)?;
    let name = copied(alloc, name)?;
    Ok(Stmt {
        place: at,
        node: StmtNode::Sys(SysCall { name, args }),
    })
}

/// A statement.
#[cycle(statement)]
pub fn statement(alloc: Global, scope: &Scope<'_, '_>, a: &Statement) -> Result<Stmt, AllocError>
    ensures { IfOk result (λ s. stm_of s ≡ spec.statement (seen_scope scope.now) (seen_statement a.now)) }
{
    match a {
        Statement::Null(at) => Ok(Stmt {
            place: *at,
            node: StmtNode::Nop,
        }),
        Statement::Block(at, parts) => {
            let parts = statements(alloc, scope, parts.as_slice())?;
            Ok(Stmt {
                place: *at,
                node: StmtNode::Seq(parts),
            })
        }
        Statement::If(at, test, chosen, otherwise) => {
            let chosen = boxed(alloc, scope, chosen)?;
            let otherwise = boxed(alloc, scope, otherwise)?;
            branched(alloc, scope, *at, test, chosen, otherwise)
        }
        Statement::Case(at, wild, subject, items) => {
            let items = case_items(alloc, scope, *wild, items.as_slice())?;
            let subject = exp(alloc, scope, subject)?;
            Ok(Stmt {
                place: *at,
                node: StmtNode::Case(subject, items, *wild),
            })
        }
        Statement::For(at, target, start, test, stepped, step, body) => {
            let body = boxed(alloc, scope, body)?;
            counted(alloc, scope, *at, target, start, test, stepped, step, body)
        }
        Statement::Repeat(at, count, body) => {
            let body = boxed(alloc, scope, body)?;
            Ok(Stmt {
                place: *at,
                node: StmtNode::Repeat(repeats(scope, count), body),
            })
        }
        Statement::Assign(at, blocking, target, value) => {
            assigned(alloc, scope, *at, *blocking, target, value)
        }
        Statement::Task(at, name, given) => task(alloc, scope, *at, name, given.as_slice()),
    }
}

/// A statement in a place of its own.
#[cycle(statement)]
fn boxed(alloc: Global, scope: &Scope<'_, '_>, a: &Statement) -> Result<Box<Stmt>, AllocError>
    ensures { IfOk result (λ s. stm_of s.value ≡ spec.statement (seen_scope scope.now) (seen_statement a.now)) }
{
    Ok(Box::new(alloc, statement(alloc, scope, a)?)?)
}

/// Statements one by one.
#[cycle(statement)]
fn statements(
    alloc: Global,
    scope: &Scope<'_, '_>,
    parts: &[Statement],
) -> Result<Vec<Stmt>, AllocError>
    ensures { IfOk result (λ v. map stm_of v.items ≡ map (n.seen_stm (seen_scope scope.now)) parts.now) }
{
    let mut all = Vec::new(alloc);
    for a in parts {
        all.push(statement(alloc, scope, a)?)?;
    }
    Ok(all)
}

/// An item of a case, or of a `casez` where `wild`.
#[cycle(statement)]
fn case_item(
    alloc: Global,
    scope: &Scope<'_, '_>,
    wild: bool,
    one: &Branch,
) -> Result<CaseItem, AllocError>
    ensures { IfOk result (λ b. (others : x.CaseItems) → n.item_with b (spec.case_items (seen_scope scope.now) wild others) ≡ spec.case_items (seen_scope scope.now) wild (item one.now others)) }
{
    match one {
        Branch::Labelled(es, body) => {
            let labels = labels(alloc, scope, wild, es.as_slice())?;
            let body = statement(alloc, scope, body)?;
            Ok(CaseItem { labels, body })
        }
        Branch::Default(body) => {
            let labels = Vec::new(alloc);
            let body = statement(alloc, scope, body)?;
            Ok(CaseItem { labels, body })
        }
    }
}

/// Items one by one.
#[cycle(statement)]
fn case_items(
    alloc: Global,
    scope: &Scope<'_, '_>,
    wild: bool,
    items: &[Branch],
) -> Result<Vec<CaseItem>, AllocError>
    ensures { IfOk result (λ v. (others : x.CaseItems) → n.items_with v.items (spec.case_items (seen_scope scope.now) wild others) ≡ spec.case_items (seen_scope scope.now) wild (items_before items.now others)) }
{
    let mut all = Vec::new(alloc);
    for one in items {
        all.push(case_item(alloc, scope, wild, one)?)?;
    }
    Ok(all)
}
