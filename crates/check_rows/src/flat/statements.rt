//! Statements in prefix form.

use crate::flat::expressions::{show, show_all, show_call, show_next, show_target};
use std::alloc::AllocError;
use vl_design::design::{CaseItem, Expr, Stmt, StmtNode, Target};

/// An assignment.
fn show_assignment(
    out: &mut String,
    word: &str,
    target: &Target,
    source: &Expr,
) -> Result<(), AllocError> {
    write!(out, "({word}")?;
    show_target(out, target)?;
    show_next(out, source)?;
    out.push(')')
}

/// A statement.
#[cycle(statement)]
pub fn show_statement(out: &mut String, a: &Stmt) -> Result<(), AllocError> {
    match &a.node {
        StmtNode::Nop => out.push_str("nop"),
        StmtNode::Seq(parts) => show_sequence(out, parts.as_slice()),
        StmtNode::If(test, a, b) => {
            out.push_str("(if")?;
            show_next(out, test)?;
            show_inner(out, a)?;
            show_inner(out, b)?;
            out.push(')')
        }
        StmtNode::Case(subject, items, wild) => {
            out.push_str(if *wild { "(casez" } else { "(case" })?;
            show_next(out, subject)?;
            show_items(out, items.as_slice())?;
            out.push(')')
        }
        StmtNode::For(variable, start, test, step, body) => {
            write!(out, "(for #{variable}")?;
            show_inner(out, start)?;
            show_next(out, test)?;
            show_inner(out, step)?;
            show_inner(out, body)?;
            out.push(')')
        }
        StmtNode::Repeat(count, body) => {
            write!(out, "(repeat {count}")?;
            show_inner(out, body)?;
            out.push(')')
        }
        StmtNode::Set(target, source) => show_assignment(out, "set", target, source),
        StmtNode::Later(target, source) => show_assignment(out, "later", target, source),
        StmtNode::Sys(call) => show_call(out, call),
    }
}

/// A statement behind a space.
#[cycle(statement)]
fn show_inner(out: &mut String, a: &Stmt) -> Result<(), AllocError> {
    out.push(' ')?;
    show_statement(out, a)
}

/// Statements one after another.
#[cycle(statement)]
fn show_sequence(out: &mut String, parts: &[Stmt]) -> Result<(), AllocError> {
    out.push_str("(seq")?;
    for part in parts {
        show_inner(out, part)?;
    }
    out.push(')')
}

/// The items of a case, each in parentheses behind a space: its labels, a colon and its statement.
#[cycle(statement)]
fn show_items(out: &mut String, items: &[CaseItem]) -> Result<(), AllocError> {
    for item in items {
        out.push_str(if item.labels.as_slice().is_empty() {
            " (default"
        } else {
            " (when"
        })?;
        show_all(out, item.labels.as_slice())?;
        out.push_str(" :")?;
        show_inner(out, &item.body)?;
        out.push(')')?;
    }
    Ok(())
}
