//! Expressions and what assignments write, in prefix form.

use crate::flat::marks::{
    binary_mark, show_bytes, show_label, show_lowest, show_number, unary_mark,
};
use std::alloc::AllocError;
use vl_design::design::{Expr, ExprNode, SysArg, SysCall, Target, TargetNode};

/// An expression.
#[cycle(show)]
pub fn show(out: &mut String, e: &Expr) -> Result<(), AllocError> {
    match &e.node {
        ExprNode::Num(bits, signed) => show_number(out, *bits, *signed),
        ExprNode::Label(n) => show_label(out, *n),
        ExprNode::Sig(k) => write!(out, "#{k}"),
        ExprNode::Word(k, address) => {
            write!(out, "(word #{k}")?;
            show_next(out, address)?;
            out.push(')')
        }
        ExprNode::Pick(base, index, from, width) => {
            out.push_str("(pick")?;
            show_next(out, base)?;
            show_next(out, index)?;
            out.push(' ')?;
            show_lowest(out, *from)?;
            write!(out, " {width})")
        }
        ExprNode::Slice(base, low, width) => {
            out.push_str("(slice")?;
            show_next(out, base)?;
            write!(out, " {low} {width})")
        }
        ExprNode::Un(op, a) => {
            write!(out, "({}", unary_mark(*op))?;
            show_next(out, a)?;
            out.push(')')
        }
        ExprNode::Bin(op, a, b) => {
            write!(out, "({}", binary_mark(*op))?;
            show_next(out, a)?;
            show_next(out, b)?;
            out.push(')')
        }
        ExprNode::Cond(test, a, b) => {
            out.push_str("(?")?;
            show_next(out, test)?;
            show_next(out, a)?;
            show_next(out, b)?;
            out.push(')')
        }
        ExprNode::Cat(parts) => {
            out.push_str("(cat")?;
            show_all(out, parts.as_slice())?;
            out.push(')')
        }
        ExprNode::Rep(count, parts) => {
            write!(out, "(rep {count}")?;
            show_all(out, parts.as_slice())?;
            out.push(')')
        }
        ExprNode::Cast(signed, a) => {
            out.push_str(if *signed { "($signed" } else { "($unsigned" })?;
            show_next(out, a)?;
            out.push(')')
        }
        ExprNode::Call(function, arguments) => {
            write!(out, "(call {function}")?;
            show_all(out, arguments.as_slice())?;
            out.push(')')
        }
        ExprNode::Time => out.push_str("$time"),
        ExprNode::Sys(call) => show_call(out, call),
    }
}

/// An expression behind a space.
#[cycle(show)]
pub fn show_next(out: &mut String, e: &Expr) -> Result<(), AllocError> {
    out.push(' ')?;
    show(out, e)
}

/// Expressions, each behind a space.
#[cycle(show)]
pub fn show_all(out: &mut String, es: &[Expr]) -> Result<(), AllocError> {
    for e in es {
        show_next(out, e)?;
    }
    Ok(())
}

/// A system call.
#[cycle(show)]
pub fn show_call(out: &mut String, call: &SysCall) -> Result<(), AllocError> {
    out.push('(')?;
    show_bytes(out, call.name.as_slice())?;
    for argument in call.args.as_slice() {
        show_argument(out, argument)?;
    }
    out.push(')')
}

/// An argument of a system call, behind a space.
#[cycle(show)]
fn show_argument(out: &mut String, argument: &SysArg) -> Result<(), AllocError> {
    match argument {
        SysArg::Null => out.push_str(" null"),
        SysArg::Str(text) => {
            out.push_str(" \"")?;
            show_bytes(out, text.as_slice())?;
            out.push('"')
        }
        SysArg::Value(e) => show_next(out, e),
    }
}

/// What an assignment writes, behind a space.
#[cycle(target)]
pub fn show_target(out: &mut String, t: &Target) -> Result<(), AllocError> {
    match &t.node {
        TargetNode::Sig(k) => write!(out, " #{k}"),
        TargetNode::Word(k, address) => {
            write!(out, " (word #{k}")?;
            show_next(out, address)?;
            out.push(')')
        }
        TargetNode::Pick(base, index, from, width) => {
            out.push_str(" (pick")?;
            show_target(out, base)?;
            show_next(out, index)?;
            out.push(' ')?;
            show_lowest(out, *from)?;
            write!(out, " {width})")
        }
        TargetNode::Slice(base, low, width) => {
            out.push_str(" (slice")?;
            show_target(out, base)?;
            write!(out, " {low} {width})")
        }
        TargetNode::List(parts) => show_targets(out, parts.as_slice()),
    }
}

/// A concatenation of targets, behind a space.
#[cycle(target)]
fn show_targets(out: &mut String, parts: &[Target]) -> Result<(), AllocError> {
    out.push_str(" (cat")?;
    for part in parts {
        show_target(out, part)?;
    }
    out.push(')')
}
