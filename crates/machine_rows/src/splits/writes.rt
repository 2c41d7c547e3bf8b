//! What statements write, in words: each signal with `=` or `<=` behind it.

use std::alloc::{AllocError, Global};
use sub_split::table::Piece;
use vl_design::design::{CaseItem, Signal, Stmt, StmtNode, Target, TargetNode};

/// Adds a name of bytes.
pub fn push_name(text: &mut String, name: &[u8]) -> Result<(), AllocError> {
    for byte in name {
        text.push(char::from(*byte))?;
    }
    Ok(())
}

/// Adds a blank and a signal's name.
fn push_signal(text: &mut String, signals: &[Signal], number: u32) -> Result<(), AllocError> {
    text.push(' ')?;
    match signals.get(number as usize) {
        Some(signal) => push_name(text, signal.name.as_slice()),
        None => text.push('?'),
    }
}

/// Adds what is written to a left side.
fn push_target(
    text: &mut String,
    signals: &[Signal],
    target: &Target,
    sign: &str,
) -> Result<(), AllocError> {
    match &target.node {
        TargetNode::Sig(number) => {
            push_signal(text, signals, *number)?;
            text.push_str(sign)
        }
        TargetNode::Word(number, _) => {
            push_signal(text, signals, *number)?;
            text.push_str(sign)
        }
        TargetNode::Pick(inner, _, _, _) => push_target(text, signals, inner, sign),
        TargetNode::Slice(inner, _, _) => push_target(text, signals, inner, sign),
        TargetNode::List(parts) => {
            for part in parts {
                push_target(text, signals, part, sign)?;
            }
            Ok(())
        }
    }
}

/// Adds what the items of a case write.
#[cycle(writes)]
fn push_items(text: &mut String, signals: &[Signal], items: &[CaseItem]) -> Result<(), AllocError> {
    for item in items {
        push_statement(text, signals, &item.body)?;
    }
    Ok(())
}

/// Adds what a statement writes; of a choice in brackets.
#[cycle(writes)]
fn push_statement(text: &mut String, signals: &[Signal], a: &Stmt) -> Result<(), AllocError> {
    match &a.node {
        StmtNode::Nop => Ok(()),
        StmtNode::Seq(list) => {
            for one in list {
                push_statement(text, signals, one)?;
            }
            Ok(())
        }
        StmtNode::If(_, first, second) => {
            text.push_str(" if(")?;
            push_statement(text, signals, first)?;
            push_statement(text, signals, second)?;
            text.push_str(" )")
        }
        StmtNode::Case(_, items, _) => {
            text.push_str(" case(")?;
            push_items(text, signals, items.as_slice())?;
            text.push_str(" )")
        }
        StmtNode::For(_, _, _, _, _) => text.push_str(" for"),
        StmtNode::Repeat(_, _) => text.push_str(" repeat"),
        StmtNode::Set(target, _) => push_target(text, signals, target, "="),
        StmtNode::Later(target, _) => push_target(text, signals, target, "<="),
        StmtNode::Sys(_) => text.push_str(" call"),
    }
}

/// Adds what a statement of a segment writes; `$` behind the sign where that is an answer.
pub fn push_piece(
    text: &mut String,
    signals: &[Signal],
    piece: Piece<'_>,
) -> Result<(), AllocError> {
    match piece {
        Piece::Whole(a) => push_statement(text, signals, a),
        Piece::Loop(_, _) => text.push_str(" loop"),
        Piece::Set(target, _) => push_target(text, signals, target, "=$"),
        Piece::Later(target, _) => push_target(text, signals, target, "<=$"),
    }
}
