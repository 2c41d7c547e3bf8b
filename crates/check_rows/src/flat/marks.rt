//! The words of a table: operators as they are written, numbers, kinds.

use std::alloc::AllocError;
use vl_design::design::{LowestBit, ProcKind, SigKind};
use vl_design::number::Number;
use vl_design::{BinOp, Bits, UnOp};

/// An operator on one operand.
pub fn unary_mark(op: UnOp) -> &'static str {
    match op {
        UnOp::Neg => "-",
        UnOp::Not => "~",
        UnOp::LogNot => "!",
        UnOp::RedAnd => "&",
        UnOp::RedOr => "|",
        UnOp::RedXor => "^",
        UnOp::RedNand => "~&",
        UnOp::RedNor => "~|",
        UnOp::RedXnor => "~^",
    }
}

/// An operator on two operands.
pub fn binary_mark(op: BinOp) -> &'static str {
    match op {
        BinOp::Add => "+",
        BinOp::Sub => "-",
        BinOp::Mul => "*",
        BinOp::Div => "/",
        BinOp::Rem => "%",
        BinOp::And => "&",
        BinOp::Or => "|",
        BinOp::Xor => "^",
        BinOp::Xnor => "~^",
        BinOp::Shl => "<<",
        BinOp::Shr => ">>",
        BinOp::Sshr => ">>>",
        BinOp::Lt => "<",
        BinOp::Le => "<=",
        BinOp::Gt => ">",
        BinOp::Ge => ">=",
        BinOp::Eq => "==",
        BinOp::Ne => "!=",
        BinOp::LogAnd => "&&",
        BinOp::LogOr => "||",
    }
}

/// The kind of a signal.
pub fn signal_kind(kind: SigKind) -> &'static str {
    match kind {
        SigKind::Net => "net",
        SigKind::Var => "var",
        SigKind::Comb => "comb",
        SigKind::Loop => "loop",
        SigKind::Mem => "mem",
        SigKind::Clock => "clock",
    }
}

/// The kind of a process.
pub fn process_kind(kind: ProcKind) -> &'static str {
    match kind {
        ProcKind::Init => "init",
        ProcKind::Rise => "rise",
        ProcKind::Fall => "fall",
        ProcKind::Comb => "comb",
        ProcKind::Assign => "assign",
    }
}

/// What an event waits for.
pub fn edge_mark(edge: u8) -> &'static str {
    match edge {
        0 => "any",
        1 => "posedge",
        2 => "negedge",
        _ => "unknown",
    }
}

/// A base letter of a number: `sd` where it is signed.
fn base(signed: bool) -> &'static str {
    if signed { "sd" } else { "d" }
}

/// A number, as `8'd5`.
pub fn show_number(out: &mut String, bits: Bits, signed: bool) -> Result<(), AllocError> {
    write!(out, "{}'{}{}", bits.width(), base(signed), bits.value())
}

/// A label of a `casez`, as a number behind which the bits that count stand.
pub fn show_label(out: &mut String, n: Number) -> Result<(), AllocError> {
    write!(out, "{}'{}{}/{}", n.width, base(n.signed), n.value, n.care)
}

/// How an index becomes the lowest bit, as `0+i` or `7-i`.
pub fn show_lowest(out: &mut String, from: LowestBit) -> Result<(), AllocError> {
    let sign = if from.taken { "-" } else { "+" };
    write!(out, "{}{sign}i", from.constant)
}

/// Bytes as a text.
pub fn show_bytes(out: &mut String, text: &[u8]) -> Result<(), AllocError> {
    for byte in text {
        out.push(char::from(*byte))?;
    }
    Ok(())
}
