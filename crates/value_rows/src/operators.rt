//! Rows of operands: a kind and its operands, numbers in hexadecimal.

ghost use Rattle.std.specs.Prelude.{◌≡◌, ◌≤◌, IfSome};

use std::alloc::{AllocError, Global};
use std::str::SplitWhitespace;
use vl_base::bits::{BinOp, Bits, UnOp, binary, resize, unary};
use vl_base::select::{append, pick, place_in};

/// The next number of a row, or 0.
fn number(words: &mut SplitWhitespace) -> u128 {
    let Some(word) = words.next() else {
        return 0;
    };
    u128::from_str_radix(word, 16).unwrap_or(0)
}

/// The next width of a row, or 1.
fn width(words: &mut SplitWhitespace) -> u8
    ensures wide { 1 ≤ result }
    ensures narrow { result ≤ 128 }
{
    match u8::try_from(number(words)) {
        Ok(width) if width >= 1 && width <= 128 => width,
        _ => 1,
    }
}

/// The next value of a row, of a width; 0 where it doesn't fit.
fn value(words: &mut SplitWhitespace, width: u8) -> Option<Bits>
    ensures { IfSome result (λ b. b.width ≡ width) }
{
    Bits::new(number(words), width)
}

/// The next width and value of a row.
fn bits(words: &mut SplitWhitespace) -> Option<Bits> {
    let width = width(words);
    value(words, width)
}

/// Adds a value to a text.
fn add(out: &mut String, value: Bits) -> Result<(), AllocError> {
    let value = value.value();
    write!(out, " {value:x}")
}

/// `both WIDTH A B`: every operator on two operands but the shifts, unsigned and signed.
fn both(out: &mut String, words: &mut SplitWhitespace) -> Result<(), AllocError> {
    let ops = [
        BinOp::Add,
        BinOp::Sub,
        BinOp::Mul,
        BinOp::Div,
        BinOp::Rem,
        BinOp::And,
        BinOp::Or,
        BinOp::Xor,
        BinOp::Xnor,
        BinOp::Lt,
        BinOp::Le,
        BinOp::Gt,
        BinOp::Ge,
        BinOp::Eq,
        BinOp::Ne,
        BinOp::LogAnd,
        BinOp::LogOr,
    ];
    let width = width(words);
    let (Some(a), Some(b)) = (value(words, width), value(words, width)) else {
        return out.push_str(" none");
    };
    for op in ops {
        add(out, binary(op, false, a, b))?;
        add(out, binary(op, true, a, b))?;
    }
    Ok(())
}

/// `shift WIDTH A WIDTH B`: A to the left, to the right, and to the right by sign, by B.
fn shift(out: &mut String, words: &mut SplitWhitespace) -> Result<(), AllocError> {
    let (Some(a), Some(b)) = (bits(words), bits(words)) else {
        return out.push_str(" none");
    };
    add(out, binary(BinOp::Shl, false, a, b))?;
    add(out, binary(BinOp::Shr, false, a, b))?;
    add(out, binary(BinOp::Sshr, true, a, b))
}

/// `one WIDTH A`: every operator on one operand.
fn one(out: &mut String, words: &mut SplitWhitespace) -> Result<(), AllocError> {
    let ops = [
        UnOp::Neg,
        UnOp::Not,
        UnOp::LogNot,
        UnOp::RedAnd,
        UnOp::RedOr,
        UnOp::RedXor,
        UnOp::RedNand,
        UnOp::RedNor,
        UnOp::RedXnor,
    ];
    let Some(a) = bits(words) else {
        return out.push_str(" none");
    };
    for op in ops {
        add(out, unary(op, a))?;
    }
    Ok(())
}

/// `select WIDTH A BELOW SIZE WIDTH B`: as many bits of A as B has, from the bit SIZE on or from SIZE below
/// bit 0, and A with B written there.
fn select(out: &mut String, words: &mut SplitWhitespace) -> Result<(), AllocError> {
    let Some(a) = bits(words) else {
        return out.push_str(" none");
    };
    let is_below = number(words) == 1;
    let size = i64::try_from(number(words)).unwrap_or(0);
    let low = if is_below { -size } else { size };
    let count = width(words);
    let Some(part) = value(words, count) else {
        return out.push_str(" none");
    };
    add(out, pick(a, low, count))?;
    add(out, place_in(a, low, part))
}

/// `pair WIDTH A WIDTH B`: both side by side.
fn pair(out: &mut String, words: &mut SplitWhitespace) -> Result<(), AllocError> {
    let (Some(high), Some(low)) = (bits(words), bits(words)) else {
        return out.push_str(" none");
    };
    match append(high, low) {
        Some(value) => add(out, value),
        None => out.push_str(" none"),
    }
}

/// `width WIDTH A WIDTH`: A in the other width, unsigned and signed.
fn other(out: &mut String, words: &mut SplitWhitespace) -> Result<(), AllocError> {
    let Some(a) = bits(words) else {
        return out.push_str(" none");
    };
    let width = width(words);
    add(out, resize(a, false, width))?;
    add(out, resize(a, true, width))
}

/// The row and what it gives.
pub fn answer(alloc: Global, row: &str) -> Result<String, AllocError> {
    let mut out = String::new(alloc);
    out.push_str(row)?;
    out.push_str(" =")?;
    let mut words = row.split_whitespace();
    let Some(kind) = words.next() else {
        return Ok(out);
    };
    if kind == "both" {
        both(&mut out, &mut words)?;
    } else if kind == "shift" {
        shift(&mut out, &mut words)?;
    } else if kind == "one" {
        one(&mut out, &mut words)?;
    } else if kind == "select" {
        select(&mut out, &mut words)?;
    } else if kind == "pair" {
        pair(&mut out, &mut words)?;
    } else if kind == "width" {
        other(&mut out, &mut words)?;
    }
    Ok(out)
}
