//! Values with a width, and their operators.

ghost use Rattle.std.specs.Prelude.{◌≡◌, ◌<◌, ◌≤◌, ◌^◌, ◌%◌, ◌↔◌, false, IsSome, IfSome, IsTrue, ◌-◌};
ghost use Rattle.vl_base.specs.Value as v;

use crate::arith::{difference, negative, product, quotient, remainder, sum};
use crate::compare::is_less;
use crate::logic::{both, differing, either, inverse, is_odd};
use crate::shift::{shift_left, shift_right, shift_right_by_sign};

/// A value: a width from 1 to 128 and a whole number below 2^width (IEEE 1364-2005, clause 4.1).
#[derive(Clone, Copy)]
pub struct Bits {
    /// The whole number.
    pub value: u128,
    /// The width in bits.
    pub width: u8,
    pub ghost wide: { 1 ≤ width },
    pub ghost narrow: { width ≤ 128 },
    pub ghost fits: { value < 2 ^ width },
}

/// An operator on one value (IEEE 1364-2005, clause 5.1).
#[derive(Clone, Copy, Debug, PartialEq, Eq)]
pub enum UnOp {
    /// `-`: the negative modulo 2^width.
    Neg,
    /// `~`: each bit turned.
    Not,
    /// `!`: one bit, 1 where the value is 0.
    LogNot,
    /// `&`: one bit, 1 where all bits are set.
    RedAnd,
    /// `|`: one bit, 1 where some bit is set.
    RedOr,
    /// `^`: one bit, 1 where an odd number of bits is set.
    RedXor,
    /// `~&`: one bit, 0 where all bits are set.
    RedNand,
    /// `~|`: one bit, 0 where some bit is set.
    RedNor,
    /// `~^` and `^~`: one bit, 0 where an odd number of bits is set.
    RedXnor,
}

/// An operator on two values (IEEE 1364-2005, clause 5.1).
#[derive(Clone, Copy, Debug, PartialEq, Eq)]
pub enum BinOp {
    /// `+`: the sum modulo 2^width.
    Add,
    /// `-`: the difference modulo 2^width.
    Sub,
    /// `*`: the product modulo 2^width.
    Mul,
    /// `/`: the quotient toward zero; 0 where the divisor is 0.
    Div,
    /// `%`: the remainder, with the first value's sign; 0 where the divisor is 0.
    Rem,
    /// `&`, bit by bit.
    And,
    /// `|`, bit by bit.
    Or,
    /// `^`, bit by bit.
    Xor,
    /// `^~` and `~^`, bit by bit: 1 where the bits are equal.
    Xnor,
    /// `<<` and `<<<`: to the left by an amount.
    Shl,
    /// `>>`: to the right by an amount, with zeros before the value.
    Shr,
    /// `>>>`: to the right by an amount, with copies of the sign bit where the values are signed.
    Sshr,
    /// `<`: one bit.
    Lt,
    /// `<=`: one bit.
    Le,
    /// `>`: one bit.
    Gt,
    /// `>=`: one bit.
    Ge,
    /// `==` and `===`: one bit, 1 where both are equal.
    Eq,
    /// `!=` and `!==`: one bit, 0 where both are equal.
    Ne,
    /// `&&`: one bit, 1 where neither value is 0.
    LogAnd,
    /// `||`: one bit, 0 where both values are 0.
    LogOr,
}

impl Bits {
    /// A value of a width. None exactly where the width is 0 or above 128, or the number doesn't fit.
    pub fn new(value: u128, width: u8) -> Option<Bits>
        ensures exact { IsSome result ↔ ((1 ≤ width) × (width ≤ 128) × (value < 2 ^ width)) }
        ensures value { IfSome result (λ b. b.value ≡ value) }
        ensures width { IfSome result (λ b. b.width ≡ width) }
    {
        if width == 0 || width > 128 || (width < 128 && value >= 1 << width) {
            return None;
        }
        Some(Bits { value, width })
    }

    /// The whole number, below 2^width.
    pub fn value(&self) -> u128
        ensures { result ≡ self.now.value }
    {
        self.value
    }

    /// The width in bits, from 1 to 128.
    pub fn width(&self) -> u8
        ensures { result ≡ self.now.width }
    {
        self.width
    }
}

/// The number whose lowest bits, as many as the width, are set.
pub(crate) fn ones(width: u8) -> u128
    requires { width ≤ 128 }
    ensures { result ≡ 2 ^ width - 1 }
{
    if width < 128 {
        (1 << width) - 1
    } else {
        u128::MAX
    }
}

/// The lowest bits of a number.
pub(crate) fn lowest(value: u128, width: u8) -> u128
    requires { width ≤ 128 }
    ensures { result ≡ value % 2 ^ width }
{
    value & ones(width)
}

/// Whether the highest bit is set.
pub(crate) fn is_negative(a: Bits) -> bool
    ensures { result ≡ v.is_negative a.width a.value }
{
    a.value >= 1 << (a.width - 1)
}

/// One bit, 1 where a test holds.
pub(crate) fn bit(test: bool) -> Bits
    ensures value { result.value ≡ v.truth test }
    ensures width { result.width ≡ 1 }
{
    Bits {
        value: u128::from(test),
        width: 1,
    }
}

/// A number extended to 128 bits by its sign.
fn widened(a: Bits, signed: bool) -> u128
    ensures { result ≡ v.resized signed a.width 128 a.value }
{
    if signed && a.width < 128 && is_negative(a) {
        a.value + (u128::MAX - ((1 << a.width) - 1))
    } else {
        a.value
    }
}

/// A value in another width, from 1 to 128: cut at the left, or extended, by its sign where it is
/// signed (IEEE 1364-2005, clause 5.5).
pub fn resize(a: Bits, signed: bool, width: u8) -> Bits
    requires wide { 1 ≤ width }
    requires narrow { width ≤ 128 }
    ensures value { result.value ≡ v.resized signed a.width width a.value }
    ensures width { result.width ≡ width }
{
    Bits {
        value: lowest(widened(a, signed), width),
        width,
    }
}

/// The value of an operator on one value (IEEE 1364-2005, clauses 5.1.5 and 5.1.9 to 5.1.11).
pub fn unary(op: UnOp, a: Bits) -> Bits
    ensures value { result.value ≡ v.unary_value op a.width a.value }
    ensures width { result.width ≡ v.unary_width op a.width }
{
    match op {
        UnOp::Neg => negative(a),
        UnOp::Not => inverse(a),
        UnOp::RedOr => bit(a.value != 0),
        UnOp::LogNot | UnOp::RedNor => bit(a.value == 0),
        UnOp::RedAnd => bit(a.value == ones(a.width)),
        UnOp::RedNand => bit(a.value != ones(a.width)),
        UnOp::RedXor => bit(is_odd(a)),
        UnOp::RedXnor => bit(!is_odd(a)),
    }
}

/// The value of an operator on two values of one width; the amount of a shift and the values of
/// `&&` and `||` may have other widths (IEEE 1364-2005, clauses 5.1.5 to 5.1.12).
pub fn binary(op: BinOp, signed: bool, a: Bits, b: Bits) -> Bits
    requires { IsTrue (v.needs_one_width op) → a.width ≡ b.width }
    ensures value { result.value ≡ v.binary_value op signed a.width a.value b.value }
    ensures width { result.width ≡ v.binary_width op a.width }
{
    match op {
        BinOp::Add => sum(a, b),
        BinOp::Sub => difference(a, b),
        BinOp::Mul => product(a, b),
        BinOp::Div => quotient(signed, a, b),
        BinOp::Rem => remainder(signed, a, b),
        BinOp::And => both(a, b),
        BinOp::Or => either(a, b),
        BinOp::Xor => differing(a, b),
        BinOp::Xnor => inverse(differing(a, b)),
        BinOp::Shl => shift_left(a, b.value),
        BinOp::Shr => shift_right(a, b.value),
        BinOp::Sshr => shift_right_by_sign(signed, a, b.value),
        BinOp::Lt => bit(is_less(signed, a, b)),
        BinOp::Le => bit(!is_less(signed, b, a)),
        BinOp::Gt => bit(is_less(signed, b, a)),
        BinOp::Ge => bit(!is_less(signed, a, b)),
        BinOp::Eq => bit(a.value == b.value),
        BinOp::Ne => bit(a.value != b.value),
        BinOp::LogAnd => bit(a.value != 0 && b.value != 0),
        BinOp::LogOr => bit(a.value != 0 || b.value != 0),
    }
}
