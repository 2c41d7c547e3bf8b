//! Sums, products and quotients (IEEE 1364-2005, clause 5.1.5).

ghost use Rattle.std.specs.Prelude.{◌≡◌, ◌<◌, ◌≤◌, ◌^◌, false, ◌&&◌, unsigned_abs, neg_ℤ, pos, if◌then◌else◌};
ghost use Rattle.vl_base.specs.declared.bits.UnOp.TheVariants.{Neg};
ghost use Rattle.vl_base.specs.declared.bits.BinOp.TheVariants.{Add, Sub, Mul, Div, Rem};
ghost use Rattle.vl_base.specs.Value as v;

use crate::bits::{Bits, is_negative, lowest};

/// The sum modulo 2^width.
pub(crate) fn sum(a: Bits, b: Bits) -> Bits
    requires { a.width ≡ b.width }
    ensures value { result.value ≡ v.binary_value Add false a.width a.value b.value }
    ensures width { result.width ≡ a.width }
{
    Bits {
        value: lowest(a.value.wrapping_add(b.value), a.width),
        width: a.width,
    }
}

/// The difference modulo 2^width.
pub(crate) fn difference(a: Bits, b: Bits) -> Bits
    requires { a.width ≡ b.width }
    ensures value { result.value ≡ v.binary_value Sub false a.width a.value b.value }
    ensures width { result.width ≡ a.width }
{
    Bits {
        value: lowest(a.value.wrapping_sub(b.value), a.width),
        width: a.width,
    }
}

/// The negative modulo 2^width.
pub(crate) fn negative(a: Bits) -> Bits
    ensures value { result.value ≡ v.unary_value Neg a.width a.value }
    ensures width { result.width ≡ a.width }
{
    let zero = Bits {
        value: 0,
        width: a.width,
    };
    difference(zero, a)
}

/// The product modulo 2^width.
pub(crate) fn product(a: Bits, b: Bits) -> Bits
    requires { a.width ≡ b.width }
    ensures value { result.value ≡ v.binary_value Mul false a.width a.value b.value }
    ensures width { result.width ≡ a.width }
{
    Bits {
        value: lowest(a.value.wrapping_mul(b.value), a.width),
        width: a.width,
    }
}

/// The size of the whole number that a value stands for.
fn magnitude(signed: bool, a: Bits) -> u128
    ensures value { result ≡ unsigned_abs (v.reading signed a.width a.value) }
    ensures fits { result < 2 ^ a.width }
{
    if signed && is_negative(a) {
        negative(a).value
    } else {
        a.value
    }
}

/// A whole number by its size and sign, modulo 2^width.
fn with_sign(is_below: bool, size: u128, width: u8) -> Bits
    requires wide { 1 ≤ width }
    requires narrow { width ≤ 128 }
    requires fits { size < 2 ^ width }
    ensures value { result.value ≡ v.wrapped width (if is_below then neg_ℤ (pos size) else pos size) }
    ensures width { result.width ≡ width }
{
    let whole = Bits { value: size, width };
    if is_below { negative(whole) } else { whole }
}

/// The quotient toward zero; 0 where the divisor is 0.
pub(crate) fn quotient(signed: bool, a: Bits, b: Bits) -> Bits
    requires { a.width ≡ b.width }
    ensures value { result.value ≡ v.binary_value Div signed a.width a.value b.value }
    ensures width { result.width ≡ a.width }
{
    if b.value == 0 {
        return b;
    }
    let is_below = signed && is_negative(a) != is_negative(b);
    with_sign(
        is_below,
        magnitude(signed, a) / magnitude(signed, b),
        a.width,
    )
}

/// What a quotient leaves, with the first value's sign; 0 where the divisor is 0.
pub(crate) fn remainder(signed: bool, a: Bits, b: Bits) -> Bits
    requires { a.width ≡ b.width }
    ensures value { result.value ≡ v.binary_value Rem signed a.width a.value b.value }
    ensures width { result.width ≡ a.width }
{
    if b.value == 0 {
        return b;
    }
    let is_below = signed && is_negative(a);
    with_sign(
        is_below,
        magnitude(signed, a) % magnitude(signed, b),
        a.width,
    )
}
