//! Operators on each bit, and the parity of all (IEEE 1364-2005, clauses 5.1.10 and 5.1.11).

ghost use Rattle.std.specs.Prelude.{◌≡◌, false};
ghost use Rattle.vl_base.specs.declared.bits.UnOp.TheVariants.{Not};
ghost use Rattle.vl_base.specs.declared.bits.BinOp.TheVariants.{And, Or, Xor};
ghost use Rattle.vl_base.specs.Value as v;

use crate::bits::{Bits, ones};

/// The bits that are set in both values.
pub(crate) fn both(a: Bits, b: Bits) -> Bits
    requires { a.width ≡ b.width }
    ensures value { result.value ≡ v.binary_value And false a.width a.value b.value }
    ensures width { result.width ≡ a.width }
{
    Bits {
        value: a.value & b.value,
        width: a.width,
    }
}

/// The bits that are set in one value or both.
pub(crate) fn either(a: Bits, b: Bits) -> Bits
    requires { a.width ≡ b.width }
    ensures value { result.value ≡ v.binary_value Or false a.width a.value b.value }
    ensures width { result.width ≡ a.width }
{
    Bits {
        value: a.value | b.value,
        width: a.width,
    }
}

/// The bits that are set in one value alone.
pub(crate) fn differing(a: Bits, b: Bits) -> Bits
    requires { a.width ≡ b.width }
    ensures value { result.value ≡ v.binary_value Xor false a.width a.value b.value }
    ensures width { result.width ≡ a.width }
{
    Bits {
        value: a.value ^ b.value,
        width: a.width,
    }
}

/// The bits that are not set.
pub(crate) fn inverse(a: Bits) -> Bits
    ensures value { result.value ≡ v.unary_value Not a.width a.value }
    ensures width { result.width ≡ a.width }
{
    Bits {
        value: ones(a.width) - a.value,
        width: a.width,
    }
}

/// Whether an odd number of bits is set.
pub(crate) fn is_odd(a: Bits) -> bool
    ensures { v.truth result ≡ v.parity a.width a.value }
{
    a.value.count_ones() % 2 == 1
}
