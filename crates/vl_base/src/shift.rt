//! Shifts by an amount that is read as unsigned (IEEE 1364-2005, clause 5.1.12).

ghost use Rattle.std.specs.Prelude.{◌≡◌, ◌+◌, ◌-◌, ◌*◌, ◌<◌, ◌≤◌, ◌/◌, ◌%◌, ◌^◌, min, false};
ghost use Rattle.vl_base.specs.declared.bits.BinOp.TheVariants.{Shl, Shr, Sshr};
ghost use Rattle.vl_base.specs.Value as v;

use crate::bits::{Bits, is_negative, lowest, ones};

/// A number moved to the left by some places and cut to a width; by the width or more it is gone.
pub(crate) fn moved_left(value: u128, places: u128, width: u8) -> u128
    requires { width ≤ 128 }
    ensures { result ≡ value * 2 ^ min places width % 2 ^ width }
{
    if places < u128::from(width) {
        lowest(value << places, width)
    } else {
        0
    }
}

/// A number of a width moved to the right by some places; by the width or more it is gone.
pub(crate) fn moved_right(value: u128, places: u128, width: u8) -> u128
    requires narrow { width ≤ 128 }
    requires fits { value < 2 ^ width }
    ensures { result ≡ value / 2 ^ min places width }
{
    if places < u128::from(width) {
        value >> places
    } else {
        0
    }
}

/// To the left, with zeros behind the value.
pub(crate) fn shift_left(a: Bits, amount: u128) -> Bits
    ensures value { result.value ≡ v.binary_value Shl false a.width a.value amount }
    ensures width { result.width ≡ a.width }
{
    Bits {
        value: moved_left(a.value, amount, a.width),
        width: a.width,
    }
}

/// To the right, with zeros before the value.
pub(crate) fn shift_right(a: Bits, amount: u128) -> Bits
    ensures value { result.value ≡ v.binary_value Shr false a.width a.value amount }
    ensures width { result.width ≡ a.width }
{
    Bits {
        value: moved_right(a.value, amount, a.width),
        width: a.width,
    }
}

/// To the right, with copies of the sign bit before the value where it is signed.
pub(crate) fn shift_right_by_sign(signed: bool, a: Bits, amount: u128) -> Bits
    ensures value { result.value ≡ v.binary_value Sshr signed a.width a.value amount }
    ensures width { result.width ≡ a.width }
{
    let shifted = shift_right(a, amount);
    if signed && is_negative(a) {
        filled(shifted, bits_kept(a.width, amount))
    } else {
        shifted
    }
}

/// How many bits of a value stay after a shift.
fn bits_kept(width: u8, amount: u128) -> u8
    ensures { result ≡ width - amount }
{
    if amount < u128::from(width) {
        width - amount as u8
    } else {
        0
    }
}

/// The value with all bits set but the lowest ones.
fn filled(a: Bits, kept: u8) -> Bits
    requires kept { kept ≤ a.width }
    requires fits { a.value < 2 ^ kept }
    ensures value { result.value + 2 ^ kept ≡ a.value + 2 ^ a.width }
    ensures width { result.width ≡ a.width }
{
    Bits {
        value: a.value + (ones(a.width) - ones(kept)),
        width: a.width,
    }
}
