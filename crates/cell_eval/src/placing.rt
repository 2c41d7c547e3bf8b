//! Parts of values, from one place on (IEEE 1364-2005, clause 5.2.1). Bits are numbered from 0, the lowest.

ghost use Rattle.std.specs.Prelude.{◌≡◌, ◌+◌, ◌*◌, ◌/◌, ◌%◌, ◌^◌, ◌<◌, ◌≤◌, min};
ghost use Rattle.vl_base.specs.Selects as s;

use crate::masks::cut;
use crate::shifts::{moved_left, moved_right};
use vl_base::bits::Bits;

/// `width` bits of a value, from 1 to 128, from the bit `low` on. A bit that isn't there is 0.
pub(crate) fn pick(base: Bits, low: i64, width: u8) -> Bits
    requires wide { 1 ≤ width }
    requires narrow { width ≤ 128 }
    ensures value { result.value ≡ s.picked base.width base.value low width }
    ensures width { result.width ≡ width }
{
    let places = u128::from(low.unsigned_abs());
    let value = if low >= 0 {
        cut(moved_right(base.value, places, base.width), width)
    } else {
        moved_left(base.value, places, width)
    };
    Bits { value, width }
}

/// A value with a part written to it from the bit `low` on. Bits of the part that fall outside the value have no
/// effect.
pub(crate) fn place_in(base: Bits, low: i64, part: Bits) -> Bits
    ensures value { result.value ≡ s.placed base.width base.value low part.width part.value }
    ensures width { result.width ≡ base.width }
{
    let places = low.unsigned_abs();
    if low >= 0 {
        placed_from(base, places, part)
    } else if places < u64::from(part.width) {
        placed_from(base, 0, upper(part, places as u8))
    } else {
        base
    }
}

/// A value without its lowest bits.
fn upper(value: Bits, places: u8) -> Bits
    requires { places < value.width }
    ensures value { result.value ≡ value.value / 2 ^ places }
    ensures width { result.width + places ≡ value.width }
{
    Bits {
        value: value.value >> places,
        width: value.width - places,
    }
}

/// A value with a part written to it from a bit on; nothing where that is past its end.
fn placed_from(base: Bits, low: u64, part: Bits) -> Bits
    ensures value { result.value ≡ s.with_part base.value (min low base.width) part.width part.value % 2 ^ base.width }
    ensures width { result.width ≡ base.width }
{
    if low >= u64::from(base.width) {
        return base;
    }
    let low = low as u8;
    let kept = cleared_below(base.value, low + part.width) + cut(base.value, low);
    Bits {
        value: cut(kept.wrapping_add(part.value << low), base.width),
        width: base.width,
    }
}

/// A number with its bits below a place cleared.
fn cleared_below(value: u128, place: u8) -> u128
    ensures { result ≡ value / 2 ^ place * 2 ^ place }
{
    if place < 128 {
        value - cut(value, place)
    } else {
        0
    }
}
