//! Selects and concatenations (IEEE 1364-2005, clauses 5.1.14 and 5.2.1). Bits are numbered from 0,
//! the lowest.

ghost use Rattle.std.specs.Prelude.{◌≡◌, ◌+◌, ◌*◌, ◌/◌, ◌%◌, ◌^◌, ◌<◌, ◌≤◌, ◌↔◌, min, IsSome, IfSome};
ghost use Rattle.vl_base.specs.Selects as s;

use crate::bits::{Bits, lowest};
use crate::shift::{moved_left, moved_right};

/// `width` bits of a value, from 1 to 128, from the bit `low` on. A bit that isn't there is 0.
pub fn pick(a: Bits, low: i64, width: u8) -> Bits
    requires wide { 1 ≤ width }
    requires narrow { width ≤ 128 }
    ensures value { result.value ≡ s.picked a.width a.value low width }
    ensures width { result.width ≡ width }
{
    let places = u128::from(low.unsigned_abs());
    let value = if low >= 0 {
        lowest(moved_right(a.value, places, a.width), width)
    } else {
        moved_left(a.value, places, width)
    };
    Bits { value, width }
}

/// A value with a part written to it from the bit `low` on. Bits of the part that fall outside the
/// value have no effect.
pub fn place_in(a: Bits, low: i64, part: Bits) -> Bits
    ensures value { result.value ≡ s.placed a.width a.value low part.width part.value }
    ensures width { result.width ≡ a.width }
{
    let places = low.unsigned_abs();
    if low >= 0 {
        placed_from(a, places, part)
    } else if places < u64::from(part.width) {
        placed_from(a, 0, upper(part, places as u8))
    } else {
        a
    }
}

/// A value without its lowest bits.
fn upper(a: Bits, places: u8) -> Bits
    requires { places < a.width }
    ensures value { result.value ≡ a.value / 2 ^ places }
    ensures width { result.width + places ≡ a.width }
{
    Bits {
        value: a.value >> places,
        width: a.width - places,
    }
}

/// A value with a part written to it from a bit on; nothing where that is past its end.
fn placed_from(a: Bits, low: u64, part: Bits) -> Bits
    ensures value { result.value ≡ s.with_part a.value (min low a.width) part.width part.value % 2 ^ a.width }
    ensures width { result.width ≡ a.width }
{
    if low >= u64::from(a.width) {
        return a;
    }
    let low = low as u8;
    let kept = cleared_below(a.value, low + part.width) + lowest(a.value, low);
    Bits {
        value: lowest(kept.wrapping_add(part.value << low), a.width),
        width: a.width,
    }
}

/// A number with its bits below a place cleared.
fn cleared_below(value: u128, place: u8) -> u128
    ensures { result ≡ value / 2 ^ place * 2 ^ place }
{
    if place < 128 {
        value >> place << place
    } else {
        0
    }
}

/// Two values side by side, the first at the top. None exactly where the widths exceed 128 together.
pub fn append(high: Bits, low: Bits) -> Option<Bits>
    ensures exact { IsSome result ↔ (high.width + low.width ≤ 128) }
    ensures value { IfSome result (λ b. b.value ≡ s.appended high.value low.width low.value) }
    ensures width { IfSome result (λ b. b.width ≡ high.width + low.width) }
{
    if low.width > 128 - high.width {
        return None;
    }
    Some(Bits {
        value: (high.value << low.width) + low.value,
        width: high.width + low.width,
    })
}
