//! Values moved by some places.

ghost use Rattle.std.specs.Prelude.{◌≡◌, ◌<◌, ◌≤◌, ◌^◌};
ghost use Rattle.vl_base.specs.Value.{shifted_left, shifted_right};

use crate::masks::cut;

/// To the left by some places, with zeros behind the value (IEEE 1364-2005, clause 5.1.12).
pub(crate) fn moved_left(value: u128, places: u128, width: u8) -> u128
    requires { width ≤ 128 }
    ensures { result ≡ shifted_left width value places }
{
    if places < u128::from(width) {
        cut(value << places, width)
    } else {
        0
    }
}

/// To the right by some places, with zeros before the value (IEEE 1364-2005, clause 5.1.12).
pub(crate) fn moved_right(value: u128, places: u128, width: u8) -> u128
    requires narrow { width ≤ 128 }
    requires fits { value < 2 ^ width }
    ensures { result ≡ shifted_right width value places }
{
    if places < u128::from(width) {
        value >> places
    } else {
        0
    }
}
