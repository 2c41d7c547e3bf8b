//! Comparisons of the whole numbers that values stand for (IEEE 1364-2005, clause 5.1.7).

ghost use Rattle.std.specs.Prelude.{◌≡◌, int_lt};
ghost use Rattle.vl_base.specs.Value.{reading};

use crate::bits::{Bits, is_negative};

/// Whether the first of two values of one width stands for the lesser number.
pub(crate) fn is_less(signed: bool, a: Bits, b: Bits) -> bool
    requires { a.width ≡ b.width }
    ensures { result ≡ int_lt (reading signed a.width a.value) (reading signed b.width b.value) }
{
    if signed && is_negative(a) != is_negative(b) {
        is_negative(a)
    } else {
        a.value < b.value
    }
}
