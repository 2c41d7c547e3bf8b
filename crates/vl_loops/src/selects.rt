//! The lowest bit that an index names (IEEE 1364-2005, clause 5.2.1).

ghost use Rattle.std.specs.Prelude.{◌≡◌, ◌^◌, ◌<◌, ◌≤◌, ◌≤ℤ◌, ◌-◌, min, pos, neg_ℤ, ℕ};
ghost use Rattle.vl_base.specs.Value as v;
ghost use Rattle.vl_base.specs.Selects.{picked};
ghost use Rattle.vl_design.specs.Value.{lowest_bit};
ghost use Rattle.vl_loops.specs.Near.{Near};

use vl_base::bits::{Bits, UnOp, unary};
use vl_design::design::LowestBit;

/// Whether the highest bit is set.
fn is_negative(a: Bits) -> bool
    ensures { result ≡ v.is_negative a.width a.value }
{
    a.value >= 1 << (a.width - 1)
}

/// A size, or what is far beyond any value.
fn sized(size: u128) -> i128
    ensures { result ≡ pos (min size 36893488147419103232) }
{
    if size < 36_893_488_147_419_103_232 {
        size as i128
    } else {
        36_893_488_147_419_103_232
    }
}

/// The whole number of an index by its sign, or one far beyond any value.
fn reading(index: Bits, signed: bool) -> i128
    ensures near { Near 36893488147419103232 result (v.reading signed index.width index.value) }
    ensures above { neg_ℤ (pos 36893488147419103232) ≤ℤ result }
    ensures below { result ≤ℤ pos 36893488147419103232 }
{
    if signed && is_negative(index) {
        -sized(unary(UnOp::Neg, index).value)
    } else {
        sized(index.value)
    }
}

/// A whole number, or one that is beyond any value.
fn within(z: i128) -> i64
    ensures { Near 1000 result z }
{
    if z > 1000 {
        1000
    } else if z < -1000 {
        -1000
    } else {
        z as i64
    }
}

/// The lowest bit that an index names, or one beyond any value.
pub(crate) fn lowest(from: LowestBit, index: Bits, signed: bool) -> i64
    ensures { Near 1000 result (lowest_bit from (v.reading signed index.width index.value)) }
{
    let whole = reading(index, signed);
    let constant = i128::from(from.constant);
    if from.taken {
        within(constant - whole)
    } else {
        within(constant + whole)
    }
}
