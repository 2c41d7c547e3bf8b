//! Bits and words by the slot of an index (IEEE 1364-2005, clauses 5.2.1 and 5.2.2).

ghost use Rattle.std.specs.Prelude.{◌≡◌, ◌≤◌, ◌<◌, ◌^◌, ℤ, ◌-ℤ◌, ◌≤ℤ◌, pos, neg_ℤ};
ghost use Rattle.vl_base.specs.Value.{reading};
ghost use Rattle.vl_base.specs.Selects as s;
ghost use Rattle.cell_form.specs.Values as v;
ghost use Rattle.cell_eval.specs.Wholes.{whole_of, near};

use crate::masks::half;
use crate::placing::{pick, place_in};
use cell_form::cell::Index;
use vl_base::bits::Bits;

/// A whole number by its size and its sign.
#[derive(Clone, Copy)]
pub(crate) struct Whole {
    /// It is below 0, or 0.
    pub negative: bool,
    /// Its size.
    pub size: u128,
}

/// The whole number that a value stands for: in two's complement where it is signed (clause 5.1.6).
#[tactic(auto, using(crate::proofs::Wholes::halves))]
pub(crate) fn whole_number(bits: Bits, signed: bool) -> Whole
    ensures { whole_of result ≡ reading signed bits.width bits.value }
{
    if !signed {
        return Whole {
            negative: false,
            size: bits.value,
        };
    }
    let half = half(bits.width);
    if bits.value >= half {
        Whole {
            negative: true,
            size: half - (bits.value - half),
        }
    } else {
        Whole {
            negative: false,
            size: bits.value,
        }
    }
}

/// A place kept near a value.
fn kept_near(low: i128) -> i64
    ensures { near result ≡ near low }
{
    if low > 256 {
        256
    } else if low < -256 {
        -256
    } else {
        low as i64
    }
}

/// The place of the lowest bit that an index names, kept near a value.
pub(crate) fn lowest_bit(from: Index, low: i64, index: Bits) -> i64
    ensures { near result ≡ near (v.lowest_bit from low (record { value = index.value; width = index.width })) }
{
    let whole = whole_number(index, from.signed);
    let down = whole.negative != from.taken;
    if whole.size >= 1 << 100 {
        return if down { -256 } else { 256 };
    }
    let size = whole.size as i128;
    if down {
        kept_near(i128::from(low) - size)
    } else {
        kept_near(i128::from(low) + size)
    }
}

/// The bits of a value from a place on that is kept near it.
pub(crate) fn picked(base: Bits, low: i64, width: u8) -> Bits
    requires wide { 1 ≤ width }
    requires narrow { width ≤ 128 }
    ensures value { (z : ℤ) → near low ≡ near z → result.value ≡ s.picked base.width base.value z width }
    ensures width { result.width ≡ width }
{
    pick(base, low, width)
}

/// A value with a part written to it from a place on that is kept near it.
pub(crate) fn placed(base: Bits, low: i64, part: Bits) -> Bits
    ensures value { (z : ℤ) → near low ≡ near z → result.value ≡ s.placed base.width base.value z part.width part.value }
    ensures width { result.width ≡ base.width }
{
    place_in(base, low, part)
}

/// A whole number that isn't large.
fn small(whole: Whole) -> i128
    requires { whole.size < 2 ^ 100 }
    ensures value { result ≡ whole_of whole }
    ensures low { neg_ℤ (pos (2 ^ 100)) ≤ℤ result }
    ensures high { result ≤ℤ pos (2 ^ 100) }
{
    let size = whole.size as i128;
    if whole.negative { -size } else { size }
}

/// The word of a memory at an address; 0 where there is none.
pub(crate) fn word_at(words: &[u128], lowest: i64, address: Whole) -> u128
    ensures { result ≡ v.word_at words.now (whole_of address -ℤ lowest) }
{
    if address.size >= 1 << 100 {
        return 0;
    }
    let number = small(address) - i128::from(lowest);
    if number < 0 || number >= words.len() as i128 {
        return 0;
    }
    words[number as usize]
}
