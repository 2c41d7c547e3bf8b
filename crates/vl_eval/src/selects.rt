//! Words and bits by indexes (IEEE 1364-2005, clauses 5.2.1 and 5.2.2).

ghost use Rattle.std.specs.Prelude.{◌≡◌, ◌≤◌, ◌<◌, ◌%◌, ◌^◌, ◌&&◌, if◌then◌else◌, ℤ, pos, neg_ℤ, ◌≤ℤ◌, ◌+ℤ◌, ◌-ℤ◌, int_le, int_lt, unsigned_abs, Some, slice_index};
ghost use Rattle.vl_base.specs.Value as b;
ghost use Rattle.vl_base.specs.Selects as s;
ghost use Rattle.vl_design.specs.Trees.{row_of, lower_of};
ghost use Rattle.vl_design.specs.Value as v;
ghost use Rattle.vl_design.specs.Sound.{IsWidth};
ghost use Rattle.vl_eval.specs.Rooms.{sample_of};
ghost use Rattle.vl_eval.specs.Wholes.{whole_of, near};

use crate::room::Sample;
use vl_base::bits::{Bits, resize};
use vl_base::select::{pick, place_in};
use vl_design::design::{LowestBit, SigKind, Signal};
use vl_design::words::Kept;

/// A whole number by its size and its sign.
#[derive(Clone, Copy)]
pub struct Whole {
    /// It is below 0, or 0.
    pub negative: bool,
    /// Its size.
    pub size: u128,
}

/// The whole number that a value stands for: in two's complement where it is signed (clause 5.1.6).
#[tactic(auto, using(crate::proofs::Wholes::halves))]
pub fn whole_number(bits: Bits, signed: bool) -> Whole
    ensures { whole_of result ≡ b.reading signed bits.width bits.value }
{
    let half = 1 << (bits.width - 1);
    if signed && bits.value >= half {
        Whole {
            negative: true,
            size: half - (bits.value - half),
        }
    } else {
        Whole {
            negative: false,
            size: bits.value,
        }
    }
}

/// A place kept near the value.
fn kept_near(low: i128) -> i64
    ensures { near result ≡ near low }
{
    if low > 256 {
        256
    } else if low < -256 {
        -256
    } else {
        low as i64
    }
}

/// The place of the lowest bit that an index names, kept near the value.
pub fn lowest_bit(from: LowestBit, index: Whole) -> i64
    ensures { near result ≡ near (v.lowest_bit from (whole_of index)) }
{
    let down = index.negative != from.taken;
    if index.size >= 1 << 64 {
        return if down { -256 } else { 256 };
    }
    let constant = i128::from(from.constant);
    let size = index.size as i128;
    if down {
        kept_near(constant - size)
    } else {
        kept_near(constant + size)
    }
}

/// How many words a signal has.
pub fn word_count(signal: &Signal) -> u64
    ensures value { result ≡ (row_of signal.now).words }
    ensures narrow { result ≤ 2 ^ 32 }
{
    match signal.kind {
        SigKind::Mem => u64::from(signal.first.abs_diff(signal.last)) + 1,
        _ => 1,
    }
}

/// The lower of two numbers.
fn lower(a: i32, b: i32) -> i32
    ensures { result ≡ lower_of a b }
{
    if a <= b { a } else { b }
}

/// A whole number that isn't large.
fn small(whole: Whole) -> i64
    requires { whole.size < 2 ^ 40 }
    ensures value { result ≡ whole_of whole }
    ensures low { neg_ℤ (pos (2 ^ 40)) ≤ℤ result }
    ensures high { result ≤ℤ pos (2 ^ 40) }
{
    let size = whole.size as i64;
    if whole.negative { -size } else { size }
}

/// Which of so many words an address names, from 0 at the lowest one; one past the last where there is none.
fn word_among(lowest: i32, words: u64, address: Whole) -> u64
    requires { words ≤ 2 ^ 32 }
    ensures { result ≡ (if int_le lowest (whole_of address) && int_lt (whole_of address) (lowest +ℤ pos words)
        then unsigned_abs (whole_of address -ℤ lowest) else words) }
{
    if address.size >= 1 << 40 {
        return words;
    }
    let number = small(address) - i64::from(lowest);
    if number < 0 {
        return words;
    }
    if number >= words as i64 {
        return words;
    }
    number as u64
}

/// The word of an address, from 0 at the lowest one; one past the last where there is none.
pub fn word_number(signal: &Signal, address: Whole) -> u64
    ensures { result ≡ v.word_at (Some (row_of signal.now)) (whole_of address) }
{
    word_among(
        lower(signal.first, signal.last),
        word_count(signal),
        address,
    )
}

/// A word of a signal of a width; 0 where there is none.
pub fn held(s: &Sample<'_>, signal: u32, word: u64, width: u32) -> Bits
    requires { IsWidth width }
    ensures value { result.value ≡ slice_index (v.words_of (sample_of s.now).values signal) word % 2 ^ width }
    ensures width { result.width ≡ width }
{
    let value = match s.values.get(signal as usize) {
        None => 0,
        Some(kept) => kept.word(word as usize),
    };
    let all = Bits { value, width: 128 };
    resize(all, false, width as u8)
}
