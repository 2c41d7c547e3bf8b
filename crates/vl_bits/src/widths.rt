//! The bits of signals, and of selects of signals.

ghost use Rattle.std.specs.Prelude.{◌≡◌, ◌<◌, ◌≤◌, ◌-◌, ◌^◌, ◌&&◌, length, pos, neg_ℤ, ◌≤ℤ◌, ◌⊎◌, int_le, int_lt, ◌+ℤ◌, ℕ};
ghost use Rattle.vl_design.specs.Width.{signal_form};
ghost use Rattle.vl_design.specs.Sound.{IsNamed, IsWidth};
ghost use Rattle.vl_design.specs.Trees.{row_of};
ghost use Rattle.vl_paths.specs.Bits.{Bit, is_among, is_of};
ghost use Rattle.vl_bits.specs.Seen.{names_seen};
ghost use Rattle.vl_bits.specs.Constants.{near};
ghost use Rattle.vl_bits.specs.Masks.{has, in_part};

use crate::meanings::Meanings;
use crate::parts::Part;
use vl_design::design::Signal;

/// How many bits a signal has.
fn bits_of(signal: &Signal) -> u8
    requires { IsWidth (row_of signal.now).width }
    ensures { result ≡ (row_of signal.now).width }
{
    (signal.left.abs_diff(signal.right) + 1) as u8
}

/// How many bits the signal of a number has.
#[tactic(auto, using(crate::proofs::RowsOfMasks::rows))]
fn width_of(m: &Meanings<'_>, number: u32) -> u8
    requires { IsNamed (names_seen m.now) number }
    ensures same { result ≡ (signal_form (names_seen m.now).rows number).width }
    ensures width { IsWidth result }
{
    let k = number as usize;
    let n = m.signals.len();
    if k < n {
        bits_of(&m.signals[k])
    } else {
        bits_of(&m.locals[k - n])
    }
}

/// The number whose lowest bits, as many as the width, are set.
fn ones(width: u8) -> u128
    requires { width ≤ 128 }
    ensures { result ≡ 2 ^ width - 1 }
{
    if width < 128 {
        (1 << width) - 1
    } else {
        u128::MAX
    }
}

/// The mask of the bits from one up to another.
#[tactic(auto, using(crate::proofs::Ranges::between))]
fn between(first: u8, end: u8) -> u128
    requires order { first < end }
    requires narrow { end ≤ 128 }
    ensures { result ≡ 2 ^ end - 2 ^ first }
{
    ones(end) - ones(first)
}

/// The place, or 0 where it is below.
fn start(low: i64) -> u8
    requires { low ≤ℤ pos 128 }
    ensures least { low ≤ℤ pos result }
    ensures same { (result ≡ 0) ⊎ (pos result ≡ low) }
{
    if low > 0 { low as u8 } else { 0 }
}

/// The place behind so many bits from one on, or 0 where it is below, or the width where it is above.
fn behind(width: u8, low: i64, count: u8) -> u8
    requires least { neg_ℤ (pos 128) ≤ℤ low }
    requires most { low ≤ℤ pos 128 }
    ensures within { result ≤ width }
    ensures reach { 0 < result → pos result ≤ℤ (low +ℤ pos count) }
    ensures same { (result ≡ width) ⊎ (pos result ≡ low +ℤ pos count) ⊎ ((result ≡ 0) × ((low +ℤ pos count) ≤ℤ pos 0)) }
{
    let end = low + i64::from(count);
    if end <= 0 {
        0
    } else if end < i64::from(width) {
        end as u8
    } else {
        width
    }
}

/// A place, or the nearest one beside 128 bits.
#[tactic(auto, using(crate::proofs::Places::places))]
pub fn near_place(low: i64) -> i64
    ensures same { result ≡ near low }
    ensures least { neg_ℤ (pos 128) ≤ℤ result }
    ensures most { result ≤ℤ pos 128 }
{
    if low < -128 {
        -128
    } else if low > 128 {
        128
    } else {
        low
    }
}

/// The bits of these `width` ones that are among so many from `low` on.
#[tactic(auto, using(crate::proofs::Ranges::ranges))]
fn range(width: u8, low: i64, count: u8) -> u128
    requires width { width ≤ 128 }
    requires count { count ≤ 128 }
    requires least { neg_ℤ (pos 128) ≤ℤ low }
    requires most { low ≤ℤ pos 128 }
    ensures { (i : ℕ) → has result i ≡ ((int_le (pos 0) (pos i) && int_lt (pos i) (pos 0 +ℤ pos width)) && (int_le low (pos i) && int_lt (pos i) (low +ℤ pos count))) }
{
    let first = start(low);
    let end = behind(width, low, count);
    if first < end { between(first, end) } else { 0 }
}

/// All bits of a signal.
#[tactic(auto, using(crate::proofs::Ranges::ranges))]
pub fn whole(m: &Meanings<'_>, number: u32) -> Part
    requires { IsNamed (names_seen m.now) number }
    ensures signal { result.signal ≡ number }
    ensures bits { (b : Bit) → in_part result b ≡ is_of (names_seen m.now) b number }
{
    Part {
        signal: number,
        bits: ones(width_of(m, number)),
    }
}

/// So many bits of a signal, from one on.
#[tactic(auto, using(crate::proofs::Ranges::ranges))]
pub fn select(m: &Meanings<'_>, number: u32, low: i64, count: u8) -> Part
    requires named { IsNamed (names_seen m.now) number }
    requires count { count ≤ 128 }
    ensures signal { result.signal ≡ number }
    ensures bits { (b : Bit) → in_part result b ≡ (is_of (names_seen m.now) b number && is_among b number (near low) count) }
{
    Part {
        signal: number,
        bits: range(width_of(m, number), near_place(low), count),
    }
}
