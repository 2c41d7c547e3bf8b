//! Selects on values whose bits are numbered (IEEE 1364-2005, clause 5.2.1).

ghost use Rattle.std.specs.Prelude.{◌≡◌, option_map};
ghost use Rattle.elab_plain.specs.vl_flat.specs.Scopes as scopes;
ghost use Rattle.elab_plain.specs.vl_flat.specs.Expressions as flat;
ghost use Rattle.elab_plain.specs.vl_flat.specs.Constants.{clamped};
ghost use Rattle.elab_constant.specs.Seen.{binding_of};
ghost use Rattle.elab_constant.specs.Types.{numbers, distance};

use crate::form::is_memory;
use crate::ranges::{Range, falls};
use crate::scope::Known;
use vl_design::design::LowestBit;

/// So many bits, numbered from 0 at the right.
pub fn bits_of(width: u8) -> Range
    ensures { numbers result ≡ flat.bits_of width }
{
    Range {
        left: i32::from(width) - 1,
        right: 0,
    }
}

/// The lowest of so many bits, of which the index is the lowest number.
pub fn from_lowest(range: Range, width: u8) -> LowestBit
    ensures { result ≡ flat.from_lowest (numbers range) width }
{
    if falls(range) {
        LowestBit {
            constant: 0 - i64::from(range.right),
            taken: false,
        }
    } else {
        LowestBit {
            constant: i64::from(range.right) - i64::from(width) + 1,
            taken: true,
        }
    }
}

/// The lowest of so many bits, of which the index is the highest number.
pub fn from_highest(range: Range, width: u8) -> LowestBit
    ensures { result ≡ flat.from_highest (numbers range) width }
{
    if falls(range) {
        LowestBit {
            constant: 1 - i64::from(width) - i64::from(range.right),
            taken: false,
        }
    } else {
        LowestBit {
            constant: i64::from(range.right),
            taken: true,
        }
    }
}

/// A whole number kept within 32 bits.
fn clamped(z: i64) -> i32
    ensures { result ≡ clamped z }
{
    if z < -2147483648 {
        -2147483648
    } else if z > 2147483647 {
        2147483647
    } else {
        z as i32
    }
}

/// How far a bit is from the lowest one.
fn distance(range: Range, z: i32) -> i64
    ensures { result ≡ distance (numbers range) z }
{
    if falls(range) {
        i64::from(z) - i64::from(range.right)
    } else {
        i64::from(range.right) - i64::from(z)
    }
}

/// The lowest bit of a part whose right bound is this, counted from the lowest bit of the whole.
pub fn part_low(range: Range, z: i32) -> i32
    ensures { result ≡ flat.part_low (numbers range) z }
{
    clamped(distance(range, z))
}

/// The numbers of the highest and the lowest bit of what a name stands for.
pub fn range_of(known: Option<Known>) -> Range
    ensures { numbers result ≡ scopes.range_of (option_map binding_of known) }
{
    match known {
        Some(Known::Constant(v)) => Range {
            left: v.left,
            right: v.right,
        },
        Some(Known::Signal(_, s)) => Range {
            left: s.left,
            right: s.right,
        },
        _ => Range { left: 0, right: 0 },
    }
}

/// The number of the memory that a name stands for.
pub fn memory_of(known: Option<Known>) -> Option<u32>
    ensures { result ≡ flat.memory_of (option_map binding_of known) }
{
    if is_memory(known) {
        Some(number_of(known))
    } else {
        None
    }
}

/// The number of a signal or a function.
pub fn number_of(known: Option<Known>) -> u32
    ensures { result ≡ scopes.number_of (option_map binding_of known) }
{
    match known {
        Some(Known::Signal(number, _)) | Some(Known::Function(number, _)) => number,
        _ => 0,
    }
}
