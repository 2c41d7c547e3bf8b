//! Bits of nets that are in masks.

ghost use Rattle.std.specs.Prelude.{◌≡◌, ◌↔◌, ◌<◌, true, length};
ghost use Rattle.vl_paths.specs.Bits.{Bit};
ghost use Rattle.vl_bits.specs.Masks.{in_masks, in_part, AreOf};
ghost use Rattle.vl_bits.specs.Drivers.{is_net};
ghost use Rattle.vl_bits.specs.SeenOfDrivers.{Met, HasBit};

use crate::parts::{Part, known_of};
use vl_design::design::{SigKind, Signal};

/// The signal of a number is a net.
fn is_net(signals: &[Signal], number: u32) -> bool
    ensures { result ≡ is_net signals.now number }
{
    match signals.get(number as usize) {
        None => false,
        Some(signal) => matches!(signal.kind, SigKind::Net),
    }
}

/// The part has a bit.
#[tactic(auto, using(crate::proofs::Testing::somes))]
fn has_bit(part: Part) -> bool
    ensures { (result ≡ true) ↔ ((b : Bit) × (in_part part b ≡ true)) }
{
    part.bits != 0
}

/// A bit of the part is one of a net, and is in the masks.
fn is_met(signals: &[Signal], known: &Vec<u128>, part: Part) -> bool
    requires { part.signal < length known.now.items }
    ensures { (result ≡ true) ↔ ((b : Bit) × (in_part part b ≡ true) × Met signals.now known.now.items b) }
{
    if is_net(signals, part.signal) {
        has_bit(known_of(known, part))
    } else {
        false
    }
}

/// A bit of one of the parts is one of a net, and is in the masks.
pub(crate) fn meets(signals: &[Signal], known: &Vec<u128>, parts: &[Part]) -> bool
    requires { AreOf (length known.now.items) parts.now }
    ensures { (result ≡ true) ↔ HasBit parts.now (Met signals.now known.now.items) }
{
    for part in parts {
        if is_met(signals, known, *part) {
            return true;
        }
    }
    false
}
