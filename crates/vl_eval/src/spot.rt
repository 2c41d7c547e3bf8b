//! Spots of signals, and the updates that write a number to them (IEEE 1364-2005, clauses 5.1.14 and 9.2).

ghost use Rattle.std.specs.Prelude.{◌≡◌, ◌≤◌, ◌++◌, All, map, OnOk};
ghost use Rattle.vl_design.specs.Sound.{IsNamed, IsWidth};
ghost use Rattle.vl_design.specs.Width.{Names};
ghost use Rattle.vl_design.specs.Targets as targets;
ghost use Rattle.vl_eval.specs.Spots.{spot_of};
ghost use Rattle.vl_eval.specs.Updates.{update_of};

use crate::update::{Low, Update};
use std::alloc::AllocError;
use vl_base::bits::{Bits, resize};

/// Bits of a word of a signal, from a bit on.
#[derive(Clone, Copy)]
pub struct Spot {
    /// The signal's number.
    pub signal: u32,
    /// The word, from 0.
    pub word: u64,
    /// The lowest bit.
    pub low: Low,
    /// How many bits, from 1 to 128.
    pub width: u32,
}

/// How many bits spots have together.
#[tactic(auto, using(crate::proofs::Listing::spot_rules))]
pub fn spots_width(spots: &[Spot]) -> u32
    requires { targets.spots_width (map spot_of spots.now) ≤ 128 }
    ensures { result ≡ targets.spots_width (map spot_of spots.now) }
{
    let mut total = 0;
    for spot in spots {
        total += spot.width;
    }
    total
}

/// The update that writes the lowest bits of a number to a spot.
fn update_at(spot: Spot, value: u128) -> Update
    requires { IsWidth spot.width }
    ensures update { update_of result ≡ targets.update_at (spot_of spot) value }
    ensures signal { result.signal ≡ spot.signal }
{
    let all = Bits { value, width: 128 };
    Update {
        signal: spot.signal,
        word: spot.word,
        low: spot.low,
        bits: resize(all, false, spot.width as u8),
    }
}

/// Adds the updates that write a number to spots of so many bits together: the first takes the highest bits.
#[tactic(auto, using(crate::proofs::Listing::spot_rules))]
pub fn push_updates(
    spots: &[Spot],
    width: u32,
    value: u128,
    updates: &mut Vec<Update>,
) -> Result<(), AllocError>
    requires spots { All (λ p. IsWidth p.width) spots.now }
    requires width { width ≡ targets.spots_width (map spot_of spots.now) }
    requires narrow { width ≤ 128 }
    ensures updates { OnOk result (map update_of updates.new.items
        ≡ map update_of updates.old.items ++ targets.updates_at (map spot_of spots.now) value) }
    ensures named { (names : Names) → All (λ p. IsNamed names p.signal) spots.now → All (λ u. IsNamed names u.signal) updates.old.items
        → OnOk result (All (λ u. IsNamed names u.signal) updates.new.items) }
{
    let mut left = width;
    for spot in spots {
        left -= spot.width;
        updates.push(update_at(*spot, value >> left))?;
    }
    Ok(())
}
