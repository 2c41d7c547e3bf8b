//! Which lists of parts have a bit in common with a set.

ghost use Rattle.std.specs.Prelude.{◌≡◌, ◌↔◌, ◌⊎◌, true, false, length, IfOk, OnOk};
ghost use Rattle.vl_design.specs.Sound.{IsNamed};
ghost use Rattle.vl_bits.specs.vl_paths.specs.Bits.{Bit, is_of};
ghost use Rattle.vl_bits.specs.Seen.{names_seen};
ghost use Rattle.vl_bits.specs.Masks.{in_masks, in_part, in_parts, AreOf};
ghost use Rattle.vl_bits.specs.Walks.{IsClear};
ghost use Rattle.vl_latch.specs.Partly.{HasBit};

use std::alloc::{AllocError, Global};
use vl_bits::meanings::Meanings;
use vl_bits::parts::{Part, hide, known_of, show, unknown};
use vl_bits::widths::whole;

/// The part has a bit.
#[tactic(auto, using(crate::proofs::Testing::somes))]
pub(crate) fn has_bit(part: Part) -> bool
    ensures { (result ≡ true) ↔ ((b : Bit) × (in_part part b ≡ true)) }
{
    part.bits != 0
}

/// One of the parts has a bit that is in the masks.
fn meets(known: &Vec<u128>, parts: &[Part]) -> bool
    requires { AreOf (length known.now.items) parts.now }
    ensures { (result ≡ true) ↔ HasBit parts.now (λ b. in_masks known.now.items b ≡ true) }
{
    for part in parts {
        if has_bit(known_of(known, *part)) {
            return true;
        }
    }
    false
}

/// One of the parts has a bit that isn't in the masks.
fn exceeds(known: &Vec<u128>, parts: &[Part]) -> bool
    requires { AreOf (length known.now.items) parts.now }
    ensures { (result ≡ true) ↔ HasBit parts.now (λ b. in_masks known.now.items b ≡ false) }
{
    for part in parts {
        if has_bit(unknown(known, *part)) {
            return true;
        }
    }
    false
}

/// One of the parts has a bit that is in one of the others. The masks have no bit, before and behind.
pub(crate) fn shares(known: &mut Vec<u128>, parts: &[Part], others: &[Part]) -> bool
    requires parts { AreOf (length known.old.items) parts.now }
    requires others { AreOf (length known.old.items) others.now }
    requires clear { IsClear known.old.items }
    ensures shares { (result ≡ true) ↔ HasBit parts.now (λ b. in_parts others.now b ≡ true) }
    ensures long { length known.new.items ≡ length known.old.items }
    ensures clear { IsClear known.new.items }
{
    show(known, others);
    let met = meets(known, parts);
    hide(known, others);
    met
}

/// One of the parts has a bit that is in none of the others. The masks have no bit, before and behind.
pub(crate) fn lacks(known: &mut Vec<u128>, parts: &[Part], others: &[Part]) -> bool
    requires parts { AreOf (length known.old.items) parts.now }
    requires others { AreOf (length known.old.items) others.now }
    requires clear { IsClear known.old.items }
    ensures lacks { (result ≡ true) ↔ HasBit parts.now (λ b. in_parts others.now b ≡ false) }
    ensures long { length known.new.items ≡ length known.old.items }
    ensures clear { IsClear known.new.items }
{
    show(known, others);
    let left = exceeds(known, parts);
    hide(known, others);
    left
}

/// All bits of the part's signal, where it has a bit.
fn add_whole(m: &Meanings<'_>, all: &mut Vec<Part>, part: Part) -> Result<(), AllocError>
    requires { (b : Bit) → in_part part b ≡ true → IsNamed (names_seen m.now) b.signal }
    ensures bits { OnOk result ((b : Bit) → (in_parts all.new.items b ≡ true) ↔ ((in_parts all.old.items b ≡ true) ⊎ ((c : Bit) × (is_of (names_seen m.now) b c.signal ≡ true) × (in_part part c ≡ true)))) }
    ensures within { OnOk result (AreOf (length (names_seen m.now).rows) all.old.items → AreOf (length (names_seen m.now).rows) all.new.items) }
{
    if has_bit(part) {
        all.push(whole(m, part.signal))?;
    }
    Ok(())
}

/// All bits of the signals of the parts.
pub(crate) fn wholes(
    alloc: Global,
    m: &Meanings<'_>,
    parts: &[Part],
) -> Result<Vec<Part>, AllocError>
    requires { (b : Bit) → in_parts parts.now b ≡ true → IsNamed (names_seen m.now) b.signal }
    ensures bits { IfOk result (λ v. (b : Bit) → (in_parts v.items b ≡ true) ↔ ((c : Bit) × (is_of (names_seen m.now) b c.signal ≡ true) × (in_parts parts.now c ≡ true))) }
    ensures within { IfOk result (λ v. AreOf (length (names_seen m.now).rows) v.items) }
{
    let mut all = Vec::new(alloc);
    for part in parts {
        add_whole(m, &mut all, *part)?;
    }
    Ok(all)
}
