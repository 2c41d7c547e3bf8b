//! Sets of bits: one mask for each signal, and lists of parts.

ghost use Rattle.std.specs.Prelude.{◌≡◌, ◌<◌, ◌||◌, ◌&&◌, not, ◌==◌, ℕ, length, slice_index, OnOk, IfOk, true, false};
ghost use Rattle.vl_paths.specs.Bits.{Bit};
ghost use Rattle.vl_bits.specs.Masks.{has, in_masks, in_part, in_parts, AreOf};

use std::alloc::{AllocError, Global};

/// Bits of a signal.
#[derive(Clone, Copy)]
pub struct Part {
    /// The signal's number.
    pub signal: u32,
    /// A mask: bit i stands for the signal's bit i, counted from the lowest.
    pub bits: u128,
}

/// Adds a part to a list, unless it has no bit.
#[tactic(auto, using(crate::proofs::Lists::parts))]
pub fn add(parts: &mut Vec<Part>, part: Part) -> Result<(), AllocError>
    ensures parts { OnOk result ((b : Bit) → in_parts parts.new.items b ≡ (in_parts parts.old.items b || in_part part b)) }
    ensures within { OnOk result ((n : ℕ) → AreOf n parts.old.items → part.signal < n → AreOf n parts.new.items) }
{
    if part.bits != 0 {
        parts.push(part)?;
    }
    Ok(())
}

/// The bits that a mask doesn't have.
fn without(bits: u128, mask: u128) -> u128
    ensures { (i : ℕ) → has result i ≡ (has bits i && not (has mask i)) }
{
    bits & !mask
}

/// The bits that both have.
fn common(bits: u128, mask: u128) -> u128
    ensures { (i : ℕ) → has result i ≡ (has bits i && has mask i) }
{
    bits & mask
}

/// The bits that one has.
fn either(bits: u128, mask: u128) -> u128
    ensures { (i : ℕ) → has result i ≡ (has bits i || has mask i) }
{
    bits | mask
}

/// The part's bits that aren't in the masks.
#[tactic(auto, using(crate::proofs::Lists::parts))]
pub fn unknown(known: &Vec<u128>, part: Part) -> Part
    requires { part.signal < length known.now.items }
    ensures bits { (b : Bit) → in_part result b ≡ (in_part part b && not (in_masks known.now.items b)) }
    ensures signal { result.signal ≡ part.signal }
{
    Part {
        signal: part.signal,
        bits: without(part.bits, known[part.signal as usize]),
    }
}

/// The part's bits that are in the masks.
#[tactic(auto, using(crate::proofs::Lists::parts))]
pub fn known_of(known: &Vec<u128>, part: Part) -> Part
    requires { part.signal < length known.now.items }
    ensures bits { (b : Bit) → in_part result b ≡ (in_part part b && in_masks known.now.items b) }
    ensures signal { result.signal ≡ part.signal }
{
    Part {
        signal: part.signal,
        bits: common(part.bits, known[part.signal as usize]),
    }
}

/// The part's bits are put into the masks.
#[tactic(auto, using(crate::proofs::Lists::parts))]
fn show_part(known: &mut Vec<u128>, part: Part)
    requires { part.signal < length known.old.items }
    ensures long { length known.new.items ≡ length known.old.items }
    ensures bits { (b : Bit) → in_masks known.new.items b ≡ (in_masks known.old.items b || in_part part b) }
{
    let signal = part.signal as usize;
    let mask = either(known[signal], part.bits);
    known[signal] = mask;
}

/// The part's bits are taken out of the masks.
#[tactic(auto, using(crate::proofs::Lists::parts))]
fn hide_part(known: &mut Vec<u128>, part: Part)
    requires { part.signal < length known.old.items }
    ensures long { length known.new.items ≡ length known.old.items }
    ensures bits { (b : Bit) → in_masks known.new.items b ≡ (in_masks known.old.items b && not (in_part part b)) }
{
    let signal = part.signal as usize;
    let mask = without(known[signal], part.bits);
    known[signal] = mask;
}

/// The parts are put into the masks.
pub fn show(known: &mut Vec<u128>, parts: &[Part])
    requires { AreOf (length known.old.items) parts.now }
    ensures long { length known.new.items ≡ length known.old.items }
    ensures bits { (b : Bit) → in_masks known.new.items b ≡ (in_masks known.old.items b || in_parts parts.now b) }
{
    for part in parts {
        show_part(known, *part);
    }
}

/// The parts are taken out of the masks.
pub fn hide(known: &mut Vec<u128>, parts: &[Part])
    requires { AreOf (length known.old.items) parts.now }
    ensures long { length known.new.items ≡ length known.old.items }
    ensures bits { (b : Bit) → in_masks known.new.items b ≡ (in_masks known.old.items b && not (in_parts parts.now b)) }
{
    for part in parts {
        hide_part(known, *part);
    }
}

/// What of the parts is in the masks.
fn met(alloc: Global, known: &Vec<u128>, parts: &[Part]) -> Result<Vec<Part>, AllocError>
    requires { AreOf (length known.now.items) parts.now }
    ensures within { IfOk result (λ v. AreOf (length known.now.items) v.items) }
    ensures bits { IfOk result (λ v. (b : Bit) → in_parts v.items b ≡ (in_masks known.now.items b && in_parts parts.now b)) }
{
    let mut all = Vec::new(alloc);
    for part in parts {
        add(&mut all, known_of(known, *part))?;
    }
    Ok(all)
}

/// The bits of both lists, of which the masks have none. The masks are as before.
pub fn shared(
    alloc: Global,
    known: &mut Vec<u128>,
    first: &[Part],
    second: &[Part],
) -> Result<Vec<Part>, AllocError>
    requires first { AreOf (length known.old.items) first.now }
    requires second { AreOf (length known.old.items) second.now }
    requires apart { (b : Bit) → in_parts first.now b ≡ true → in_masks known.old.items b ≡ false }
    requires too { (b : Bit) → in_parts second.now b ≡ true → in_masks known.old.items b ≡ false }
    ensures long { OnOk result (length known.new.items ≡ length known.old.items) }
    ensures known { OnOk result ((b : Bit) → in_masks known.new.items b ≡ in_masks known.old.items b) }
    ensures within { IfOk result (λ v. AreOf (length known.old.items) v.items) }
    ensures bits { IfOk result (λ v. (b : Bit) → in_parts v.items b ≡ (in_parts first.now b && in_parts second.now b)) }
{
    show(known, first);
    let both = met(alloc, known, second)?;
    hide(known, first);
    Ok(both)
}

/// The parts are put into the masks. Gives what is new of them.
pub fn gain(alloc: Global, known: &mut Vec<u128>, parts: &[Part]) -> Result<Vec<Part>, AllocError>
    requires { AreOf (length known.old.items) parts.now }
    ensures long { OnOk result (length known.new.items ≡ length known.old.items) }
    ensures known { OnOk result ((b : Bit) → in_masks known.new.items b ≡ (in_masks known.old.items b || in_parts parts.now b)) }
    ensures within { IfOk result (λ v. AreOf (length known.old.items) v.items) }
    ensures bits { IfOk result (λ v. (b : Bit) → in_parts v.items b ≡ (not (in_masks known.old.items b) && in_parts parts.now b)) }
{
    let mut all = Vec::new(alloc);
    for part in parts {
        let new = unknown(known, *part);
        show_part(known, new);
        add(&mut all, new)?;
    }
    Ok(all)
}
