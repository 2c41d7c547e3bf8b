//! The bits that targets assign, and those that their indices read.

ghost use Rattle.std.specs.Prelude.{◌≡◌, ◌<◌, ◌&&◌, ◌||◌, not, false, Bool, ℤ, Option, None, option_map, length, OnOk, IfSome};
ghost use Rattle.vl_design.specs.Sound.{IsSoundTarget, IsSoundBase, IsWidth};
ghost use Rattle.vl_design.specs.Trees.{target_of};
ghost use Rattle.vl_paths.specs.Bits as bits;
ghost use Rattle.vl_bits.specs.Seen.{names_seen};
ghost use Rattle.vl_bits.specs.Constants.{near};
ghost use Rattle.vl_bits.specs.Masks.{in_part, in_parts, AreOf, Looks};

use crate::index::known_low;
use crate::looks::look;
use crate::meanings::Meanings;
use crate::parts::{Part, add};
use crate::widths::{near_place, select, whole};
use std::alloc::AllocError;
use vl_design::design::{Target, TargetNode};

/// What an assignment to a select writes of the signal that it is right on: for sure, or with `any` maybe.
fn placed(m: &Meanings<'_>, any: bool, base: &Target, low: Option<i64>, width: u8) -> Option<Part>
    requires base { IsSoundBase (names_seen m.now) (target_of base.now) }
    requires width { IsWidth width }
    ensures some { IfSome result (λ p. (o : Option ℤ) → low ≡ option_map near o → (b : bits.Bit) →
        in_part p b ≡ bits.part_sets (names_seen m.now) any b (target_of base.now) o width) }
    ensures within { IfSome result (λ p. p.signal < length (names_seen m.now).rows) }
    ensures none { result ≡ None → (o : Option ℤ) → low ≡ option_map near o → (b : bits.Bit) →
        bits.part_sets (names_seen m.now) any b (target_of base.now) o width ≡ false }
{
    match (&base.node, low) {
        (TargetNode::Sig(number), Some(low)) => Some(select(m, *number, low, width)),
        (TargetNode::Sig(number) | TargetNode::Word(number, _), _) => {
            if any { Some(whole(m, *number)) } else { None }
        }
        _ => unreachable!(),
    }
}

/// The bits that an assignment to the target writes: for sure, or with `any` maybe.
pub fn put(
    m: &Meanings<'_>,
    any: bool,
    parts: &mut Vec<Part>,
    target: &Target,
) -> Result<(), AllocError>
    requires { IsSoundTarget (names_seen m.now) (target_of target.now) }
    ensures bits { OnOk result ((b : bits.Bit) → in_parts parts.new.items b
        ≡ (in_parts parts.old.items b || bits.bit_set (names_seen m.now) any b (target_of target.now))) }
    ensures within { OnOk result (AreOf (length (names_seen m.now).rows) parts.old.items → AreOf (length (names_seen m.now).rows) parts.new.items) }
{
    match &target.node {
        TargetNode::Sig(number) => add(parts, whole(m, *number)),
        TargetNode::Word(number, _) => {
            if any {
                add(parts, whole(m, *number))
            } else {
                Ok(())
            }
        }
        TargetNode::Pick(base, index, from, width) => {
            match placed(m, any, base, known_low(m, *from, index), *width) {
                Some(part) => add(parts, part),
                None => Ok(()),
            }
        }
        TargetNode::Slice(base, low, width) => {
            match placed(m, any, base, Some(near_place(i64::from(*low))), *width) {
                Some(part) => add(parts, part),
                None => Ok(()),
            }
        }
        TargetNode::List(list) => {
            for item in list {
                put(m, any, parts, item)?;
            }
            Ok(())
        }
    }
}

/// The bits that the indices of a target read, and that aren't known, are read.
pub fn look_target(
    m: &Meanings<'_>,
    known: &Vec<u128>,
    read: &mut Vec<Part>,
    target: &Target,
) -> Result<(), AllocError>
    requires sound { IsSoundTarget (names_seen m.now) (target_of target.now) }
    requires long { length known.now.items ≡ length (names_seen m.now).rows }
    ensures bits { OnOk result (Looks known.now.items read.old.items read.new.items (λ b. bits.index_reads (names_seen m.now) b (target_of target.now))) }
    ensures within { OnOk result (AreOf (length known.now.items) read.old.items → AreOf (length known.now.items) read.new.items) }
{
    match &target.node {
        TargetNode::Sig(_) => Ok(()),
        TargetNode::Word(_, address) => look(m, known, read, address),
        TargetNode::Pick(base, index, _, _) => {
            look_target(m, known, read, base)?;
            look(m, known, read, index)
        }
        TargetNode::Slice(base, _, _) => look_target(m, known, read, base),
        TargetNode::List(list) => {
            for item in list {
                look_target(m, known, read, item)?;
            }
            Ok(())
        }
    }
}
