//! Bits of a process's signals, and what one assignment and a join of branches do to them.

ghost use Rattle.std.specs.Prelude.{◌≡◌, ◌&&◌, ◌||◌, not, true, false, length, Bool, OnOk, IfOk};
ghost use Rattle.vl_design.specs.Seen as seen;
ghost use Rattle.vl_design.specs.Syntax.{Set};
ghost use Rattle.vl_design.specs.Sound.{IsSoundExp, IsSoundTarget};
ghost use Rattle.vl_design.specs.Trees.{exp_of, target_of};
ghost use Rattle.vl_paths.specs.Bits.{Bit};
ghost use Rattle.vl_bits.specs.Seen.{names_seen};
ghost use Rattle.vl_bits.specs.Masks.{in_masks, in_parts, AreOf};
ghost use Rattle.vl_bits.specs.Cases.{stays_open};
ghost use Rattle.vl_bits.specs.Walks.{Walks};

use crate::looks::look;
use crate::meanings::Meanings;
use crate::parts::{Part, gain, shared};
use crate::puts::{look_target, put};
use std::alloc::{AllocError, Global};
use vl_design::design::{Expr, Target};

/// Bits of a process's signals.
#[derive(Drop)]
pub struct Sets {
    /// Those that it has assigned for sure: one mask for each signal.
    pub known: Vec<u128>,
    /// Those that it has read before.
    pub read: Vec<Part>,
    /// Those that it may have assigned.
    pub driven: Vec<Part>,
}

/// What two branches both gain, of bits that aren't known, is known. Gives it.
pub(crate) fn join(
    alloc: Global,
    known: &mut Vec<u128>,
    first: &[Part],
    second: &[Part],
) -> Result<Vec<Part>, AllocError>
    requires first { AreOf (length known.old.items) first.now }
    requires second { AreOf (length known.old.items) second.now }
    requires apart { (b : Bit) → in_parts first.now b ≡ true → in_masks known.old.items b ≡ false }
    requires too { (b : Bit) → in_parts second.now b ≡ true → in_masks known.old.items b ≡ false }
    ensures long { OnOk result (length known.new.items ≡ length known.old.items) }
    ensures known { OnOk result ((b : Bit) → in_masks known.new.items b ≡ (in_masks known.old.items b || (in_parts first.now b && in_parts second.now b))) }
    ensures within { IfOk result (λ v. AreOf (length known.old.items) v.items) }
    ensures bits { IfOk result (λ v. (b : Bit) → in_parts v.items b ≡ (not (in_masks known.old.items b) && (in_parts first.now b && in_parts second.now b))) }
{
    let both = shared(alloc, known, first, second)?;
    let more = gain(alloc, known, both.as_slice())?;
    Ok(more)
}

/// A blocking assignment. Gives what becomes known.
pub(crate) fn assign(
    alloc: Global,
    m: &Meanings<'_>,
    sets: &mut Sets,
    target: &Target,
    source: &Expr,
) -> Result<Vec<Part>, AllocError>
    requires target { IsSoundTarget (names_seen m.now) (target_of target.now) }
    requires source { IsSoundExp (names_seen m.now) (exp_of source.now) }
    requires long { length sets.old.known.items ≡ length (names_seen m.now).rows }
    ensures { IfOk result (λ v. Walks (names_seen m.now) (Set (target_of target.now) (exp_of source.now)) sets.old sets.new v.items) }
{
    look_target(m, &sets.known, &mut sets.read, target)?;
    look(m, &sets.known, &mut sets.read, source)?;
    put(m, true, &mut sets.driven, target)?;
    let mut sure = Vec::new(alloc);
    put(m, false, &mut sure, target)?;
    let more = gain(alloc, &mut sets.known, sure.as_slice())?;
    Ok(more)
}

/// Whether it may still be that nothing matches, with an item of these labels more.
#[tactic(auto, using(crate::proofs::Casing::opens))]
pub(crate) fn stays_open(is_open: bool, labels: &[Expr]) -> bool
    ensures { result ≡ stays_open is_open (seen.exps_of labels.now) }
{
    is_open && !labels.is_empty()
}
