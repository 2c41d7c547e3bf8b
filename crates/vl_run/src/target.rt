//! The spots that targets name (IEEE 1364-2005, clauses 9.2 and 5.1.14).

ghost use Rattle.std.specs.Prelude.{◌≡◌, ℕ, List, ◌∷◌, [], pos, IfOk, OnOk};
ghost use Rattle.vl_design.specs.Laws.{IsFine};
ghost use Rattle.vl_design.specs.Sound.{IsMemory, IsNamed, IsSoundBase, IsSoundExp, IsSoundTarget, IsWidth};
ghost use Rattle.vl_design.specs.Targets as targets;
ghost use Rattle.vl_design.specs.Syntax as y;
ghost use Rattle.vl_design.specs.Trees.{exp_of, target_of};
ghost use Rattle.vl_design.specs.Width as w;
ghost use Rattle.vl_eval.specs.Rooms.{names_of, sample_of};
ghost use Rattle.vl_eval.specs.Spots.{spot_of, IsSoundSpot};
ghost use Rattle.vl_eval.specs.Updates.{low_of};
ghost use Rattle.vl_run.specs.Lists.{whole_at, part_of, Spotted};
ghost use Rattle.vl_run.specs.Scopes.{scope_of, Calls};

use crate::scope::Scope;
use std::alloc::AllocError;
use vl_design::design::{Expr, LowestBit, Target, TargetNode};
use vl_eval::eval::signal_at;
use vl_eval::form::signal_form;
use vl_eval::room::{Room, Sample};
use vl_eval::selects::{Whole, word_number};
use vl_eval::spot::Spot;
use vl_eval::update::Low;

/// A bit by its number.
fn bit_at(number: i32) -> Low
    ensures { low_of result ≡ number }
{
    Low {
        from: LowestBit {
            constant: i64::from(number),
            taken: false,
        },
        index: Whole {
            negative: false,
            size: 0,
        },
    }
}

/// A whole word of a signal.
#[tactic(auto, using(crate::proofs::Spotting::named))]
fn whole_spot(room: &Room<'_>, signal: u32, word: u64) -> Spot
    requires { IsNamed (names_of room.now) signal }
    ensures spot { spot_of result ≡ whole_at (names_of room.now) signal word }
    ensures sound { IsSoundSpot (names_of room.now) result }
{
    Spot {
        signal,
        word,
        low: bit_at(0),
        width: signal_form(room, signal).width,
    }
}

/// So many bits of a whole word, from a bit on.
fn part_spot(base: Spot, low: Low, width: u8) -> Spot
    requires { IsWidth width }
    ensures spot { spot_of result ≡ part_of (spot_of base) (low_of low) width }
    ensures width { result.width ≡ width }
    ensures sound { (names : w.Names) → IsSoundSpot names base → IsSoundSpot names result }
{
    Spot {
        signal: base.signal,
        word: base.word,
        low,
        width: u32::from(width),
    }
}

/// Adds a spot.
#[tactic(auto, using(crate::proofs::Spotting::added))]
fn add_spot(spots: &mut Vec<Spot>, spot: Spot) -> Result<(), AllocError>
    ensures { (names : w.Names) (ss : List targets.Spot) (w : ℕ) → IsSoundSpot names spot → ss ≡ spot_of spot ∷ [] → spot.width ≡ w
        → OnOk result (Spotted names spots.old.items spots.new.items ss w) }
{
    spots.push(spot)?;
    Ok(())
}

impl<F: Fn(u32, Vec<u128>) -> Result<u128, AllocError>> Scope<'_, F> {
    /// The spot of a word of a memory.
    #[tactic(auto, using(crate::proofs::Spotting::named))]
    fn word_spot(&self, s: &Sample<'_>, memory: u32, address: &Expr) -> Result<Spot, AllocError>
        requires memory { IsMemory (names_of self.now.room) memory }
        requires address { IsSoundExp (names_of self.now.room) (exp_of address.now) }
        requires fine { IsFine (names_of self.now.room).rows (sample_of s.now).values }
        requires calls { Calls (scope_of self.now) (F.pre self.now.call) (F.post self.now.call) }
        ensures spot { IfOk result (λ p. targets.spots (scope_of self.now) (sample_of s.now) (y.WordAt memory (exp_of address.now)) ≡ spot_of p ∷ []) }
        ensures low { IfOk result (λ p. low_of p.low ≡ pos 0) }
        ensures sound { IfOk result (IsSoundSpot (names_of self.now.room)) }
    {
        let address = self.reading(s, address)?;
        let word = word_number(signal_at(&self.room, memory), address);
        Ok(whole_spot(&self.room, memory, word))
    }

    /// The spot of a variable or of a word of a memory.
    #[tactic(auto, using(crate::proofs::Spotting::named))]
    fn base_spot(&self, s: &Sample<'_>, base: &Target) -> Result<Spot, AllocError>
        requires base { IsSoundBase (names_of self.now.room) (target_of base.now) }
        requires fine { IsFine (names_of self.now.room).rows (sample_of s.now).values }
        requires calls { Calls (scope_of self.now) (F.pre self.now.call) (F.post self.now.call) }
        ensures spot { IfOk result (λ p. targets.spots (scope_of self.now) (sample_of s.now) (target_of base.now) ≡ spot_of p ∷ []) }
        ensures low { IfOk result (λ p. low_of p.low ≡ pos 0) }
        ensures sound { IfOk result (IsSoundSpot (names_of self.now.room)) }
    {
        match &base.node {
            TargetNode::Sig(number) => Ok(whole_spot(&self.room, *number, 0)),
            TargetNode::Word(memory, address) => self.word_spot(s, *memory, address),
            _ => unreachable!(),
        }
    }

    /// The spot of bits that an index names.
    #[tactic(auto, using(crate::proofs::Spotting::named))]
    fn picked_spot(
        &self,
        s: &Sample<'_>,
        base: &Target,
        index: &Expr,
        from: LowestBit,
        width: u8,
    ) -> Result<Spot, AllocError>
        requires base { IsSoundBase (names_of self.now.room) (target_of base.now) }
        requires index { IsSoundExp (names_of self.now.room) (exp_of index.now) }
        requires width { IsWidth width }
        requires fine { IsFine (names_of self.now.room).rows (sample_of s.now).values }
        requires calls { Calls (scope_of self.now) (F.pre self.now.call) (F.post self.now.call) }
        ensures spot { IfOk result (λ p. targets.spots (scope_of self.now) (sample_of s.now) (y.PickAt (target_of base.now) (exp_of index.now) from width) ≡ spot_of p ∷ []) }
        ensures sound { IfOk result (IsSoundSpot (names_of self.now.room)) }
        ensures width { IfOk result (λ p. p.width ≡ width) }
    {
        let base = self.base_spot(s, base)?;
        let index = self.reading(s, index)?;
        Ok(part_spot(base, Low { from, index }, width))
    }

    /// The spot of bits from a constant one on.
    #[tactic(auto, using(crate::proofs::Spotting::named))]
    fn sliced_spot(
        &self,
        s: &Sample<'_>,
        base: &Target,
        low: i32,
        width: u8,
    ) -> Result<Spot, AllocError>
        requires base { IsSoundBase (names_of self.now.room) (target_of base.now) }
        requires width { IsWidth width }
        requires fine { IsFine (names_of self.now.room).rows (sample_of s.now).values }
        requires calls { Calls (scope_of self.now) (F.pre self.now.call) (F.post self.now.call) }
        ensures spot { IfOk result (λ p. targets.spots (scope_of self.now) (sample_of s.now) (y.SliceAt (target_of base.now) low width) ≡ spot_of p ∷ []) }
        ensures sound { IfOk result (IsSoundSpot (names_of self.now.room)) }
        ensures width { IfOk result (λ p. p.width ≡ width) }
    {
        let base = self.base_spot(s, base)?;
        Ok(part_spot(base, bit_at(low), width))
    }

    /// Adds the spots of a target, from the left.
    #[tactic(auto, using(crate::proofs::Spotting::named))]
    pub fn push_spots(
        &self,
        s: &Sample<'_>,
        target: &Target,
        spots: &mut Vec<Spot>,
    ) -> Result<(), AllocError>
        requires sound { IsSoundTarget (names_of self.now.room) (target_of target.now) }
        requires fine { IsFine (names_of self.now.room).rows (sample_of s.now).values }
        requires calls { Calls (scope_of self.now) (F.pre self.now.call) (F.post self.now.call) }
        ensures { OnOk result (Spotted (names_of self.now.room) spots.old.items spots.new.items
            (targets.spots (scope_of self.now) (sample_of s.now) (target_of target.now)) (targets.target_width (names_of self.now.room) (target_of target.now))) }
    {
        match &target.node {
            TargetNode::Sig(number) => add_spot(spots, whole_spot(&self.room, *number, 0)),
            TargetNode::Word(memory, address) => {
                add_spot(spots, self.word_spot(s, *memory, address)?)
            }
            TargetNode::Pick(base, index, from, width) => {
                add_spot(spots, self.picked_spot(s, base, index, *from, *width)?)
            }
            TargetNode::Slice(base, low, width) => {
                add_spot(spots, self.sliced_spot(s, base, *low, *width)?)
            }
            TargetNode::List(parts) => {
                for part in parts {
                    self.push_spots(s, part, spots)?;
                }
                Ok(())
            }
        }
    }
}
