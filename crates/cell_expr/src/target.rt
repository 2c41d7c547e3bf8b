//! The spots of targets, with their addresses and indices as cells (IEEE 1364-2005, clauses 9.2, 5.1.14 and 5.2.2).

ghost use Rattle.std.specs.Prelude.{◌≡◌, ◌+◌, ◌++◌, List, [], ◌∷◌, false, nat_lt, IfOk, OnOk};
ghost use Rattle.vl_base.specs.declared.files.File.{File};
ghost use Rattle.vl_design.specs.Reads.{target_writes, targets_write};
ghost use Rattle.vl_design.specs.Sound.{AreSoundTargets, IsSoundBase, IsSoundTarget};
ghost use Rattle.vl_design.specs.Syntax as y;
ghost use Rattle.vl_design.specs.Targets as targets;
ghost use Rattle.vl_design.specs.Trees.{exp_of, target_of};
ghost use Rattle.vl_run.specs.Lists.{targets_of};
ghost use Rattle.cell_emit.specs.cell_form.specs.Views.{list_of};
ghost use Rattle.cell_emit.specs.Slots.{Grows};
ghost use Rattle.cell_emit.specs.Envs.{env_of, Fits};
ghost use Rattle.cell_emit.specs.declared.place.Place.TheVariants as place;
ghost use Rattle.cell_expr.specs.Contexts.{names_of, scope_of, body_of};
ghost use Rattle.cell_expr.specs.Counts.{own_count, indices_count, all_indices_count, parts_count, all_parts_count};
ghost use Rattle.cell_expr.specs.Callers.{Compilers};
ghost use Rattle.cell_expr.specs.Spots.{Based, Spotted};
ghost use Rattle.cell_emit.specs.vl_sites.specs.Stored.{target_stored, targets_stored};

use crate::address::Address;
use crate::context::Context;
use crate::spot::Spot;
use cell_emit::at::At;
use cell_emit::cell::CellList;
use cell_emit::place::Place;
use std::alloc::{AllocError, Global};
use vl_design::design::{Expr, LowestBit, Target, TargetNode};
use vl_eval::form::{form_of, signal_form};

/// A bit by its number.
fn bit_at(number: i32) -> Place
    ensures { result ≡ place.Constant number }
{
    Place::Constant(i64::from(number))
}

/// What a target is of that is a whole signal, or a whole word of a memory.
#[derive(Clone, Copy, Debug, PartialEq, Eq)]
struct Base {
    /// The signal's number.
    signal: u32,
    /// The word's address, if the signal is a memory.
    word: Option<Address>,
}

/// Adds some bits of a signal or of a word to spots.
fn add_spot(spots: &mut Vec<Spot>, base: Base, low: Place, width: u8) -> Result<(), AllocError>
    ensures { OnOk result (spots.new.items ≡ spots.old.items ++ record { signal = base.signal; word = base.word; low = low; width = width } ∷ []) }
{
    spots.push(Spot {
        signal: base.signal,
        word: base.word,
        low,
        width,
    })?;
    Ok(())
}

impl<F: Fn(&mut CellList, &mut At, u32) -> Result<(), AllocError>> Context<'_, F> {
    /// Compiles the address of a whole signal or word, if it has one: what it is of.
    #[tactic(auto, using(crate::proofs::Walking::walking))]
    fn base_in(
        &self,
        alloc: Global,
        cells: &mut CellList,
        at: &At,
        base: &Target,
    ) -> Result<Base, AllocError>
        requires functions { Compilers (names_of self.now) self.now.depth (F.pre self.now.compile_body) (F.post self.now.compile_body) }
        requires sound { IsSoundBase (names_of self.now) (target_of base.now) }
        requires apart { target_writes (λ k. nat_lt k at.now.first) (target_of base.now) ≡ false }
        requires fits { Fits (names_of self.now) (list_of cells.old) (env_of at.now) }
        ensures grows { Grows (list_of cells.old) (list_of cells.new) }
        ensures based { IfOk result (λ r. (files : List File) → Based (scope_of self.now files) (indices_count (body_of self.now) (target_of base.now)) (target_of base.now) (env_of at.now) (list_of cells.old) (list_of cells.new) r.signal r.word) }
    {
        match &base.node {
            TargetNode::Sig(signal) => Ok(Base {
                signal: *signal,
                word: None,
            }),
            TargetNode::Word(memory, address) => {
                let signed = form_of(&self.room, address).signed;
                let slot = self.own_in(alloc, cells, at, address)?;
                Ok(Base {
                    signal: *memory,
                    word: Some(Address { slot, signed }),
                })
            }
            _ => unreachable!(),
        }
    }

    /// Compiles the address of a target that is a whole signal or word, if it has one, and adds its spot.
    #[tactic(auto, using(crate::proofs::Walking::walking))]
    fn whole_in(
        &self,
        alloc: Global,
        cells: &mut CellList,
        at: &At,
        target: &Target,
        spots: &mut Vec<Spot>,
    ) -> Result<(), AllocError>
        requires functions { Compilers (names_of self.now) self.now.depth (F.pre self.now.compile_body) (F.post self.now.compile_body) }
        requires sound { IsSoundBase (names_of self.now) (target_of target.now) }
        requires apart { target_writes (λ k. nat_lt k at.now.first) (target_of target.now) ≡ false }
        requires fits { Fits (names_of self.now) (list_of cells.old) (env_of at.now) }
        ensures grows { Grows (list_of cells.old) (list_of cells.new) }
        ensures spotted { OnOk result ((files : List File) → Spotted (names_of self.now) (indices_count (body_of self.now) (target_of target.now)) (env_of at.now) (list_of cells.old) (list_of cells.new)
            spots.old.items spots.new.items (targets.target_width (names_of self.now) (target_of target.now)) (parts_count (target_of target.now)) (target_stored (target_of target.now))
            (λ x. targets.spots (scope_of self.now files) x (target_of target.now))) }
    {
        let base = self.base_in(alloc, cells, at, target)?;
        let width = signal_form(&self.room, base.signal).width as u8;
        add_spot(spots, base, Place::Constant(0), width)
    }

    /// Compiles the address of a slice in a target, if it has one, and adds its spot.
    #[tactic(auto, using(crate::proofs::Walking::walking))]
    fn slice_target_in(
        &self,
        alloc: Global,
        cells: &mut CellList,
        at: &At,
        base: &Target,
        low: i32,
        width: u8,
        spots: &mut Vec<Spot>,
    ) -> Result<(), AllocError>
        requires functions { Compilers (names_of self.now) self.now.depth (F.pre self.now.compile_body) (F.post self.now.compile_body) }
        requires sound { IsSoundTarget (names_of self.now) (y.SliceAt (target_of base.now) low width) }
        requires apart { target_writes (λ k. nat_lt k at.now.first) (y.SliceAt (target_of base.now) low width) ≡ false }
        requires fits { Fits (names_of self.now) (list_of cells.old) (env_of at.now) }
        ensures grows { Grows (list_of cells.old) (list_of cells.new) }
        ensures spotted { OnOk result ((files : List File) → Spotted (names_of self.now) (indices_count (body_of self.now) (target_of base.now)) (env_of at.now) (list_of cells.old) (list_of cells.new)
            spots.old.items spots.new.items width (parts_count (y.SliceAt (target_of base.now) low width)) (target_stored (target_of base.now)) (λ x. targets.spots (scope_of self.now files) x (y.SliceAt (target_of base.now) low width))) }
    {
        let base = self.base_in(alloc, cells, at, base)?;
        add_spot(spots, base, bit_at(low), width)
    }

    /// Compiles the address of a select in a target, if it has one, and its index, and adds its spot.
    #[tactic(auto, using(crate::proofs::Walking::walking))]
    fn pick_target_in(
        &self,
        alloc: Global,
        cells: &mut CellList,
        at: &At,
        base: &Target,
        index: &Expr,
        from: LowestBit,
        width: u8,
        spots: &mut Vec<Spot>,
    ) -> Result<(), AllocError>
        requires functions { Compilers (names_of self.now) self.now.depth (F.pre self.now.compile_body) (F.post self.now.compile_body) }
        requires sound { IsSoundTarget (names_of self.now) (y.PickAt (target_of base.now) (exp_of index.now) from width) }
        requires apart { target_writes (λ k. nat_lt k at.now.first) (y.PickAt (target_of base.now) (exp_of index.now) from width) ≡ false }
        requires fits { Fits (names_of self.now) (list_of cells.old) (env_of at.now) }
        ensures grows { Grows (list_of cells.old) (list_of cells.new) }
        ensures spotted { OnOk result ((files : List File) → Spotted (names_of self.now) (indices_count (body_of self.now) (target_of base.now) + own_count (body_of self.now) (exp_of index.now)) (env_of at.now) (list_of cells.old) (list_of cells.new)
            spots.old.items spots.new.items width (parts_count (y.PickAt (target_of base.now) (exp_of index.now) from width)) (target_stored (target_of base.now)) (λ x. targets.spots (scope_of self.now files) x (y.PickAt (target_of base.now) (exp_of index.now) from width))) }
    {
        let base = self.base_in(alloc, cells, at, base)?;
        let signed = form_of(&self.room, index).signed;
        let index = self.own_in(alloc, cells, at, index)?;
        add_spot(spots, base, Place::By(index, signed, from), width)
    }

    /// Compiles the indices of the targets of a concatenation, and adds their spots.
    #[cycle(spots)]
    #[tactic(auto, using(crate::proofs::Walking::walking))]
    fn targets_in(
        &self,
        alloc: Global,
        cells: &mut CellList,
        at: &At,
        parts: &[Target],
        spots: &mut Vec<Spot>,
    ) -> Result<(), AllocError>
        requires functions { Compilers (names_of self.now) self.now.depth (F.pre self.now.compile_body) (F.post self.now.compile_body) }
        requires sound { AreSoundTargets (names_of self.now) (targets_of parts.now) }
        requires apart { targets_write (λ k. nat_lt k at.now.first) (targets_of parts.now) ≡ false }
        requires fits { Fits (names_of self.now) (list_of cells.old) (env_of at.now) }
        ensures grows { Grows (list_of cells.old) (list_of cells.new) }
        ensures spotted { OnOk result ((files : List File) → Spotted (names_of self.now) (all_indices_count (body_of self.now) (targets_of parts.now)) (env_of at.now) (list_of cells.old) (list_of cells.new)
            spots.old.items spots.new.items (targets.targets_width (names_of self.now) (targets_of parts.now)) (all_parts_count (targets_of parts.now)) (targets_stored (targets_of parts.now))
            (λ x. targets.all_spots (scope_of self.now files) x (targets_of parts.now))) }
    {
        for part in parts {
            self.spots_in(alloc, cells, at, part, spots)?;
        }
        Ok(())
    }

    /// Compiles the indices of a target, and adds its spots.
    #[cycle(spots)]
    #[tactic(auto, using(crate::proofs::Walking::walking, crate::proofs::Spotting::listed))]
    pub fn spots_in(
        &self,
        alloc: Global,
        cells: &mut CellList,
        at: &At,
        target: &Target,
        spots: &mut Vec<Spot>,
    ) -> Result<(), AllocError>
        requires functions { Compilers (names_of self.now) self.now.depth (F.pre self.now.compile_body) (F.post self.now.compile_body) }
        requires sound { IsSoundTarget (names_of self.now) (target_of target.now) }
        requires apart { target_writes (λ k. nat_lt k at.now.first) (target_of target.now) ≡ false }
        requires fits { Fits (names_of self.now) (list_of cells.old) (env_of at.now) }
        ensures grows { Grows (list_of cells.old) (list_of cells.new) }
        ensures spotted { OnOk result ((files : List File) → Spotted (names_of self.now) (indices_count (body_of self.now) (target_of target.now)) (env_of at.now) (list_of cells.old) (list_of cells.new)
            spots.old.items spots.new.items (targets.target_width (names_of self.now) (target_of target.now)) (parts_count (target_of target.now)) (target_stored (target_of target.now))
            (λ x. targets.spots (scope_of self.now files) x (target_of target.now))) }
    {
        match &target.node {
            TargetNode::Sig(_) => self.whole_in(alloc, cells, at, target, spots),
            TargetNode::Word(_, _) => self.whole_in(alloc, cells, at, target, spots),
            TargetNode::Slice(base, low, width) => {
                self.slice_target_in(alloc, cells, at, base, *low, *width, spots)
            }
            TargetNode::Pick(base, index, from, width) => {
                self.pick_target_in(alloc, cells, at, base, index, *from, *width, spots)
            }
            TargetNode::List(parts) => self.targets_in(alloc, cells, at, parts, spots),
        }
    }
}
