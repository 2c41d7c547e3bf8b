//! Statements as cells (IEEE 1364-2005, clauses 9 and 10.4).

ghost use Rattle.std.specs.Prelude.{◌≡◌, ◌+◌, ◌++◌, ℕ, List, [], ◌∷◌, false, nat_lt, IfOk, OnOk, length};
ghost use Rattle.vl_base.specs.declared.files.File.{File};
ghost use Rattle.vl_design.specs.Exec as x;
ghost use Rattle.vl_design.specs.Reads.{stm_writes, items_write, target_writes, targets_write};
ghost use Rattle.vl_design.specs.Plainly as plain;
ghost use Rattle.vl_design.specs.Seen as seen;
ghost use Rattle.vl_design.specs.Sound.{AreSound, AreSoundItems, AreSoundTargets, IsSoundExp, IsSoundStm, IsSoundTarget, IsWidth};
ghost use Rattle.vl_design.specs.Syntax as y;
ghost use Rattle.vl_design.specs.Syntax.{Items};
ghost use Rattle.vl_design.specs.Targets as targets;
ghost use Rattle.vl_design.specs.Trees.{exp_of, exps_of, stm_of, then_of, target_of};
ghost use Rattle.vl_paths.specs.Nets.{IsPlain};
ghost use Rattle.vl_run.specs.Cases.{items_of, AreWithin, AreLabelsWithin};
ghost use Rattle.vl_run.specs.Lists.{targets_of};
ghost use Rattle.cell_emit.specs.cell_form.specs.Views.{list_of};
ghost use Rattle.cell_emit.specs.Slots.{Grows};
ghost use Rattle.cell_emit.specs.Envs.{env_of, Fits, IsSlot};
ghost use Rattle.cell_emit.specs.declared.place.Place.TheVariants as place;
ghost use Rattle.cell_emit.specs.Paths.{Does};
ghost use Rattle.cell_emit.specs.Cases.{Compares, Tries};
ghost use Rattle.cell_emit.specs.Pendings.{slots_of, memories_of, ArePending};
ghost use Rattle.cell_emit.specs.Delays.{Leaves, LeavesItems};
ghost use Rattle.cell_expr.specs.Bodies.{IsSegment, AreSegmentItems, IsAny, CanWait, assignment};
ghost use Rattle.cell_expr.specs.Contexts.{names_of, scope_of, body_of};
ghost use Rattle.cell_expr.specs.Counts.{exp_count, labels_count, stm_count, items_count, indices_count, all_indices_count, parts_count, all_parts_count};
ghost use Rattle.cell_expr.specs.Items.{Item, Tried};
ghost use Rattle.cell_expr.specs.Callers.{Compilers};
ghost use Rattle.cell_expr.specs.Spots.{Assigned};
ghost use Rattle.cell_emit.specs.vl_sites.specs.Stored.{stored_words, items_stored, target_stored};

use crate::case::{care_of, default_of, items_form};
use crate::context::Context;
use crate::spot::{Spot, assign_all, delay_all, target_width};
use cell_emit::at::At;
use cell_emit::cell::CellList;
use cell_emit::paths::{branches, differs, open_behind, taken};
use cell_emit::pending::Pending;
use cell_emit::place::Place;
use std::alloc::{AllocError, Global};
use vl_design::design::{CaseItem, Expr, Form, LowestBit, Stmt, StmtNode, Target, TargetNode};
use vl_eval::form::{form_of, signal_form};
use vl_eval::form_form::assigned;

impl<F: Fn(&mut CellList, &mut At, u32) -> Result<(), AllocError>> Context<'_, F> {
    /// Compiles the labels of an item of a case: the path on which none of them matches.
    #[tactic(auto, using(crate::proofs::Walking::walking))]
    pub fn labels_in(
        &self,
        alloc: Global,
        cells: &mut CellList,
        at: &At,
        subject: u32,
        c: Form,
        rest: u32,
        labels: &[Expr],
    ) -> Result<u32, AllocError>
        requires functions { Compilers (names_of self.now) self.now.depth (F.pre self.now.compile_body) (F.post self.now.compile_body) }
        requires subject { IsSlot (list_of cells.old) subject c.width }
        requires context { IsWidth c.width }
        requires rest { IsSlot (list_of cells.old) rest 1 }
        requires labels { AreSound (names_of self.now) (exps_of labels.now) }
        requires within { AreWithin (names_of self.now) c.width (exps_of labels.now) }
        requires fits { Fits (names_of self.now) (list_of cells.old) (env_of at.now) }
        ensures grows { Grows (list_of cells.old) (list_of cells.new) }
        ensures compares { IfOk result (λ r. (files : List File) → Compares (names_of self.now) (labels_count (body_of self.now) (exps_of labels.now)) (scope_of self.now files) c subject (exps_of labels.now) rest r
            (env_of at.now) (list_of cells.old) (list_of cells.new)) }
    {
        let mut left = rest;
        for label in labels {
            let slot = self.compile_in(alloc, cells, at, label, c)?;
            let care = care_of(&self.room, c, label);
            let apart = differs(alloc, cells, subject, slot, care)?;
            left = open_behind(alloc, cells, at, apart, left)?;
        }
        Ok(left)
    }

    /// Compiles an item of a case that has labels: the path behind it.
    #[cycle(statement)]
    #[tactic(auto, using(crate::proofs::Walking::walking))]
    fn item_in(
        &self,
        alloc: Global,
        cells: &mut CellList,
        at: &mut At,
        pending: &mut Pending,
        subject: u32,
        c: Form,
        rest: u32,
        item: &CaseItem,
    ) -> Result<u32, AllocError>
        requires functions { Compilers (names_of self.now) self.now.depth (F.pre self.now.compile_body) (F.post self.now.compile_body) }
        requires subject { IsSlot (list_of cells.old) subject c.width }
        requires context { IsWidth c.width }
        requires rest { IsSlot (list_of cells.old) rest 1 }
        requires labels { AreSound (names_of self.now) (exps_of item.now.labels.items) }
        requires within { AreWithin (names_of self.now) c.width (exps_of item.now.labels.items) }
        requires sound { IsSoundStm (names_of self.now) (stm_of [] item.now.body) }
        requires segment { IsSegment (CanWait (names_of self.now) (length pending.old.update.items)) (stm_of [] item.now.body) }
        requires apart { stm_writes (λ k. nat_lt k at.old.first) (stm_of [] item.now.body) ≡ false }
        requires fits { Fits (names_of self.now) (list_of cells.old) (env_of at.old) }
        requires pending { ArePending (names_of self.now) (list_of cells.old) (slots_of pending.old) }
        ensures grows { Grows (list_of cells.old) (list_of cells.new) }
        ensures does { IfOk result (λ r. (files : List File) → Item (names_of self.now) (scope_of self.now files) (body_of self.now) c subject (exps_of item.now.labels.items) (stm_of [] item.now.body) rest r
            (env_of at.old) (env_of at.new) (slots_of pending.old) (slots_of pending.new) (list_of cells.old) (list_of cells.new)) }
        ensures sites { OnOk result (memories_of pending.new.sites.items ≡ memories_of pending.old.sites.items ++ stored_words (stm_of [] item.now.body)) }
    {
        let behind = self.labels_in(alloc, cells, &*at, subject, c, rest, &item.labels)?;
        let path = taken(alloc, cells, &*at, rest, behind)?;
        self.statement_in(alloc, cells, at, pending, path, &item.body)?;
        Ok(behind)
    }

    /// Compiles an item of a case, if it has labels: the path behind it.
    #[cycle(statement)]
    #[tactic(auto, using(crate::proofs::Walking::walking))]
    fn try_in(
        &self,
        alloc: Global,
        cells: &mut CellList,
        at: &mut At,
        pending: &mut Pending,
        subject: u32,
        c: Form,
        rest: u32,
        item: &CaseItem,
    ) -> Result<u32, AllocError>
        requires functions { Compilers (names_of self.now) self.now.depth (F.pre self.now.compile_body) (F.post self.now.compile_body) }
        requires subject { IsSlot (list_of cells.old) subject c.width }
        requires context { IsWidth c.width }
        requires rest { IsSlot (list_of cells.old) rest 1 }
        requires labels { AreSound (names_of self.now) (exps_of item.now.labels.items) }
        requires within { AreWithin (names_of self.now) c.width (exps_of item.now.labels.items) }
        requires sound { IsSoundStm (names_of self.now) (stm_of [] item.now.body) }
        requires segment { IsSegment (CanWait (names_of self.now) (length pending.old.update.items)) (stm_of [] item.now.body) }
        requires apart { stm_writes (λ k. nat_lt k at.old.first) (stm_of [] item.now.body) ≡ false }
        requires fits { Fits (names_of self.now) (list_of cells.old) (env_of at.old) }
        requires pending { ArePending (names_of self.now) (list_of cells.old) (slots_of pending.old) }
        ensures grows { Grows (list_of cells.old) (list_of cells.new) }
        ensures tries { IfOk result (λ r. (files : List File) → Tried (names_of self.now) (scope_of self.now files) (body_of self.now) c subject (seen.exps_of item.now.labels.items) (stm_of [] item.now.body) rest r
            (env_of at.old) (env_of at.new) (slots_of pending.old) (slots_of pending.new) (list_of cells.old) (list_of cells.new)) }
        ensures sites { OnOk result ((others : Items) → memories_of pending.new.sites.items ++ items_stored others ≡ memories_of pending.old.sites.items ++ items_stored (plain.item (seen.exps_of item.now.labels.items) (stm_of [] item.now.body) others)) }
    {
        if item.labels.as_slice().is_empty() {
            Ok(rest)
        } else {
            self.item_in(alloc, cells, at, pending, subject, c, rest, item)
        }
    }

    /// Compiles the items of a case that have labels: the path of the default.
    #[cycle(statement)]
    #[tactic(auto, using(crate::proofs::Walking::walking))]
    fn items_in(
        &self,
        alloc: Global,
        cells: &mut CellList,
        at: &mut At,
        pending: &mut Pending,
        subject: u32,
        c: Form,
        off: u32,
        items: &[CaseItem],
    ) -> Result<u32, AllocError>
        requires functions { Compilers (names_of self.now) self.now.depth (F.pre self.now.compile_body) (F.post self.now.compile_body) }
        requires subject { IsSlot (list_of cells.old) subject c.width }
        requires context { IsWidth c.width }
        requires off { IsSlot (list_of cells.old) off 1 }
        requires sound { AreSoundItems (names_of self.now) (items_of [] items.now) }
        requires within { AreLabelsWithin (names_of self.now) c.width items.now }
        requires segment { AreSegmentItems (CanWait (names_of self.now) (length pending.old.update.items)) (items_of [] items.now) }
        requires apart { items_write (λ k. nat_lt k at.old.first) (items_of [] items.now) ≡ false }
        requires fits { Fits (names_of self.now) (list_of cells.old) (env_of at.old) }
        requires pending { ArePending (names_of self.now) (list_of cells.old) (slots_of pending.old) }
        ensures grows { Grows (list_of cells.old) (list_of cells.new) }
        ensures tries { IfOk result (λ r. (files : List File) → Tries (names_of self.now) (items_count (body_of self.now) (items_of [] items.now)) (scope_of self.now files) c subject (items_of [] items.now) off r
            (env_of at.old) (env_of at.new) (list_of cells.old) (list_of cells.new)) }
        ensures leaves { IfOk result (λ r. (files : List File) → LeavesItems (names_of self.now) (scope_of self.now files) c subject (items_of [] items.now) off r
            (env_of at.old) (env_of at.new) (slots_of pending.old) (slots_of pending.new) (list_of cells.old) (list_of cells.new)) }
        ensures sites { OnOk result (memories_of pending.new.sites.items ≡ memories_of pending.old.sites.items ++ items_stored (items_of [] items.now)) }
    {
        let mut rest = off;
        for item in items {
            rest = self.try_in(alloc, cells, at, pending, subject, c, rest, item)?;
        }
        Ok(rest)
    }

    /// Compiles a case.
    #[cycle(statement)]
    #[tactic(auto, using(crate::proofs::Walking::walking))]
    fn case_in(
        &self,
        alloc: Global,
        cells: &mut CellList,
        at: &mut At,
        pending: &mut Pending,
        off: u32,
        subject: &Expr,
        items: &[CaseItem],
    ) -> Result<(), AllocError>
        requires functions { Compilers (names_of self.now) self.now.depth (F.pre self.now.compile_body) (F.post self.now.compile_body) }
        requires subject { IsSoundExp (names_of self.now) (exp_of subject.now) }
        requires sound { AreSoundItems (names_of self.now) (items_of [] items.now) }
        requires segment { AreSegmentItems (CanWait (names_of self.now) (length pending.old.update.items)) (items_of [] items.now) }
        requires apart { items_write (λ k. nat_lt k at.old.first) (items_of [] items.now) ≡ false }
        requires fits { Fits (names_of self.now) (list_of cells.old) (env_of at.old) }
        requires pending { ArePending (names_of self.now) (list_of cells.old) (slots_of pending.old) }
        requires off { IsSlot (list_of cells.old) off 1 }
        ensures grows { Grows (list_of cells.old) (list_of cells.new) }
        ensures does { OnOk result ((files : List File) → Does (names_of self.now) (stm_count (body_of self.now) (y.Case (exp_of subject.now) (items_of [] items.now)))
            (x.exec (scope_of self.now files) (y.Case (exp_of subject.now) (items_of [] items.now))) off (env_of at.old) (env_of at.new) (list_of cells.old) (list_of cells.new)) }
        ensures leaves { OnOk result ((files : List File) → Leaves (names_of self.now) (x.exec (scope_of self.now files) (y.Case (exp_of subject.now) (items_of [] items.now))) off
            (env_of at.old) (slots_of pending.old) (slots_of pending.new) (list_of cells.old) (list_of cells.new)) }
        ensures sites { OnOk result (memories_of pending.new.sites.items ≡ memories_of pending.old.sites.items ++ stored_words (y.Case (exp_of subject.now) (items_of [] items.now))) }
    {
        let c = items_form(&self.room, form_of(&self.room, subject), items);
        let subject = self.compile_in(alloc, cells, &*at, subject, c)?;
        let rest = self.items_in(alloc, cells, at, pending, subject, c, off, items)?;
        match default_of(items) {
            None => Ok(()),
            Some(number) => self.statement_in(alloc, cells, at, pending, rest, &items[number].body),
        }
    }

    /// Compiles what an assignment is of, and the indices of its target: adds the spots, and answers the slot of the value.
    #[tactic(auto, using(crate::proofs::Walking::walking))]
    fn source_in(
        &self,
        alloc: Global,
        cells: &mut CellList,
        at: &At,
        target: &Target,
        source: &Expr,
        spots: &mut Vec<Spot>,
    ) -> Result<u32, AllocError>
        requires functions { Compilers (names_of self.now) self.now.depth (F.pre self.now.compile_body) (F.post self.now.compile_body) }
        requires target { IsSoundTarget (names_of self.now) (target_of target.now) }
        requires source { IsSoundExp (names_of self.now) (exp_of source.now) }
        requires apart { target_writes (λ k. nat_lt k at.now.first) (target_of target.now) ≡ false }
        requires fits { Fits (names_of self.now) (list_of cells.old) (env_of at.now) }
        requires none { spots.old.items ≡ [] }
        ensures grows { Grows (list_of cells.old) (list_of cells.new) }
        ensures assigned { IfOk result (λ r. (files : List File) → Assigned (scope_of self.now files) (exp_count (body_of self.now) (exp_of source.now) + indices_count (body_of self.now) (target_of target.now))
            (target_of target.now) (exp_of source.now) (env_of at.now) (list_of cells.old) (list_of cells.new) spots.new.items r) }
    {
        let width = target_width(&self.room, target);
        let context = assigned(width, form_of(&self.room, source));
        let value = self.compile_in(alloc, cells, at, source, context)?;
        self.spots_in(alloc, cells, at, target, spots)?;
        Ok(value)
    }

    /// Compiles a blocking assignment.
    #[tactic(auto, using(crate::proofs::Walking::walking))]
    fn set_in(
        &self,
        alloc: Global,
        cells: &mut CellList,
        at: &mut At,
        off: u32,
        target: &Target,
        source: &Expr,
    ) -> Result<(), AllocError>
        requires functions { Compilers (names_of self.now) self.now.depth (F.pre self.now.compile_body) (F.post self.now.compile_body) }
        requires target { IsSoundTarget (names_of self.now) (target_of target.now) }
        requires source { IsSoundExp (names_of self.now) (exp_of source.now) }
        requires plain { IsPlain (λ k. false) (target_of target.now) }
        requires apart { target_writes (λ k. nat_lt k at.old.first) (target_of target.now) ≡ false }
        requires fits { Fits (names_of self.now) (list_of cells.old) (env_of at.old) }
        requires off { IsSlot (list_of cells.old) off 1 }
        ensures grows { Grows (list_of cells.old) (list_of cells.new) }
        ensures does { OnOk result ((files : List File) → Does (names_of self.now) (stm_count (body_of self.now) (y.Set (target_of target.now) (exp_of source.now)))
            (x.exec (scope_of self.now files) (y.Set (target_of target.now) (exp_of source.now))) off (env_of at.old) (env_of at.new) (list_of cells.old) (list_of cells.new)) }
    {
        let mut spots = Vec::new(alloc);
        let value = self.source_in(alloc, cells, &*at, target, source, &mut spots)?;
        assign_all(alloc, cells, &self.room, at, &spots, value, off)
    }

    /// Compiles a nonblocking assignment.
    #[tactic(auto, using(crate::proofs::Walking::walking))]
    fn later_in(
        &self,
        alloc: Global,
        cells: &mut CellList,
        at: &At,
        pending: &mut Pending,
        off: u32,
        target: &Target,
        source: &Expr,
    ) -> Result<(), AllocError>
        requires functions { Compilers (names_of self.now) self.now.depth (F.pre self.now.compile_body) (F.post self.now.compile_body) }
        requires target { IsSoundTarget (names_of self.now) (target_of target.now) }
        requires source { IsSoundExp (names_of self.now) (exp_of source.now) }
        requires apart { target_writes (λ k. nat_lt k at.now.first) (target_of target.now) ≡ false }
        requires fits { Fits (names_of self.now) (list_of cells.old) (env_of at.now) }
        requires pending { ArePending (names_of self.now) (list_of cells.old) (slots_of pending.old) }
        requires many { length pending.old.update.items ≡ length (names_of self.now).rows }
        requires off { IsSlot (list_of cells.old) off 1 }
        ensures grows { Grows (list_of cells.old) (list_of cells.new) }
        ensures does { OnOk result ((files : List File) → Does (names_of self.now) (stm_count (body_of self.now) (y.Later (target_of target.now) (exp_of source.now)))
            (x.exec (scope_of self.now files) (y.Later (target_of target.now) (exp_of source.now))) off (env_of at.now) (env_of at.now) (list_of cells.old) (list_of cells.new)) }
        ensures leaves { OnOk result ((files : List File) → Leaves (names_of self.now) (x.exec (scope_of self.now files) (y.Later (target_of target.now) (exp_of source.now))) off
            (env_of at.now) (slots_of pending.old) (slots_of pending.new) (list_of cells.old) (list_of cells.new)) }
        ensures sites { OnOk result (memories_of pending.new.sites.items ≡ memories_of pending.old.sites.items ++ target_stored (target_of target.now)) }
    {
        let mut spots = Vec::new(alloc);
        let value = self.source_in(alloc, cells, at, target, source, &mut spots)?;
        delay_all(alloc, cells, &self.room, at, pending, &spots, value, off)
    }

    /// Compiles an assignment: a nonblocking one is pending behind those that were.
    #[tactic(auto, using(crate::proofs::Walking::walking))]
    pub fn assignment_in(
        &self,
        alloc: Global,
        cells: &mut CellList,
        at: &mut At,
        pending: &mut Pending,
        off: u32,
        later: bool,
        target: &Target,
        source: &Expr,
    ) -> Result<(), AllocError>
        requires functions { Compilers (names_of self.now) self.now.depth (F.pre self.now.compile_body) (F.post self.now.compile_body) }
        requires target { IsSoundTarget (names_of self.now) (target_of target.now) }
        requires source { IsSoundExp (names_of self.now) (exp_of source.now) }
        requires plain { IsSegment IsAny (assignment later (target_of target.now) (exp_of source.now)) }
        requires apart { target_writes (λ k. nat_lt k at.old.first) (target_of target.now) ≡ false }
        requires fits { Fits (names_of self.now) (list_of cells.old) (env_of at.old) }
        requires pending { ArePending (names_of self.now) (list_of cells.old) (slots_of pending.old) }
        requires many { length pending.old.update.items ≡ length (names_of self.now).rows }
        requires off { IsSlot (list_of cells.old) off 1 }
        ensures grows { Grows (list_of cells.old) (list_of cells.new) }
        ensures does { OnOk result ((files : List File) → Does (names_of self.now) (stm_count (body_of self.now) (assignment later (target_of target.now) (exp_of source.now)))
            (x.exec (scope_of self.now files) (assignment later (target_of target.now) (exp_of source.now))) off (env_of at.old) (env_of at.new) (list_of cells.old) (list_of cells.new)) }
        ensures leaves { OnOk result ((files : List File) → Leaves (names_of self.now) (x.exec (scope_of self.now files) (assignment later (target_of target.now) (exp_of source.now))) off
            (env_of at.old) (slots_of pending.old) (slots_of pending.new) (list_of cells.old) (list_of cells.new)) }
        ensures sites { OnOk result (memories_of pending.new.sites.items ≡ memories_of pending.old.sites.items ++ stored_words (assignment later (target_of target.now) (exp_of source.now))) }
    {
        if later {
            self.later_in(alloc, cells, &*at, pending, off, target, source)
        } else {
            self.set_in(alloc, cells, at, off, target, source)
        }
    }

    /// Compiles statements one after another.
    #[cycle(statement)]
    #[tactic(auto, using(crate::proofs::Walking::walking))]
    fn list_in(
        &self,
        alloc: Global,
        cells: &mut CellList,
        at: &mut At,
        pending: &mut Pending,
        off: u32,
        list: &[Stmt],
    ) -> Result<(), AllocError>
        requires functions { Compilers (names_of self.now) self.now.depth (F.pre self.now.compile_body) (F.post self.now.compile_body) }
        requires sound { IsSoundStm (names_of self.now) (then_of [] list.now) }
        requires segment { IsSegment (CanWait (names_of self.now) (length pending.old.update.items)) (then_of [] list.now) }
        requires apart { stm_writes (λ k. nat_lt k at.old.first) (then_of [] list.now) ≡ false }
        requires fits { Fits (names_of self.now) (list_of cells.old) (env_of at.old) }
        requires pending { ArePending (names_of self.now) (list_of cells.old) (slots_of pending.old) }
        requires off { IsSlot (list_of cells.old) off 1 }
        ensures grows { Grows (list_of cells.old) (list_of cells.new) }
        ensures does { OnOk result ((files : List File) → Does (names_of self.now) (stm_count (body_of self.now) (then_of [] list.now))
            (x.exec (scope_of self.now files) (then_of [] list.now)) off (env_of at.old) (env_of at.new) (list_of cells.old) (list_of cells.new)) }
        ensures leaves { OnOk result ((files : List File) → Leaves (names_of self.now) (x.exec (scope_of self.now files) (then_of [] list.now)) off
            (env_of at.old) (slots_of pending.old) (slots_of pending.new) (list_of cells.old) (list_of cells.new)) }
        ensures sites { OnOk result (memories_of pending.new.sites.items ≡ memories_of pending.old.sites.items ++ stored_words (then_of [] list.now)) }
    {
        for item in list {
            self.statement_in(alloc, cells, at, pending, off, item)?;
        }
        Ok(())
    }

    /// Compiles a test.
    #[cycle(statement)]
    #[tactic(auto, using(crate::proofs::Walking::walking))]
    fn if_in(
        &self,
        alloc: Global,
        cells: &mut CellList,
        at: &mut At,
        pending: &mut Pending,
        off: u32,
        test: &Expr,
        first: &Stmt,
        second: &Stmt,
    ) -> Result<(), AllocError>
        requires functions { Compilers (names_of self.now) self.now.depth (F.pre self.now.compile_body) (F.post self.now.compile_body) }
        requires sound { IsSoundStm (names_of self.now) (y.If (exp_of test.now) (stm_of [] first.now) (stm_of [] second.now)) }
        requires segment { IsSegment (CanWait (names_of self.now) (length pending.old.update.items)) (y.If (exp_of test.now) (stm_of [] first.now) (stm_of [] second.now)) }
        requires apart { stm_writes (λ k. nat_lt k at.old.first) (y.If (exp_of test.now) (stm_of [] first.now) (stm_of [] second.now)) ≡ false }
        requires fits { Fits (names_of self.now) (list_of cells.old) (env_of at.old) }
        requires pending { ArePending (names_of self.now) (list_of cells.old) (slots_of pending.old) }
        requires off { IsSlot (list_of cells.old) off 1 }
        ensures grows { Grows (list_of cells.old) (list_of cells.new) }
        ensures does { OnOk result ((files : List File) → Does (names_of self.now) (stm_count (body_of self.now) (y.If (exp_of test.now) (stm_of [] first.now) (stm_of [] second.now)))
            (x.exec (scope_of self.now files) (y.If (exp_of test.now) (stm_of [] first.now) (stm_of [] second.now))) off (env_of at.old) (env_of at.new) (list_of cells.old) (list_of cells.new)) }
        ensures leaves { OnOk result ((files : List File) → Leaves (names_of self.now) (x.exec (scope_of self.now files) (y.If (exp_of test.now) (stm_of [] first.now) (stm_of [] second.now))) off
            (env_of at.old) (slots_of pending.old) (slots_of pending.new) (list_of cells.old) (list_of cells.new)) }
        ensures sites { OnOk result (memories_of pending.new.sites.items ≡ memories_of pending.old.sites.items ++ stored_words (y.If (exp_of test.now) (stm_of [] first.now) (stm_of [] second.now))) }
    {
        let test = self.own_in(alloc, cells, &*at, test)?;
        let (yes, no) = branches(alloc, cells, &*at, test, off)?;
        self.statement_in(alloc, cells, at, pending, yes, first)?;
        self.statement_in(alloc, cells, at, pending, no, second)
    }

    /// Compiles a statement.
    #[cycle(statement)]
    #[tactic(auto, using(crate::proofs::Walking::walking))]
    pub fn statement_in(
        &self,
        alloc: Global,
        cells: &mut CellList,
        at: &mut At,
        pending: &mut Pending,
        off: u32,
        a: &Stmt,
    ) -> Result<(), AllocError>
        requires functions { Compilers (names_of self.now) self.now.depth (F.pre self.now.compile_body) (F.post self.now.compile_body) }
        requires sound { IsSoundStm (names_of self.now) (stm_of [] a.now) }
        requires segment { IsSegment (CanWait (names_of self.now) (length pending.old.update.items)) (stm_of [] a.now) }
        requires apart { stm_writes (λ k. nat_lt k at.old.first) (stm_of [] a.now) ≡ false }
        requires fits { Fits (names_of self.now) (list_of cells.old) (env_of at.old) }
        requires pending { ArePending (names_of self.now) (list_of cells.old) (slots_of pending.old) }
        requires off { IsSlot (list_of cells.old) off 1 }
        ensures grows { Grows (list_of cells.old) (list_of cells.new) }
        ensures does { OnOk result ((files : List File) → Does (names_of self.now) (stm_count (body_of self.now) (stm_of [] a.now))
            (x.exec (scope_of self.now files) (stm_of [] a.now)) off (env_of at.old) (env_of at.new) (list_of cells.old) (list_of cells.new)) }
        ensures leaves { OnOk result ((files : List File) → Leaves (names_of self.now) (x.exec (scope_of self.now files) (stm_of [] a.now)) off
            (env_of at.old) (slots_of pending.old) (slots_of pending.new) (list_of cells.old) (list_of cells.new)) }
        ensures sites { OnOk result (memories_of pending.new.sites.items ≡ memories_of pending.old.sites.items ++ stored_words (stm_of [] a.now)) }
    {
        match &a.node {
            StmtNode::Nop => Ok(()),
            StmtNode::Seq(list) => self.list_in(alloc, cells, at, pending, off, list),
            StmtNode::If(test, first, second) => {
                self.if_in(alloc, cells, at, pending, off, test, first, second)
            }
            StmtNode::Case(subject, items, _) => self.case_in(
                alloc, cells, at, pending, off, subject, items,
            ),
            StmtNode::Set(target, source) => self.set_in(alloc, cells, at, off, target, source),
            StmtNode::Later(target, source) => {
                self.later_in(alloc, cells, &*at, pending, off, target, source)
            }
            _ => unreachable!(),
        }
    }
}
