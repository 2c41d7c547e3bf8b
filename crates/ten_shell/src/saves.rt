//! The snapshots that are due at a boundary.

ghost use Rattle.std.specs.Prelude.{◌≡◌, ℕ, ◌+◌, ◌<◌, ◌≤◌, ◌^◌, true, List, ◌∷◌, [], length, IfOk, OnOk, OnErr, IfNone, IfSome};
ghost use Rattle.ten_core.specs.cell_form.specs.Data.{BankData};
ghost use Rattle.ten_core.specs.cell_form.specs.Views.{bank_of};
ghost use Rattle.ten_core.specs.sub_nodes.specs.Cycles.{Stage};
ghost use Rattle.vl_design.specs.Snapshots.{snapshot_of};
ghost use Rattle.ten_plan.specs.Held.{snapshot_of as snapshot_in};
ghost use Rattle.ten_plan.specs.Plans.{AreDone};
ghost use Rattle.ten_shell.specs.Shells.{flat_in, is_at_boundary, is_left, errands_left, left_in, run_of, IsSameTenant, IsUnchanged, StandsFor};

use crate::shell::Shell;
use std::alloc::{AllocError, Global};
use ten_core::Bank;
use ten_core::hold::hold;
use ten_core::hold_laws::a_stage_is_captured;
use ten_core::run_laws::a_run_at_rest_is_at_a_boundary;
use ten_files::name::copy_text;
use ten_plan::held::{Held, Saved};
use ten_plan::saved::keep;
use vl_design::Text;

impl Shell {
    /// The name of the snapshot that is to be made next at this boundary. None where none is left.
    pub(crate) fn next_save(&self) -> Option<&Text>
        requires { (b : BankData) × (c : ℕ) × (i : Stage) × StandsFor self.now b c i × (is_at_boundary (flat_in self.now) i ≡ true) }
        ensures none { IfNone result (left_in self.now ≡ []) }
        ensures some { IfSome result (λ name. (others : List (List ℕ)) × (left_in self.now ≡ name.now ∷ others)) }
        ensures given { IfSome result (λ name. self.now.given < length self.now.engine.asked.items → left_in self.now ≡ name.now ∷ left_in (record self.now { given = self.now.given + 1 })) }
        ensures done { IfSome result (λ name. length self.now.engine.asked.items ≤ self.now.given → left_in self.now ≡ name.now ∷ left_in (record self.now { done = self.now.done + 1 })) }
        ensures can_be_done { IfSome result (λ name. length self.now.engine.asked.items ≤ self.now.given → AreDone (run_of self.now).plan.errands self.now.engine.ticks (self.now.done + 1)) }
        ensures few { IfSome result (λ name. length self.now.engine.asked.items ≤ self.now.given → self.now.done + 1 < 2 ^ 64) }
    {
        match self.engine.asked.as_slice().get(self.given) {
            Some(name) => Some(name),
            None => self.next_errand(),
        }
    }

    /// The name of the next snapshot that is due by an errand. None where none is left.
    fn next_errand(&self) -> Option<&Text>
        requires { (b : BankData) × (c : ℕ) × (i : Stage) × StandsFor self.now b c i × (is_at_boundary (flat_in self.now) i ≡ true) }
        ensures none { IfNone result (errands_left self.now ≡ []) }
        ensures some { IfSome result (λ name. errands_left self.now ≡ name.now ∷ errands_left (record self.now { done = self.now.done + 1 })) }
        ensures done { IfSome result (λ name. AreDone (run_of self.now).plan.errands self.now.engine.ticks (self.now.done + 1)) }
        ensures few { IfSome result (λ name. self.now.done + 1 < 2 ^ 64) }
    {
        let plan = &self.engine.origin.plan;
        if self.done >= plan.errands.as_slice().len() {
            return None;
        }
        plan.next_save(self.done, self.engine.ticks)
    }

    /// What the run has now.
    pub(crate) fn held(&self, alloc: Global, bank: &Bank) -> Result<Held, AllocError>
        requires { (c : ℕ) × (i : Stage) × StandsFor self.now (bank_of bank.now) c i }
        ensures { IfOk result (λ h. (c : ℕ) (i : Stage) → StandsFor self.now (bank_of bank.now) c i →
            snapshot_in (flat_in self.now).rows h ≡ snapshot_of (flat_in self.now).rows i.state) }
    {
        a_run_at_rest_is_at_a_boundary();
        a_stage_is_captured();
        let origin = &self.engine.origin;
        hold(
            alloc,
            &origin.image.ports,
            bank,
            &origin.files,
            &self.engine.open,
            self.engine.ticks,
        )
    }

    /// Makes the snapshot that is to be made next. Want of memory leaves all as it was.
    pub(crate) fn make_save(&mut self, alloc: Global, bank: &Bank) -> Result<(), AllocError>
        requires { (c : ℕ) × (i : Stage) × StandsFor self.old (bank_of bank.now) c i × (is_at_boundary (flat_in self.old) i ≡ true) × (is_left (left_in self.old) ≡ true) }
        ensures stands { (c : ℕ) (i : Stage) → StandsFor self.old (bank_of bank.now) c i → StandsFor self.new (bank_of bank.now) c i }
        ensures made { OnOk result ((name : List ℕ) × (left_in self.old ≡ name ∷ left_in self.new)) }
        ensures same { IsSameTenant self.old self.new }
        ensures engine { self.new.engine ≡ self.old.engine }
        ensures moved { self.new.moved ≡ self.old.moved }
        ensures err { OnErr result (IsUnchanged self.old self.new (bank_of bank.now) (bank_of bank.now)) }
    {
        let name = match self.next_save() {
            None => unreachable!(),
            Some(name) => copy_text(alloc, name)?,
        };
        let held = self.held(alloc, bank)?;
        keep(&mut self.saved, Saved { name, held })?;
        if self.given < self.engine.asked.len() {
            self.given += 1;
        } else {
            self.done += 1;
        }
        Ok(())
    }

    /// Makes all snapshots that are to be made at this boundary. After an `Err`, which is want of memory, some may be made.
    pub fn make_saves(&mut self, alloc: Global, bank: &Bank) -> Result<(), AllocError>
        requires { (c : ℕ) × (i : Stage) × StandsFor self.old (bank_of bank.now) c i }
        ensures stands { (c : ℕ) (i : Stage) → StandsFor self.old (bank_of bank.now) c i → StandsFor self.new (bank_of bank.now) c i }
        ensures none { OnOk result ((c : ℕ) (i : Stage) → StandsFor self.new (bank_of bank.now) c i → is_at_boundary (flat_in self.new) i ≡ true → left_in self.new ≡ []) }
        ensures same { IsSameTenant self.old self.new }
        ensures engine { self.new.engine ≡ self.old.engine }
        ensures moved { self.new.moved ≡ self.old.moved }
    {
        'saves: while self.save_due() {
            self.make_save(alloc, bank)?;
        }
        Ok(())
    }
}
