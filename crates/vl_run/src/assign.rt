//! Assignments (IEEE 1364-2005, clause 9.2).

ghost use Rattle.std.specs.Prelude.{◌≡◌, ◌++◌, All, map, OnOk};
ghost use Rattle.vl_design.specs.Laws.{IsFine};
ghost use Rattle.vl_design.specs.Sound.{IsNamed, IsSoundExp, IsSoundTarget};
ghost use Rattle.vl_design.specs.Syntax as y;
ghost use Rattle.vl_design.specs.Targets as targets;
ghost use Rattle.vl_design.specs.Trees.{exp_of, target_of};
ghost use Rattle.vl_eval.specs.Rooms.{names_of, sample_of};
ghost use Rattle.vl_eval.specs.Updates.{update_of};
ghost use Rattle.vl_run.specs.Machines.{IsMachine, Does};
ghost use Rattle.vl_run.specs.Scopes.{scope_of, Calls};

use crate::machine::Machine;
use crate::scope::Scope;
use std::alloc::AllocError;
use vl_design::design::{Expr, Target};
use vl_eval::form::form_of;
use vl_eval::form_form::assigned;
use vl_eval::room::Sample;
use vl_eval::spot::{push_updates, spots_width};
use vl_eval::update::{Update, write_all};

impl<F: Fn(u32, Vec<u128>) -> Result<u128, AllocError>> Scope<'_, F> {
    /// Adds the updates of an assignment.
    #[tactic(auto, using(crate::proofs::Assigning::assigning))]
    fn push_assignment(
        &self,
        s: &Sample<'_>,
        target: &Target,
        source: &Expr,
        updates: &mut Vec<Update>,
    ) -> Result<(), AllocError>
        requires target { IsSoundTarget (names_of self.now.room) (target_of target.now) }
        requires source { IsSoundExp (names_of self.now.room) (exp_of source.now) }
        requires fine { IsFine (names_of self.now.room).rows (sample_of s.now).values }
        requires calls { Calls (scope_of self.now) (F.pre self.now.call) (F.post self.now.call) }
        ensures updates { OnOk result (map update_of updates.new.items
            ≡ map update_of updates.old.items ++ targets.assignment (scope_of self.now) (sample_of s.now) (target_of target.now) (exp_of source.now)) }
        ensures named { All (λ u. IsNamed (names_of self.now.room) u.signal) updates.old.items
            → OnOk result (All (λ u. IsNamed (names_of self.now.room) u.signal) updates.new.items) }
    {
        let mut spots = Vec::new(self.alloc);
        self.push_spots(s, target, &mut spots)?;
        let width = spots_width(&spots);
        let context = assigned(width, form_of(&self.room, source));
        let bits = self.value(s, source, context)?;
        push_updates(&spots, width, bits.value, updates)
    }

    /// Does a blocking assignment.
    #[tactic(auto, using(crate::proofs::Assigning::over))]
    pub fn assign(&self, target: &Target, source: &Expr, m: &mut Machine) -> Result<(), AllocError>
        requires target { IsSoundTarget (names_of self.now.room) (target_of target.now) }
        requires source { IsSoundExp (names_of self.now.room) (exp_of source.now) }
        requires machine { IsMachine (names_of self.now.room) m.old }
        requires calls { Calls (scope_of self.now) (F.pre self.now.call) (F.post self.now.call) }
        ensures does { OnOk result (Does (scope_of self.now) (y.Set (target_of target.now) (exp_of source.now)) m.old m.new) }
        ensures machine { OnOk result (IsMachine (names_of self.now.room) m.new) }
    {
        if m.finished {
            return Ok(());
        }
        let mut updates = Vec::new(self.alloc);
        self.push_assignment(&m.sample(), target, source, &mut updates)?;
        write_all(&self.room, &mut m.values, &updates);
        Ok(())
    }

    /// Does a nonblocking assignment.
    #[tactic(auto, using(crate::proofs::Assigning::over))]
    pub fn assign_later(
        &self,
        target: &Target,
        source: &Expr,
        m: &mut Machine,
    ) -> Result<(), AllocError>
        requires target { IsSoundTarget (names_of self.now.room) (target_of target.now) }
        requires source { IsSoundExp (names_of self.now.room) (exp_of source.now) }
        requires machine { IsMachine (names_of self.now.room) m.old }
        requires calls { Calls (scope_of self.now) (F.pre self.now.call) (F.post self.now.call) }
        ensures does { OnOk result (Does (scope_of self.now) (y.Later (target_of target.now) (exp_of source.now)) m.old m.new) }
        ensures machine { OnOk result (IsMachine (names_of self.now.room) m.new) }
    {
        if m.finished {
            return Ok(());
        }
        let s = Sample {
            values: &m.values,
            time: m.ticks,
            answer: m.answer,
        };
        self.push_assignment(&s, target, source, &mut m.later)
    }
}
