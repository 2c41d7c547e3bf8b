//! The order of the errands of a plan, and how far they are done.

ghost use Rattle.std.specs.Prelude.{◌≡◌, ◌↔◌, ◌+◌, [], ◌∷◌, map, drop, IsTrue, IfNone, IfSome};
ghost use Rattle.vl_design.specs.Alone.{save_names, stop_at};
ghost use Rattle.ten_plan.specs.Plans as s;
ghost use Rattle.ten_plan.specs.Plans.{errand_of, move_at, plan_of, AreBefore, AreDone, AreOrdered, IsPlan};

use crate::plan::{Due, Errand, Plan};
use vl_design::Text;

/// Whether an errand may come before another: at an earlier tick, or, a save, at the same one.
fn may_precede(first: &Errand, second: &Errand) -> bool
    ensures { result ≡ s.may_precede (errand_of first.now) (errand_of second.now) }
{
    first.tick < second.tick || (first.tick == second.tick && matches!(first.due, Due::Save(_)))
}

/// Whether each errand may come before each one behind it. It is enough to compare neighbours.
fn are_ordered(errands: &[Errand]) -> bool
    ensures { IsTrue result ↔ AreOrdered (map errand_of errands.now) }
{
    for number in 1..errands.len() {
        if !may_precede(&errands[number - 1], &errands[number]) {
            return false;
        }
    }
    true
}

impl Plan {
    /// Whether it is a plan: its ticks can be counted, and its errands stand in order.
    pub fn is_in_order(&self) -> bool
        ensures { IsTrue result ↔ IsPlan (plan_of self.now) }
    {
        self.budget <= 1_000_000_000 && are_ordered(self.errands.as_slice())
    }

    /// How many errands are of ticks before this one.
    pub fn before(&self, tick: u64) -> usize
        requires { AreOrdered (plan_of self.now).errands }
        ensures { AreBefore (plan_of self.now).errands tick result }
    {
        let mut number = 0;
        for errand in self.errands.as_slice() {
            if errand.tick >= tick {
                return number;
            }
            number += 1;
        }
        number
    }

    /// The name of the next snapshot that is due at a tick, at which so many errands are done. None where no more is.
    pub fn next_save(&self, done: usize, tick: u64) -> Option<&Text>
        requires ordered { AreOrdered (plan_of self.now).errands }
        requires done { AreDone (plan_of self.now).errands tick done }
        ensures none { IfNone result (save_names tick (drop done (plan_of self.now).errands) ≡ []) }
        ensures some { IfSome result (λ name. save_names tick (drop done (plan_of self.now).errands) ≡ name.now ∷ save_names tick (drop (done + 1) (plan_of self.now).errands)) }
        ensures done { IfSome result (λ name. AreDone (plan_of self.now).errands tick (done + 1)) }
    {
        let errand = self.errands.as_slice().get(done)?;
        if errand.tick != tick {
            return None;
        }
        match &errand.due {
            Due::Save(name) => Some(name),
            _ => None,
        }
    }

    /// Whether a stop stands at a tick, at which all snapshots that were due are made, and so many errands are done.
    pub fn stops(&self, done: usize, tick: u64) -> bool
        requires ordered { AreOrdered (plan_of self.now).errands }
        requires done { AreDone (plan_of self.now).errands tick done }
        requires saved { save_names tick (drop done (plan_of self.now).errands) ≡ [] }
        ensures { result ≡ stop_at tick (plan_of self.now).errands }
    {
        match self.errands.as_slice().get(done) {
            None => false,
            Some(errand) => errand.tick == tick && matches!(errand.due, Due::Stop),
        }
    }

    /// The fabric to which a move goes that stands at a tick, at which all snapshots that were due are made, and so many errands are done.
    pub fn moves(&self, done: usize, tick: u64) -> Option<u32>
        requires ordered { AreOrdered (plan_of self.now).errands }
        requires done { AreDone (plan_of self.now).errands tick done }
        requires saved { save_names tick (drop done (plan_of self.now).errands) ≡ [] }
        ensures { result ≡ move_at tick (plan_of self.now).errands }
    {
        let errand = self.errands.as_slice().get(done)?;
        match &errand.due {
            Due::Move(fabric) => {
                if errand.tick == tick {
                    Some(*fabric)
                } else {
                    None
                }
            }
            _ => None,
        }
    }

    /// How many errands are of this tick, at which all snapshots that were due are made, and of those before.
    pub fn past(&self, done: usize, tick: u64) -> usize
        requires ordered { AreOrdered (plan_of self.now).errands }
        requires done { AreDone (plan_of self.now).errands tick done }
        requires saved { save_names tick (drop done (plan_of self.now).errands) ≡ [] }
        ensures { AreBefore (plan_of self.now).errands (tick + 1) result }
    {
        match self.errands.as_slice().get(done) {
            None => done,
            Some(errand) => { if errand.tick == tick { done + 1 } else { done } }
        }
    }
}
