//! Turns.

ghost use Rattle.std.specs.Prelude.{◌≡◌, ◌≤◌, ◌<◌, ◌+◌, ◌⊎◌, All, List, None, IfOk, OnOk, OnErr, false, true};
ghost use Rattle.std.specs.Bool.{Decides};
ghost use Rattle.fab_core.specs.fab_model.specs.Fabrics.{first_waiting, Fabric};
ghost use Rattle.fab_core.specs.fab_model.specs.Worlds.{is_at_rest};
ghost use Rattle.fab_core.specs.fab_model.specs.declared.transit.Transit.{Transit as Out};
ghost use Rattle.fab_bay.specs.Acts.{moves_to_come, rests_to_come};
ghost use Rattle.fab_bay.specs.Standing.{IsBay, IsNoted};
ghost use Rattle.fab_bay.specs.Rounds.{is_wanted, HasHeld, HasStepper, IsAtRest, IsDue, IsReady, IsSettled, IsVacant, Rounds};
ghost use Rattle.fab_bay.specs.Ways.{transits, Goes, IsEmpty, LeftFor, Turned};

use crate::leaving::{Leaving, Turn};
use crate::noted::NotedCore;
use std::alloc::{AllocError, Global};

impl NotedCore {
    /// Neither a resident nor a tenant in line is there.
    fn is_vacant(&self) -> bool
        ensures { Decides result (IsVacant self.now) }
    {
        self.berths.is_empty() && self.waiting.is_empty()
    }

    /// All residents rest, and the fabric holds.
    pub(crate) fn is_at_rest(&self) -> bool
        requires { (f : Fabric) × IsNoted self.now f }
        ensures { (f : Fabric) → IsNoted self.now f → is_at_rest f ≡ result }
    {
        if !self.core.holding {
            return false;
        }
        self.core.still()
    }

    /// A resident is due to leave, or the head of the line fits.
    fn is_wanted(&self) -> bool
        requires { (f : Fabric) × IsNoted self.now f }
        ensures { (f : Fabric) → IsNoted self.now f → is_wanted f ≡ result }
    {
        if self.core.next_leaving().is_some() {
            return true;
        }
        self.core.head_fits()
    }

    /// Residents that wait are served, until none waits any longer.
    fn serve_all(&mut self, alloc: Global, number: u32) -> Result<(), AllocError>
        requires ready { IsReady self.old }
        ensures ready { IsReady self.new }
        ensures goes { (out : List Out) → Goes number 0 self.old self.new out out }
        ensures quiet { OnOk result ((f : Fabric) → IsNoted self.new f → first_waiting f.residents ≡ None) }
        ensures rests { rests_to_come self.new ≡ rests_to_come self.old }
    {
        'calls: loop {
            match self.serve_to_call(alloc, number) {
                Ok(true) => {}
                Ok(false) => return Ok(()),
                Err(_) => return Err(AllocError),
            }
        }
    }

    /// It holds where a resident is due to leave, or where the head of the line fits.
    fn hold_where_due(&mut self, number: u32)
        requires ready { IsReady self.old }
        ensures ready { IsReady self.new }
        ensures goes { (out : List Out) → Goes number 0 self.old self.new out out }
        ensures settled { IsSettled self.new }
        ensures held { (f : Fabric) → IsNoted self.old f → HasHeld self.old self.new f }
    {
        if self.core.holding {
            return;
        }
        if !self.is_wanted() {
            return;
        }
        self.hold();
    }

    /// A resident that is due to leave comes out, behind those before.
    fn leave_one(
        &mut self,
        number: u32,
        tenant: u32,
        leaving: &mut Vec<Leaving>,
    ) -> Result<(), AllocError>
        requires ready { IsReady self.old }
        requires rest { IsAtRest self.old }
        requires due { IsDue tenant self.old }
        requires whys { All LeftFor leaving.old.items }
        ensures ready { IsReady self.new }
        ensures goes { Goes number 0 self.old self.new (transits leaving.old.items) (transits leaving.new.items) }
        ensures moves { OnOk result (moves_to_come self.new < moves_to_come self.old) }
        ensures whys { All LeftFor leaving.new.items }
    {
        if leaving.reserve(1).is_err() {
            return Err(AllocError);
        }
        match self.leave(number, tenant) {
            Ok(one) => {
                leaving.push_reserved(one);
                Ok(())
            }
            Err(_) => Err(AllocError),
        }
    }

    /// At rest, the first resident that is due to leave comes out; where none is, the joined bank is made anew, with those at the head of the
    /// line as far as they fit. So the fabric comes to rest less often before a cycle: if somebody was wanted, by two.
    fn exchange(
        &mut self,
        alloc: Global,
        number: u32,
        leaving: &mut Vec<Leaving>,
    ) -> Result<(), AllocError>
        requires ready { IsReady self.old }
        requires rest { IsAtRest self.old }
        requires whys { All LeftFor leaving.old.items }
        ensures ready { IsReady self.new }
        ensures goes { Goes number 0 self.old self.new (transits leaving.old.items) (transits leaving.new.items) }
        ensures rests { OnOk result (rests_to_come self.new < rests_to_come self.old) }
        ensures wanted { OnOk result ((f : Fabric) → IsNoted self.old f → is_wanted f ≡ true → rests_to_come self.new + 1 < rests_to_come self.old) }
        ensures whys { All LeftFor leaving.new.items }
    {
        match self.core.next_leaving() {
            Some(tenant) => self.leave_one(number, tenant, leaving),
            None => self.rebuild(alloc, number),
        }
    }

    /// The next step on the way to a cycle: it serves, and holds where somebody is to come or to leave; at rest those come or leave. True
    /// where it didn't come to rest: then some resident may do a cycle, or nobody is left.
    fn step_to_cycle(
        &mut self,
        alloc: Global,
        number: u32,
        leaving: &mut Vec<Leaving>,
    ) -> Result<bool, AllocError>
        requires ready { IsReady self.old }
        requires whys { All LeftFor leaving.old.items }
        ensures ready { IsReady self.new }
        ensures goes { Goes number 0 self.old self.new (transits leaving.old.items) (transits leaving.new.items) }
        ensures settled { IfOk result (λ done. done ≡ true → IsSettled self.new) }
        ensures steps { IfOk result (λ done. done ≡ true → IsVacant self.new ⊎ HasStepper self.new) }
        ensures rests { IfOk result (λ done. done ≡ false → rests_to_come self.new < rests_to_come self.old) }
        ensures whys { All LeftFor leaving.new.items }
    {
        if self.serve_all(alloc, number).is_err() {
            return Err(AllocError);
        }
        self.hold_where_due(number);
        if !self.is_at_rest() {
            return Ok(true);
        }
        match self.exchange(alloc, number, leaving) {
            Ok(()) => Ok(false),
            Err(_) => Err(AllocError),
        }
    }

    /// What comes before a cycle, until some resident may do one or nobody is left.
    fn before_cycle(
        &mut self,
        alloc: Global,
        number: u32,
        leaving: &mut Vec<Leaving>,
    ) -> Result<(), AllocError>
        requires ready { IsReady self.old }
        requires whys { All LeftFor leaving.old.items }
        ensures ready { IsReady self.new }
        ensures goes { Goes number 0 self.old self.new (transits leaving.old.items) (transits leaving.new.items) }
        ensures settled { OnOk result (IsSettled self.new) }
        ensures steps { OnOk result (IsVacant self.new ⊎ HasStepper self.new) }
        ensures whys { All LeftFor leaving.new.items }
    {
        'rests: loop {
            match self.step_to_cycle(alloc, number, leaving) {
                Ok(true) => return Ok(()),
                Ok(false) => {}
                Err(_) => return Err(AllocError),
            }
        }
    }

    /// What comes before a cycle, and then the cycle. False where nobody is left, and no cycle was done.
    fn round(
        &mut self,
        alloc: Global,
        number: u32,
        leaving: &mut Vec<Leaving>,
    ) -> Result<bool, AllocError>
        requires ready { IsReady self.old }
        requires whys { All LeftFor leaving.old.items }
        ensures ready { IsReady self.new }
        ensures cycle { IfOk result (λ went. went ≡ true → Goes number 1 self.old self.new (transits leaving.old.items) (transits leaving.new.items)) }
        ensures none { IfOk result (λ went. went ≡ false → Goes number 0 self.old self.new (transits leaving.old.items) (transits leaving.new.items)) }
        ensures vacant { IfOk result (λ went. went ≡ false → IsEmpty self.new.notes.items) }
        ensures err { OnErr result (Goes number 0 self.old self.new (transits leaving.old.items) (transits leaving.new.items)) }
        ensures whys { All LeftFor leaving.new.items }
    {
        if self.before_cycle(alloc, number, leaving).is_err() {
            return Err(AllocError);
        }
        if self.is_vacant() {
            return Ok(false);
        }
        self.cycle();
        Ok(true)
    }

    /// At most so many cycles, and what comes between them. True where memory ended it.
    fn rounds(&mut self, alloc: Global, number: u32, most: u64, leaving: &mut Vec<Leaving>) -> bool
        requires ready { IsReady self.old }
        requires whys { All LeftFor leaving.old.items }
        ensures ready { IsReady self.new }
        ensures rounds { Rounds number most self.old self.new (transits leaving.old.items) (transits leaving.new.items) result }
        ensures whys { All LeftFor leaving.new.items }
    {
        for done in 0..most {
            match self.round(alloc, number, leaving) {
                Ok(true) => {}
                Ok(false) => return false,
                Err(_) => return true,
            }
        }
        false
    }

    /// At most so many cycles, in each of which some resident steps, and what comes between them: it serves, holds, takes out who is due to
    /// leave, and makes the joined bank anew; then it writes how far the residents have run. Unless memory ends it, it does just so many
    /// cycles or leaves nobody. An `Err` is want of memory before anything was done.
    pub(crate) fn turn(&mut self, alloc: Global, number: u32, most: u64) -> Result<Turn, AllocError>
        requires bay { IsBay self.old }
        requires some { 1 ≤ most }
        ensures turned { IfOk result (λ t. Turned number most self.old self.new t) }
        ensures idle { IfOk result (λ t. Decides t.idle (IsEmpty self.old.notes.items)) }
        ensures bay { IsBay self.new }
        ensures label { self.new.label ≡ self.old.label }
        ensures err { OnErr result (self.new.notes.items ≡ self.old.notes.items) }
    {
        let idle = self.is_vacant();
        self.told = Vec::new(alloc);
        if self.prepare(0).is_err() {
            return Err(AllocError);
        }
        let mut leaving = Vec::new(alloc);
        let short = self.rounds(alloc, number, most, &mut leaving);
        self.settle(number);
        let entries = std::mem::replace(&mut self.told, Vec::new(alloc));
        Ok(Turn {
            entries,
            leaving,
            idle,
            short,
        })
    }
}
