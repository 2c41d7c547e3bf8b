//! What residents wait for.

ghost use Rattle.std.specs.Prelude.{◌≡◌, ◌++◌, ◌∷◌, ◌+◌, ◌<◌, [], false, true, ℕ, IfOk, List, None, Some, length};
ghost use Rattle.fab_core.specs.fab_lock.specs.declared.entry.Kind.TheVariants as kind;
ghost use Rattle.fab_core.specs.fab_model.specs.Points.{tick_of, waits, Point};
ghost use Rattle.fab_core.specs.fab_model.specs.Fabrics.{first_of, first_waiting, Fabric};
ghost use Rattle.fab_core.specs.fab_model.specs.declared.note.Note.{Note as OneNote};
ghost use Rattle.fab_core.specs.fab_model.specs.declared.transit.Transit.{Transit as Out};
ghost use Rattle.fab_bay.specs.Acts.{acts_to_come, rests_to_come, saves_to_come};
ghost use Rattle.fab_bay.specs.Marks.{AreClosed};
ghost use Rattle.fab_bay.specs.Nearness.{BeginsNone};
ghost use Rattle.fab_bay.specs.Rounds.{IsReady};
ghost use Rattle.fab_bay.specs.Standing.{CanSettle, HasRoomFor, IsNoted};
ghost use Rattle.fab_bay.specs.Ways.{Goes, IsWritten};

use crate::line::berth_of;
use crate::noted::NotedCore;
use fab_core::note::Note;
use std::alloc::{AllocError, Global};
use ten_core::run_laws::each_act_comes_nearer;

impl NotedCore {
    /// Writes that a snapshot of a resident was made, and before that its run up to there.
    fn saved_one(&mut self, number: u32, tenant: u32)
        requires fabric { (f : Fabric) × (p : Point) × IsNoted self.old f × (first_of tenant f.residents ≡ Some p) }
        requires room { HasRoomFor 2 self.old }
        ensures written { (tick : ℕ) × IsWritten number self.old self.new [] (record { kind = kind.Saved; tenant = tenant; tick = tick } ∷ []) × ((f : Fabric) (p : Point) → IsNoted self.old f → first_of tenant f.residents ≡ Some p → tick ≡ tick_of p) }
        ensures closed { (added : List OneNote) → self.new.notes.items ≡ self.old.notes.items ++ added → AreClosed added }
        ensures kept { (f : Fabric) → IsNoted self.old f → IsNoted self.new f }
        ensures core { self.new.core ≡ self.old.core }
        ensures waiting { self.new.waiting ≡ self.old.waiting }
        ensures long { length self.new.berths.items ≡ length self.old.berths.items }
        ensures room { (n : ℕ) → HasRoomFor (n + 2) self.old → HasRoomFor n self.new }
    {
        let Some(place) = berth_of(&self.berths, tenant) else {
            unreachable!()
        };
        self.ran_one(place, number);
        let tick = self.berths[place].noted;
        self.write(Note::saved(number, tenant, tick));
    }

    /// Serves the call at which a resident waits, or makes the next snapshot that is due at its boundary, and writes that. The answer is
    /// whether it was a snapshot. Want of memory leaves all as it was.
    pub(crate) fn serve(
        &mut self,
        alloc: Global,
        number: u32,
        tenant: u32,
    ) -> Result<bool, AllocError>
        requires fabric { (f : Fabric) × IsNoted self.old f }
        requires waits { (f : Fabric) → IsNoted self.old f → (p : Point) × (first_of tenant f.residents ≡ Some p) × (waits p ≡ true) }
        requires room { CanSettle self.old }
        ensures goes { (out : List Out) → Goes number 0 self.old self.new out out }
        ensures near { BeginsNone self.old self.new }
        ensures rests { rests_to_come self.new ≡ rests_to_come self.old }
        ensures call { IfOk result (λ saved. saved ≡ false → acts_to_come self.new < acts_to_come self.old) }
        ensures save { IfOk result (λ saved. saved ≡ true → (acts_to_come self.new ≡ acts_to_come self.old) × (saves_to_come self.new < saves_to_come self.old)) }
        ensures room { CanSettle self.new }
    {
        each_act_comes_nearer();
        if self.prepare(2).is_err() {
            return Err(AllocError);
        }
        match self.core.serve(alloc, tenant) {
            Err(error) => Err(error),
            Ok(saved) => {
                if saved {
                    self.saved_one(number, tenant);
                }
                Ok(saved)
            }
        }
    }

    /// Makes the snapshots that residents wait for, up to the first call, which is served. The answer is whether a call was: if none was,
    /// nobody waits any longer.
    pub(crate) fn serve_to_call(&mut self, alloc: Global, number: u32) -> Result<bool, AllocError>
        requires ready { IsReady self.old }
        ensures ready { IsReady self.new }
        ensures goes { (out : List Out) → Goes number 0 self.old self.new out out }
        ensures near { BeginsNone self.old self.new }
        ensures rests { rests_to_come self.new ≡ rests_to_come self.old }
        ensures call { IfOk result (λ called. called ≡ true → acts_to_come self.new < acts_to_come self.old) }
        ensures still { IfOk result (λ called. called ≡ false → acts_to_come self.new ≡ acts_to_come self.old) }
        ensures quiet { IfOk result (λ called. called ≡ false → (f : Fabric) → IsNoted self.new f → first_waiting f.residents ≡ None) }
    {
        'saves: while let Some(tenant) = self.core.next_trap() {
            match self.serve(alloc, number, tenant) {
                Ok(true) => {}
                Ok(false) => return Ok(true),
                Err(_) => return Err(AllocError),
            }
        }
        Ok(false)
    }
}
