//! What threads do at a desk.

ghost use Rattle.std.specs.Prelude.{◌≡◌, ◌<◌, ◌≤◌, ◌++◌, List, false, true, None, All, IfErr, IfOk, OnErr};
ghost use Rattle.fab_bay.specs.ten_parcel.specs.Parcels.{number_of, origin_in};
ghost use Rattle.fab_bay.specs.fab_lock.specs.Facts.{IsSeatOf};
ghost use Rattle.fab_bay.specs.fab_lock.specs.declared.entry.Entry.{Entry as Told};
ghost use Rattle.fab_bay.specs.fab_lock.specs.Histories.{high, Reaches, StartsWith};
ghost use Rattle.fab_bay.specs.fab_lock.specs.Views.{after_glance, after_grab, after_join, first_view, lower_half, upper_half};
ghost use Rattle.fab_bay.specs.fab_model.specs.Points.{ended, Point};
ghost use Rattle.fab_bay.specs.fab_core.specs.Standing.{IsPointOf};
ghost use Rattle.fab_bay.specs.fab_model.specs.declared.note.Note.{Note};
ghost use Rattle.fab_bay.specs.fab_model.specs.Origins.{StartsFrom};
ghost use Rattle.fab_bay.specs.fab_model.specs.Histories.{entry_of};
ghost use Rattle.fab_desk.specs.Desks.{itself, serving, DidNothing, DidPut, DidRefuse, DidTake, DidTurn, Finds, Gives, IsFound};

use crate::closed::Closed;
use crate::desk::{Desk, DeskSeat};
use fab_bay::bay::Bay;
use fab_bay::leaving::{Receipt, Refused, Taken, Turn};
use fab_bay::noted::Label;
use fab_bay::transit::Transit;
use fab_bay::{Entry, Lock, LockSeat};
use std::alloc::{AllocError, Global};
use std::sync::Wait;

impl Desk {
    /// A desk of this label, at least for one tenant, and its first seat, which has all numbers. An `Err` is want of memory alone.
    pub fn new(alloc: Global, label: Label) -> Result<(Desk, DeskSeat), AllocError>
        requires { 1 ≤ label.tenants }
        ensures seat { IfOk result (λ made. IsSeatOf made.0 made.1) }
        ensures label { IfOk result (λ made. made.0.label ≡ label) }
        ensures view { IfOk result (λ made. made.1.view ≡ first_view label label.tenants) }
    {
        let tenants = label.tenants;
        match Lock::new(alloc, Bay::new(alloc, label), tenants) {
            Ok((lock, seat)) => Ok((Desk { lock, tenants }, DeskSeat { seat })),
            Err(_) => Err(AllocError),
        }
    }

    /// Takes the bay. It waits while another seat has it.
    fn grab<R: Wait>(&self, rt: &R, seat: &mut LockSeat<Bay>) -> Bay
        requires seat { IsSeatOf self.now seat.old }
        requires free { seat.old.view.holds ≡ false }
        ensures seat { IsSeatOf self.now seat.new }
        ensures found { IsFound self.now.label seat.old.view result }
        ensures view { seat.new.view ≡ after_grab seat.old.view result.notes.items seat.new.view.words }
        ensures reach { Reaches entry_of seat.old.view.count seat.new.view.words result.notes.items }
    {
        let bay = self.lock.grab(rt, seat);
        bay.stands();
        bay
    }

    /// Raises the progress word of each entry's tenant to the entry's tick.
    fn publish(&self, seat: &mut LockSeat<Bay>, entries: &[Entry])
        requires seat { IsSeatOf self.now seat.old }
        requires holds { seat.old.view.holds ≡ true }
        requires tenants { All (λ e. e.tenant < self.now.label.tenants) entries.now }
        ensures seat { IsSeatOf self.now seat.new }
        ensures view { seat.new.view ≡ record seat.old.view { words = seat.new.view.words } }
        ensures reach { (found : List Told) → Reaches itself seat.old.view.count seat.old.view.words found → Reaches itself seat.old.view.count seat.new.view.words (found ++ entries.now) }
    {
        for entry in entries {
            let word = self.lock.read(seat, entry.tenant);
            self.lock.post(seat, entry.tenant, word.max(entry.to));
        }
    }

    /// Gives the bay back, with the notes more that these entries tell of.
    fn serve(&self, seat: &mut LockSeat<Bay>, bay: Bay, entries: &[Entry])
        requires seat { IsSeatOf self.now seat.old }
        requires holds { seat.old.view.holds ≡ true }
        requires label { bay.label ≡ self.now.label }
        requires gives { Gives self.now.label.tenants seat.old.view.low seat.old.view.taken bay.notes.items entries.now }
        requires reach { Reaches entry_of seat.old.view.count seat.old.view.words seat.old.view.taken }
        ensures seat { IsSeatOf self.now seat.new }
        ensures free { seat.new.view.holds ≡ false }
        ensures view { (added : List Note) → bay.notes.items ≡ seat.old.view.taken ++ added → seat.new.view ≡ serving seat.old.view seat.old.view.taken added }
    {
        self.publish(seat, entries);
        self.lock.give(seat, bay);
    }

    /// Puts a tenant at rest that hasn't ended in line; or else it is given back, and nothing was done. It may wait.
    pub fn put<R: Wait>(
        &self,
        rt: &R,
        seat: &mut DeskSeat,
        transit: Transit,
    ) -> Result<Receipt, Refused>
        requires seat { IsSeatOf self.now seat.old }
        requires transit { (p : Point) × IsPointOf transit.parcel p × (ended p ≡ None) }
        requires tenant { number_of transit.parcel < self.now.label.tenants }
        requires first { self.now.label.any_puts ≡ false → seat.old.view.low ≡ 0 }
        requires own { StartsFrom self.now.label.origins (number_of transit.parcel) (origin_in transit.parcel) }
        ensures seat { IsSeatOf self.now seat.new }
        ensures put { IfOk result (λ r. DidPut self.now.label transit seat.old.view seat.new.view r) }
        ensures refused { IfErr result (λ r. DidRefuse self.now.label transit seat.old.view seat.new.view r) }
    {
        let number = seat.number();
        let mut bay = self.grab(rt, &mut seat.seat);
        match bay.put(number, transit) {
            Ok(receipt) => {
                self.serve(&mut seat.seat, bay, &[receipt.entry]);
                Ok(receipt)
            }
            Err(refused) => {
                self.serve(&mut seat.seat, bay, &[]);
                Err(refused)
            }
        }
    }

    /// At most so many cycles of the fabric, and what comes between them: serving, holding, leaving, making the joined bank anew. It may
    /// wait. An `Err` is want of memory before anything was done.
    pub fn turn<R: Wait>(
        &self,
        rt: &R,
        alloc: Global,
        seat: &mut DeskSeat,
        most: u64,
    ) -> Result<Turn, AllocError>
        requires seat { IsSeatOf self.now seat.old }
        requires some { 1 ≤ most }
        ensures seat { IsSeatOf self.now seat.new }
        ensures turned { IfOk result (λ t. DidTurn self.now.label most seat.old.view seat.new.view t) }
        ensures err { OnErr result (DidNothing self.now.label seat.old.view seat.new.view) }
    {
        let number = seat.number();
        let mut bay = self.grab(rt, &mut seat.seat);
        match bay.turn(alloc, number, most) {
            Ok(turn) => {
                self.serve(&mut seat.seat, bay, turn.entries.as_slice());
                Ok(turn)
            }
            Err(error) => {
                self.serve(&mut seat.seat, bay, &[]);
                Err(error)
            }
        }
    }

    /// Takes a tenant out. No tick rises by more than one. It may wait. An `Err` is want of memory before anything was done.
    pub fn take<R: Wait>(
        &self,
        rt: &R,
        alloc: Global,
        seat: &mut DeskSeat,
        tenant: u32,
    ) -> Result<Taken, AllocError>
        requires seat { IsSeatOf self.now seat.old }
        ensures seat { IsSeatOf self.now seat.new }
        ensures taken { IfOk result (λ t. DidTake self.now.label tenant seat.old.view seat.new.view t) }
        ensures err { OnErr result (DidNothing self.now.label seat.old.view seat.new.view) }
    {
        let number = seat.number();
        let mut bay = self.grab(rt, &mut seat.seat);
        match bay.take(alloc, number, tenant) {
            Ok(taken) => {
                self.serve(&mut seat.seat, bay, taken.entries.as_slice());
                Ok(taken)
            }
            Err(error) => {
                self.serve(&mut seat.seat, bay, &[]);
                Err(error)
            }
        }
    }

    /// The greatest tick posted for a tenant. It doesn't wait, and takes no memory. What it finds isn't below what the seat has seen or was
    /// told before, and no history that the seat finds later falls short of it.
    pub fn progress(&self, seat: &mut DeskSeat, tenant: u32) -> u64
        requires seat { IsSeatOf self.now seat.old }
        requires tenant { tenant < self.now.label.tenants }
        ensures seat { IsSeatOf self.now seat.new }
        ensures view { seat.new.view ≡ after_glance seat.old.view tenant result }
        ensures seen { high entry_of tenant seat.old.view.seen ≤ result }
        ensures known { All (λ word. word.0 ≡ tenant → word.1 ≤ result) seat.old.view.known }
    {
        self.lock.glance(&mut seat.seat, tenant)
    }

    /// A new seat, which gets the upper half of a seat's numbers, rounded down.
    pub fn seat(&self, seat: &mut DeskSeat) -> DeskSeat
        requires seat { IsSeatOf self.now seat.old }
        requires room { 1 ≤ seat.old.view.others }
        ensures seat { IsSeatOf self.now seat.new }
        ensures new_seat { IsSeatOf self.now result }
        ensures lower { seat.new.view ≡ lower_half seat.old.view }
        ensures upper { result.view ≡ upper_half seat.old.view }
    {
        let other = self.lock.split(&mut seat.seat);
        DeskSeat { seat: other }
    }

    /// Ends a seat. Another seat then knows what both knew.
    pub fn join_seat(&self, seat: &mut DeskSeat, other: DeskSeat)
        requires seat { IsSeatOf self.now seat.old }
        requires other { IsSeatOf self.now other }
        ensures seat { IsSeatOf self.now seat.new }
        ensures view { seat.new.view ≡ after_join seat.old.view other.view }
        ensures begins { StartsWith seat.new.view.seen seat.old.view.seen }
        ensures begins_other { StartsWith seat.new.view.seen other.view.seen }
    {
        let DeskSeat { seat: other } = other;
        self.lock.join_seat(&mut seat.seat, other);
    }

    /// Ends the desk: its bay, with its history. It may wait.
    pub fn close<R: Wait>(self, rt: &R, seat: DeskSeat) -> Closed
        requires { IsSeatOf self seat }
        ensures label { result.label ≡ self.label }
        ensures found { Finds self.label seat.view result.notes.items }
    {
        let DeskSeat { mut seat } = seat;
        Closed {
            bay: self.grab(rt, &mut seat),
        }
    }
}
