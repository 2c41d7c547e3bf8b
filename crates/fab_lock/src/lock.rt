//! The lock's calls.
ghost use Rattle.std.specs.Prelude.{◌≡◌, ◌<◌, ◌≤◌, [], true, false, IfOk, IfErr, All, slice_index};
ghost use Rattle.fab_lock.specs.Facts.{IsSeatOf, Finds};
ghost use Rattle.fab_lock.specs.Histories.{StartsWith, high, Adds, Reaches};
ghost use Rattle.fab_lock.specs.Views.{first_view, after_grab, after_give, after_post, after_glance, lower_half, upper_half, after_join};

use crate::kept::Kept;
use crate::seat::LockSeat;
use crate::table::LockTable;
use std::alloc::{AllocError, Global};
use std::marker::Model;
use std::sync::Wait;

/// A lock round a value, which one seat at a time may take, and progress words, which every seat
/// may read at any time. While no seat has the value, the word of a number is the greatest tick of
/// the tenant of that number in the value's history.
///
/// A contract sees which lock it is, its label, and how many words it has. Whoever ends a lock
/// grabs its value and drops the lock.
#[derive(Drop)]
pub struct Lock<T: Kept> {
    table: LockTable<T>,
}

impl<T: Kept> Model for Lock<T> {
    ghost use Rattle.fab_lock.specs.Facts.{LockFacts};

    ghost Value = { LockFacts T.Label };

    ghost view = { λ l. record { table = l.table.table.shared.table_id; label = T.label l.table.table.shared.key.first.value; words = l.table.table.shared.key.count } };
}

impl<T: Kept> Lock<T> {
    /// A lock round a value, whose label becomes the lock's, with so many progress words, and its
    /// first seat, which has all numbers. Where memory is wanting the value comes back.
    pub fn new(
        alloc: Global,
        value: T,
        words: u32,
    ) -> Result<(Lock<T>, LockSeat<T>), (AllocError, T)>
        requires { T.history value ≡ [] }
        ensures seat { IfOk result (λ made. IsSeatOf made.0 made.1) }
        ensures label { IfOk result (λ made. made.0.label ≡ T.label value) }
        ensures words { IfOk result (λ made. made.0.words ≡ words) }
        ensures view { IfOk result (λ made. made.1.view ≡ first_view (T.label value) words) }
        ensures err { IfErr result (λ failed. failed.1 ≡ value) }
    {
        let (table, place) = LockTable::set_up(alloc, value, words)?;
        let seat = LockSeat {
            place,
            number: 0,
            room: u32::MAX,
        };
        Ok((Lock { table }, seat))
    }

    /// Takes the value. It waits while another seat has it.
    pub fn grab<R: Wait>(&self, rt: &R, seat: &mut LockSeat<T>) -> T
        requires seat { IsSeatOf self.now seat.old }
        requires free { seat.old.view.holds ≡ false }
        ensures seat { IsSeatOf self.now seat.new }
        ensures label { T.label result ≡ self.now.label }
        ensures finds { Finds T.entry (T.history result) seat.new.view.words seat.old.view }
        ensures view { seat.new.view ≡ after_grab seat.old.view (T.history result) seat.new.view.words }
    {
        self.table.grab(rt, &mut seat.place)
    }

    /// Gives the value back. Behind the history that the seat took it may have notes of the seat's
    /// own number, and each progress word is by then what the history says.
    pub fn give(&self, seat: &mut LockSeat<T>, value: T)
        requires seat { IsSeatOf self.now seat.old }
        requires holds { seat.old.view.holds ≡ true }
        requires label { T.label value ≡ self.now.label }
        requires grows { Adds T.entry seat.old.view.low seat.old.view.taken (T.history value) }
        requires reach { Reaches T.entry seat.old.view.count seat.old.view.words (T.history value) }
        ensures seat { IsSeatOf self.now seat.new }
        ensures view { seat.new.view ≡ after_give seat.old.view (T.history value) }
    {
        self.table.give(&mut seat.place, value);
    }

    /// Sets a progress word, by the seat that has the value. A word never falls.
    pub fn post(&self, seat: &mut LockSeat<T>, word: u32, value: u64)
        requires seat { IsSeatOf self.now seat.old }
        requires holds { seat.old.view.holds ≡ true }
        requires word { word < self.now.words }
        requires rises { slice_index seat.old.view.words word ≤ value }
        ensures seat { IsSeatOf self.now seat.new }
        ensures view { seat.new.view ≡ after_post seat.old.view word value }
    {
        self.table.post(&mut seat.place, word, value);
    }

    /// Reads a progress word, by any seat. It never waits. What it finds isn't below what the seat
    /// has seen or found before, and no history that the seat finds later falls short of it.
    pub fn glance(&self, seat: &mut LockSeat<T>, word: u32) -> u64
        requires seat { IsSeatOf self.now seat.old }
        requires word { word < self.now.words }
        ensures seat { IsSeatOf self.now seat.new }
        ensures view { seat.new.view ≡ after_glance seat.old.view word result }
        ensures seen { high T.entry word seat.old.view.seen ≤ result }
        ensures known { All (λ found. found.0 ≡ word → found.1 ≤ result) seat.old.view.known }
    {
        self.table.glance(&mut seat.place, word)
    }

    /// Reads a progress word, by the seat that has the value, which alone sets it.
    pub fn read(&self, seat: &mut LockSeat<T>, word: u32) -> u64
        requires seat { IsSeatOf self.now seat.old }
        requires holds { seat.old.view.holds ≡ true }
        requires word { word < self.now.words }
        ensures seat { seat.new ≡ seat.old }
        ensures value { result ≡ slice_index seat.old.view.words word }
    {
        self.table.read(&mut seat.place, word)
    }

    /// A new seat, which gets the upper half of a seat's numbers, rounded down.
    pub fn split(&self, seat: &mut LockSeat<T>) -> LockSeat<T>
        requires seat { IsSeatOf self.now seat.old }
        requires room { 0 < seat.old.view.others }
        ensures seat { IsSeatOf self.now seat.new }
        ensures new_seat { IsSeatOf self.now result }
        ensures lower { seat.new.view ≡ lower_half seat.old.view }
        ensures upper { result.view ≡ upper_half seat.old.view }
    {
        let half = seat.room / 2 + seat.room % 2;
        let place = self.table.split(&mut seat.place);
        seat.room -= half;
        LockSeat {
            place,
            number: seat.number + seat.room + 1,
            room: half - 1,
        }
    }

    /// Ends a seat. Another seat then knows what both knew. Neither has the value.
    pub fn join_seat(&self, seat: &mut LockSeat<T>, other: LockSeat<T>)
        requires seat { IsSeatOf self.now seat.old }
        requires other { IsSeatOf self.now other }
        requires free { seat.old.view.holds ≡ false }
        requires other_free { other.view.holds ≡ false }
        ensures seat { IsSeatOf self.now seat.new }
        ensures view { seat.new.view ≡ after_join seat.old.view other.view }
        ensures begins { StartsWith seat.new.view.seen seat.old.view.seen }
        ensures begins_other { StartsWith seat.new.view.seen other.view.seen }
    {
        let LockSeat { place, .. } = other;
        self.table.join(&mut seat.place, place);
    }
}
