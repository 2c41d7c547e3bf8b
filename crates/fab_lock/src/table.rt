//! The lock's table, and the calls on it by a seat at the table itself.
ghost use Rattle.std.specs.Prelude.{◌≡◌, ◌+◌, ◌<◌, ◌≤◌, [], ◌∷◌, true, false, IfOk, IfErr, Some, None, All, slice_index};
ghost use Rattle.fab_lock.specs.Facts.{Finds};
ghost use Rattle.fab_lock.specs.Histories.{StartsWith, high, Adds, Reaches};
ghost use Rattle.fab_lock.specs.Views.{first_view, after_grab, after_give, after_post, after_glance, lower_half, upper_half, after_join};

use crate::kept::Kept;
use crate::rule::{LockRule, TableKey, TableSeat};
use crate::steps::{Glance, Grab, Halve, Post, Read, Release, Settle, TakeIn};
use crate::view::View;
use atomic_table::{Refused, Table};
use std::alloc::{AllocError, Global};
use std::snapshot::Snapshot;
use std::sync::Wait;

/// The word that says whether a seat has the value. The progress words follow it.
const HELD: usize = 0;

/// No seat has the value.
const FREE: u64 = 0;

/// A seat has the value.
const TAKEN: u64 = 1;

/// The slot of the value.
const VALUE: usize = 0;

/// A table of one slot, the word `HELD` and the progress words.
#[derive(Drop)]
pub(crate) struct LockTable<T: Kept> {
    pub(crate) table: Table<Option<T>, View<T::Label, T::Note>, TableKey<T>, LockRule, Global>,
    ghost sized: { (table.shared.table_id.words ≡ table.shared.key.count + 1) × (table.shared.table_id.slots ≡ 1) },
}

impl<T: Kept> LockTable<T> {
    /// A table with the value at home, and its first seat.
    pub(crate) fn set_up(
        alloc: Global,
        value: T,
        count: u32,
    ) -> Result<(LockTable<T>, TableSeat<T>), (AllocError, T)>
        requires { T.history value ≡ [] }
        ensures ok { IfOk result (λ p. (p.0.table.shared.key.first.value ≡ value) × (p.0.table.shared.key.count ≡ count) × (p.1.table_id ≡ p.0.table.shared.table_id) × (p.1.me ≡ (first_view (T.label value) count, []))) }
        ensures err { IfErr result (λ e. e.1 ≡ value) }
    {
        let key = TableKey {
            first: Snapshot::of(&value),
            count: count as u64,
        };
        let Ok(words) = Vec::from_elem(alloc, FREE, count as usize + 1) else {
            return Err((AllocError, value));
        };
        let mut slots = Vec::new(alloc);
        if slots.reserve(1).is_err() {
            slots.destroy_empty();
            return Err((AllocError, value));
        }
        slots.push_reserved(Some(value));
        match Table::new(alloc, words.as_slice(), slots, &key) {
            Ok((table, seat)) => Ok((LockTable { table }, seat)),
            Err(Refused { mut slots }) => match slots.pop() {
                Some(Some(value)) => {
                    slots.destroy_empty();
                    Err((AllocError, value))
                }
                _ => unreachable!(),
            },
        }
    }

    /// Tries until the word `HELD` was free, and sleeps while it is taken.
    pub(crate) fn grab<R: Wait>(&self, rt: &R, seat: &mut TableSeat<T>) -> T
        requires lock { seat.old.table_id ≡ self.now.table.shared.table_id }
        requires label { seat.old.me.0.label ≡ Some (T.label self.now.table.shared.key.first.value) }
        requires free { (seat.old.me.0.holds ≡ false) × (seat.old.me.1 ≡ []) }
        ensures lock { seat.new.table_id ≡ seat.old.table_id }
        ensures label { T.label result ≡ T.label self.now.table.shared.key.first.value }
        ensures finds { Finds T.entry (T.history result) seat.new.me.0.words seat.old.me.0 }
        ensures view { seat.new.me ≡ (after_grab seat.old.me.0 (T.history result) seat.new.me.0.words, (0, None) ∷ []) }
    {
        for _ in rt.forever() {
            let found = self
                .table
                .shared
                .compare_exchange::<Grab>(seat, HELD, FREE, TAKEN);
            if found == FREE {
                return match self.table.shared.exchange(seat, VALUE, None) {
                    Some(value) => value,
                    None => unreachable!(),
                };
            }
            self.table.shared.park(rt, HELD, TAKEN as u32);
        }
        unreachable!()
    }

    /// Puts the value into the slot, frees the word `HELD` and wakes a sleeper.
    pub(crate) fn give(&self, seat: &mut TableSeat<T>, value: T)
        requires lock { seat.old.table_id ≡ self.now.table.shared.table_id }
        requires view { seat.old.me.0.label ≡ Some (T.label self.now.table.shared.key.first.value) }
        requires holds { (seat.old.me.0.holds ≡ true) × (seat.old.me.1 ≡ (0, None) ∷ []) }
        requires label { T.label value ≡ T.label self.now.table.shared.key.first.value }
        requires grows { Adds T.entry seat.old.me.0.low seat.old.me.0.taken (T.history value) }
        requires reach { Reaches T.entry seat.old.me.0.count seat.old.me.0.words (T.history value) }
        ensures lock { seat.new.table_id ≡ seat.old.table_id }
        ensures view { seat.new.me ≡ (after_give seat.old.me.0 (T.history value), []) }
    {
        match self.table.shared.exchange(seat, VALUE, Some(value)) {
            None => {}
            Some(_) => unreachable!(),
        }
        self.table.shared.store::<Release>(seat, HELD, FREE);
        self.table.shared.wake_one(HELD);
    }

    /// Sets a progress word.
    pub(crate) fn post(&self, seat: &mut TableSeat<T>, word: u32, value: u64)
        requires lock { seat.old.table_id ≡ self.now.table.shared.table_id }
        requires view { (seat.old.me.0.label ≡ Some (T.label self.now.table.shared.key.first.value)) × (seat.old.me.0.count ≡ self.now.table.shared.key.count) }
        requires holds { seat.old.me.0.holds ≡ true }
        requires word { (word < seat.old.me.0.count) × (slice_index seat.old.me.0.words word ≤ value) }
        ensures lock { seat.new.table_id ≡ seat.old.table_id }
        ensures view { seat.new.me ≡ (after_post seat.old.me.0 word value, seat.old.me.1) }
    {
        self.table
            .shared
            .store::<Post>(seat, word as usize + 1, value);
    }

    /// Reads a progress word.
    pub(crate) fn glance(&self, seat: &mut TableSeat<T>, word: u32) -> u64
        requires lock { seat.old.table_id ≡ self.now.table.shared.table_id }
        requires view { (seat.old.me.0.label ≡ Some (T.label self.now.table.shared.key.first.value)) × (seat.old.me.0.count ≡ self.now.table.shared.key.count) }
        requires word { word < seat.old.me.0.count }
        ensures lock { seat.new.table_id ≡ seat.old.table_id }
        ensures view { seat.new.me ≡ (after_glance seat.old.me.0 word result, seat.old.me.1) }
        ensures seen { high T.entry word seat.old.me.0.seen ≤ result }
        ensures known { All (λ p. p.0 ≡ word → p.1 ≤ result) seat.old.me.0.known }
    {
        self.table.shared.load::<Glance>(seat, word as usize + 1)
    }

    /// Reads a progress word, by the seat that has the value.
    pub(crate) fn read(&self, seat: &mut TableSeat<T>, word: u32) -> u64
        requires lock { seat.old.table_id ≡ self.now.table.shared.table_id }
        requires view { (seat.old.me.0.label ≡ Some (T.label self.now.table.shared.key.first.value)) × (seat.old.me.0.count ≡ self.now.table.shared.key.count) }
        requires word { word < seat.old.me.0.count }
        requires holds { seat.old.me.0.holds ≡ true }
        ensures lock { seat.new.table_id ≡ seat.old.table_id }
        ensures view { seat.new.me ≡ seat.old.me }
        ensures value { result ≡ slice_index seat.old.me.0.words word }
    {
        self.table.shared.load::<Read>(seat, word as usize + 1)
    }

    /// Cuts a seat's range in two.
    pub(crate) fn split(&self, seat: &mut TableSeat<T>) -> TableSeat<T>
        requires lock { seat.old.table_id ≡ self.now.table.shared.table_id }
        requires view { seat.old.me.0.label ≡ Some (T.label self.now.table.shared.key.first.value) }
        requires room { 0 < seat.old.me.0.others }
        ensures lock { (seat.new.table_id ≡ seat.old.table_id) × (result.table_id ≡ seat.old.table_id) }
        ensures left { seat.new.me ≡ (lower_half seat.old.me.0, seat.old.me.1) }
        ensures right { result.me ≡ (upper_half seat.old.me.0, []) }
    {
        self.table.shared.split_seat::<Halve>(seat)
    }

    /// Ends a seat in two steps: what it knows is handed on, and then the histories are settled.
    pub(crate) fn join(&self, seat: &mut TableSeat<T>, other: TableSeat<T>)
        requires lock { (seat.old.table_id ≡ self.now.table.shared.table_id) × (other.table_id ≡ self.now.table.shared.table_id) }
        requires view { (seat.old.me.0.label ≡ Some (T.label self.now.table.shared.key.first.value)) × (other.me.0.label ≡ Some (T.label self.now.table.shared.key.first.value)) }
        requires free { (other.me.1 ≡ []) × (other.me.0.holds ≡ false) }
        ensures lock { seat.new.table_id ≡ seat.old.table_id }
        ensures view { seat.new.me ≡ (after_join seat.old.me.0 other.me.0, seat.old.me.1) }
        ensures begins { StartsWith seat.new.me.0.seen seat.old.me.0.seen }
        ensures begins_other { StartsWith seat.new.me.0.seen other.me.0.seen }
    {
        self.table.shared.join_seat::<TakeIn>(seat, other);
        self.table.shared.load::<Settle>(seat, HELD);
    }
}
