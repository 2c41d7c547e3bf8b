//! The seats of a lock.
ghost use Rattle.std.specs.Prelude.{◌≡◌};

use crate::kept::Kept;
use crate::rule::TableSeat;
use std::marker::Model;

/// A seat of a lock. It has a range of numbers, whose lowest is its own: the notes that it gives bear it.
///
/// A contract sees which lock it belongs to, and as its view what it knows.
#[derive(Drop)]
pub struct LockSeat<T: Kept> {
    pub(crate) place: TableSeat<T>,
    pub(crate) number: u32,
    pub(crate) room: u32,
}

impl<T: Kept> Model for LockSeat<T> {
    ghost use Rattle.std.specs.Prelude.{◌≡◌, ◌+◌, ◌^◌, ◌<◌};
    ghost use Rattle.fab_lock.specs.Facts.{SeatFacts};
    ghost use Rattle.fab_lock.specs.Steps.{slots_had};

    ghost Value = { SeatFacts T.Label T.Note };

    ghost view = { λ s. record { table = s.place.table_id; view = s.place.me.0 } };

    ghost invariant = { λ s. (s.place.me.0.low ≡ s.number) × (s.place.me.0.others ≡ s.room) × (s.number + s.room < 2 ^ 32) × (s.place.me.1 ≡ slots_had s.place.me.0.holds) };
}

impl<T: Kept> LockSeat<T> {
    /// Its own number, the lowest of its range. No other seat of the lock has it, or ever had.
    pub fn number(&self) -> u32
        ensures { result ≡ self.now.view.low }
    {
        self.number
    }

    /// How many more numbers its range has.
    pub fn room(&self) -> u32
        ensures { result ≡ self.now.view.others }
    {
        self.room
    }
}
