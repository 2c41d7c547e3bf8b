//! Desks and their seats.

ghost use Rattle.std.specs.Prelude.{◌≡◌};

use fab_bay::bay::Bay;
use fab_bay::{Lock, LockSeat};
use std::marker::Model;

/// A bay behind its lock, with a progress word for each tenant. A contract sees which lock it is, its label, and how many words it has.
#[derive(Drop)]
pub struct Desk {
    pub(crate) lock: Lock<Bay>,
    pub(crate) tenants: u32,
}

impl Model for Desk {
    ghost use Rattle.std.specs.Prelude.{◌≡◌};
    ghost use Rattle.std.specs.Coded.{codes};
    ghost use Rattle.fab_bay.specs.contracts.noted.Label as label;
    ghost use Rattle.fab_bay.specs.declared.noted.Label.{Label};
    ghost use Rattle.fab_bay.specs.fab_lock.specs.Facts.{LockFacts};

    ghost Value = { LockFacts Label };

    ghost coded = { Prim.hlevel (codes, label.the_row.coded) };

    ghost view = { λ d. d.lock };

    ghost invariant = { λ d. (d.lock.label.tenants ≡ d.tenants) × (d.lock.words ≡ d.tenants) };
}

/// A seat at a desk. It has a range of numbers, whose lowest is its own: the notes that its calls write bear it. A contract sees which desk
/// it belongs to, and what it knows.
#[derive(Drop)]
pub struct DeskSeat {
    pub(crate) seat: LockSeat<Bay>,
}

impl Model for DeskSeat {
    ghost use Rattle.std.specs.Prelude.{◌≡◌, false};
    ghost use Rattle.std.specs.Coded.{codes};
    ghost use Rattle.fab_bay.specs.vl_design.specs.contracts.design.StmtNode as stmt;
    ghost use Rattle.fab_bay.specs.contracts.noted.Label as label;
    ghost use Rattle.fab_bay.specs.declared.noted.Label.{Label};
    ghost use Rattle.fab_bay.specs.fab_lock.specs.Facts.{SeatFacts};
    ghost use Rattle.fab_bay.specs.fab_model.specs.declared.note.Note.{Note};

    ghost Value = { SeatFacts Label Note };

    ghost coded = { Prim.hlevel (codes, stmt.the_row.coded, label.the_row.coded) };

    ghost view = { λ s. s.seat };

    ghost invariant = { λ s. s.seat.view.holds ≡ false };
}

impl DeskSeat {
    /// Its own number, the lowest of its range. No other seat of the desk has it, or ever had.
    pub fn number(&self) -> u32
        ensures { result ≡ self.now.view.low }
    {
        self.seat.number()
    }

    /// How many more numbers its range has.
    pub fn room(&self) -> u32
        ensures { result ≡ self.now.view.others }
    {
        self.seat.room()
    }
}
