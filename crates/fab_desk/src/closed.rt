//! The bay of a desk that has ended.

ghost use Rattle.std.specs.Prelude.{◌≡◌};

use fab_bay::bay::Bay;
use std::marker::Model;

/// The bay of a desk that has ended, which nobody can change any more. Only `Desk::close` gives one. A contract sees it as it sees the bay.
#[derive(Drop)]
pub struct Closed {
    pub(crate) bay: Bay,
}

impl Model for Closed {
    ghost use Rattle.fab_bay.specs.contracts.noted.NotedCore as held;
    ghost use Rattle.fab_bay.specs.declared.noted.NotedCore.{NotedCore};

    ghost Value = { NotedCore };

    ghost coded = { held.the_row.coded };

    ghost view = { λ c. c.bay };
}

impl Closed {
    /// The bay, with its history.
    pub fn bay(&self) -> &Bay
        ensures { result.now ≡ self.now }
    {
        &self.bay
    }
}
