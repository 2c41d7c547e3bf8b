//! The bays that a call hands out.

ghost use Rattle.std.specs.Prelude.{◌≡◌, [], option_copied, slice_get};

use fab_rounds::closed::Closed;
use std::alloc::Global;
use std::marker::Model;

/// The bays of a script's fabrics, in their order: each of a desk that has ended, with the history of its fabric. Contracts see them as a list.
#[derive(Drop)]
pub struct Bays {
    bays: Vec<Closed>,
}

impl Model for Bays {
    ghost use Rattle.std.specs.Prelude.{List};
    ghost use Rattle.std.specs.Coded.{coded_list};
    ghost use Rattle.fab_rounds.specs.fab_bay.specs.contracts.noted.NotedCore as held;
    ghost use Rattle.fab_rounds.specs.fab_bay.specs.declared.noted.NotedCore.{NotedCore};

    ghost Value = { List NotedCore };

    ghost coded = { coded_list held.the_row.coded };

    ghost view = { λ b. b.bays.items };
}

impl Bays {
    /// No bays.
    pub fn new(alloc: Global) -> Bays
        ensures { result ≡ [] }
    {
        Bays {
            bays: Vec::new(alloc),
        }
    }

    /// The bay of the fabric of a number. None exactly where there are not so many.
    pub fn get(&self, fabric: usize) -> Option<&Closed>
        ensures { option_copied result ≡ slice_get self.now fabric }
    {
        self.bays.as_slice().get(fabric)
    }

    /// Takes over bays in place of those that are there.
    pub(crate) fn hold(&mut self, bays: Vec<Closed>)
        ensures { self.new ≡ bays.items }
    {
        self.bays = bays;
    }
}
