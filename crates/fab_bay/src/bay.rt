//! The value that the threads of a fabric share.

ghost use Rattle.std.specs.Prelude.{◌≡◌, ◌<◌, ◌≤◌, [], false, true, None, IfErr, IfOk, OnErr, map};
ghost use Rattle.std.specs.Bool.{Decides};
ghost use Rattle.fab_core.specs.ten_parcel.specs.Parcels.{number_of, origin_in};
ghost use Rattle.fab_core.specs.fab_model.specs.Points.{ended, Point};
ghost use Rattle.fab_core.specs.fab_model.specs.Fabrics.{within};
ghost use Rattle.fab_core.specs.Standing.{IsPointOf};
ghost use Rattle.fab_core.specs.fab_model.specs.Deeds.{cost_of, deed_of};
ghost use Rattle.fab_core.specs.fab_model.specs.Origins.{AreOwn, StartsFrom};
ghost use Rattle.fab_core.specs.fab_model.specs.Tokens.{puts, token_of};
ghost use Rattle.fab_bay.specs.Refusals.{IsAway, IsRefusal};
ghost use Rattle.fab_bay.specs.Standing.{IsBay};
ghost use Rattle.fab_bay.specs.Taking.{IsTaken};
ghost use Rattle.fab_bay.specs.Ways.{IsEmpty, IsPut, Turned};

use crate::berth::Berth;
use crate::leaving::{Receipt, Refused, Taken, Turn};
use crate::noted::{Label, NotedCore};
use fab_core::Kept;
use fab_core::cores::FabCore;
use fab_core::note::Note;
use fab_core::transit::Transit;
use std::alloc::{AllocError, Global};
use std::marker::Model;

/// A core with its history, which is legal and says who is where, at which tick; whoever was put in line starts from what the label names.
#[derive(Drop)]
pub struct Bay {
    noted: NotedCore,
}

impl Model for Bay {
    ghost use Rattle.fab_core.specs.fab_model.specs.Origins.{AreOwn};
    ghost use Rattle.fab_core.specs.fab_model.specs.Tokens.{puts};
    ghost use Rattle.fab_bay.specs.declared.noted.NotedCore.{NotedCore};
    ghost use Rattle.fab_bay.specs.Standing.{IsBay};
    ghost use Rattle.fab_bay.specs.contracts.noted.NotedCore as held;

    ghost Value = { NotedCore };

    ghost coded = { held.the_row.coded };

    ghost view = { λ b. b.noted };

    ghost invariant = { λ b. IsBay b.noted × AreOwn b.noted.label.origins (puts b.noted.notes.items) };
}

impl Kept for Bay {
    ghost use Rattle.fab_core.specs.fab_lock.specs.declared.entry.Entry.{Entry};

    type Label = Label;

    type Note = Note;

    ghost label = { λ b. b.label };

    ghost history = { λ b. b.notes.items };

    ghost entry = { λ n. n.entry };
}

impl Bay {
    /// A fabric without tenants.
    pub fn new(alloc: Global, label: Label) -> Bay
        ensures label { result.label ≡ label }
        ensures notes { result.notes.items ≡ [] }
    {
        let core = FabCore::new(alloc, label.capacity);
        Bay {
            noted: NotedCore {
                label,
                core,
                berths: Vec::new(alloc),
                waiting: Vec::new(alloc),
                notes: Vec::new(alloc),
                told: Vec::new(alloc),
            },
        }
    }

    /// Puts a tenant at rest that hasn't ended in line; or else it is given back, and all is as it was.
    pub fn put(&mut self, number: u32, transit: Transit) -> Result<Receipt, Refused>
        requires transit { (p : Point) × IsPointOf transit.parcel p × (ended p ≡ None) }
        requires tenant { number_of transit.parcel < self.old.label.tenants }
        requires first { self.old.label.any_puts ≡ false → number ≡ 0 }
        requires own { StartsFrom self.old.label.origins (number_of transit.parcel) (origin_in transit.parcel) }
        ensures put { IfOk result (λ r. IsPut number self.old self.new transit r) }
        ensures room { IfOk result (λ r. (within (cost_of (deed_of transit)) self.old.label.capacity ≡ true) × IsAway self.old.notes.items (number_of transit.parcel)) }
        ensures back { IfErr result (λ r. r.transit ≡ transit) }
        ensures why { IfErr result (λ r. IsRefusal self.old.label.capacity self.old.notes.items (token_of transit) r.why) }
        ensures label { self.new.label ≡ self.old.label }
        ensures same { OnErr result (self.new.notes.items ≡ self.old.notes.items) }
    {
        self.noted.put(number, transit)
    }

    /// At most so many cycles, in each of which some resident steps, and what comes between them. Unless memory ends it, it does just so many
    /// cycles or leaves nobody. An `Err` is want of memory before anything was done.
    pub fn turn(&mut self, alloc: Global, number: u32, most: u64) -> Result<Turn, AllocError>
        requires some { 1 ≤ most }
        ensures turned { IfOk result (λ t. Turned number most self.old self.new t) }
        ensures idle { IfOk result (λ t. Decides t.idle (IsEmpty self.old.notes.items)) }
        ensures label { self.new.label ≡ self.old.label }
        ensures err { OnErr result (self.new.notes.items ≡ self.old.notes.items) }
    {
        self.noted.turn(alloc, number, most)
    }

    /// Takes a tenant out. No tenant's tick rises by more than one over the whole call. An `Err` is want of memory before anything was done.
    pub fn take(&mut self, alloc: Global, number: u32, tenant: u32) -> Result<Taken, AllocError>
        ensures taken { IfOk result (λ t. IsTaken number tenant self.old self.new t) }
        ensures label { self.new.label ≡ self.old.label }
        ensures err { OnErr result (self.new.notes.items ≡ self.old.notes.items) }
    {
        self.noted.take(alloc, number, tenant)
    }

    /// It stands for a fabric, by a legal history, with each tick noted, and whoever was put in line starts from what the label names.
    pub fn stands(&self)
        ensures bay { IsBay self.now }
        ensures own { AreOwn self.now.label.origins (puts self.now.notes.items) }
    {
        let _ = &self.noted;
    }

    /// Its history.
    pub fn history(&self) -> &[Note]
        ensures { result.now ≡ self.now.notes.items }
    {
        self.noted.notes.as_slice()
    }

    /// What is noted of its residents, in order.
    pub fn residents(&self) -> &[Berth]
        ensures { result.now ≡ self.now.berths.items }
    {
        self.noted.berths.as_slice()
    }

    /// What is noted of its tenants in line, in order.
    pub fn line(&self) -> &[Berth]
        ensures { result.now ≡ self.now.waiting.items }
    {
        self.noted.waiting.as_slice()
    }
}
