//! Tenants that are put in line.

ghost use Rattle.std.specs.Prelude.{◌≡◌, ◌<◌, ◌≤◌, ◌+◌, ◌++◌, ◌∷◌, ◌||◌, ◌==◌, [], ℕ, false, true, None, Some, is_some, length, position, vec_len, vec_capacity, IfErr, IfOk, OnErr, OnOk};
ghost use Rattle.fab_core.specs.fab_lock.specs.declared.entry.Kind.TheVariants as kind;
ghost use Rattle.fab_core.specs.fab_model.specs.Points.{ended, Point};
ghost use Rattle.fab_core.specs.fab_model.specs.Fabrics.{arrived, within, Fabric};
ghost use Rattle.fab_core.specs.Standing.{IsPointOf};
ghost use Rattle.fab_core.specs.fab_model.specs.declared.note.Note.{Note as OneNote};
ghost use Rattle.fab_core.specs.fab_model.specs.Deeds.{cost_of, deed_in, deed_of};
ghost use Rattle.fab_core.specs.fab_model.specs.Tokens.{token_of};
ghost use Rattle.fab_core.specs.ten_parcel.specs.Parcels.{is_moved, number_of, ticks_of};
ghost use Rattle.fab_bay.specs.Refusals.{IsAway, IsRefusal};
ghost use Rattle.fab_bay.specs.Standing.{IsNoted};
ghost use Rattle.fab_bay.specs.Ways.{IsPut};

use crate::berth::Berth;
use crate::leaving::{DeskError, Receipt, Refused};
use crate::noted::NotedCore;
use fab_core::laws::points_tell_of_tenants;
use fab_core::note::Note;
use fab_core::transit::Transit;
use std::alloc::{AllocError, Global};
use std::snapshot::Snapshot;
use vl_design::capacity::Cost;

/// The place of the first of a number.
pub(crate) fn berth_of(berths: &[Berth], number: u32) -> Option<usize>
    ensures { result ≡ position (λ b. b.tenant == number) berths.now }
{
    berths.iter().position(|b| b.tenant == number)
}

/// A cost is within a capacity.
fn is_within(cost: Cost, capacity: Cost) -> bool
    ensures { result ≡ within cost capacity }
{
    cost.regs <= capacity.regs && cost.cells <= capacity.cells && cost.mem <= capacity.mem
}

impl Berth {
    /// What is noted of a tenant that is put in line. It has room for one stay more.
    fn waiting(alloc: Global, transit: &Transit) -> Result<Berth, AllocError>
        ensures tenant { IfOk result (λ b. b.tenant ≡ number_of transit.now.parcel) }
        ensures since { IfOk result (λ b. b.since ≡ ticks_of transit.now.parcel) }
        ensures noted { IfOk result (λ b. b.noted ≡ ticks_of transit.now.parcel) }
        ensures line { IfOk result (λ b. b.line.value ≡ transit.now) }
        ensures by_move { IfOk result (λ b. b.by_move ≡ is_moved transit.now.parcel) }
        ensures stays { IfOk result (λ b. b.stays.items ≡ transit.now.stays.items) }
        ensures room { IfOk result (λ b. vec_len b.stays < vec_capacity b.stays) }
    {
        let mut stays = Vec::from_slice(alloc, &transit.stays)?;
        stays.reserve(1)?;
        let tick = transit.parcel.ticks();
        Ok(Berth {
            tenant: transit.parcel.number(),
            since: tick,
            noted: tick,
            by_move: transit.is_moved(),
            stays,
            line: Snapshot::of(transit),
        })
    }
}

impl NotedCore {
    /// A tenant of this number is a resident or in line.
    pub(crate) fn is_there(&self, number: u32) -> bool
        ensures { result ≡ (is_some (position (λ b. b.tenant == number) self.now.berths.items) || is_some (position (λ b. b.tenant == number) self.now.waiting.items)) }
    {
        berth_of(&self.berths, number).is_some() || berth_of(&self.waiting, number).is_some()
    }

    /// Makes room for a note of one more in line. Nothing else changes.
    fn prepare_line(&mut self) -> Result<(), AllocError>
        ensures label { self.new.label ≡ self.old.label }
        ensures core { self.new.core ≡ self.old.core }
        ensures berths { self.new.berths ≡ self.old.berths }
        ensures waiting { self.new.waiting.items ≡ self.old.waiting.items }
        ensures notes { self.new.notes.items ≡ self.old.notes.items }
        ensures told { self.new.told ≡ self.old.told }
        ensures room { OnOk result ((vec_len self.new.notes < vec_capacity self.new.notes) × (vec_len self.new.waiting < vec_capacity self.new.waiting)) }
    {
        if self.notes.reserve(1).is_err() {
            return Err(AllocError);
        }
        if self.waiting.reserve(1).is_err() {
            return Err(AllocError);
        }
        Ok(())
    }

    /// A tenant at rest that hasn't ended is last in the line, and that is written; or else it is given back: where it takes more than the
    /// fabric has, where a tenant of its number is a resident or in line, or for want of memory. Then all is as it was.
    pub(crate) fn put(&mut self, number: u32, transit: Transit) -> Result<Receipt, Refused>
        requires fabric { (f : Fabric) × IsNoted self.old f }
        requires transit { (p : Point) × IsPointOf transit.parcel p × (ended p ≡ None) }
        requires tenant { number_of transit.parcel < self.old.label.tenants }
        requires first { self.old.label.any_puts ≡ false → number ≡ 0 }
        ensures put { IfOk result (λ r. IsPut number self.old self.new transit r) }
        ensures room { IfOk result (λ r. (within (cost_of (deed_of transit)) self.old.label.capacity ≡ true) × IsAway self.old.notes.items (number_of transit.parcel)) }
        ensures arrived { OnOk result ((f : Fabric) (p : Point) → IsNoted self.old f → IsPointOf transit.parcel p → IsNoted self.new (arrived p f)) }
        ensures back { IfErr result (λ r. r.transit ≡ transit) }
        ensures why { IfErr result (λ r. IsRefusal self.old.label.capacity self.old.notes.items (token_of transit) r.why) }
        ensures same { OnErr result ((f : Fabric) → IsNoted self.old f → IsNoted self.new f) }
        ensures label { self.new.label ≡ self.old.label }
        ensures notes { OnErr result (self.new.notes.items ≡ self.old.notes.items) }
        ensures berths { self.new.berths ≡ self.old.berths }
        ensures told { OnErr result (self.new.told.items ≡ self.old.told.items) }
    {
        points_tell_of_tenants();
        let cost = transit.parcel.cost();
        let capacity = self.label.capacity;
        if !is_within(cost, capacity) {
            return Err(Refused {
                why: DeskError::TooLarge(cost, capacity),
                transit,
            });
        }
        let tenant = transit.parcel.number();
        if self.is_there(tenant) {
            return Err(Refused {
                why: DeskError::Doubled(tenant),
                transit,
            });
        }
        if self.prepare_line().is_err() {
            return Err(Refused {
                why: DeskError::Memory,
                transit,
            });
        }
        let alloc = *self.notes.allocator();
        let Ok(berth) = Berth::waiting(alloc, &transit) else {
            return Err(Refused {
                why: DeskError::Memory,
                transit,
            });
        };
        let note = Note::line(number, &transit);
        let Transit {
            parcel,
            stays,
            resident,
        } = transit;
        match self.core.arrive(parcel) {
            Err(refused) => Err(Refused {
                why: DeskError::Memory,
                transit: Transit {
                    parcel: refused.parcel,
                    stays,
                    resident,
                },
            }),
            Ok(()) => {
                let entry = note.entry;
                let position = self.notes.len() as u64;
                self.notes.push_reserved(note);
                self.waiting.push_reserved(berth);
                Ok(Receipt { entry, position })
            }
        }
    }
}
