//! Notes, and room for them.

ghost use Rattle.std.specs.Prelude.{◌≡◌, ◌<◌, ◌+◌, ◌++◌, ◌∷◌, [], suc, ℕ, List, Some, length, slice_get, slice_set, OnOk};
ghost use Rattle.fab_core.specs.fab_model.specs.Points.{tick_of, Point};
ghost use Rattle.fab_core.specs.fab_model.specs.Fabrics.{Fabric};
ghost use Rattle.fab_core.specs.Standing.{IsFabric};
ghost use Rattle.fab_core.specs.fab_model.specs.declared.note.Note.{Note as OneNote};
ghost use Rattle.fab_core.specs.fab_model.specs.declared.transit.Transit.{Transit as Out};
ghost use Rattle.fab_bay.specs.declared.berth.Berth.{Berth as OneBerth};
ghost use Rattle.fab_bay.specs.Berths.{AreSettled};
ghost use Rattle.fab_bay.specs.Marks.{marks, AreWhole, IsRunOf};
ghost use Rattle.fab_bay.specs.Standing.{CanSettle, HasRoomFor, IsNoted, IsSame};
ghost use Rattle.fab_bay.specs.Ways.{Settles};

use crate::noted::NotedCore;
use fab_core::note::Note;
use std::alloc::{AllocError, Global};

impl NotedCore {
    /// Makes room for a note of each resident and so many besides. Nothing else changes.
    pub(crate) fn prepare(&mut self, extra: usize) -> Result<(), AllocError>
        ensures room { OnOk result (HasRoomFor (length self.old.berths.items + extra) self.new) }
        ensures same { IsSame self.old self.new }
        ensures kept { (n : ℕ) → HasRoomFor n self.old → HasRoomFor n self.new }
    {
        let Some(count) = self.berths.len().checked_add(extra) else {
            return Err(AllocError);
        };
        if self.notes.reserve(count).is_err() {
            return Err(AllocError);
        }
        if self.told.reserve(count).is_err() {
            return Err(AllocError);
        }
        Ok(())
    }

    /// Writes a note, and what it tells.
    pub(crate) fn write(&mut self, note: Note)
        requires room { HasRoomFor 1 self.old }
        ensures label { self.new.label ≡ self.old.label }
        ensures core { self.new.core ≡ self.old.core }
        ensures berths { self.new.berths ≡ self.old.berths }
        ensures waiting { self.new.waiting ≡ self.old.waiting }
        ensures notes { self.new.notes.items ≡ self.old.notes.items ++ note ∷ [] }
        ensures told { self.new.told.items ≡ self.old.told.items ++ note.entry ∷ [] }
        ensures room { (n : ℕ) → HasRoomFor (suc n) self.old → HasRoomFor n self.new }
    {
        self.told.push_reserved(note.entry);
        self.notes.push_reserved(note);
    }

    /// Where a resident is ahead of its last note, writes its run up to its tick.
    pub(crate) fn ran_one(&mut self, place: usize, number: u32)
        requires fabric { (f : Fabric) × IsNoted self.old f }
        requires place { place < length self.old.berths.items }
        requires room { HasRoomFor 1 self.old }
        ensures goes { (out : List Out) → Settles number self.old self.new out }
        ensures kept { (f : Fabric) → IsNoted self.old f → IsNoted self.new f }
        ensures noted { (f : Fabric) (p : Point) (b : OneBerth) → IsFabric self.old.core f → slice_get f.residents place ≡ Some p → slice_get self.old.berths.items place ≡ Some b →
            self.new.berths.items ≡ slice_set self.old.berths.items place (record b { noted = tick_of p }) }
        ensures core { self.new.core ≡ self.old.core }
        ensures waiting { self.new.waiting ≡ self.old.waiting }
        ensures runs { (added : List OneNote) → self.new.notes.items ≡ self.old.notes.items ++ added → marks added ≡ [] }
        ensures one { (t : ℕ) (added : List OneNote) → ((b : OneBerth) → slice_get self.old.berths.items place ≡ Some b → b.tenant ≡ t) → self.new.notes.items ≡ self.old.notes.items ++ added → IsRunOf t added }
        ensures room { (n : ℕ) → HasRoomFor (suc n) self.old → HasRoomFor n self.new }
    {
        let (tenant, tick) = self.core.resident(place);
        let from = self.berths[place].noted;
        if from < tick {
            self.write(Note::ran(number, tenant, from, tick));
            self.berths[place].noted = tick;
        }
    }

    /// Writes the runs of the residents that are ahead of their last notes, in order.
    pub(crate) fn settle(&mut self, number: u32)
        requires fabric { (f : Fabric) × IsNoted self.old f }
        requires room { CanSettle self.old }
        ensures goes { (out : List Out) → Settles number self.old self.new out }
        ensures core { self.new.core ≡ self.old.core }
        ensures whole { (added : List OneNote) → self.new.notes.items ≡ self.old.notes.items ++ added → AreWhole added }
        ensures settled { (f : Fabric) → IsNoted self.new f → AreSettled self.new.berths.items f.residents }
    {
        for place in 0..self.berths.len() {
            self.ran_one(place, number);
        }
    }
}
