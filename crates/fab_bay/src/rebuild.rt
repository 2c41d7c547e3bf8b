//! The joined bank made anew.

ghost use Rattle.std.specs.Prelude.{◌≡◌, ◌≤◌, ◌+◌, true, length, vec_len, vec_capacity, List, OnOk};
ghost use Rattle.fab_core.specs.fab_model.specs.Fabrics.{rebuilt, Fabric};
ghost use Rattle.fab_core.specs.fab_model.specs.Worlds.{is_at_rest};
ghost use Rattle.fab_core.specs.fab_model.specs.declared.transit.Transit.{Transit as Out};
ghost use Rattle.fab_bay.specs.Nearness.{BeginsNone};
ghost use Rattle.fab_bay.specs.Standing.{CanSettle, HasRoomFor, IsNoted};
ghost use Rattle.fab_bay.specs.Ways.{Goes};

use crate::noted::NotedCore;
use fab_core::note::Note;
use std::alloc::{AllocError, Global};

impl NotedCore {
    /// The tenants at the head of the line join the residents, as far as they fit, and that is written, where there is room for all.
    fn join(&mut self, alloc: Global, number: u32) -> Result<(), AllocError>
        requires fabric { (f : Fabric) × IsNoted self.old f }
        requires rest { (f : Fabric) → IsNoted self.old f → is_at_rest f ≡ true }
        requires room { HasRoomFor (length self.old.berths.items + length self.old.waiting.items + length self.old.waiting.items) self.old }
        requires free { vec_len self.old.berths + length self.old.waiting.items ≤ vec_capacity self.old.berths }
        ensures goes { (out : List Out) → Goes number 0 self.old self.new out out }
        ensures near { BeginsNone self.old self.new }
        ensures rebuilt { OnOk result ((f : Fabric) → IsNoted self.old f → IsNoted self.new (rebuilt f)) }
        ensures room { CanSettle self.new }
    {
        match self.core.rebuild(alloc) {
            Err(error) => Err(error),
            Ok(()) => {
                let total = self.core.residents();
                let before = self.berths.len();
                let count = total - before;
                for place in 0..count {
                    let berth = self.waiting.remove(0);
                    let note = Note::came(number, berth.tenant, berth.noted);
                    self.write(note);
                    self.berths.push_reserved(berth);
                }
                Ok(())
            }
        }
    }

    /// The same, where there is room for the notes.
    fn rebuild_with_room(&mut self, alloc: Global, number: u32) -> Result<(), AllocError>
        requires fabric { (f : Fabric) × IsNoted self.old f }
        requires rest { (f : Fabric) → IsNoted self.old f → is_at_rest f ≡ true }
        requires room { HasRoomFor (length self.old.berths.items + length self.old.waiting.items + length self.old.waiting.items) self.old }
        ensures goes { (out : List Out) → Goes number 0 self.old self.new out out }
        ensures near { BeginsNone self.old self.new }
        ensures rebuilt { OnOk result ((f : Fabric) → IsNoted self.old f → IsNoted self.new (rebuilt f)) }
        ensures room { CanSettle self.new }
    {
        let most = self.waiting.len();
        match self.berths.reserve(most) {
            Err(error) => Err(error),
            Ok(()) => self.join(alloc, number),
        }
    }

    /// The tenants at the head of the line join the residents, as far as they fit, and that is written; then the fabric holds no longer.
    /// Want of memory leaves all as it was.
    pub(crate) fn rebuild(&mut self, alloc: Global, number: u32) -> Result<(), AllocError>
        requires fabric { (f : Fabric) × IsNoted self.old f }
        requires rest { (f : Fabric) → IsNoted self.old f → is_at_rest f ≡ true }
        requires room { CanSettle self.old }
        ensures goes { (out : List Out) → Goes number 0 self.old self.new out out }
        ensures near { BeginsNone self.old self.new }
        ensures rebuilt { OnOk result ((f : Fabric) → IsNoted self.old f → IsNoted self.new (rebuilt f)) }
        ensures room { CanSettle self.new }
    {
        let most = self.waiting.len();
        match self.prepare(most * 2) {
            Err(error) => Err(error),
            Ok(()) => self.rebuild_with_room(alloc, number),
        }
    }
}
