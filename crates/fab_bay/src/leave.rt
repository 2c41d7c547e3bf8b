//! Tenants that come out.

ghost use Rattle.std.specs.Prelude.{◌≡◌, ◌++◌, ◌∷◌, ◌<◌, ◌≤◌, ◌+◌, ◌==◌, [], position, length, None, false, true, List, Some, IfOk, OnOk, OnErr, IfSome, IsNone, vec_len, vec_capacity};
ghost use Rattle.vl_design.specs.Alone.{first_tick};
ghost use Rattle.fab_core.specs.ten_parcel.specs.Parcels.{number_of, run_of, ticks_of};
ghost use Rattle.fab_core.specs.ten_shell.specs.declared.shell.Why.{Why as Reason};
ghost use Rattle.fab_core.specs.fab_model.specs.Points.{due, Point};
ghost use Rattle.fab_core.specs.fab_model.specs.Fabrics.{first_of, has, Fabric};
ghost use Rattle.fab_core.specs.fab_model.specs.Worlds.{is_at_rest};
ghost use Rattle.fab_core.specs.fab_model.specs.declared.transit.Transit.{Transit as Out};
ghost use Rattle.fab_core.specs.fab_model.specs.Ends.{EndsNotBefore};
ghost use Rattle.fab_core.specs.fab_model.specs.Stays.{chains};
ghost use Rattle.fab_bay.specs.Acts.{moves_to_come};
ghost use Rattle.fab_bay.specs.Nearness.{BeginsNone, CameWithin};
ghost use Rattle.fab_bay.specs.Standing.{CanSettle, HasRoomFor, IsNoted};
ghost use Rattle.fab_bay.specs.Taking.{IsWithdrawn, KeepsFlag};
ghost use Rattle.fab_bay.specs.Ways.{Goes, LeftFor};

use crate::berth::Berth;
use crate::leaving::Leaving;
use crate::line::berth_of;
use crate::noted::NotedCore;
use fab_core::note::Note;
use fab_core::parcel::Parcel;
use fab_core::transit::{Stay, Transit};
use std::alloc::{AllocError, Global};

impl Berth {
    /// A resident as it leaves a fabric: with one stay more.
    fn into_leaver(self, fabric: u32, parcel: Parcel) -> Transit
        requires order { self.since ≤ ticks_of parcel }
        requires chained { chains (first_tick (run_of parcel).resume) self.stays.items self.since ≡ true }
        requires end { EndsNotBefore (run_of parcel) (ticks_of parcel) }
        requires room { vec_len self.stays < vec_capacity self.stays }
        ensures parcel { result.parcel ≡ parcel }
        ensures stays { result.stays.items ≡ self.stays.items ++ record { fabric = fabric; from = self.since; to = ticks_of parcel; by_move = self.by_move } ∷ [] }
        ensures resident { result.resident ≡ true }
    {
        let mut stays = self.stays;
        stays.push_reserved(Stay {
            fabric,
            from: self.since,
            to: parcel.ticks(),
            by_move: self.by_move,
        });
        Transit {
            parcel,
            stays,
            resident: true,
        }
    }

    /// A tenant as it is taken out of the line: with the stays that it has.
    fn into_withdrawn(self, parcel: Parcel) -> Transit
        requires since { self.since ≡ ticks_of parcel }
        requires chained { chains (first_tick (run_of parcel).resume) self.stays.items self.since ≡ true }
        requires end { EndsNotBefore (run_of parcel) (ticks_of parcel) }
        ensures parcel { result.parcel ≡ parcel }
        ensures stays { result.stays.items ≡ self.stays.items }
        ensures resident { result.resident ≡ false }
    {
        Transit {
            parcel,
            stays: self.stays,
            resident: false,
        }
    }
}

impl NotedCore {
    /// Takes a resident out that is due to leave, and writes that, where there is room for it.
    fn leave_with_room(&mut self, number: u32, tenant: u32) -> Leaving
        requires fabric { (f : Fabric) × IsNoted self.old f }
        requires rest { (f : Fabric) → IsNoted self.old f → is_at_rest f ≡ true }
        requires due { (f : Fabric) → IsNoted self.old f → (p : Point) × (why : Reason) × (first_of tenant f.residents ≡ Some p) × (due p ≡ Some why) }
        requires room { HasRoomFor (length self.old.berths.items + 2) self.old }
        ensures goes { (out : List Out) → Goes number 0 self.old self.new out (out ++ result.transit ∷ []) }
        ensures why { (f : Fabric) (p : Point) → IsNoted self.old f → first_of tenant f.residents ≡ Some p → due p ≡ Some result.why }
        ensures left { LeftFor result }
        ensures moves { moves_to_come self.new < moves_to_come self.old }
        ensures room { CanSettle self.new }
    {
        let Some(place) = berth_of(&self.berths, tenant) else {
            unreachable!()
        };
        self.ran_one(place, number);
        let fabric = self.label.fabric;
        let leaver = self.core.leave(tenant);
        let berth = self.berths.remove(place);
        let transit = berth.into_leaver(fabric, leaver.parcel);
        let note = Note::left(number, &transit);
        self.write(note);
        Leaving {
            transit,
            why: leaver.why,
        }
    }

    /// Takes a resident out that is due to leave, and writes that: where it moves, the move of its boundary is done. Want of memory leaves
    /// all as it was.
    pub(crate) fn leave(&mut self, number: u32, tenant: u32) -> Result<Leaving, AllocError>
        requires fabric { (f : Fabric) × IsNoted self.old f }
        requires rest { (f : Fabric) → IsNoted self.old f → is_at_rest f ≡ true }
        requires due { (f : Fabric) → IsNoted self.old f → (p : Point) × (why : Reason) × (first_of tenant f.residents ≡ Some p) × (due p ≡ Some why) }
        requires room { CanSettle self.old }
        ensures goes { IfOk result (λ l. (out : List Out) → Goes number 0 self.old self.new out (out ++ l.transit ∷ [])) }
        ensures err { OnErr result ((out : List Out) → Goes number 0 self.old self.new out out) }
        ensures why { IfOk result (λ l. (f : Fabric) (p : Point) → IsNoted self.old f → first_of tenant f.residents ≡ Some p → due p ≡ Some l.why) }
        ensures left { IfOk result (λ l. LeftFor l) }
        ensures moves { OnOk result (moves_to_come self.new < moves_to_come self.old) }
        ensures room { CanSettle self.new }
    {
        match self.prepare(2) {
            Err(error) => Err(error),
            Ok(()) => Ok(self.leave_with_room(number, tenant)),
        }
    }

    /// Takes a resident out, and writes that.
    fn take_resident(&mut self, number: u32, tenant: u32, place: usize) -> Transit
        requires fabric { (f : Fabric) × IsNoted self.old f }
        requires rest { (f : Fabric) → IsNoted self.old f → is_at_rest f ≡ true }
        requires place { position (λ b. b.tenant == tenant) self.old.berths.items ≡ Some place }
        requires room { HasRoomFor (length self.old.berths.items + 2) self.old }
        ensures goes { (out : List Out) → Goes number 0 self.old self.new out (out ++ result ∷ []) }
        ensures number { number_of result.parcel ≡ tenant }
        ensures flag { KeepsFlag self.old result }
        ensures withdrawn { IsWithdrawn result }
        ensures within { CameWithin self.old result }
        ensures near { BeginsNone self.old self.new }
        ensures room { CanSettle self.new }
    {
        self.ran_one(place, number);
        let fabric = self.label.fabric;
        let Some(parcel) = self.core.take(tenant) else {
            unreachable!()
        };
        let berth = self.berths.remove(place);
        let transit = berth.into_leaver(fabric, parcel);
        let note = Note::left(number, &transit);
        self.write(note);
        transit
    }

    /// Takes a tenant out of the line, and writes that.
    fn take_waiter(&mut self, number: u32, tenant: u32, place: usize) -> Transit
        requires fabric { (f : Fabric) × IsNoted self.old f }
        requires rest { (f : Fabric) → IsNoted self.old f → is_at_rest f ≡ true }
        requires none { position (λ b. b.tenant == tenant) self.old.berths.items ≡ None }
        requires place { position (λ b. b.tenant == tenant) self.old.waiting.items ≡ Some place }
        requires room { HasRoomFor (length self.old.berths.items + 2) self.old }
        ensures goes { (out : List Out) → Goes number 0 self.old self.new out (out ++ result ∷ []) }
        ensures number { number_of result.parcel ≡ tenant }
        ensures flag { KeepsFlag self.old result }
        ensures withdrawn { IsWithdrawn result }
        ensures within { CameWithin self.old result }
        ensures near { BeginsNone self.old self.new }
        ensures room { CanSettle self.new }
    {
        let Some(parcel) = self.core.take(tenant) else {
            unreachable!()
        };
        let berth = self.waiting.remove(place);
        let transit = berth.into_withdrawn(parcel);
        let note = Note::left(number, &transit);
        self.write(note);
        transit
    }

    /// Takes a tenant out, and writes that, where there is room for it.
    fn take_with_room(&mut self, number: u32, tenant: u32) -> Transit
        requires fabric { (f : Fabric) × IsNoted self.old f }
        requires rest { (f : Fabric) → IsNoted self.old f → is_at_rest f ≡ true }
        requires there { (f : Fabric) → IsNoted self.old f → has tenant f ≡ true }
        requires room { HasRoomFor (length self.old.berths.items + 2) self.old }
        ensures goes { (out : List Out) → Goes number 0 self.old self.new out (out ++ result ∷ []) }
        ensures number { number_of result.parcel ≡ tenant }
        ensures flag { KeepsFlag self.old result }
        ensures withdrawn { IsWithdrawn result }
        ensures within { CameWithin self.old result }
        ensures near { BeginsNone self.old self.new }
        ensures room { CanSettle self.new }
    {
        if let Some(place) = berth_of(&self.berths, tenant) {
            return self.take_resident(number, tenant, place);
        }
        let Some(place) = berth_of(&self.waiting, tenant) else {
            unreachable!()
        };
        self.take_waiter(number, tenant, place)
    }

    /// Takes a tenant out, from the residents or else from the line, and writes that. Want of memory leaves all as it was.
    pub(crate) fn take_out(&mut self, number: u32, tenant: u32) -> Result<Transit, AllocError>
        requires fabric { (f : Fabric) × IsNoted self.old f }
        requires rest { (f : Fabric) → IsNoted self.old f → is_at_rest f ≡ true }
        requires there { (f : Fabric) → IsNoted self.old f → has tenant f ≡ true }
        requires room { CanSettle self.old }
        ensures goes { IfOk result (λ t. (out : List Out) → Goes number 0 self.old self.new out (out ++ t ∷ [])) }
        ensures number { IfOk result (λ t. number_of t.parcel ≡ tenant) }
        ensures flag { IfOk result (λ t. KeepsFlag self.old t) }
        ensures withdrawn { IfOk result (λ t. IsWithdrawn t) }
        ensures within { IfOk result (λ t. CameWithin self.old t) }
        ensures err { OnErr result ((out : List Out) → Goes number 0 self.old self.new out out) }
        ensures near { BeginsNone self.old self.new }
        ensures room { CanSettle self.new }
    {
        match self.prepare(2) {
            Err(error) => Err(error),
            Ok(()) => Ok(self.take_with_room(number, tenant)),
        }
    }
}
