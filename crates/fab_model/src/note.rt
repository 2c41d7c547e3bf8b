//! Notes of a fabric's history.

ghost use Rattle.std.specs.Prelude.{◌≡◌, None, Some};
ghost use Rattle.fab_lock.specs.declared.entry.Kind.TheVariants as kind;
ghost use Rattle.ten_parcel.specs.Parcels.{number_of, ticks_of};
ghost use Rattle.fab_model.specs.Deeds.{deed_in, deed_of};

use crate::transit::Transit;
use fab_lock::{Entry, Kind};
use std::snapshot::Snapshot;

/// A note: what it tells of its seat, its tenant and its ticks; and of a tenant that is put in line or that leaves, what contracts know of
/// it. That has no bytes.
#[derive(Drop)]
pub struct Note {
    /// What it tells.
    pub entry: Entry,
    /// The tenant as it is put in line, or as it leaves.
    pub known: Option<Snapshot<Transit>>,
}

impl Note {
    /// A tenant is put in line.
    pub fn line(seat: u32, transit: &Transit) -> Note
        ensures entry { result.entry ≡ record { seat = seat; kind = kind.Line; tenant = number_of transit.now.parcel; from = ticks_of transit.now.parcel; to = ticks_of transit.now.parcel } }
        ensures deed { deed_in result ≡ Some (deed_of transit.now) }
    {
        Note {
            entry: at(
                seat,
                Kind::Line,
                transit.parcel.number(),
                transit.parcel.ticks(),
            ),
            known: Some(Snapshot::of(transit)),
        }
    }

    /// A tenant of the line becomes a resident.
    pub fn came(seat: u32, tenant: u32, tick: u64) -> Note
        ensures entry { result.entry ≡ record { seat = seat; kind = kind.Came; tenant = tenant; from = tick; to = tick } }
        ensures deed { deed_in result ≡ None }
    {
        Note {
            entry: at(seat, Kind::Came, tenant, tick),
            known: None,
        }
    }

    /// A resident has run the ticks behind one up to another.
    pub fn ran(seat: u32, tenant: u32, from: u64, to: u64) -> Note
        ensures entry { result.entry ≡ record { seat = seat; kind = kind.Ran; tenant = tenant; from = from; to = to } }
        ensures deed { deed_in result ≡ None }
    {
        Note {
            entry: Entry {
                seat,
                kind: Kind::Ran,
                tenant,
                from,
                to,
            },
            known: None,
        }
    }

    /// A snapshot of a resident is made.
    pub fn saved(seat: u32, tenant: u32, tick: u64) -> Note
        ensures entry { result.entry ≡ record { seat = seat; kind = kind.Saved; tenant = tenant; from = tick; to = tick } }
        ensures deed { deed_in result ≡ None }
    {
        Note {
            entry: at(seat, Kind::Saved, tenant, tick),
            known: None,
        }
    }

    /// A tenant leaves.
    pub fn left(seat: u32, transit: &Transit) -> Note
        ensures entry { result.entry ≡ record { seat = seat; kind = kind.Left; tenant = number_of transit.now.parcel; from = ticks_of transit.now.parcel; to = ticks_of transit.now.parcel } }
        ensures deed { deed_in result ≡ Some (deed_of transit.now) }
    {
        Note {
            entry: at(
                seat,
                Kind::Left,
                transit.parcel.number(),
                transit.parcel.ticks(),
            ),
            known: Some(Snapshot::of(transit)),
        }
    }
}

/// What a note tells that is of one tick.
fn at(seat: u32, kind: Kind, tenant: u32, tick: u64) -> Entry
    ensures { result ≡ record { seat = seat; kind = kind; tenant = tenant; from = tick; to = tick } }
{
    Entry {
        seat,
        kind,
        tenant,
        from: tick,
        to: tick,
    }
}
