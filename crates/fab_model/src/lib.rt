//! Fabrics as definitions: where tenants are in their runs, the events of a fabric, its history of notes, and the stays that these tell.
//!
//! Defined: points of tenants, fabrics of points and their events as functions, and several fabrics with the tenants in transit between
//! them.
//!
//! Proved: over every list of steps from fabrics without tenants, where tenants are loaded, each fabric has its events, and tenants in
//! transit are saved and stopped: each tenant that was loaded is in exactly one place, with the number and the origin that it was loaded
//! with (`each_tenant_is_in_one_place`), acts never become fewer, the residents of each fabric fit it, each is on the way of its run where
//! what was loaded was, and what it has printed is a front of what its run alone prints; no event makes two tenants of a fabric have one
//! number (`laws.rt`).
//!
//! Proved: the notes of a fabric's history, and what a tenant takes along between fabrics: each note is exactly as its call says (`line`,
//! `came`, `ran`, `saved`, `left`), and `load` gives a tenant at its first boundary without stays (`load`); laws: in a legal history the
//! notes of each tenant may follow one another, a history stays legal where one note more may follow and has room, whoever leaves starts
//! from what is named for its number, where whoever is put in line does, and a tenant has left behind the move of a tick just as often as
//! it was put in line behind it or left for it (`notes_laws.rt`).
#![tactic(auto)]

pub mod laws;
pub mod note;
pub mod notes_laws;
pub mod transit;

pub use fab_lock::{Entry, Kept, Kind, Lock, LockSeat};
pub use ten_core::origin;
pub use ten_parcel::{parcel, tenant};
