//! Tenants at rest, and on their way from one boundary to the next; and how their runs begin, from nothing or from a snapshot.
//!
//! Proved: `begin` gives the engine and the bank of a run at its first boundary: behind time zero, which it runs, or resumed from what
//! another run held, with its words, files and tick; or what the run came to where it has finished in time zero (`begin`, by `IsBegun`).
//!
//! Proved: a parcel is a tenant at rest, at a boundary or finished, also in time zero: `load` gives the one at the first boundary with the
//! snapshots made that are due there, and what it says of the bytes printed, the acts, the snapshots kept and the end is that of the run
//! alone at its tick, from nothing or from a snapshot (`load`, `printed`, `cycles`, `saves`, `ended`, `into_remains`); it can be stopped
//! and saved besides (`stop`, `save`), and knows its cost (`cost`); a tenant is one on its way: each cycle is the next act, or comes to a
//! call, and says which, each served call is the act, and it comes to rest as a parcel of the same point (`cycle`, `serve`, `run`,
//! `into_parcel`, by `IsOn`, `IsParcel`).
#![tactic(auto)]

mod bank;
pub mod laws;
pub mod load;
pub mod parcel;
mod reopen;
mod resume;
pub mod tenant;

pub use ten_core::{Bank, Cost, Text, design, held, origin};
pub use ten_shell::shell;
