//! The bay of a fabric: its core with its history, and what a thread does with both while it has them.
//!
//! Proved: a bay is a core with its history, which is legal and whose replay its residents and its line are, with the ticks of their last
//! notes, each with its part of the joined bank standing for its point (`IsBay`), and whoever was put in line starts from what the bay's
//! label names for its number, if it names that (`stands`).
//!
//! Proved: `put` adds a tenant at the end of the line with its note, or gives it back exactly where it is too large, or else doubled, or
//! for want of memory.
//!
//! Proved: `turn` does events of a fabric in order, just as many cycles as asked for or until nobody is left, unless memory ends it, some
//! resident steps in each cycle, and `turn` says who came out, for what each was due to leave, and that the move which stands where it
//! rests is done just where it left for that, and that it hadn't come by that move, idle exactly where nobody was there.
//!
//! Proved: `take` takes a tenant out, or says that it isn't there exactly where it isn't, the move that stands where it rests is done just
//! where it was put in line there with it done, and over the whole call nobody's tick rises by more than one.
//!
//! Proved: the notes that a call adds bear its number, say who came out, tell each tick that was run, and, but for runs, are just those
//! that its events call for: one for each snapshot, for each tenant that joins, and for each that comes out; and no run is told in two
//! pieces (`put`, `turn`, `take`, by `IsPut`, `Turned`, `IsTaken`).
//!
//! Proved: `residents` and `line` are as noted; that a thread may be given a bay (`proofs/Crosses`).
//!
//! Tested: its speed.
#![tactic(auto)]

pub mod bay;
pub mod berth;
mod cycle;
mod flush;
mod leave;
pub mod leaving;
mod line;
pub mod noted;
mod rebuild;
mod serve;
mod take;
mod turn;

pub use fab_core::{Entry, Lock, LockSeat, note, parcel, shell, transit};
pub use ten_core::origin;
pub use vl_design::Text;
pub use vl_design::capacity::Cost;
