//! The desk of a fabric: threads share a bay, each from a seat of its own.
//!
//! Proved: threads share a bay, each from a seat: `put`, `turn` and `take` find a legal history that begins with what their seat has seen,
//! with just the notes of its own that the seat gave, and do to it what the bay's call does.
//!
//! Proved: `progress` gives a tick that isn't below what the seat has seen or was told, and that no history which it finds later falls
//! short of.
//!
//! Proved: `seat` gives a number that no other seat has, `join_seat` what both seats know, `close` the bay (`put`, `turn`, `take`,
//! `progress`, `seat`, `join_seat`, `close`, by `DidPut`, `DidTurn`, `DidTake`, `Finds`). The bay of a desk that has ended is a `Closed`,
//! which no other public call gives.
//!
//! Proved: threads may share a desk, and be given it and its seats (`laws.rt`).
//!
//! Tested: rows of `machine_rows`, also of two threads that put from two seats, 300 times; its speed: a turn of 4,096 cycles of a counter took
//! 0.45 ms, one that found nobody 0.0005 ms, the lock included.
#![tactic(auto)]

pub mod calls;
pub mod closed;
pub mod desk;
pub mod laws;

pub use fab_bay::{Text, bay, leaving, noted, parcel, transit};
