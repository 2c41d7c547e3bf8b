//! The lock of a fabric: one thread at a time has the value, whose history only grows, and each thread knows what of it is its own.
//!
//! Proved: a lock over an atomic table, by the whole view of each seat: what `grab` finds, what `give` may leave, words that only rise, and
//! seats that are split and joined (`grab`, `give`, `post`, `glance`, `read`, `split`, `join_seat`); laws: a note more raises its word,
//! what a joined seat knew is found (`laws.rt`).
//!
//! Tested: that two threads take turns.
#![tactic(auto)]

mod entry;
mod kept;
pub mod laws;
mod lock;
mod rule;
mod seat;
mod steps;
mod table;
#[cfg(test)]
mod tests;
mod view;

pub use entry::{Entry, Kind};
pub use kept::Kept;
pub use lock::Lock;
pub use seat::LockSeat;
pub use view::View;
