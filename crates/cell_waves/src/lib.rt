//! The cells of a state beside those of its statements: what it begins with, nets, the clock's rise, the writes at its end, and the update.
//!
//! Proved: one pass over combinational processes in order as cells: behind them slots hold the values that the pass leaves (`pass`, by
//! `passes`), with at most so many cells as counted.
//!
//! Proved: what the cells of a state begin with: slots hold each variable as its one register has it, and each net and combinational
//! variable as one pass over the other registers computes it (`begin`, by `stands`).
//!
//! Proved: the cells that a state begins with: slots hold the work copies, nets over the committed values, and the pending updates
//! (`begun`, by `begins`); the clock's rise counts a tick (`rise`); an update is applied to the signals of which updates can be pending
//! (`applied`); the writes of the registers that a state changes are exactly those listed (`write_changed`, `write_pending`, `write_all`).
//!
//! Proved: pending writes to words of memories in registers: all are read as sites (`read`), a segment's own are kept (`keep`), and an
//! update does all in order and clears them (`apply`); laws: the sites say what is pending, behind a segment the registers say what all
//! pending updates make of words, and behind the update each memory holds it (`laws.rt`).
//!
//! Tested: pending writes, by the rows of `machine_rows` whose nonblocking assignments write words of memories (section `splits`).
#![tactic(auto)]

pub mod apply;
pub mod begin;
pub mod begin_begin;
pub mod begun;
mod copies;
pub mod keep;
pub mod laws;
pub mod pass;
pub mod read;
pub mod rise;
pub mod update;
mod widths;
pub mod writes;
