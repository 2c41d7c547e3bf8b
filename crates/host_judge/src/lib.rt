//! Which tenants of a script run, from what, and why others are refused.
//!
//! Proved: `judge_all` says of each tenant of a script, by what was read of it, what its run starts from, or why it is refused: its
//! source's first fault, else its cost, else its snapshot's (`judge_all`); laws: tenants that were read are what a report reads, and those
//! that run are some of them (`laws.rt`).
//!
//! Proved: a source is judged in one way, and so a script has one report and one set of files for given replies, which its bytes tell
//! (`report_laws.rt`).
#![tactic(auto)]

pub mod judge;
pub mod kinds;
pub mod laws;
mod planning;
pub mod report_laws;
pub mod room;
mod starting;
pub mod verdict;

pub use host_files::{block, refusal, script};
pub use ten_core::origin;
