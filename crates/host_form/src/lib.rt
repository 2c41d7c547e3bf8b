//! What a tenant of a script starts from or why it is refused, and what the report of a script says, as definitions.
//!
//! Defined: what a tenant starts from or why it is refused, what comes of it, what a reply may be, a script's report and the snapshots it
//! leaves.
//!
//! Proved: seven worked rows computed from these (`rows.rt`).
//!
//! Proved: one origin or one refusal, stays in one way, ticks within the budget, a stop has a cause (`laws.rt`); one report and one set of
//! files for given replies, wherever a source is judged in one way (`proofs/Whole`).
#![tactic(auto)]

pub mod laws;
pub mod refusal;
pub mod rows;

pub use fab_io::{
    dir_store, gate, mem_sink, mem_store, sink, std_sink, steady_sink, steady_store, store,
};
pub use host_text::{block, script, statement};
