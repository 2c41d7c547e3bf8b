//! The host: from the words of the command line to the bytes of the report. Its call `host` has the claim of the whole program.
//!
//! Proved: `host`, by the clauses of the claim (docs/PROVED.md, "The claim"); over a store and a sink that never fail it answers 0, 3, 4 or 7
//! where it is told what the words name (`host_in_memory`); `Bays` is the list of bays (`new`, `get`).
//!
//! Proved: `run_script` begins the runs of a script's tenants that aren't refused, runs them on its fabrics until each has ended, and gives
//! the report, by the histories of the bays that it gives too, and the snapshots that are to be written (`run_script`).
//!
//! Tested: that calls succeed where memory is ample.
//!
//! Tested: `run_script`, by the rows of `host_rows`; its speed.
#![tactic(auto)]

pub mod bays;
mod begin;
mod begun;
mod due;
pub mod host;
mod labels;
mod lines;
mod matches;
mod parts;
mod prepared;
mod put;
pub mod reported;
pub mod run;
mod said;
mod starts;
pub mod steady;
mod words;

pub use fab_rounds::bay;
pub use host_form::{
    dir_store, gate, mem_sink, mem_store, sink, std_sink, steady_sink, steady_store, store,
};
