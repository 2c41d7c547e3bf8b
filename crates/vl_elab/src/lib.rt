//! Elaboration: from the tree of a source to its flat design, or its first fault (IEEE 1364-2005, clause 12).
//!
//! Proved: `elaborate` gives the flat design of a source, with each place, path, number and kind, or else the first fault of its names and
//! then of its design, exactly as defined (`elaborated`, by `IsElaboration`); the design is sound, and no input of a function in it is a
//! loop variable (`sound`, `inputs`); a source has one elaboration, one without faults of names has a top, and operators are bound as in
//! the grammar (`laws.rt`).
//!
//! Tested: what its designs look like, by `check_rows`.
#![tactic(auto)]

pub mod elaborate;
mod faults;
mod functions;
mod here;
mod instances;
mod items;
pub mod laws;
mod library;
mod limits;
mod making;
mod ports;
mod processes;
mod signals;

pub use elab_plain::source_tree;
pub use vl_design::capacity::Cost;
pub use vl_design::{Place, design, stop};
