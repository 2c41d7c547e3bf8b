//! Laws of what elaboration makes of each source: its processes, its functions, who writes what, its limits, and the names of its
//! snapshots.
//!
//! Proved: in the flat design of a source whose names have no fault continuous assignments are to constant selects, combinational processes
//! ask neither for the time nor for an answer, and only continuous assignments are to nets (`laws.rt`).
//!
//! Proved: the elaboration of each source is a design that `accept` takes: sound, with signals and locals of 1 to 128 bits, no input of a
//! function a loop variable, and such processes (`fit_laws.rt`).
//!
//! Proved: inputs, result and locals of a function in the elaboration of a source are its own, numbered behind the design's signals, and
//! its body asks neither for the time nor for an answer (`functions_laws.rt`).
//!
//! Proved: in the elaboration of a source combinational processes assign no variable that isn't said to be computed, and nothing that isn't
//! a signal; and of the variables that are, each that a process assigns is written by a combinational one (`writers_laws.rt`).
//!
//! Proved: in every accepted source a statement that reads an answer of a system function stands right behind its call, and nothing writes
//! loop variables or clocks (`asked_laws.rt`); what that means for resumed runs is said at `sub_runs`.
//!
//! Proved: in the elaboration of a source names of signals, their number, and the words of memories are within the limits, so that its
//! snapshots can be written (`limited_laws.rt`).
//!
//! Proved: each snapshot that a run of an accepted source keeps has a name of 1 to 32 letters, digits, `_`, `-` and `.`, where its plan and
//! the free orders give such names (`save_names_laws.rt`).
#![tactic(auto)]

pub mod asked_laws;
pub mod fit_laws;
pub mod functions_laws;
pub mod laws;
pub mod limited_laws;
pub mod save_names_laws;
pub mod writers_laws;

pub use ten_plan::{held, plan};
pub use vl_accept::accept::Accepted;
