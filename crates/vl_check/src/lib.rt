//! Refused constructs 14 to 18 and 20 to 23 and limit 10: who drives and writes what, what may stand in a process or a function, recursion,
//! and names of snapshots.
//!
//! Proved: the first of refused constructs 15 to 18 and 20 to 23 in a design, but for recursion, and of variables and memories 14, exactly
//! as listed (`standing_fault`).
//!
//! Proved: the first recursion of functions in a design, at the call (construct 20), exactly (`recursive_call`).
//!
//! Proved: limit 10: the call that gives the 17th different name to `$save`, exactly (`saves_fault`).
//!
//! Proved: the first fault of constructs 14 to 18 and 20 to 23 and of limit 10 in a sound design, exactly (`uses`).
//!
//! Defined: designs whose combinational processes assign no variable that isn't said to be computed, and nothing that isn't a signal, and
//! in which, of the variables that are, each that a process assigns is written by a combinational one (`HasWriters`); `elab_laws` has the
//! law that elaborations are such.
//!
//! Tested: the speed of `standing_fault` and `uses`, and that of `recursive_call` where a source is recursive.
#![tactic(auto)]

mod bodies;
mod calls;
mod calls_calls;
mod calls_marks;
mod free;
mod headers;
mod kinds;
mod loops;
mod marks;
mod place;
mod processes;
pub mod recursion;
mod rules;
pub mod saves;
mod search;
pub mod standing;
mod triggers;
pub mod uses;
mod writers;

pub use vl_design::{design, stop};
