//! The uses of names in a source, and the first that is refused: constructs 1, 2, 4, 8 and 9.
//!
//! Proved: `first_use_fault` gives the earliest fault of uses: z digits, undeclared names, names of the wrong kind, what no constant has,
//! system calls; the list has just the faults of the relation (`laws.rt`).
#![tactic(auto)]

mod alone;
mod calls;
mod declarations;
mod expressions;
pub mod faults;
mod formats;
mod kinds;
pub mod laws;
mod names;
mod parts;
pub mod setting;
mod statements;
