//! The texts of the host: scripts, as they are read or refused, and the report, as it is written.
//!
//! Proved: the lines of a script (`lines`), and what a line says by itself, or its least cause of 1, 2, 3 and 8 (`read_line`), exactly as
//! defined.
//!
//! Proved: `read_script` gives exactly what the lines of a script declare, or the first line with its least cause (`read`, `fault`); laws:
//! a script has one reading or one first fault, never both; it keeps to its limits, and its errands to their order (`text_laws.rt`).
//!
//! Proved: exactly a report's bytes are added (`report`); reports of the same bytes say the same of the same tenants, and those of the same
//! orders have the same replies (`laws.rt`).
#![tactic(auto)]

mod adding;
pub mod block;
mod causes;
mod classes;
mod draft;
mod errands;
pub mod laws;
pub mod line;
pub mod lines;
pub mod read;
pub mod report;
pub mod script;
pub mod statement;
pub mod text_laws;
mod words;

pub use ten_plan::{Bytes, Cost, Items, Place, Text, plan};
