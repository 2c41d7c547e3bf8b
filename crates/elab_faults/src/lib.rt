//! The faults of the expressions, statements and declarations of an instance: refused constructs 10, 11, 13 and 24.
//!
//! Each walk takes the first fault so far, and gives the first of that and of its own.
//!
//! Proved: the first fault of expressions, left sides, statements, types and outputs is the definitions' (`faults`, `target_faults`,
//! `statement_faults`, `type_faults`, `output_faults`).
#![tactic(auto)]

pub mod checks;
pub mod directions;
pub mod displays;
pub mod faults;
pub mod lefts;
pub mod long;
pub mod nets;
pub mod outputs;
pub mod statements;
pub mod types;
