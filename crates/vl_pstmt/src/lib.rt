//! The parser of statements, which is exactly their grammar (IEEE 1364-2005, annex A.6), and the steps that parsers share.
//!
//! Proved: statements, left sides and argument lists are read exactly as the definitions' reader reads them, with limits 3 and 4 (`reads`).
//!
//! Tested: its stack, by `check_rows`.
#![tactic(auto)]

mod assignments;
mod limits;
pub mod reader;
pub mod statements;
pub mod steps;
pub mod targets;

pub use vl_pexpr::ParseFault;
