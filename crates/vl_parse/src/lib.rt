//! The parser of sources, which is exactly their grammar (IEEE 1364-2005, annexes A.1 to A.6).
//!
//! Proved: `parse` gives the tree of the grammar, the only one (`read`, `only`, `within`), or exactly the first fault or limit (`fault`,
//! `limit`); and each comes where it holds (`accepts`, `refuses`, `limits_statements`, `limits_expressions`).
//!
//! Tested: its speed; its stack, by `check_rows`.
#![tactic(auto)]

mod declarations;
mod functions;
mod instances;
mod items;
mod modules;
mod ports;
pub mod sources;
mod steps;
mod triggers;

pub use sources::parse;
pub use vl_pstmt::ParseFault;
pub use vl_tree::{Place, source_tree, token};
