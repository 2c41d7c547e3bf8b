//! The expressions, left sides and statements of a source with their operators bound, as plain trees.
//!
//! Proved: expressions, left sides and statements of a source are turned into plain trees with their operators bound, exactly as the
//! definitions of the flat design read them (`bind`, `bind_left`, `bind_statement`).
#![tactic(auto)]

pub mod expressions;
pub mod lefts;
pub mod statements;
