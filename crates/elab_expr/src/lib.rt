//! The expressions, left sides and statements of an instance, as they stand in its design (IEEE 1364-2005, clauses 5, 6.1 and 9).
//!
//! Proved: expressions, left sides and statements of an instance become exactly those of the definitions (`exp`, `target`, `output_target`,
//! `statement`).
#![tactic(auto)]

pub mod expressions;
pub mod labels;
pub mod leaves;
pub mod lefts;
pub mod statements;
pub mod targets;
