//! The parser of expressions, which is exactly their grammar (IEEE 1364-2005, clause 5 and annex A.8).
//!
//! Proved: `expression` reads exactly the grammar's expressions, with the first fault or limit 4; `expression_at` reads what the
//! definitions' reader reads.
//!
//! Tested: its speed; its stack, by `check_rows`.
#![tactic(auto)]

mod grammar;
pub mod parse;

pub use grammar::expression_at;
pub use parse::{ParseFault, expression};
pub use vl_tree::{Place, token, tree};
