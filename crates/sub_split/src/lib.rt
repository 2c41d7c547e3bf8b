//! The splitter: it cuts the blocks of a design into a table of nodes, which refer to the design's own statements.
//!
//! Proved: `split` gives exactly the table of nodes that the definition makes of a design, and where time zero's nodes begin (`split`, by
//! `table`, `early`).
//!
//! Tested: that it takes memory and time by what it makes.
#![tactic(auto)]

mod calls;
mod making;
mod marks;
pub mod split;
mod statements;
pub mod table;
mod waves;

pub use vl_design::{Text, design};
