//! Designs with their loops unrolled, what unrolling keeps, and how many turns a loop has.
//!
//! Defined: a design with its loops unrolled, and limits 8 and 9.
//!
//! Proved: with loops unrolled the cost is the same, what is sound stays so, and no loop is left; and of a sound design whose loop
//! variables are assigned in the headers of their loops alone, by loop variables and numbers without concatenations: each block does the
//! same, its count of acts included, functions give the same, the run alone is the same from every start, and places stay (`laws.rt`).
//!
//! Proved: of a loop with such a header: the turns, with the number of its variable in each, are those of the definition, or there are more
//! than 4,096 (`turns_of`).
#![tactic(auto)]

pub mod forms;
pub mod header;
pub mod laws;
pub mod room;
pub mod selects;
pub mod values;

pub use vl_design::capacity::Cost;
