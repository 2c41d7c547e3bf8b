//! What a design costs of a fabric: register bits, cells and memory bits.
//!
//! Proved: of a design whose loops are unrolled: its cost (register bits, cells, memory bits) exactly as defined, or 2^64 - 1 where a
//! number is greater (`cost`).
#![tactic(auto)]

mod bodies;
pub mod cost;
mod displays;
mod expressions;
mod passes;
mod registers;
mod signals;
mod statements;
mod sums;
mod tasks;

pub use vl_design::capacity::Cost;
pub use vl_design::design;
