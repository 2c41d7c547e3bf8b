//! The compiler of expressions, calls of functions and statements to cells.
//!
//! Proved: expressions of a design, with calls of functions, and statements of combinational processes as cells: of every sound expression
//! in a context of at most 128 bits the new slot holds the value of the definition, for all values of signals, words of memories, the time
//! and the last answer that the bank holds (`compile`, by `gives`); behind a statement that only tests and assigns at once, slots hold what
//! `exec` leaves where its path is taken (`statement`, by `does`); slots that were there stay (`grows`), with at most so many cells as
//! counted; behind a statement of a block, with its nonblocking assignments to signals and to words of memories, slots hold the values and
//! the pending updates that the statement leaves (`segment`, `assign`, by `does`, `leaves`), with a site for each word that the statement
//! names, in their order (`sites`); laws: the cells counted for expressions, labels, statements and functions are at most what they cost,
//! and their slack (`laws.rt`).
#![tactic(auto)]

mod address;
mod body;
mod call;
mod case;
pub mod compile;
mod context;
mod expression;
pub mod laws;
mod leaf;
mod spot;
mod statement;
mod target;

pub use cell_emit::{at, cell, pending};
pub use vl_design::design;
