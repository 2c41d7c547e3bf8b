//! The emitter of cells: one function for each kind of operation, expression node, assignment on a path and nonblocking assignment (IEEE
//! 1364-2005, clauses 5.4, 5.5 and 9.2).
//!
//! Each takes the allocator first. Its only error is want of memory, and slots that were there stay then too.
//!
//! Proved: one cell more for each kind of operation: the list is as it was with at most that cell behind, and the new slot holds the
//! operation over the slots that it is given, for all banks (`grows`, `gives`).
//!
//! Proved: likewise for the nodes of expressions, each at a width and a sign, with how many cells it takes: numbers, words, selects,
//! operators, `?:`, concatenations, replications (`grows`, `gives`).
//!
//! Proved: assignments to signals and bits of them, branches and labels of a case as cells, on paths: what the slots hold behind is what
//! the statement leaves where the path is taken, and what was there where it isn't (`assigns`, `first`, `second`, `gives`); lemmas for
//! whole statements.
//!
//! Proved: the cells that a process begins with read the register of each signal but clock names and loop variables, which are 0, and hold
//! what expressions read where the bank does (`fits`, `longer`, `stands`).
//!
//! Proved: updates of nonblocking assignments that are pending, in slots: on any values these slots, an update value and a mask for each
//! signal and sites for words of memories, give what the updates give in order; one update more is made pending where its path is taken
//! (`delay`, `delay_word`, by `delays`); lemmas for whole statements.
#![tactic(auto)]

pub mod assign;
pub mod at;
pub mod copies;
pub mod delay;
pub mod operators;
pub mod paths;
pub mod pending;
pub mod place;
pub mod reads;
pub mod reads_reads;
pub mod steps;

pub use cell_form::bank::{Bank, PortMap};
pub use cell_form::{cell, table};
pub use vl_base::bits::BinOp;
pub use vl_base::items::Items;
