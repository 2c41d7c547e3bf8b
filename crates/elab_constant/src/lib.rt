//! Constant expressions, types and widths in an instance of a module (IEEE 1364-2005, clauses 4.10, 5.4 and 5.5).
//!
//! Proved: tables of what an instance's names stand for read as the definitions' environments (`bind`, `meaning`); constant expressions
//! have as bounds, counts, widths and values of parameters what the definitions give them (`bound`, `count`, `width`, `converted`); so have
//! types (`type_range`) and expressions read for themselves (`form`).
#![tactic(auto)]

pub mod constant;
pub mod form;
pub mod forms;
pub mod ranges;
pub mod scope;
pub mod selects;
pub mod whole;
