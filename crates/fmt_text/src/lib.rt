//! Display text: what `$display` and its like print for a value by each item of a format (IEEE 1364-2005, clause 17.1).
//!
//! Proved: the text of a value by each item of a format, in as few digits as serve or at its width (`push_item`), and which letters are
//! items (`is_item`), exactly as defined.
//!
//! Proved: exactly the texts of pieces are added, and nothing where memory is short (`text`, by `ok`, `err`).
#![tactic(auto)]

pub mod format;
pub mod item;
pub mod piece;
pub mod show_text;
pub mod text;

pub use vl_design::{Bits, Text, design, words};
