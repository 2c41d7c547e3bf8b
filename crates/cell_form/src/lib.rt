//! Cells, banks of registers and memories, tables of states, and what one cycle of a list of cells does, as definitions.
//!
//! Defined: cells, banks, states and one cycle.
//!
//! Proved: laws in place of unfolding these: each slot is its operation over registers, memories and earlier slots, slots that were there
//! stay where a list gets longer, and of two writes to one place the later stands (`laws.rt`).
#![tactic(auto)]

pub mod bank;
pub mod cell;
pub mod laws;
pub mod table;

pub use vl_base::bits::{BinOp, Bits, UnOp};
pub use vl_base::files;
pub use vl_base::items::{Items, Nums, Text, Words};
