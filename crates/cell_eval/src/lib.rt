//! The evaluator of cells: one cycle of a list of cells on a bank.
//!
//! Proved: `cycle` does one cycle of a list of cells on a bank that it may run on, exactly as defined, and takes no memory (`cycle`).
//!
//! Tested: its speed: 3.3 to 3.9 ns a cell at 8 to 128 bits.
#![tactic(auto)]

pub mod cycle;
pub(crate) mod masks;
pub(crate) mod placing;
pub(crate) mod selects;
pub(crate) mod shifts;
pub(crate) mod value;

pub use cell_form::bank::Bank;
pub use cell_form::cell;
pub use vl_base::files;
pub use vl_base::items::{Items, Nums, Text};
