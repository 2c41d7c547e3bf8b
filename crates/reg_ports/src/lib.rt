//! Ports: the variables and memories of a design in a bank, read and written word by word or as a whole, as by a scan chain.
//!
//! Proved: `read` and `write` read and set just one word of one port, of a variable both its registers; `capture` gives the words of all
//! ports in their order; `restore` sets them all, or refuses the wrong number of words or the first that is too wide, and then changes
//! nothing (`value`, `written`, `restored`, `fit`, `refused`, `unchanged`); laws: what was captured is restored, and captured again;
//! nothing else changes (`laws.rt`).
#![tactic(auto)]

pub mod capture;
pub mod laws;
pub mod port;
pub mod restore;
#[cfg(test)]
mod tests;

pub use cell_form::bank::{Bank, PortMap};
pub use cell_form::{Bits, Words};
