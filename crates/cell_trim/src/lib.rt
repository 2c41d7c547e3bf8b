//! Removal of unused cells: a list of cells without those that its writes don't need.
//!
//! Proved: of a list of cells those that its writes and the wanted slots need, moved to slots from a given number on: no more cells, slots
//! of the same values and widths, and writes that do the same to every bank (`trim`, by `values`, `widths`, `writes`, `sound`, `few`).
#![tactic(auto)]

mod copies;
mod marks;
mod moves;
pub mod trim;
