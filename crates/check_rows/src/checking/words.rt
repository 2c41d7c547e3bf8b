//! Faults and costs in words.

use std::alloc::{AllocError, Global};
use vl_design::Place;
use vl_design::capacity::Cost;

/// A cost by its three numbers.
pub fn costs(alloc: Global, cost: Cost) -> Result<String, AllocError> {
    format!(in alloc; "cost {} {} {}", cost.regs, cost.cells, cost.mem)
}

/// A fault of a kind that has no numbers, at its place.
pub fn plain(alloc: Global, kind: &str, place: Place) -> Result<String, AllocError> {
    format!(in alloc; "{kind} at {} {}", place.line, place.column)
}

/// A fault by its kind and its number, at its place.
pub fn numbered(alloc: Global, kind: &str, number: u8, place: Place) -> Result<String, AllocError> {
    format!(in alloc; "{kind} {number} at {} {}", place.line, place.column)
}
