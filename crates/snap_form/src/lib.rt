//! Snapshots as bytes: written, and read with the first fault.
//!
//! Proved: `to_bytes` gives exactly a snapshot's bytes; `from_bytes` gives the one snapshot of the design's rows and the files with that
//! spelling, or exactly the first fault by field, with its kind and offset (`outcome`, `found`, `only`); laws: what is written is read
//! back, what is read is spelt so, one spelling a snapshot, one outcome of bytes (`laws.rt`).
#![tactic(auto)]

mod fault;
mod fields;
pub mod laws;
pub mod reading;
pub mod snapshot;
pub mod writing;

pub use vl_base::files;
pub use vl_base::items::{Bytes, Items, Text, Words};
