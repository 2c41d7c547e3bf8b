//! Unrolling: the same design without loops, or the first limit that it passes.
//!
//! Proved: the same design with its loops unrolled, each place kept, exactly as defined, or the first of limits 8 and 9 that it passes
//! (`unroll`, by `Unrolls`), where its signals have 1 to 128 bits.
#![tactic(auto)]

mod copies;
mod designs;
mod put;
mod statements;
mod targets;
pub mod unroll;

pub use vl_design::{design, stop};
