//! What a tenant is to do and when, and what it keeps: plans, snapshots, and the first boundary of its run.
//!
//! Proved: a tenant's plan and what it keeps: how far errands are done, which snapshot is due next, whether a stop or a move stands
//! (`before`, `next_save`, `stops`, `moves`, `past`); the last snapshot of each name is kept in its place (`keep`).
//!
//! Defined: snapshots as they are written and read.
#![tactic(auto)]

pub mod errands;
pub mod held;
pub mod laws;
pub mod plan;
pub mod saved;

pub use vl_design::capacity::Cost;
pub use vl_design::{Bytes, Items, Place, Text, Words, files};
