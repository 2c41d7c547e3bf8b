//! What a report says of each tenant of a script, by the histories of the fabrics.
//!
//! Proved: from a legal history a report reads a tenant's stays, and how often it is put in line at a tick, as its notes have them; and a
//! move of a plan puts it in line once (`laws.rt`).
//!
//! Proved: `tell` gives of each tenant what a report says of it, the stays in order, and the snapshots that its run keeps (`tell`).
#![tactic(auto)]

mod ending;
pub mod laws;
mod lines;
mod order;
pub mod tell;

pub use fab_model::transit;
