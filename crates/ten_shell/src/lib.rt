//! A tenant without its bank, for whoever keeps the banks: what it has kept, and when it saves, stops or leaves.
//!
//! Proved: a shell is a tenant without its bank; with a bank it stands for a point of its run alone, and what it keeps is what the run
//! alone keeps there (`StandsFor`): a cycle, a served call, a snapshot made, one made besides and a stop each lead to exactly the next such
//! point (`stepped`, `serve`, `save`, `stop`); which snapshot is due, why its run has ended, and why it is to leave where it rests, are
//! those of the run alone and its plan (`save_due`, `end`, `due`).
#![tactic(auto)]

pub mod laws;
mod saves;
pub mod shell;

pub use ten_core::{Bank, Text, design, engine, held};
