//! The plain runner: it does the events of the queue on an accepted design, one after another.
//!
//! Proved: `run` runs a design whose combinational processes meet the rules and have an order, each once behind each wave and update, and
//! ends at the boundary and for the reason of the run alone, with its ticks and bytes (`run`).
//!
//! Tested: its speed.
#![tactic(auto)]

mod nets;
pub mod run;
mod wave;
