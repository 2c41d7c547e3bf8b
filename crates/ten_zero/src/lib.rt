//! Time zero in software: initial blocks, statement by statement, with the acts that a run counts.
//!
//! Proved: `run_zero` does time zero of a design without loops in software: its initial blocks whole, and what settles behind them; it is
//! what the run of the design's table comes to, after as many acts (`run_zero`, by `IsBehindZero`).
#![tactic(auto)]

mod acts;
pub mod early;
mod nets;
mod setting;
pub mod zero;
