//! The command `check`: what the design of a source costs, or why it is refused.
//!
//! Proved: `check` gives the cost of the design for which a source stands, or its refusal, with the status, and compiles nothing (by
//! `HasChecked`).
#![tactic(auto)]

pub mod check;
