//! The modules of a source: their hierarchy, their connections, and the first fault of all names.
//!
//! Proved: `names` answers the first fault of a source's names by place and number, or that there is none, exactly (`fine`, `fault`,
//! `accepts`, `refuses`); `top_number` is the first module that none instantiates.
//!
//! Tested: its speed.
#![tactic(auto)]

mod components;
mod connections;
mod cycle;
pub mod hierarchy;
mod instances;
mod interface;
mod itself;
pub mod laws;
pub mod names;
mod numbers;
mod tops;
