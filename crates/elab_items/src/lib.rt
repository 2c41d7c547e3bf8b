//! The modules of a source and their items with their operators bound, as plain trees.
//!
//! Proved: the modules of a source are turned into plain modules, header items first, exactly as the definitions of the flat design read
//! them (`prepare`).
#![tactic(auto)]

mod functions;
mod headers;
mod instances;
pub mod modules;
mod parameters;
mod signals;
mod triggers;
mod types;
