//! What an instance is given by its parameters and ports, and what its names stand for (IEEE 1364-2005, clauses 12.2 and 12.3).
//!
//! Proved: what an instance is given and what its names stand for, exactly as defined (`environment`, `port_connections`, `locals`); laws
//! tie the tables to the definitions (`laws.rt`).
#![tactic(auto)]

pub mod connections;
pub mod environment;
pub mod functions;
pub mod given;
pub mod laws;
mod parameters;
pub mod scope;
mod signals;
pub mod variables;
