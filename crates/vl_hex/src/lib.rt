//! What `$readmemh` reads from a file into a memory (IEEE 1364-2005, clause 17.2.9).
//!
//! Proved: what `$readmemh` reads from a text into the words of a memory, exactly as defined (`load`).
#![tactic(auto)]

pub mod load;
mod position;
