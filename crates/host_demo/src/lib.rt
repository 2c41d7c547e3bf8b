//! The command `demo`: its script, the sources of its tenants, and the summary of their runs.
//!
//! Proved: the script, the sources and the summary of the demonstration are exactly as defined (`script_text`, `summary`), and its store
//! has just these sources (`store_of`); law: for 1 to 32 tenants the script has a reading, and all that is read for it is there
//! (`laws.rt`).
//!
//! Tested: that the sources are accepted.
#![tactic(auto)]

pub mod laws;
pub mod script;
pub mod source;
pub mod store;
pub mod summary;
