//! What is read from the store for the tenants of a script, and the snapshots that are written to it.
//!
//! Proved: `load` reads the sources, files and snapshots of a script's tenants in order, each within its limit, as the store tells them,
//! and says for what cause the first read failed; what it has read is told, within the limits (`load`).
//!
//! Proved: `write_all` writes the snapshots of a script's tenants in order, each under its tenant's name and its own; after a failure a
//! front of them is written (`write_all`).
#![tactic(auto)]

pub mod kept;
pub mod load;
pub mod loaded;
pub mod write;

pub use host_form::{block, refusal, script, statement, steady_store, store};
