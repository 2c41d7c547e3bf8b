//! A tenant that runs alone, to the end of its run.
//!
//! Proved: `run_alone` gives the tenant of an image at the end of its run alone, by its plan, over its files, and from its snapshot if it
//! is resumed (`run_alone`); law: each image of a tenant's design can be run so (`laws.rt`).
#![tactic(auto)]

pub mod alone;
pub mod laws;

pub use ten_core::origin;
pub use ten_parcel::parcel;
