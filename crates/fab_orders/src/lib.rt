//! What tenants on many fabrics start from, what an operator orders meanwhile, and what comes of both, as definitions.
//!
//! Defined: starts, orders, answers and outcomes (`outcomes.rt`), and when tenants have run as they were ordered (`Starts`, `Orders`,
//! `Outcomes`).
#![tactic(auto)]

pub mod outcomes;

pub use fab_desk::parcel;
