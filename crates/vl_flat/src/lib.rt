//! The flat design of a source, as a definition (IEEE 1364-2005, clause 12).
//!
//! Defined: the flat design of a source, or its first fault in the design's order.
//!
//! Proved: a source with an instance, parameters and an override has the design written out by hand, computed from the definitions
//! (`rows.rt`).
#![tactic(auto)]

pub mod binding;
pub mod rows;

pub use vl_design::design;
