//! The tokens of a source and its trees, with the grammar that they follow (IEEE 1364-2005, clause 5 and annexes A.1 to A.8), as
//! definitions.
//!
//! Defined: tokens and first faults of a text.
//!
//! Defined: the trees and the grammar of expressions.
//!
//! Proved: laws on binding by precedence (`laws.rt`).
//!
//! Defined: the trees and the grammar of sources.
//!
//! Proved: a source has one tree, an `else` belongs to the nearest `if`, tokens are a source or have a first fault, which is the only one
//! (`source_laws.rt`).
#![tactic(auto)]

pub mod fault;
pub mod laws;
pub mod parts;
pub mod source_fault;
pub mod source_laws;
pub mod source_tree;
pub mod steps;
pub mod token;
pub mod tree;

pub use vl_base::bits::Bits;
pub use vl_base::items::{Items, Text};
pub use vl_base::number;
pub use vl_base::place::Place;
