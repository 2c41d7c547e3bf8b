//! Sized expressions: each node with the width and the sign of its context. No part of the program stands on it.
//!
//! Proved: `size` gives an expression each of whose nodes stands at a width and with a sign, and whose value, read node by node, is the
//! value of the definition in that context, for all values of the signals (`value`, `form`, `sized`); likewise read for itself and as a
//! right side (`size_own`, `size_assigned`).
#![tactic(auto)]

pub mod form;
pub(crate) mod own;
pub(crate) mod reading;
pub mod room;
pub mod size;

pub use vl_design::{design, sized};
