//! The whole front end: from the text of a source to its accepted design, or why it is refused.
//!
//! Proved: `front` gives the design that a text stands for, with its loops unrolled and an order of its processes, or exactly the place and
//! the kind for which the text is refused (`front`); law: a text stands for one design at most, or is refused at one place for one reason,
//! and never both (`laws.rt`).
#![tactic(auto)]

mod end;
pub mod fault;
pub mod front;
pub mod laws;

pub use vl_accept::accept::Accepted;
pub use vl_elab::{Cost, Place};
