//! Inferred latches and early reads: bits that a combinational process doesn't assign on every path, or reads before (construct 19).
//!
//! Proved: of a sound design whose loops are unrolled: the first construct 19, exactly, said by paths (`paths`); of a body, whether it has
//! one (`process_is_partly`, `function_is_partly`).
//!
//! Tested: its speed.
#![tactic(auto)]

mod bits;
pub mod bodies;
pub mod paths;

pub use vl_base::items::Nums;
pub use vl_base::place::Place;
pub use vl_design::{design, stop};
