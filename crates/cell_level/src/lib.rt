//! Levelisation: an order in which the combinational processes of a design settle, or a combinational loop.
//!
//! Proved: of a sound design whose loops are unrolled: an order of its processes in which each combinational one stands behind those that
//! drive a bit which it reads before it assigns it, exactly where no combinational loop is; else the lowest process on one, with a loop
//! through it (`level`, by `level`, `exact`).
//!
//! Proved: of nets with the bits that each reads and drives: an order of all in which none reads what it or one behind it drives, exactly
//! where there is no cycle; else the lowest net on a cycle, with a cycle through it (`levels`, by `answer`, `exact`).
//!
//! Tested: the speed of both.
#![tactic(auto)]

mod cycles;
mod flags;
pub mod level;
pub mod levels;
pub mod nets;
mod orders;
mod tables;

pub use vl_bits::design;
