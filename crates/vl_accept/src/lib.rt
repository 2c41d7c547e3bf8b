//! Whether a design is accepted: what it uses, its limits, its paths and its combinational loops are judged in this order.
//!
//! Proved: `accept` gives a design that elaboration gave with its loops unrolled and with that order, exactly where it has no construct 14
//! to 23, passes none of limits 8 to 10 and has no combinational loop; else the first fault: of what it uses, of limits, of paths, or a
//! loop of the lowest process that lies on one (by `Accepts`).
//!
//! Proved: a sound design without the faults of `standing_fault` (`standing_faults` of `vl_check`), no input of a function in which is a
//! loop variable, can be unrolled (`laws.rt`).
//!
//! Proved: laws of bodies without faults, with their loops unrolled: a signal that no site assigns isn't written; a combinational body that
//! asks neither for the time nor for an answer only tests and assigns at once to signals of one word; of two processes that may not write
//! one variable, one doesn't assign it (`pure_laws.rt`).
//!
//! Proved: an accepted design with its loops unrolled meets the rules of settling (`vl_runs`), and the order that `accept` gives is an
//! order (`settled_laws.rt`).
//!
//! Tested: the speed of `accept`.
#![tactic(auto)]

pub mod accept;
pub mod fault;
pub mod laws;
pub mod pure_laws;
pub mod settled_laws;

pub use vl_check::design;
pub use vl_latch::{Nums, Place};
