//! Laws of every run: how combinational processes settle that are evaluated one after another, and the run of a design act by act.
//!
//! Proved: of processes that are evaluated one after another, over any values and bits: where each is pending or solved, they settle in one
//! state, in which each is solved, with the values of one pass in order (`laws.rt`).
//!
//! Proved: of every run of a design whose combinational processes meet the rules and have an order: it settles from each queue that it
//! comes to, comes to each boundary, and where no process is pending each is solved: a bit that it drives is its equation's value, and the
//! values are those of one pass in order (`settle_laws.rt`).
//!
//! Proved: of the run act by act: it is what its log says, an act leads on from each point at which the run hasn't finished, the end of a
//! wave and an update lead to the values of one pass, nets hold over the values committed last, and at a boundary it shows what the run
//! alone shows (`acts_laws.rt`).
#![tactic(auto)]

pub mod acts_laws;
pub mod laws;
pub mod settle_laws;
