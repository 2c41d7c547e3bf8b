//! Limits 8 and 9: how many turns a loop, and how many statements and nodes of expressions a design may have, loops unrolled and function
//! bodies counted at each call.
//!
//! Proved: of a sound design whose loop variables are assigned in the headers of their loops alone, by loop variables and numbers without
//! concatenations: the first of limits 8 and 9 that it passes, with its place, exactly as defined, loops counted turn by turn and bodies of
//! functions at each call (`first_limit`).
//!
//! Proved: an order of functions, those that are called first; of its numbers no more is said than that there are such functions
//! (`call_order`).
//!
//! Tested: that what `call_order` gives is such an order: the counts that stand on it find out themselves, and are then slower.
#![tactic(auto)]

mod bodies;
mod calls;
mod displays;
mod expressions;
pub mod limits;
pub mod order;
mod passes;
mod statements;
mod sums;
pub mod tasks;
