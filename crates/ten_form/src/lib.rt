//! Images of tenants: where a bank has the signals of a design, and what it means that a bank holds a state of a run.
//!
//! Proved: where a signal's value, work copy, update value and mask stand among a bank's registers (`register`, `place`, `places`).
//!
//! Defined: banks that stand for the values of a run, nets over committed values, and tidy stages.
//!
//! Defined: which trap stands for a system call of a design, what its slots hold, and how wide they are.
//!
//! Proved: where a bank stands for a stage at a trap, serving the trap is doing the call, and the bank behind it stands for the stage
//! behind (`laws.rt`).
//!
//! Proved: where each state of a table does its node, one cycle of the states is one of the nodes, from every stage of a run that hasn't
//! finished: the bank stands for the stage behind it (`image_laws.rt`).
//!
//! Proved: the stores of a table's nodes, four registers for each nonblocking assignment to a word of a memory, those of the last node
//! first (`stores`); laws: no two have a register in common, a node's stand between those of the nodes behind and before it, all are of
//! memories, and a wave leads from each segment's node to ones of smaller numbers (`stores_laws.rt`).
//!
//! Tested: stores, by the rows of `machine_rows` whose nonblocking assignments write words of memories (section `splits`).
#![tactic(auto)]

pub mod image_laws;
pub mod laws;
mod memories;
pub mod places;
pub mod store;
pub mod stores;
pub mod stores_laws;

pub use sub_split::table;
pub use vl_design::design;
