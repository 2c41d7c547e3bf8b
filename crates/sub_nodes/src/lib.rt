//! Blocks cut at their system calls, as tables of nodes whose cycles are the acts of the run alone.
//!
//! A node does a stretch of statements without calls, and a trap is a call. Here a stretch is a list of statements; how it is computed is
//! told by the crates of cells.
//!
//! Defined: blocks as tables of nodes, cut at system calls and at the choices that hold one.
//!
//! Proved: the nodes made of a design implement it, one cycle is one act of the run alone or comes to the trap right before a call, serving
//! is the act, a table's run comes to each point and each boundary, and a wave has few nodes (`laws.rt`); worked tables and runs computed
//! from them (`rows.rt`).
//!
//! Proved: of every table that is made of a design: calls stand in pairs with the segments that come to them, to which nothing else leads,
//! time zero's nodes lead to such alone, each number is one of a node, a table has at most two nodes for each cut and nine, and what holds
//! of each block and passes to its parts holds of each node (`facts_laws.rt`).
#![tactic(auto)]

pub mod facts_laws;
pub mod laws;
pub mod rows;
