//! What stands in statements: names that are read, assigned and called, nonblocking assignments and system calls.
//!
//! Proved: what stands in a statement, each with its place: names that are read, assigned and called, nonblocking assignments and system
//! calls, exactly as defined (`statement`).
//!
//! Defined: functions that keep to what is their own, and the memories whose words the nonblocking assignments of a statement write, an
//! entry for each.
//!
//! Defined: statements that read no answer of a system function but that of the call right before them, and statements that write no loop
//! variables and no clocks.
//!
//! Proved: what a statement of the first kind does depends neither on an earlier answer nor on what was printed and counted before it
//! (`laws.rt`).
#![tactic(auto)]

mod expressions;
pub mod laws;
pub mod site;
pub mod statements;
mod targets;

pub use vl_design::design;
