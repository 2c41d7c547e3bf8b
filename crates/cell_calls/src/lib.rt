//! How a state of cells ends: which state is next, or a system call as a trap with the cells that compute its arguments.
//!
//! Proved: what a system call is given, as cells and a trap: slots hold the values of its arguments, and a display's format is cut into its
//! pieces (`call_of`, by `traps`).
//!
//! Proved: the number of the node that is next, as cells: of one node, of a test between two, and of a case's labels in their order
//! (`number`, `branch`, `switch`).
#![tactic(auto)]

pub mod call;
mod display;
mod file;
mod format;
mod given;
pub mod next;
mod own;
mod trap;
