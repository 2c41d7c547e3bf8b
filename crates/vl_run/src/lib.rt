//! What statements, functions and system calls do: the interpreter of processes.
//!
//! Proved: in a sound design, what functions give is what the definitions say, at each depth of calls (`give`), and a statement leads to
//! the state of the definitions, the count of acts aside (`exec_process`), system calls included.
#![tactic(auto)]

mod assign;
mod begin;
mod branch;
mod call;
mod display;
mod exec;
mod file;
mod first;
mod given;
pub mod machine;
pub mod outer;
pub mod parts;
pub mod process;
mod read;
mod scope;
mod target;
mod task;

pub use ten_files::table::Table;
