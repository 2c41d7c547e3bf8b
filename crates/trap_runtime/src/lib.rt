//! The system calls of a tenant, served at run time: displays, files, `$readmemh`, snapshots and `$finish`.
//!
//! Proved: `serve` does exactly the effect of one system call on a bank, the open files and the bytes printed, as defined, and says whether
//! the run goes on, ends or wants a snapshot (`served`, `way`); want of memory leaves all as it was.
#![tactic(auto)]

mod bank;
mod display;
mod memory;
pub mod serve;
pub mod served;

pub use cell_form::bank::{Bank, Port, PortMap};
pub use cell_form::{Text, cell, files, table};
pub use ten_files::table::Table;
