//! One bank for all tenants of a fabric: each has a part of its own in it, and steps as it would alone.
//!
//! Proved: banks joined into one, and their tables of states with the numbers moved: a cycle of a part, a served call, taking a part out,
//! putting another in and exchanging do to the part what is done to a bank that is alone, and nothing to other parts (`add`, `step`,
//! `part_of`, `swap_part`, `put_part`, `serve`).
//!
//! Tested: a row of `machine_rows`, in its section `fabrics`, adds two parts, sets one, steps both and looks at them; its speed: 64 parts of
//! 100 cells each, stepped in turn, did 95 to 102 % of the cells a second of one part alone (`bench/join/run`).
#![tactic(auto)]

mod bank;
pub mod joined;
mod numbers;
mod serving;
mod span;
mod stepping;

pub use trap_runtime::{Bank, PortMap, table};
