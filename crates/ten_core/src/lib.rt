//! Engines of tenants: a design's run on a bank of cells, cycle by cycle, and what it has at a boundary, as a snapshot too.
//!
//! Proved: an engine with a bank is at a stage of its run behind time zero: one cycle of the bank and what it came to (`drive`, `stepped`),
//! without memory, and a call that waits (`serve`), each lead from a stage to exactly the next; `at_boundary`, `at_trap`, `ticks`,
//! `printed`, `done` and `cycles` read off the stage (by `IsAt`); laws: each stage of a run that goes on is tidy, and the state that is
//! next behind a cycle has a number of 32 bits (`laws.rt`).
//!
//! Proved: laws of runs of tables, from time zero or from a snapshot, by any plan: each cycle and each call comes nearer to the end, ticks
//! and acts can be counted, and where a run rests the run alone is at that boundary in that state, and ends there where it has a reason
//! (`run_laws.rt`).
//!
//! Proved: what a run has at a boundary: taken from its bank (`hold`), put into another (`put_back`), written and read as a snapshot of the
//! design (`write`, `read`), with the ports and rows of the design (`ports`, `snapshot_rows`); laws: a bank that stands for a stage holds
//! just the words that a snapshot keeps, one with the words put back stands for them, and what is kept can be written (`hold_laws.rt`).
//!
//! Proved: what a run has printed on its way is a front of what the run alone has printed where it ends (`front_laws.rt`).
//!
//! Tested: the speed of a run: in the program, where a tenant runs in the core of a fabric, a tick of a generator with a memory of 256
//! words (three cycles) takes 0.4 to 0.7 µs, measured on a machine that was busy with proofs; before it ran in a core it took 0.2 µs, an
//! eighth of what Icarus' `vvp` takes.
#![tactic(auto)]

mod banks;
pub mod engine;
pub mod front_laws;
pub mod hold;
pub mod hold_laws;
pub mod image;
pub mod laws;
pub mod origin;
pub mod ports;
pub mod read;
pub mod restore;
pub mod run_laws;
pub mod sizes;
mod states;
pub mod write;

pub use snap_form::snapshot;
pub use ten_plan::{held, plan};
pub use trap_runtime::{Bank, PortMap, table};
pub use vl_design::capacity::Cost;
pub use vl_design::{Bytes, Items, Place, Text, design, files};
