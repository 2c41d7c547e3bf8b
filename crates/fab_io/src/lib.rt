//! The outside of the host: stores of files and sinks of output, in memory and real, and a gate that tests use to hold a worker.
//!
//! Proved: stores and sinks in memory give, keep and fail exactly as their record says (`files`, `calls`, `failed_if_listed`, `not_there`,
//! `too_long`, `count`), the steady ones for want of memory alone (`steady`); the adapters count each failure (`failed`, `not_there`,
//! `too_long`) and read at most the limit (`short`); each store notes the reads that failed, with name and cause, and no other (`missed`).
//!
//! Tested: what a real file or terminal gives or takes: rows of `value_rows`, section `files`, and what `fabhost` prints.
#![tactic(auto)]

mod calls;
pub mod dir_store;
pub mod gate;
pub mod mem_sink;
pub mod mem_store;
mod misses;
pub mod sink;
pub mod std_sink;
pub mod steady_sink;
pub mod steady_store;
pub mod store;
mod stored;

pub use dir_store::DirStore;
pub use gate::{Gate, NoGate};
pub use mem_sink::MemSink;
pub use mem_store::MemStore;
pub use sink::Sink;
pub use std_sink::StdSink;
pub use steady_sink::SteadySink;
pub use steady_store::SteadyStore;
pub use store::{ReadError, Store, WriteError};
