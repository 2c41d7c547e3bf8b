//! The scheduler: a worker thread for each fabric, tenants that move between them, and orders that are done meanwhile.
//!
//! Proved: `run` runs tenants on fabrics, each from the fabric where it begins and on by the moves of its plan, a worker for each fabric in
//! a thread of its own, until each has ended, and does orders meanwhile: moves, stops, snapshots, and watches.
//!
//! Proved: each tenant starts from what it was loaded with, and ends as its run alone does, or where an order stopped it, up to which its
//! run had no reason to end; the snapshots made of it besides are those that were ordered.
//!
//! Proved: each fabric's bay has a legal history, and whoever was put in line there started from what it was loaded with.
//!
//! Proved: over all fabrics a tenant's stays are, each as often, those that it has with it, which chain; and it is put in line on each
//! fabric and at each tick just as often as the plan, the end of the run and the orders have it.
//!
//! Proved: what is told of each order is true (`run`, by `IsOutcome`).
//!
//! Tested: by the rows of `host_rows`; its speed.
#![tactic(auto)]

mod answering;
mod closing;
mod ledgers;
mod opening;
mod operating;
mod posts;
mod putting;
pub mod rounds;
mod seeking;
mod shells;
mod sorting;
mod taking;
mod workers;

pub use fab_desk::{bay, closed, noted};
pub use fab_io::gate;
pub use fab_orders::outcomes;
