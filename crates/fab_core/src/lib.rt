//! The core of a fabric: its resident tenants on one joined bank, the line of those that wait, and each event that happens to them.
//!
//! Proved: a core stands for a fabric of points, each resident with its part of the joined bank, in the middle of ticks too: `arrive`,
//! `cycle`, `serve`, `hold`, `rebuild`, `take` and `leave` each lead to one that stands for the event's outcome, for every fabric that it
//! stood for; `arrive` gives a tenant back exactly where it is too large, or else doubled, or for want of memory; `cycle` says how many
//! stepped; `holding`, `still`, `next_trap`, `next_leaving`, `head_fits`, `can_cycle`, `residents`, `waiting`, `resident` and `waiter` are
//! as the points are (by `IsFabric`); laws: a tenant at rest has a point, and what the point says of it (`laws.rt`).
//!
//! Tested: its speed.
#![tactic(auto)]

pub mod cores;
mod cycle;
mod finding;
pub mod laws;
pub mod leaving;
mod rebuild;
pub mod resident;
mod serve;
mod swapping;
mod tests_of;

pub use fab_join::joined;
pub use fab_model::{Entry, Kept, Lock, LockSeat, note, parcel, tenant, transit};
pub use ten_shell::shell;
pub use vl_design::Text;
pub use vl_design::capacity::Cost;
