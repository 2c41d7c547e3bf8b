//! Plans of tenants.

use vl_design::{Items, Text};

/// What an errand is.
#[derive(Drop)]
pub enum Due {
    /// A snapshot of this name.
    Save(Text),
    /// A move to the fabric of this number.
    Move(u32),
    /// The end of the run.
    Stop,
}

/// What a tenant is to do at a tick.
#[derive(Drop)]
pub struct Errand {
    /// The tick, at most 1,000,000,000.
    pub tick: u64,
    /// What is to be done.
    pub due: Due,
}

/// How long a tenant may run, and what it is to do on its way.
#[derive(Drop)]
pub struct Plan {
    /// The most ticks: 1,000,000,000 at most. A resumed run counts them from time zero of the run that it resumes.
    pub budget: u64,
    /// Its errands by ticks; at one tick the saves come first, and then at most one other.
    pub errands: Items<Errand>,
}
