//! What is noted of residents and of tenants in line.

use fab_core::transit::{Stay, Transit};
use std::snapshot::Snapshot;

/// A tenant on the fabric: what its notes say of it.
#[derive(Drop)]
pub struct Berth {
    /// Its number.
    pub tenant: u32,
    /// The tick at which it was put in line.
    pub since: u64,
    /// The tick of its last note.
    pub noted: u64,
    /// It was put in line with the move done that stands at that tick.
    pub by_move: bool,
    /// Its stays before this one.
    pub stays: Vec<Stay>,
    /// The tenant as it was put in line.
    pub line: Snapshot<Transit>,
}
