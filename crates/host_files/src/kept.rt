//! The snapshots that a run keeps.

use std::alloc::Global;
use std::sync::Arc;
use ten_core::held::Saved;
use ten_core::origin::Origin;

/// The snapshots that a run keeps, and what it started from.
#[derive(Drop)]
pub struct Kept {
    /// What it started from.
    pub origin: Arc<Origin, Global>,
    /// The snapshots.
    pub saved: Vec<Saved>,
}
