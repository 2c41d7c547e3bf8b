//! A core with its history.

use crate::berth::Berth;
use fab_core::Entry;
use fab_core::cores::FabCore;
use fab_core::note::Note;
use std::snapshot::Snapshot;
use ten_core::origin::Origin;
use vl_design::capacity::Cost;

/// What never changes of a bay.
#[derive(Drop)]
pub struct Label {
    /// The number of its fabric.
    pub fabric: u32,
    /// What the fabric has.
    pub capacity: Cost,
    /// Tenants have numbers below this one.
    pub tenants: u32,
    /// Every seat may put tenants in line; else only that of number 0.
    pub any_puts: bool,
    /// What the tenants of each number start from, where that is named. It has no bytes.
    pub origins: Option<Snapshot<Vec<Origin>>>,
}

/// A core with its history. In a call ticks run ahead of it.
#[derive(Drop)]
pub struct NotedCore {
    /// What never changes.
    pub label: Label,
    /// The core.
    pub core: FabCore,
    /// What is noted of the residents, in order.
    pub berths: Vec<Berth>,
    /// What is noted of the tenants in line, in order.
    pub waiting: Vec<Berth>,
    /// The history.
    pub notes: Vec<Note>,
    /// What the notes of the call in progress tell.
    pub told: Vec<Entry>,
}
