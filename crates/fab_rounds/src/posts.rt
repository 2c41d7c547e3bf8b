//! What stands for the fabrics.

use crate::workers::Worker;
use fab_desk::desk::{Desk, DeskSeat};

/// The desks, the first seat of each, and its worker, in the order of the fabrics.
#[derive(Drop)]
pub(crate) struct Opened {
    pub(crate) desks: Vec<Desk>,
    pub(crate) firsts: Vec<DeskSeat>,
    pub(crate) workers: Vec<Worker>,
}
