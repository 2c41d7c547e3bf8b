//! What the main thread has of all tenants.

use fab_core::transit::Transit;
use fab_desk::desk::DeskSeat;
use fab_desk::noted::Label;
use fab_orders::outcomes::{Answer, Cause, Order, Reason, Start};
use std::snapshot::Snapshot;

/// A tenant that is to be put in line: why, and on which fabric.
#[derive(Drop)]
pub(crate) struct Moving {
    pub(crate) reason: Reason,
    pub(crate) fabric: u32,
    pub(crate) transit: Transit,
}

/// The first seats, in the order of the fabrics; the tenants that move and those that have ended, each in the order of their numbers; why each put was made that
/// wasn't ordered; the orders that wait, of which the last is the next, and those that have an answer. What was loaded, the labels and all orders have no bytes.
#[derive(Drop)]
pub(crate) struct Ledger {
    pub(crate) firsts: Vec<DeskSeat>,
    pub(crate) moving: Vec<Moving>,
    pub(crate) done: Vec<Transit>,
    pub(crate) causes: Vec<Cause>,
    pub(crate) orders: Vec<Order>,
    pub(crate) answers: Vec<Answer>,
    pub(crate) loaded: Snapshot<Vec<Start>>,
    pub(crate) labels: Snapshot<Vec<Label>>,
    pub(crate) asked: Snapshot<Vec<Order>>,
}
