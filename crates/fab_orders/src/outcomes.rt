//! What a run begins with and comes to.

use fab_desk::Text;
use fab_desk::closed::Closed;
use fab_desk::transit::Transit;
use std::snapshot::Snapshot;

/// A tenant that is to run, and the number of the fabric where it begins.
#[derive(Drop)]
pub struct Start {
    /// The number of the fabric.
    pub fabric: u32,
    /// The tenant.
    pub transit: Transit,
}

/// Why a tenant was put in line.
#[derive(Clone, Copy, Debug, PartialEq, Eq, Drop)]
pub enum Reason {
    /// It begins there.
    First,
    /// Its plan moves it there.
    Errand,
}

/// A put: why, on which fabric, and the tenant as it was then. It has no bytes but the number.
#[derive(Drop)]
pub struct Cause {
    /// Why.
    pub reason: Reason,
    /// The number of the fabric.
    pub fabric: u32,
    /// The tenant as it was then.
    pub transit: Snapshot<Transit>,
}

/// What may be ordered of a tenant while it runs.
#[derive(Drop)]
pub enum Wanted {
    /// It is put in line on the fabric of this number.
    Move(u32),
    /// It ends where it is.
    Stop,
    /// A snapshot of this name is made where it is.
    Save(Text),
    /// It is told how far the tenant has come.
    Watch,
}

/// An order, and the number of the tenant to which it is given.
#[derive(Drop)]
pub struct Order {
    /// The number of the tenant.
    pub tenant: u32,
    /// What is ordered.
    pub wanted: Wanted,
}

/// What came of an order.
#[derive(Clone, Copy, Debug, PartialEq, Eq, Drop)]
pub enum Reached {
    /// It was done at this tick; or the tenant was seen to have come as far.
    At(u64),
    /// The tenant had ended, at this tick.
    Ended(u64),
}

/// A tenant that was taken out for an order: on which fabric, and as it came out. It has no bytes but the number.
#[derive(Drop)]
pub struct Finding {
    /// The number of the fabric.
    pub fabric: u32,
    /// The tenant as it came out.
    pub transit: Snapshot<Transit>,
}

/// An order with what came of it, and the tenant where it was taken out for it.
#[derive(Drop)]
pub struct Answer {
    /// The order, which has no bytes.
    pub order: Snapshot<Order>,
    /// What came of it.
    pub reached: Reached,
    /// The tenant, where it was taken out.
    pub finding: Option<Finding>,
}

/// What became of the tenants, in the order of their numbers; the bays, in the order of the fabrics; and the orders with what came of them, in their order.
#[derive(Drop)]
pub struct Outcome {
    /// The tenants as they ended.
    pub ended: Vec<Transit>,
    /// The bays, each of a desk that has ended.
    pub bays: Vec<Closed>,
    /// The orders.
    pub answers: Vec<Answer>,
}
