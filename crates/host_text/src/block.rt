//! What a report is made of.

use ten_plan::{Bytes, Items, Place, Text};

/// Why the run of a tenant ended.
#[derive(Clone, Copy, Debug, PartialEq, Eq)]
pub enum Status {
    /// Its source ended it.
    Finished,
    /// Its ticks were spent.
    Budget,
    /// It was stopped.
    Stopped,
}

/// A stay of a tenant on a fabric.
#[derive(Drop)]
pub struct Stay {
    /// The name of the fabric.
    pub fabric: Text,
    /// The tick at which the tenant came.
    pub from: u64,
    /// The tick at which it left.
    pub to: u64,
}

/// What a tenant did.
#[derive(Drop)]
pub struct RunBlock {
    /// The tenant's name.
    pub name: Text,
    /// Why its run ended.
    pub status: Status,
    /// The ticks begun.
    pub ticks: u64,
    /// The cycles of this run.
    pub cycles: u64,
    /// What it printed in this run.
    pub printed: Bytes,
    /// Its stays, in their order.
    pub stays: Items<Stay>,
}

/// Why a tenant was refused.
#[derive(Drop)]
pub struct RefusedLine {
    /// The tenant's name.
    pub name: Text,
    /// The place in its source; 0 0 where its cost or its snapshot is refused.
    pub place: Place,
    /// The words of the kind, as `construct 10`.
    pub kind: Text,
}

/// What a report says of a tenant.
#[derive(Drop)]
pub enum Block {
    /// The tenant ran.
    Ran(RunBlock),
    /// The tenant was refused.
    Refused(RefusedLine),
}

/// The reply to a free order.
#[derive(Clone, Copy, Debug, PartialEq, Eq)]
pub enum Reply {
    /// It was done at this tick; of a watch, the tenant was seen at it.
    At(u64),
    /// The tenant had ended, at this tick.
    Ended(u64),
    /// The fabric is too small for the tenant.
    Small,
    /// The tenant is refused.
    Refused,
}

/// The line of a free order.
#[derive(Drop)]
pub struct FreeLine {
    /// The order's words.
    pub words: Items<Text>,
    /// The reply.
    pub reply: Reply,
}
