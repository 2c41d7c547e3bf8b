//! What tenants are judged to be.

use host_files::refusal::Refusal;
use ten_core::origin::Origin;

/// A tenant that is to run: the number of the fabric where it begins, and what it starts from.
#[derive(Drop)]
pub struct Ready {
    /// The number of the fabric.
    pub fabric: u32,
    /// What it starts from.
    pub origin: Origin,
}

/// What the tenants of a script are judged to be.
#[derive(Drop)]
pub struct Judged {
    /// Of each tenant why it is refused, if it is.
    pub refusals: Vec<Option<Refusal>>,
    /// Those that are to run, in their order.
    pub readies: Vec<Ready>,
}
