//! The slots that a state begins with.

use cell_emit::at::At;
use cell_emit::pending::Pending;

/// The slots that a state begins with.
#[derive(Drop)]
pub struct Begun {
    /// Those of what is read: the values of signals, the time and the answer.
    pub at: At,
    /// Those of the updates that are pending.
    pub pending: Pending,
}
