//! What the run of a script comes to.

use fab_rounds::closed::Closed;
use host_files::kept::Kept;
use host_text::block::Block;

/// What the run of a script comes to.
#[derive(Drop)]
pub struct Reported {
    /// A tenant is refused.
    pub refused: bool,
    /// What is said of each tenant, in the order of the script.
    pub blocks: Vec<Block>,
    /// The report.
    pub text: Vec<u8>,
    /// The snapshots that each tenant keeps, in the order of the script; None where it is refused.
    pub kept: Vec<Option<Kept>>,
    /// The bays of the fabrics, in the order of the script.
    pub bays: Vec<Closed>,
}
