//! Where an item of an instance stands.

use elab_constant::scope::Names;

/// Where an item stands: in an instance of a design.
#[derive(Clone, Copy)]
pub struct Here<'n, 'p, 'm> {
    /// What names stand for in the instance.
    pub names: &'n Names<'m>,
    /// The path of the instance.
    pub path: &'p [u8],
    /// The number of the design's signals.
    pub behind: u32,
}
