//! Bits of a signal.

use vl_sites::design::LowestBit;

/// The lowest bit of a signal that an assignment writes.
#[derive(Clone, Copy, Debug, PartialEq, Eq)]
pub enum Place {
    /// This bit.
    Constant(i64),
    /// The one that an index names: the slot of the index, whether it is read as signed, and how it becomes the number of a bit.
    By(u32, bool, LowestBit),
}
