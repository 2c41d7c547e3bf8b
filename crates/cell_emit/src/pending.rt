//! Updates that are pending.

/// The slots of the updates that nonblocking assignments have made pending (IEEE 1364-2005, clause 11.3). In the end a signal takes
/// the bits of its update value that its mask has set, and keeps the others; then the sites write words in order.
#[derive(Drop)]
pub struct Pending {
    /// Of each signal by its number the slot of its update value, as wide as the signal; none where nothing is pending.
    pub update: Vec<Option<u32>>,
    /// Of each signal by its number the slot of its mask, as wide as the signal: 1 in each bit that is updated. None where nothing
    /// is pending.
    pub mask: Vec<Option<u32>>,
    /// The writes to words of memories, in the order of their assignments.
    pub sites: Vec<Site>,
}

/// A pending write to a word of a memory.
#[derive(Clone, Copy, Debug, PartialEq, Eq)]
pub struct Site {
    /// The memory's number as a signal.
    pub memory: u32,
    /// The slot that says whether the word is written, of 1 bit: 1 where it is.
    pub enable: u32,
    /// The slot of the word's number, of 32 bits: 0 at the lowest address.
    pub word: u32,
    /// The slot of the value, as wide as a word.
    pub value: u32,
    /// The slot of the mask, as wide as a word: 1 in each bit that is written.
    pub mask: u32,
}
