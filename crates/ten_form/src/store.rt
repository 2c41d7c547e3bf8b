//! Where a pending write to a word of a memory is kept.

/// The registers of a nonblocking assignment to a word of a memory (IEEE 1364-2005, clause 9.2.2): from number `first` on whether it
/// writes a word (1 bit), the word's number from 0 at the lowest address (32 bits), and the value and the mask of the bits that it
/// replaces, each as wide as a word.
#[derive(Clone, Copy, Debug, PartialEq, Eq)]
pub struct Store {
    /// The memory's number as a signal.
    pub memory: u32,
    /// The first of its four registers.
    pub first: u32,
}
