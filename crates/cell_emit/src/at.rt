//! What expressions and statements read while they are compiled.

/// The slots that expressions and statements read.
#[derive(Drop)]
pub struct At {
    /// The number of the first signal or local that has an entry; those below it are 0. 0 outside of functions, and in the body of
    /// a function the number of the design's signals.
    pub first: u32,
    /// Of each signal or local from the first on the slot of its value, none where it is 0; of a memory its number.
    pub slots: Vec<Option<u32>>,
    /// The slot of the number of ticks, of 64 bits.
    pub time: u32,
    /// The slot of the answer of the system function called last, of 32 bits.
    pub answer: u32,
    /// A slot that holds 0, of 1 bit: the path of a statement that is executed always.
    pub here: u32,
    /// A slot that holds 1, of 1 bit: the path of a statement that is never executed.
    pub away: u32,
}
