//! Numbers as a source writes them.

/// A number of a source (IEEE 1364-2005, clause 3.5). A bit of `care` is 0 where the digit that
/// gives it is z or ?, and its bit of `value` is 0 then.
#[derive(Clone, Copy, Debug, PartialEq, Eq)]
pub struct Number {
    /// The value, below 2^width.
    pub value: u128,
    /// The bits that count, below 2^width.
    pub care: u128,
    /// The width in bits, from 1 to 128; 32 where none is written.
    pub width: u8,
    /// A size is written.
    pub sized: bool,
    /// The number is signed: a plain decimal, or marked `s`.
    pub signed: bool,
}
