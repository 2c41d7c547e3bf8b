//! What a display is made of.

use vl_design::{Bits, Text};

/// A piece of a display (IEEE 1364-2005, clause 17.1.1).
#[derive(Drop)]
pub enum Piece {
    /// A text, printed as it stands.
    Lit(Text),
    /// A value: the letter of its item (d, h, x, o, b, s or c, in either case), whether a 0 stands before the letter, the
    /// value, and whether it is signed. A c has no 0 before it.
    Val(u8, bool, Bits, bool),
}
