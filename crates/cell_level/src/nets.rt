//! Nets: combinational processes by the bits that they read and drive.

use vl_bits::parts::Part;

/// What a combinational process reads and drives.
#[derive(Drop)]
pub struct Net {
    /// The bits that it reads before it assigns them.
    pub reads: Vec<Part>,
    /// The bits that it may assign.
    pub drives: Vec<Part>,
}

/// The order of nets, by their numbers, or why there is none.
#[derive(Drop)]
pub enum Levels {
    /// Each net once, and each behind those that drive what it reads.
    Ordered(Vec<u32>),
    /// The lowest net on a cycle, and then the others of one: each drives what the next reads, and the last what the first
    /// reads.
    Loop(Vec<u32>),
}
