//! What a snapshot holds.

use vl_base::files::OpenFile;
use vl_base::items::{Items, Text, Words};

/// A row of a snapshot: a variable or a memory.
#[derive(Drop)]
pub struct SnapRow {
    /// The name.
    pub name: Text,
    /// The width in bits, from 1 to 128.
    pub width: u8,
    /// The number of words of a memory; 0 for a variable.
    pub words: u32,
}

/// What is known of a run at the end of a tick.
#[derive(Drop)]
pub struct Snapshot {
    /// The ticks.
    pub tick: u64,
    /// The variables and memories, in the design's order.
    pub rows: Items<SnapRow>,
    /// The words of all rows, one row behind the other, a memory's from its lowest address.
    pub words: Words,
    /// The open files, in ascending order of slots.
    pub files: Items<OpenFile>,
}

/// Why bytes were not read.
#[derive(Clone, Copy, Debug, PartialEq, Eq)]
pub enum SnapError {
    /// The first fault: its kind and its offset in bytes. 1 another magic; 2 another version; 3 the
    /// bytes end inside a field; 4 bytes follow; 5 the number of rows or a row's field differs from
    /// the design's; 6 a word has more bits than its width; 7 an open file whose slot isn't above the
    /// one before it or is above 15, whose name the file set lacks, whose place is past its end, or
    /// whose flag isn't 0 or 1. The offset is that of the field's first byte, and for 3 and 4 the
    /// place where the bytes or the snapshot end.
    Bad(u8, u64),
    /// Want of memory.
    Memory,
}
