//! What runs have at a boundary.

use vl_design::files::OpenFile;
use vl_design::{Items, Text, Words};

/// What a run has at a boundary: a snapshot, but for the names of its rows, which are the design's.
#[derive(Drop)]
pub struct Held {
    /// The ticks begun.
    pub tick: u64,
    /// The words of all variables and memories, one behind the other, a memory's from its lowest address.
    pub words: Words,
    /// The open files, in ascending order of slots.
    pub files: Items<OpenFile>,
}

/// What a run had at a boundary, under a name.
#[derive(Drop)]
pub struct Saved {
    /// The name.
    pub name: Text,
    /// What the run had.
    pub held: Held,
}

/// A snapshot that is made besides what a plan and a design ask for.
#[derive(Drop)]
pub struct FreeSave {
    /// The name.
    pub name: Text,
    /// The tick at which it is made.
    pub tick: u64,
}
