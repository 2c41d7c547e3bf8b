//! Cells and writes of states, and the states of a design.

use cell_emit::cell::{CellList, Write};
use cell_emit::table::StateTable;

/// Cells and writes of a state, of which some cells aren't needed.
#[derive(Drop)]
pub struct Made {
    /// The cells, from slot 0 on.
    pub cells: CellList,
    /// The writes.
    pub sets: Vec<Write>,
}

/// The states of a design, and how much room they take.
#[derive(Drop)]
pub struct States {
    /// The states, of the nodes behind time zero's wave.
    pub table: StateTable,
    /// How many slots they have together.
    pub slots: u32,
    /// How many stores keep pending writes to words of memories.
    pub stores: u32,
}
