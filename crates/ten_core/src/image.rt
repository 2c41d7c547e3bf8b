//! Images of designs.

use trap_runtime::PortMap;
use trap_runtime::table::StateTable;
use vl_design::capacity::Cost;
use vl_design::design::Design;

/// A design as states of cells.
#[derive(Drop)]
pub struct Image {
    /// The design.
    pub design: Design,
    /// Its processes by their numbers, each behind the combinational ones that drive what it reads.
    pub order: Vec<u32>,
    /// Its states.
    pub table: StateTable,
    /// The state that a tick begins with: the run is at a boundary where this one is next.
    pub rise: u32,
    /// How many slots the states have together.
    pub slots: u32,
    /// How many stores keep pending writes to words of memories.
    pub stores: u32,
    /// Where its banks have the variables and memories that snapshots keep.
    pub ports: PortMap,
    /// What it takes of a fabric, by its design.
    pub cost: Cost,
}
