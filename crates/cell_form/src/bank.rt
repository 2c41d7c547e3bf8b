//! Banks: what cells read and write.

use vl_base::items::Items;

/// Registers, the words of memories, and slots.
#[derive(Drop)]
pub struct Bank {
    /// What each register holds.
    pub regs: Vec<u128>,
    /// The words of each memory, from the lowest address on.
    pub mems: Vec<Vec<u128>>,
    /// The values of cells.
    pub slots: Vec<u128>,
}

/// The variables and memories of a flat design in order, but for those that combinational processes write and loop
/// variables.
#[derive(Drop)]
pub struct PortMap {
    /// One for each of them.
    pub ports: Items<Port>,
}

/// Where a variable or a memory stands in a bank.
#[derive(Clone, Copy, Debug, PartialEq, Eq)]
pub struct Port {
    /// It is a memory.
    pub mem: bool,
    /// The register of a variable's value; the number of a memory.
    pub value: u32,
    /// The register of a variable's work copy; the number of a memory.
    pub work: u32,
    /// The width of a word in bits, from 1 to 128.
    pub width: u8,
    /// How many words a memory has; 0 for a variable.
    pub words: u32,
}
