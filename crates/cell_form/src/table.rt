//! States: lists of cells, of which a register names the one that a cycle does.

use crate::cell::CellList;
use vl_base::items::{Items, Nums, Text};

/// The states of an image. No two of them share a slot. Their slots follow one another in order of states, without a gap.
#[derive(Drop)]
pub struct StateTable {
    /// The number of the state register, which names a state.
    pub state: u32,
    /// The states.
    pub states: Items<State>,
}

/// A state: what one cycle does where the state register names it.
#[derive(Drop)]
pub struct State {
    /// Its cells, none where it has a trap.
    pub cells: CellList,
    /// The system call that is served in it.
    pub trap: Option<Trap>,
    /// The states that it leads to: just one where it has a trap.
    pub nexts: Nums,
}

/// A system call that the cells leave to be served. Just one state leads to it, whose slots hold the call's values.
#[derive(Drop)]
pub struct Trap {
    /// What is called.
    pub call: TrapCall,
    /// The slots of the values of its arguments.
    pub args: Nums,
    /// The register that takes its answer.
    pub answer: u32,
    /// The register of the variable that `$fread` writes, or the memory of `$readmemh`.
    pub target: Option<u32>,
}

/// A system task or function (IEEE 1364-2005, clause 17).
#[derive(Drop)]
pub enum TrapCall {
    /// `$display` or `$write`: the parts of its text, and whether a newline follows.
    Print(Items<FormatPart>, bool),
    /// `$finish`.
    Finish,
    /// `$save` under a name.
    Save(Text),
    /// `$fopen` of a name.
    Fopen(Text),
    /// `$fread` into a variable of so many bits.
    Fread(u8),
    /// `$fgetc`.
    Fgetc,
    /// `$feof`.
    Feof,
    /// `$fclose`.
    Fclose,
    /// `$readmemh` of a file into a memory: the width of a word in bits, and its first and last address.
    ReadHex(Text, u8, i32, i32),
}

/// A part of what is printed (clause 17.1.1).
#[derive(Drop)]
pub enum FormatPart {
    /// This text.
    Lit(Text),
    /// The value of the next argument: the format's letter, whether a 0 stands before it, the value's width in bits,
    /// and whether it is signed.
    Item(u8, bool, u8, bool),
}
