//! Cells, their lists, and the writes that follow them.

use smallvec::SmallVec;
use vl_base::bits::{BinOp, UnOp};
use vl_base::items::Items;

/// What a cell does. Its operands are slots of earlier cells, and their widths are those of these cells.
#[derive(Clone, Copy, Debug, PartialEq, Eq)]
pub enum CellOp {
    /// No operand: a number, cut to the cell's width.
    Const(u128),
    /// No operand: what a register holds, cut to the cell's width.
    Reg(u32),
    /// An operator on one operand (IEEE 1364-2005, clause 5.1).
    Un(UnOp),
    /// An operator on two operands; true where they are signed (clause 5.1).
    Bin(BinOp, bool),
    /// A condition and two values of one width: the first where the condition isn't 0, else the second (clause 5.1.13).
    Mux,
    /// A base and an index: so many bits of the base as the cell has, from the one on that the index names
    /// (clause 5.2.1). A bit that isn't there is 0.
    Pick(Index),
    /// A base, an index and a part: the base with the part written to it, from the bit on that the index names. Bits
    /// of the part that fall outside the base have no effect.
    PlaceIn(Index),
    /// Two values side by side, the first at the top (clause 5.1.14).
    Append,
    /// An operand cut or extended to the cell's width, by its sign where that is true (clause 5.5).
    Resize(bool),
    /// An address, read as signed where that is true: the word of a memory at this address, cut to the cell's width
    /// (clause 5.2.2). One that isn't there is 0.
    MemRead(u32, bool),
}

/// How the slot of an index becomes the number of the lowest bit that a cell takes.
#[derive(Clone, Copy, Debug, PartialEq, Eq)]
pub struct Index {
    /// The slot is read as signed.
    pub signed: bool,
    /// It is taken from the cell's constant, where else it is added to it.
    pub taken: bool,
}

/// A cell.
#[derive(Drop)]
pub struct Cell {
    /// What it does.
    pub op: CellOp,
    /// The slots of its operands.
    pub args: SmallVec<u32, 4>,
    /// The width of its value in bits, from 1 to 128.
    pub width: u8,
    /// Of `Pick` and `PlaceIn` the constant that the index is added to, or taken from; of `MemRead` the lowest address.
    pub low: i64,
}

/// A write that is done behind all cells of a list.
#[derive(Clone, Copy, Debug, PartialEq, Eq)]
pub enum Write {
    /// A register, and the slot of its new value.
    Reg(u32, u32),
    /// A memory, and the slots of the enable, of the word's number from 0 at the lowest address, of the new value, and
    /// of the mask of the bits that it replaces. Where the enable is 0, or there is no such word, nothing is done.
    Mem(u32, u32, u32, u32, u32),
}

/// Cells and the writes behind them. The cell with index i has the slot `first` + i.
#[derive(Drop)]
pub struct CellList {
    /// The slot of the first cell.
    pub first: u32,
    /// The cells.
    pub cells: Items<Cell>,
    /// The writes. They are done in order, after all slots have their values.
    pub sets: Items<Write>,
}
