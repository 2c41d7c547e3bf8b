//! Expressions whose nodes have the width and sign that their contexts give them.

use crate::design::{LowestBit, SysCall};
use vl_base::bits::{BinOp, Bits, UnOp};
use vl_base::number::Number;

/// An expression at the width and sign of its context (IEEE 1364-2005, clauses 5.4 and 5.5).
#[derive(Drop)]
#[cycle(sized)]
pub struct SizedExpr {
    /// The width in bits at which it is read, from 1 to 128.
    pub width: u8,
    /// It is extended and compared by sign.
    pub signed: bool,
    /// What it is.
    pub node: SizedNode,
}

/// What a sized expression is: as an expression is, of sized operands.
#[derive(Drop)]
#[cycle(sized)]
pub enum SizedNode {
    /// A number or a string, and whether it is signed.
    Num(Bits, bool),
    /// A label of a `casez` that is one number.
    Label(Number),
    /// The value of a net, a variable or a local.
    Sig(u32),
    /// A word of a memory, by its address.
    Word(u32, Box<SizedExpr>),
    /// So many bits of a value from the one on that an index names (clause 5.2.1).
    Pick(Box<SizedExpr>, Box<SizedExpr>, LowestBit, u8),
    /// So many bits of a value from a constant one on.
    Slice(Box<SizedExpr>, i32, u8),
    /// An operator on one operand.
    Un(UnOp, Box<SizedExpr>),
    /// An operator on two operands.
    Bin(BinOp, Box<SizedExpr>, Box<SizedExpr>),
    /// The first branch where the condition isn't 0, else the second (clause 5.1.13).
    Cond(Box<SizedExpr>, Box<SizedExpr>, Box<SizedExpr>),
    /// A concatenation (clause 5.1.14).
    Cat(Vec<SizedExpr>),
    /// A concatenation so many times.
    Rep(u8, Vec<SizedExpr>),
    /// `$signed` where true, else `$unsigned` (clause 5.5).
    Cast(bool, Box<SizedExpr>),
    /// A function, by its number, of its arguments (clause 10.4.3).
    Call(u32, Vec<SizedExpr>),
    /// `$time` (clause 17.7).
    Time,
    /// A system function that has an answer.
    Sys(SysCall),
}
