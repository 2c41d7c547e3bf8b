//! Tables of nodes that refer to the statements of a design. Nodes have numbers from 0 on.

use vl_design::Text;
use vl_design::design::{Expr, Stmt, SysCall, Target};

/// A statement of a segment.
#[derive(Clone, Copy)]
pub enum Piece<'a> {
    /// A statement of the design that does no system call.
    Whole(&'a Stmt),
    /// A loop, in an instance of this path.
    Loop(&'a Text, &'a Stmt),
    /// A blocking assignment behind the call that is its right side: the call's answer is assigned.
    Set(&'a Target, &'a Expr),
    /// Likewise a nonblocking assignment.
    Later(&'a Target, &'a Expr),
}

/// Statements that are done at once.
#[derive(Drop)]
pub struct Segment<'a> {
    /// Before the first one the clock rises: a tick begins.
    pub rises: bool,
    /// The statements, in order.
    pub statements: Vec<Piece<'a>>,
}

/// An item of a case.
#[derive(Clone, Copy)]
pub struct Way<'a> {
    /// Its labels.
    pub labels: &'a [Expr],
    /// The node that does its statement.
    pub to: u32,
}

/// How a node goes on behind its segment.
#[derive(Drop)]
pub enum WayOn<'a> {
    /// To the trap of a call.
    Go(u32),
    /// By an `if`: to the first node where the condition isn't 0, else to the second. A condition that is a system function
    /// is the answer of the call before.
    Branch(&'a Expr, u32, u32),
    /// By a case, also a `casez`: to the first item with a label that matches, else to the node of the default or behind the
    /// case.
    Switch(&'a Expr, Vec<Way<'a>>, u32),
    /// Past the end of a wave, to its update.
    Commit(u32),
}

/// A node of a table.
#[derive(Drop)]
pub enum Node<'a> {
    /// Statements that are done at once, and how it goes on.
    Run(Segment<'a>, WayOn<'a>),
    /// A system call of an instance of this path, and the node that is next.
    Trap(&'a Text, &'a SysCall, u32),
    /// The update of a wave, and the node that is next.
    Apply(u32),
}

/// The nodes of a wave.
#[derive(Clone, Copy)]
pub struct Wave {
    /// The first one that is done.
    pub first: u32,
    /// Its update.
    pub update: u32,
}

/// The nodes of a design's blocks.
#[derive(Drop)]
pub struct Table<'a> {
    /// The nodes, by their numbers.
    pub nodes: Vec<Node<'a>>,
    /// The wave of the `initial` blocks.
    pub zero: Wave,
    /// The wave of the clock's rise.
    pub rise: Wave,
    /// The wave of the clock's fall; where no block waits for that, it means nothing.
    pub fall: Wave,
    /// The number of the first node of time zero's wave: its nodes stand behind all others.
    pub early: u32,
}
