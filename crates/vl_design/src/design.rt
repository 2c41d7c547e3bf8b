//! Flat designs.

use vl_base::bits::{BinOp, Bits, UnOp};
use vl_base::items::{Items, Nums, Text};
use vl_base::number::Number;
use vl_base::place::Place;

/// A design flattened from its top module (IEEE 1364-2005, clause 12). Signals, functions and processes are named by
/// their places in its lists, from 0.
#[derive(Drop)]
pub struct Design {
    /// The name of the top module.
    pub top: Text,
    /// Its signals, in text order.
    pub signals: Items<Signal>,
    /// Its functions, in text order.
    pub funcs: Items<Func>,
    /// Its processes, in text order.
    pub processes: Items<Process>,
}

/// A signal: its path, where it is declared, its kind, sign and range, and the addresses of a memory.
#[derive(Drop)]
pub struct Signal {
    /// The names from the top module's on, joined by dots.
    pub name: Text,
    /// Where its name is declared.
    pub place: Place,
    /// Its kind.
    pub kind: SigKind,
    /// Its values are signed.
    pub signed: bool,
    /// The number of its highest bit.
    pub left: i32,
    /// The number of its lowest bit.
    pub right: i32,
    /// A memory's first address as declared; 0 for other kinds.
    pub first: i32,
    /// A memory's last address as declared; 0 for other kinds.
    pub last: i32,
}

/// What a signal is.
#[derive(Clone, Copy, Debug, PartialEq, Eq)]
pub enum SigKind {
    /// A net (clause 4.2.1).
    Net,
    /// A variable (clause 4.2.2).
    Var,
    /// A variable that a combinational process writes.
    Comb,
    /// A loop variable: it controls loops, and has no value outside them.
    Loop,
    /// A memory: an array of words (clause 4.9).
    Mem,
    /// A clock name, which has no value.
    Clock,
}

/// A process: an `initial` or `always` block, or a continuous assignment (clauses 6 and 9).
#[derive(Drop)]
pub struct Process {
    /// The place of its first token.
    pub place: Place,
    /// The path of its instance.
    pub path: Text,
    /// When it runs.
    pub kind: ProcKind,
    /// The events that it waits for: none for `@*`, `initial` and assignments.
    pub events: Items<Event>,
    /// What it does.
    pub body: Stmt,
}

/// When a process runs.
#[derive(Clone, Copy, Debug, PartialEq, Eq)]
pub enum ProcKind {
    /// Once, at time zero.
    Init,
    /// As the clock rises.
    Rise,
    /// As the clock falls.
    Fall,
    /// As a signal that it reads changes: an `always` block.
    Comb,
    /// As a signal that its right side reads changes: a continuous assignment.
    Assign,
}

/// What a process waits for: 0 for any change of a signal, 1 for its `posedge`, 2 for its `negedge` (clause 9.7).
#[derive(Clone, Copy, Debug, PartialEq, Eq)]
pub struct Event {
    /// The place of its first token.
    pub place: Place,
    /// The signal's number.
    pub signal: u32,
    /// 0, 1 or 2.
    pub edge: u8,
}

/// A function (clause 10.4). In its body the numbers from that of the design's signals on name its locals.
#[derive(Drop)]
pub struct Func {
    /// Its path.
    pub name: Text,
    /// Where its name is declared.
    pub place: Place,
    /// The numbers of its inputs, in order.
    pub inputs: Nums,
    /// The number of the variable that has its result.
    pub result: u32,
    /// Its variables, inputs and result included.
    pub locals: Items<Signal>,
    /// What it does.
    pub body: Stmt,
}

/// A statement (clause 9) with the place of its first token.
#[derive(Drop)]
#[cycle(stmt)]
pub struct Stmt {
    /// The place of its first token.
    pub place: Place,
    /// What it is.
    pub node: StmtNode,
}

/// What a statement is.
#[derive(Drop)]
#[cycle(stmt)]
pub enum StmtNode {
    /// Nothing.
    Nop,
    /// One after another (clause 9.8.1).
    Seq(Vec<Stmt>),
    /// The first branch where the condition isn't 0, else the second (clause 9.4).
    If(Expr, Box<Stmt>, Box<Stmt>),
    /// The first item with a label that matches, else the default (clause 9.5). True for `casez`.
    Case(Expr, Vec<CaseItem>, bool),
    /// The loop variable's number, its first assignment, the test, the step and the body (clause 9.6).
    For(u32, Box<Stmt>, Expr, Box<Stmt>, Box<Stmt>),
    /// The body so many times (clause 9.6).
    Repeat(u32, Box<Stmt>),
    /// A blocking assignment (clause 9.2.1).
    Set(Target, Expr),
    /// A nonblocking assignment (clause 9.2.2).
    Later(Target, Expr),
    /// A system task (clause 17).
    Sys(SysCall),
}

/// An item of a case.
#[derive(Drop)]
#[cycle(stmt)]
pub struct CaseItem {
    /// Its labels; none for the default.
    pub labels: Vec<Expr>,
    /// What it does.
    pub body: Stmt,
}

/// An expression (clause 5) with the place of its first token.
#[derive(Drop)]
#[cycle(expr)]
pub struct Expr {
    /// The place of its first token.
    pub place: Place,
    /// What it is.
    pub node: ExprNode,
}

/// What an expression is.
#[derive(Drop)]
#[cycle(expr)]
pub enum ExprNode {
    /// A number or a string, and whether it is signed.
    Num(Bits, bool),
    /// A label of a `casez` that is one number.
    Label(Number),
    /// The value of a net, a variable or a local; a memory only as an argument of a system call.
    Sig(u32),
    /// A word of a memory, by its address.
    Word(u32, Box<Expr>),
    /// So many bits of a value from the one on that an index names (clause 5.2.1).
    Pick(Box<Expr>, Box<Expr>, LowestBit, u8),
    /// So many bits of a value from a constant one on.
    Slice(Box<Expr>, i32, u8),
    /// An operator on one operand.
    Un(UnOp, Box<Expr>),
    /// An operator on two operands.
    Bin(BinOp, Box<Expr>, Box<Expr>),
    /// The first branch where the condition isn't 0, else the second (clause 5.1.13).
    Cond(Box<Expr>, Box<Expr>, Box<Expr>),
    /// A concatenation (clause 5.1.14).
    Cat(Vec<Expr>),
    /// A concatenation so many times.
    Rep(u8, Vec<Expr>),
    /// `$signed` where true, else `$unsigned` (clause 5.5).
    Cast(bool, Box<Expr>),
    /// A function, by its number, of its arguments (clause 10.4.3).
    Call(u32, Vec<Expr>),
    /// `$time` (clause 17.7).
    Time,
    /// A system function that has an answer, as the whole right side of an assignment or the condition of an `if`.
    Sys(SysCall),
}

/// How the whole number of an index becomes the number of the lowest bit that a select takes.
#[derive(Clone, Copy, Debug, PartialEq, Eq)]
pub struct LowestBit {
    /// What the index is added to, or taken from.
    pub constant: i64,
    /// It is taken from the constant.
    pub taken: bool,
}

/// What an assignment writes, with the place of its first token.
#[derive(Drop)]
#[cycle(target)]
pub struct Target {
    /// The place of its first token.
    pub place: Place,
    /// What it is.
    pub node: TargetNode,
}

/// What an assignment writes (clause 9.2).
#[derive(Drop)]
#[cycle(target)]
pub enum TargetNode {
    /// A whole net, variable or local.
    Sig(u32),
    /// A word of a memory, by its address.
    Word(u32, Box<Expr>),
    /// So many bits from the one on that an index names.
    Pick(Box<Target>, Box<Expr>, LowestBit, u8),
    /// So many bits from a constant one on.
    Slice(Box<Target>, i32, u8),
    /// A concatenation.
    List(Vec<Target>),
}

/// A call of a system task or function (clause 17).
#[derive(Drop)]
#[cycle(expr)]
pub struct SysCall {
    /// Its name, the `$` included.
    pub name: Text,
    /// Its arguments.
    pub args: Vec<SysArg>,
}

/// An argument of a system call.
#[derive(Drop)]
#[cycle(expr)]
pub enum SysArg {
    /// Nothing between two commas.
    Null,
    /// A string.
    Str(Text),
    /// An expression; a variable or a memory is a `Sig`.
    Value(Expr),
}

/// A width in bits and a sign: of an expression, or of the context that it is read in.
#[derive(Clone, Copy, Debug, PartialEq, Eq)]
pub struct Form {
    /// The width in bits.
    pub width: u32,
    /// The value is signed.
    pub signed: bool,
}

/// Why a run ended.
#[derive(Clone, Copy, Debug, PartialEq, Eq)]
pub enum End {
    /// A `$finish` was done.
    Finished,
    /// Its ticks were spent.
    Budget,
    /// A stop ended it.
    Stopped,
}
