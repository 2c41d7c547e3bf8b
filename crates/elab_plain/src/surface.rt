//! Expressions, left sides and statements with their operators bound (IEEE 1364-2005, clauses 5 and 9).
//!
//! Each node has the place of its first token.

use vl_tree::tree::{BinaryOperator, SelectMark, UnaryOperator};
use vl_tree::{Bits, Place, Text};

/// A number: its value, the bits of it that count, and its sign.
#[derive(Clone, Copy)]
pub struct Numeral {
    /// The value and its width.
    pub bits: Bits,
    /// The bits that count; the others were z digits.
    pub care: u128,
    /// A size is written.
    pub sized: bool,
    /// The number is signed.
    pub signed: bool,
}

/// An expression.
#[cycle(ex)]
#[derive(Drop)]
pub enum Ex {
    /// A number.
    Number(Place, Numeral),
    /// A string.
    Text(Place, Text),
    /// A name with its selects.
    Named(Place, Text, Vec<Select>),
    /// An expression in parentheses.
    Paren(Place, Box<Ex>),
    /// An operator on one operand.
    Unary(Place, UnaryOperator, Box<Ex>),
    /// An operator on two operands.
    Binary(Place, BinaryOperator, Box<Ex>, Box<Ex>),
    /// A condition with its two branches.
    Choice(Place, Box<Ex>, Box<Ex>, Box<Ex>),
    /// A concatenation.
    Joined(Place, Vec<Ex>),
    /// A replication: its count and what is repeated.
    Repeated(Place, Box<Ex>, Vec<Ex>),
    /// A call of a function.
    Called(Place, Text, Vec<Ex>),
    /// A system call.
    System(Place, Text, Vec<Argument>),
}

/// A select behind a name.
#[cycle(ex)]
#[derive(Drop)]
pub enum Select {
    /// One index.
    Index(Place, Ex),
    /// Two bounds around a mark.
    Range(Place, SelectMark, Ex, Ex),
}

/// An argument of a system call.
#[cycle(ex)]
#[derive(Drop)]
pub enum Argument {
    /// Nothing.
    Null,
    /// An expression.
    Value(Ex),
}

/// What an assignment writes.
#[cycle(left)]
#[derive(Drop)]
pub enum Left {
    /// A name with its selects.
    Name(Place, Text, Vec<Select>),
    /// A concatenation.
    List(Place, Vec<Left>),
}

/// A statement.
#[cycle(statement)]
#[derive(Drop)]
pub enum Statement {
    /// Nothing.
    Null(Place),
    /// One after another.
    Block(Place, Vec<Statement>),
    /// The condition and the two branches; a missing `else` is `Null` at the `if`.
    If(Place, Ex, Box<Statement>, Box<Statement>),
    /// Whether it is a `casez`, the subject and the items.
    Case(Place, bool, Ex, Vec<CaseItem>),
    /// The first assignment, the test, the step and the body.
    For(Place, Left, Ex, Ex, Left, Ex, Box<Statement>),
    /// The count and the body.
    Repeat(Place, Ex, Box<Statement>),
    /// Whether it is blocking, and both sides.
    Assign(Place, bool, Left, Ex),
    /// A system task.
    Task(Place, Text, Vec<Argument>),
}

/// An item of a case.
#[cycle(statement)]
#[derive(Drop)]
pub enum CaseItem {
    /// The labels and what is done.
    Labelled(Vec<Ex>, Statement),
    /// What is done else.
    Default(Statement),
}
