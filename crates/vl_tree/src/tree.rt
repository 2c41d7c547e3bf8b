//! The trees of expressions (IEEE 1364-2005, clause 5 and annex A.8).
//!
//! Each production has a type of its name. Each node has the place of its first token.

use crate::parts::{Boxed, Parts};
use vl_base::items::Text;
use vl_base::number::Number;
use vl_base::place::Place;

/// A name where it is used or declared (annex A.9.3).
#[derive(Drop)]
pub struct Identifier {
    /// The place of its token.
    pub place: Place,
    /// The name.
    pub name: Text,
}

/// `expr = binary [ "?" expr ":" expr ]` (annex A.8.3).
#[cycle(expression)]
#[derive(Drop)]
pub struct Expression {
    /// The place of its first token.
    pub place: Place,
    /// The condition, or the whole where no `?` comes.
    pub binary: Boxed<Binary>,
    /// What stands behind the `?`.
    pub choice: Option<Boxed<Choice>>,
}

/// The two branches of `binary ? expr : expr` (clause 5.1.13).
#[cycle(expression)]
#[derive(Drop)]
pub struct Choice {
    /// What holds where the condition isn't 0.
    pub chosen: Expression,
    /// What holds where it is 0.
    pub otherwise: Expression,
}

/// `binary = unary { binop unary }`: operands and operators in order, not yet bound.
#[cycle(expression)]
#[derive(Drop)]
pub struct Binary {
    /// The place of its first token.
    pub place: Place,
    /// The first operand.
    pub first: Unary,
    /// The operators, each with the operand on its right.
    pub links: Parts<Link>,
}

/// An operator with the operand on its right.
#[cycle(expression)]
#[derive(Drop)]
pub struct Link {
    /// The operator.
    pub operator: BinaryOperator,
    /// The operand on its right.
    pub operand: Unary,
}

/// `unary = { unop } primary`: the operators in order, the innermost last.
#[cycle(expression)]
#[derive(Drop)]
pub struct Unary {
    /// The place of its first token.
    pub place: Place,
    /// The operators, the innermost last.
    pub operators: Parts<UnaryMark>,
    /// What they stand before.
    pub primary: Boxed<Primary>,
}

/// A mark of `unary` with its place.
#[derive(Clone, Copy, Debug, PartialEq, Eq)]
pub struct UnaryMark {
    /// Where it stands.
    pub place: Place,
    /// The operator.
    pub operator: UnaryOperator,
}

/// `primary` (annex A.8.4).
#[cycle(expression)]
#[derive(Drop)]
pub enum Primary {
    /// A number.
    Number(Place, Number),
    /// A string: the bytes that it stands for.
    Str(Place, Text),
    /// A name with its selects.
    Name(Name),
    /// `"(" expr ")"`. The place is that of the parenthesis.
    Parenthesized(Place, Boxed<Expression>),
    /// `"{" expr { "," expr } "}"` (clause 5.1.14).
    Concatenation(Place, Parts<Expression>),
    /// `"{" expr "{" expr { "," expr } "}" "}"`: the count, then what is repeated.
    Replication(Place, Boxed<Expression>, Parts<Expression>),
    /// `id "(" expr { "," expr } ")"`: a call of a function (clause 10.4.3).
    Call(Identifier, Parts<Expression>),
    /// `system [ "(" sarg { "," sarg } ")" ]` (clause 17).
    System(SystemCall),
}

/// `name = id { "[" expr [ (":" | "+:" | "-:") expr ] "]" }` (clause 5.2).
#[cycle(expression)]
#[derive(Drop)]
pub struct Name {
    /// The place of its first token.
    pub place: Place,
    /// The name that stands first.
    pub identifier: Identifier,
    /// The selects, in order.
    pub selects: Parts<Select>,
}

/// `"[" expr [ (":" | "+:" | "-:") expr ] "]"` (clause 5.2.1).
#[cycle(expression)]
#[derive(Drop)]
pub struct Select {
    /// The place of its `[`.
    pub place: Place,
    /// The index, or what stands before the mark.
    pub first: Expression,
    /// The mark and what stands behind it.
    pub second: Option<Bound>,
}

/// The second part of a select of several bits.
#[cycle(expression)]
#[derive(Drop)]
pub struct Bound {
    /// The mark before it.
    pub mark: SelectMark,
    /// What stands behind the mark.
    pub bound: Expression,
}

/// `system [ "(" sarg { "," sarg } ")" ]`: a call of a system task or function (clause 17).
#[cycle(expression)]
#[derive(Drop)]
pub struct SystemCall {
    /// The place of its first token.
    pub place: Place,
    /// The name, its `$` included.
    pub name: Text,
    /// What stands in parentheses, if anything does.
    pub arguments: Option<Parts<SystemArgument>>,
}

/// `sarg = [ expr ]`.
#[cycle(expression)]
#[derive(Drop)]
pub struct SystemArgument {
    /// The argument, if it isn't empty.
    pub argument: Option<Expression>,
}

/// `binop` (clause 5.1, table 5-4).
#[derive(Clone, Copy, Debug, PartialEq, Eq)]
pub enum BinaryOperator {
    /// `*`
    Multiply,
    /// `/`
    Divide,
    /// `%`
    Modulus,
    /// `+`
    Add,
    /// `-`
    Subtract,
    /// `<<`
    ShiftLeft,
    /// `>>`
    ShiftRight,
    /// `<<<`
    ArithmeticShiftLeft,
    /// `>>>`
    ArithmeticShiftRight,
    /// `<`
    Less,
    /// `<=`
    LessOrEqual,
    /// `>`
    Greater,
    /// `>=`
    GreaterOrEqual,
    /// `==`
    Equal,
    /// `!=`
    NotEqual,
    /// `===`
    CaseEqual,
    /// `!==`
    CaseNotEqual,
    /// `&`
    And,
    /// `^`
    Xor,
    /// `^~` and `~^`
    Xnor,
    /// `|`
    Or,
    /// `&&`
    LogicalAnd,
    /// `||`
    LogicalOr,
}

/// A mark of `unary` (clause 5.1, table 5-4).
#[derive(Clone, Copy, Debug, PartialEq, Eq)]
pub enum UnaryOperator {
    /// `+`
    Plus,
    /// `-`
    Minus,
    /// `!`
    LogicalNot,
    /// `~`
    Not,
    /// `&`
    And,
    /// `~&`
    Nand,
    /// `|`
    Or,
    /// `~|`
    Nor,
    /// `^`
    Xor,
    /// `~^` and `^~`
    Xnor,
}

/// The mark between the bounds of a select (clause 5.2.1).
#[derive(Clone, Copy, Debug, PartialEq, Eq)]
pub enum SelectMark {
    /// `:`
    Range,
    /// `+:`
    Up,
    /// `-:`
    Down,
}
