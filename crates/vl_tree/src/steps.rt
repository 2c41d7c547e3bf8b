//! Steps of a parser over a slice of tokens.

ghost use Rattle.std.specs.Prelude.{◌≡◌, ◌<◌, length, map, option_map, IfOk, IfSome};
ghost use Rattle.vl_tree.specs.MarksOfGrammar.{found_in as found_in_lem, binary_operators, unary_operators, select_marks, mark_in, binary_operator as binary_operator_lem, unary_operator as unary_operator_lem, select_mark as select_mark_lem};
ghost use Rattle.vl_tree.specs.Grammar.{first_place as first_place_lem};
ghost use Rattle.vl_tree.specs.Reading.{mark, next_by, is_next};
ghost use Rattle.vl_tree.specs.Expressions.{ends_argument as ends_argument_lem};

use crate::token::{Token, TokenKind};
use crate::tree::{BinaryOperator, SelectMark, UnaryMark, UnaryOperator};
use std::alloc::{AllocError, Global};
use vl_base::items::{Items, Text};
use vl_base::place::Place;

/// The operators on two operands, by their marks (IEEE 1364-2005, table 5-4).
const BINARY_OPERATORS: [(&[u8], BinaryOperator); 24] = [
    (b"*", BinaryOperator::Multiply),
    (b"/", BinaryOperator::Divide),
    (b"%", BinaryOperator::Modulus),
    (b"+", BinaryOperator::Add),
    (b"-", BinaryOperator::Subtract),
    (b"<<", BinaryOperator::ShiftLeft),
    (b">>", BinaryOperator::ShiftRight),
    (b"<<<", BinaryOperator::ArithmeticShiftLeft),
    (b">>>", BinaryOperator::ArithmeticShiftRight),
    (b"<", BinaryOperator::Less),
    (b"<=", BinaryOperator::LessOrEqual),
    (b">", BinaryOperator::Greater),
    (b">=", BinaryOperator::GreaterOrEqual),
    (b"==", BinaryOperator::Equal),
    (b"!=", BinaryOperator::NotEqual),
    (b"===", BinaryOperator::CaseEqual),
    (b"!==", BinaryOperator::CaseNotEqual),
    (b"&", BinaryOperator::And),
    (b"^", BinaryOperator::Xor),
    (b"^~", BinaryOperator::Xnor),
    (b"~^", BinaryOperator::Xnor),
    (b"|", BinaryOperator::Or),
    (b"&&", BinaryOperator::LogicalAnd),
    (b"||", BinaryOperator::LogicalOr),
];

/// The operators before an operand, by their marks (table 5-4).
const UNARY_OPERATORS: [(&[u8], UnaryOperator); 11] = [
    (b"+", UnaryOperator::Plus),
    (b"-", UnaryOperator::Minus),
    (b"!", UnaryOperator::LogicalNot),
    (b"~", UnaryOperator::Not),
    (b"&", UnaryOperator::And),
    (b"~&", UnaryOperator::Nand),
    (b"|", UnaryOperator::Or),
    (b"~|", UnaryOperator::Nor),
    (b"^", UnaryOperator::Xor),
    (b"~^", UnaryOperator::Xnor),
    (b"^~", UnaryOperator::Xnor),
];

/// The marks between the bounds of a select (clause 5.2.1).
const SELECT_MARKS: [(&[u8], SelectMark); 3] = [
    (b":", SelectMark::Range),
    (b"+:", SelectMark::Up),
    (b"-:", SelectMark::Down),
];

/// What stands beside these bytes in a table.
fn found_in<T: Copy>(mut table: &[(&[u8], T)], bytes: &[u8]) -> Option<T>
    ensures { result ≡ found_in_lem (map (λ k. (k.0.now, k.1)) table.entry.now) bytes.now }
{
    while let [row, rows @ ..] = table {
        if bytes == row.0 {
            return Some(row.1);
        }
        table = rows;
    }
    None
}

/// The operator on two operands that a token is.
#[tactic(auto, unfolding(crate::specs::MarksOfGrammar::binary_operator))]
fn binary_operator(token: &Token) -> Option<BinaryOperator>
    ensures { result ≡ binary_operator_lem token.now }
{
    match &token.kind {
        TokenKind::Mark(text) => found_in(&BINARY_OPERATORS, text.as_slice()),
        _ => None,
    }
}

/// The operator before an operand that a token is, with its place.
#[tactic(auto, unfolding(crate::specs::MarksOfGrammar::unary_operator))]
fn unary_operator(token: &Token) -> Option<UnaryMark>
    ensures { result ≡ unary_operator_lem token.now }
{
    let TokenKind::Mark(text) = &token.kind else {
        return None;
    };
    let operator = found_in(&UNARY_OPERATORS, text.as_slice())?;
    Some(UnaryMark {
        place: token.place,
        operator,
    })
}

/// The mark between bounds that a token is.
#[tactic(auto, unfolding(crate::specs::MarksOfGrammar::select_mark))]
fn select_mark(token: &Token) -> Option<SelectMark>
    ensures { result ≡ select_mark_lem token.now }
{
    match &token.kind {
        TokenKind::Mark(text) => found_in(&SELECT_MARKS, text.as_slice()),
        _ => None,
    }
}

/// The place of a token that is this mark.
#[tactic(auto, unfolding(crate::specs::Reading::mark))]
fn mark_place(token: &Token, bytes: &[u8]) -> Option<Place>
    ensures { result ≡ mark bytes.now token.now }
{
    match &token.kind {
        TokenKind::Mark(text) => {
            if text.as_slice() == bytes {
                Some(token.place)
            } else {
                None
            }
        }
        _ => None,
    }
}

/// The place of this mark and the tokens after it, if it comes first.
#[tactic(auto, unfolding(crate::specs::Reading::next_by))]
pub fn after_mark<'a>(tokens: &'a [Token], bytes: &[u8]) -> Option<(Place, &'a [Token])>
    ensures value { option_map (λ x. (x.0, x.1.now)) result ≡ next_by (mark bytes.now) tokens.now }
    ensures shorter { IfSome result (λ x. length x.1.now < length tokens.now) }
{
    let (first, rest) = tokens.split_first()?;
    let place = mark_place(first, bytes)?;
    Some((place, rest))
}

/// The operator on two operands that comes first, and the tokens after it.
#[tactic(auto, unfolding(crate::specs::Reading::next_by))]
pub fn after_binary(tokens: &[Token]) -> Option<(BinaryOperator, &[Token])>
    ensures value { option_map (λ x. (x.0, x.1.now)) result ≡ next_by binary_operator_lem tokens.now }
    ensures shorter { IfSome result (λ x. length x.1.now < length tokens.now) }
{
    let (first, rest) = tokens.split_first()?;
    let operator = binary_operator(first)?;
    Some((operator, rest))
}

/// The operator before an operand that comes first, and the tokens after it.
#[tactic(auto, unfolding(crate::specs::Reading::next_by))]
pub fn after_unary(tokens: &[Token]) -> Option<(UnaryMark, &[Token])>
    ensures value { option_map (λ x. (x.0, x.1.now)) result ≡ next_by unary_operator_lem tokens.now }
    ensures shorter { IfSome result (λ x. length x.1.now < length tokens.now) }
{
    let (first, rest) = tokens.split_first()?;
    let operator = unary_operator(first)?;
    Some((operator, rest))
}

/// The mark between bounds that comes first, and the tokens after it.
#[tactic(auto, unfolding(crate::specs::Reading::next_by))]
pub fn after_select(tokens: &[Token]) -> Option<(SelectMark, &[Token])>
    ensures value { option_map (λ x. (x.0, x.1.now)) result ≡ next_by select_mark_lem tokens.now }
    ensures shorter { IfSome result (λ x. length x.1.now < length tokens.now) }
{
    let (first, rest) = tokens.split_first()?;
    let mark = select_mark(first)?;
    Some((mark, rest))
}

/// The place of the first token.
pub fn first_place(tokens: &[Token]) -> Place
    ensures { result ≡ first_place_lem tokens.now }
{
    match tokens.split_first() {
        Some((first, _)) => first.place,
        None => Place { line: 0, column: 0 },
    }
}

/// A copy of a text.
pub fn copy_of(alloc: Global, text: &Text) -> Result<Text, AllocError>
    ensures { IfOk result (λ copy. copy ≡ text.now) }
{
    Ok(Items::from_vec(Vec::from_slice(alloc, text.as_slice())?))
}

/// Whether an empty argument ends here.
#[tactic(auto, unfolding(crate::specs::Expressions::ends_argument))]
pub fn ends_argument(tokens: &[Token]) -> bool
    ensures { result ≡ is_next ends_argument_lem tokens.now }
{
    match tokens.split_first() {
        Some((first, _)) => match &first.kind {
            TokenKind::Mark(text) => text.as_slice() == b",".as_slice()
                || text.as_slice() == b")".as_slice(),
            _ => false,
        },
        None => false,
    }
}
