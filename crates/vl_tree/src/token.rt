//! Tokens of a source text.

use vl_base::items::Text;
use vl_base::number::Number;
use vl_base::place::Place;

/// A token with the place of its first byte.
#[derive(Drop)]
pub struct Token {
    /// Where its first byte stands.
    pub place: Place,
    /// What it is.
    pub kind: TokenKind,
}

/// What a token is (IEEE 1364-2005, clause 3).
#[derive(Drop)]
pub enum TokenKind {
    /// A reserved word.
    Keyword(Text),
    /// A name; of an escaped name, the name without its backslash.
    Name(Text),
    /// A system name, its `$` included.
    System(Text),
    /// A number.
    Number(Number),
    /// A string: the bytes that it stands for.
    Str(Text),
    /// A mark of one to three bytes.
    Mark(Text),
}
