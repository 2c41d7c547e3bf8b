//! The lexer.

ghost use Rattle.std.specs.Prelude.{◌≡◌, ℕ, ◌+◌, ◌-◌, ◌<◌, ◌≤◌, ◌^◌, List, length, take, IfOk, IfErr};
ghost use Rattle.vl_tree.specs.vl_base.specs.declared.place.Place.{Place};
ghost use Rattle.vl_tree.specs.declared.token.Token.{Token};
ghost use Rattle.vl_tree.specs.Faults.{IsRead, IsFirstFault, IsFirstLimit};
ghost use Rattle.vl_lex.specs.declared.lex.LexFault.TheVariants.{At, Limit};
ghost use Rattle.vl_lex.specs.Answers.{IsRefusal, Gives, Refuses};
ghost use Rattle.vl_tree.specs.Tokens.{place_after as place_after_lem};

use crate::step::{Step, step_of};
use std::alloc::{AllocError, AllocFailed, Global};
use vl_tree::Place;
use vl_tree::token::Token;

/// Why a text has no tokens.
#[derive(Clone, Copy, Debug, PartialEq, Eq)]
pub enum LexFault {
    /// A lexical fault: its place and its cause, from 1 to 6.
    At(Place, u8),
    /// A limit passed: its place and its number, 1 or 2.
    Limit(Place, u8),
    /// Want of memory.
    Memory,
}

impl From<AllocError> for LexFault {
    ghost use Rattle.vl_lex.specs.declared.lex.LexFault.TheVariants.{Memory};

    ghost from_gives = { λ _ e. e ≡ Memory };

    fn from(_error: AllocError) -> Self {
        LexFault::Memory
    }
}

impl<T: Drop> From<AllocFailed<T>> for LexFault {
    ghost use Rattle.vl_lex.specs.declared.lex.LexFault.TheVariants.{Memory};

    ghost from_gives = { λ _ e. e ≡ Memory };

    fn from(_error: AllocFailed<T>) -> Self {
        LexFault::Memory
    }
}

/// Source bytes that are allowed.
const MOST_BYTES: usize = 1_048_576;

/// Tokens that are allowed.
const MOST_TOKENS: usize = 200_000;

const START: Place = Place { line: 1, column: 1 };

/// The place after these bytes.
#[tactic(auto, using(crate::proofs::Values::place_goes, crate::proofs::Values::place_ends))]
fn place_after(place: Place, bytes: &[u8]) -> Place
    requires lines { place.line + length bytes.now < 2 ^ 32 }
    requires columns { place.column + length bytes.now < 2 ^ 32 }
    ensures { result ≡ place_after_lem place bytes.now }
{
    let mut place = place;
    for byte in bytes {
        place = if *byte == 10 {
            Place {
                line: place.line + 1,
                column: 1,
            }
        } else {
            Place {
                line: place.line,
                column: place.column + 1,
            }
        };
    }
    place
}

/// The place of what follows in a text that begins at a place.
fn place_behind(place: Place, text: &[u8], rest: &[u8]) -> Place
    requires lines { place.line + length text.now < 2 ^ 32 }
    requires columns { place.column + length text.now < 2 ^ 32 }
    requires shorter { length rest.now ≤ length text.now }
    ensures { result ≡ place_after_lem place (take (length text.now - length rest.now) text.now) }
{
    let (passed, _) = text.split_at(text.len() - rest.len());
    place_after(place, passed)
}

/// The tokens of a text.
fn tokens_of(alloc: Global, text: &[u8]) -> Result<Vec<Token>, LexFault>
    ensures read { IfOk result (λ tokens. IsRead text.now tokens.items) }
    ensures refused { IfErr result (IsRefusal text.now) }
{
    if text.len() > MOST_BYTES {
        return Err(LexFault::Limit(START, 1));
    }
    let mut tokens = Vec::new(alloc);
    let mut place = START;
    let mut rest = text;
    'each: while !rest.is_empty() {
        match step_of(alloc, rest)? {
            Step::Gap(after) => {
                place = place_behind(place, rest, after);
                rest = after;
            }
            Step::Token(kind, after) => {
                if tokens.len() == MOST_TOKENS {
                    return Err(LexFault::Limit(place, 2));
                }
                tokens.push(Token { place, kind })?;
                place = place_behind(place, rest, after);
                rest = after;
            }
            Step::Fault(cause) => return Err(LexFault::At(place, cause)),
        }
    }
    Ok(tokens)
}

/// The tokens of a text, in order, or its first fault, or the limit that it passes. Only for want
/// of memory there may be neither.
pub fn lex(alloc: Global, text: &[u8]) -> Result<Vec<Token>, LexFault>
    // What is returned is so.
    ensures read { IfOk result (λ tokens. IsRead text.now tokens.items) }
    ensures refused { IfErr result (IsRefusal text.now) }

    // And what is so is returned: no other tokens, fault or limit.
    ensures only_tokens { (tokens : List Token) → IsRead text.now tokens → Gives result tokens }
    ensures only_fault { (place : Place) (cause : ℕ)
        → IsFirstFault text.now place cause → Refuses result (At place cause) }
    ensures only_limit { (place : Place) (limit : ℕ)
        → IsFirstLimit text.now place limit → Refuses result (Limit place limit) }
{
    tokens_of(alloc, text)
}
