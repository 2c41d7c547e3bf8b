//! Steps of the parser that leave the tokens as they are.

ghost use Rattle.std.specs.Prelude.{◌≡◌, ◌<◌, ◌≤◌, [], ◌∷◌, ◌++◌, List, length, Some, IfOk, MatchOption};
ghost use Rattle.vl_tree.specs.declared.token.Token.{Token as TokenLem};
ghost use Rattle.vl_tree.specs.Reading as plain;
ghost use Rattle.vl_tree.specs.Reading.{is_next};
ghost use Rattle.vl_tree.specs.Parsers.{Gives, Outcome, and_then, must, pure, is_word, is_mark};

use std::alloc::{AllocError, Global};
use vl_pstmt::steps::after_keyword;
use vl_tree::parts::Parts;
use vl_tree::source_fault::{Cause, Fault};
use vl_tree::steps::after_mark;
use vl_tree::token::Token;

/// Whether this mark comes first.
#[tactic(auto, unfolding(vl_tree::specs::Reading::next_by))]
pub fn begins_with_mark(tokens: &[Token], mark: &[u8]) -> bool
    ensures { result ≡ is_next (is_mark mark.now) tokens.now }
{
    after_mark(tokens, mark).is_some()
}

/// Whether this reserved word comes first.
#[tactic(auto, unfolding(vl_tree::specs::Reading::next_by))]
pub fn begins_with_keyword(tokens: &[Token], word: &[u8]) -> bool
    ensures { result ≡ is_next (is_word word.now) tokens.now }
{
    after_keyword(tokens, word).is_some()
}

/// The part, before a mark that has to come.
pub fn before_mark<'a, T: Drop>(
    part: T,
    tokens: &'a [Token],
    mark: &[u8],
) -> Result<(T, &'a [Token]), Fault<'a>>
    ensures reads { Gives result (must (plain.mark mark.now) (λ _. pure part) tokens.now) }
    ensures shorter { IfOk result (λ x. length x.1.now < length tokens.now) }
{
    match after_mark(tokens, mark) {
        Some((_, rest)) => Ok((part, rest)),
        None => Err(Fault::At(Cause::Syntax, tokens)),
    }
}

/// The part, before a reserved word that has to come.
pub fn before_keyword<'a, T: Drop>(
    part: T,
    tokens: &'a [Token],
    word: &[u8],
) -> Result<(T, &'a [Token]), Fault<'a>>
    ensures reads { Gives result (must (plain.keyword word.now) (λ _. pure part) tokens.now) }
    ensures shorter { IfOk result (λ x. length x.1.now < length tokens.now) }
{
    match after_keyword(tokens, word) {
        Some((_, rest)) => Ok((part, rest)),
        None => Err(Fault::At(Cause::Syntax, tokens)),
    }
}

/// A part that is there.
#[tactic(auto, using(vl_pstmt::proofs::Passing::hands_on))]
pub fn found<'a, T: Drop>(
    read: Result<(T, &'a [Token]), Fault<'a>>,
) -> Result<(Option<T>, &'a [Token]), Fault<'a>>
    ensures reads { (o : Outcome T) → Gives read.entry o → Gives result (and_then o (λ a. pure (Some a))) }
    ensures shorter { (rest ts : List TokenLem) → IfOk read.entry (λ x. length x.1.now < length rest) → IfOk result (λ x. MatchOption x.0 (length x.1.now ≤ length ts) (λ _. length x.1.now < length rest)) }
{
    let (part, rest) = read?;
    Ok((Some(part), rest))
}

/// The list of one part.
pub fn alone<T: Drop>(alloc: Global, part: T) -> Result<Parts<T>, AllocError>
    ensures { IfOk result (λ xs. xs ≡ part ∷ []) }
{
    let mut parts = Parts::new(alloc);
    parts.push(part)?;
    Ok(parts)
}

/// What is read, beside a part before it.
#[tactic(auto, using(vl_pstmt::proofs::Passing::hands_on))]
pub fn beside<'a, T: Drop, U: Drop>(
    part: T,
    read: Result<(U, &'a [Token]), Fault<'a>>,
) -> Result<((T, U), &'a [Token]), Fault<'a>>
    ensures reads { (o : Outcome U) → Gives read.entry o → Gives result (and_then o (λ a. pure (part, a))) }
    ensures shorter { (rest : List TokenLem) → IfOk read.entry (λ x. length x.1.now < length rest) → IfOk result (λ x. length x.1.now < length rest) }
{
    let (other, rest) = read?;
    Ok(((part, other), rest))
}

/// The list with the last part, beside the part that is read behind it.
#[tactic(auto, using(vl_pstmt::proofs::Passing::hands_on))]
pub fn closed<'a, T: Drop>(
    mut parts: Parts<T>,
    last: T,
    read: Result<(T, &'a [Token]), Fault<'a>>,
) -> Result<((Parts<T>, T), &'a [Token]), Fault<'a>>
    ensures reads { (o : Outcome T) → Gives read.entry o → Gives result (and_then o (λ a. pure (parts ++ last ∷ [], a))) }
    ensures shorter { (rest : List TokenLem) → IfOk read.entry (λ x. length x.1.now < length rest) → IfOk result (λ x. length x.1.now < length rest) }
{
    let (next, rest) = read?;
    parts.push(last)?;
    Ok(((parts, next), rest))
}

/// The list with the part that is read behind it.
#[tactic(auto, using(vl_pstmt::proofs::Passing::hands_on))]
pub fn pushed<'a, T: Drop>(
    mut parts: Parts<T>,
    read: Result<(T, &'a [Token]), Fault<'a>>,
) -> Result<(Parts<T>, &'a [Token]), Fault<'a>>
    ensures reads { (o : Outcome T) → Gives read.entry o → Gives result (and_then o (λ a. pure (parts ++ a ∷ []))) }
    ensures shorter { (rest : List TokenLem) → IfOk read.entry (λ x. length x.1.now < length rest) → IfOk result (λ x. length x.1.now < length rest) }
{
    let (part, rest) = read?;
    parts.push(part)?;
    Ok((parts, rest))
}
