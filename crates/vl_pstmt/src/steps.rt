//! Steps over a slice of tokens that hand no fault on.

ghost use Rattle.std.specs.Prelude.{◌≡◌, ◌<◌, ◌≤◌, length, option_map, IfSome, Ok};
ghost use Rattle.vl_tree.specs.Reading.{keyword, next_by, is_next};
ghost use Rattle.vl_tree.specs.Parsers.{word as word_lem, is_word};

use vl_tree::Place;
use vl_tree::token::{Token, TokenKind};

/// The place of a token that is this reserved word.
#[tactic(auto, unfolding(vl_tree::specs::Reading::keyword))]
fn keyword_place(token: &Token, word: &[u8]) -> Option<Place>
    ensures { result ≡ keyword word.now token.now }
{
    match &token.kind {
        TokenKind::Keyword(text) => {
            if text.as_slice() == word {
                Some(token.place)
            } else {
                None
            }
        }
        _ => None,
    }
}

/// The place of this reserved word and the tokens after it, if it comes first.
#[tactic(auto, unfolding(vl_tree::specs::Reading::next_by))]
pub fn after_keyword<'a>(tokens: &'a [Token], word: &[u8]) -> Option<(Place, &'a [Token])>
    ensures value { option_map (λ x. (x.0, x.1.now)) result ≡ next_by (keyword word.now) tokens.now }
    ensures shorter { IfSome result (λ x. length x.1.now < length tokens.now) }
{
    let (first, rest) = tokens.split_first()?;
    let place = keyword_place(first, word)?;
    Some((place, rest))
}

/// Whether this reserved word comes first.
pub fn comes(tokens: &[Token], word: &[u8]) -> bool
    ensures { result ≡ is_next (is_word word.now) tokens.now }
{
    match tokens.split_first() {
        Some((first, _)) => keyword_place(first, word).is_some(),
        None => false,
    }
}

/// Whether this reserved word comes first, and the tokens after it.
#[tactic(auto, unfolding(vl_tree::specs::Parsers::word))]
pub fn past_keyword<'a>(tokens: &'a [Token], word: &[u8]) -> (bool, &'a [Token])
    ensures reads { word_lem word.now tokens.now ≡ Ok (result.0, result.1.now) }
    ensures no_longer { length result.1.now ≤ length tokens.now }
{
    match after_keyword(tokens, word) {
        Some((_, rest)) => (true, rest),
        None => (false, tokens),
    }
}
