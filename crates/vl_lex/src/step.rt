//! One gap or token.

ghost use Rattle.std.specs.Prelude.{◌≡◌, IfOk};
ghost use Rattle.vl_lex.specs.Reading.{next};
ghost use Rattle.vl_lex.specs.View.{seen};

use crate::bytes::{First, first_of};
use crate::gaps::directive_at;
use crate::marks::other_at;
use crate::names::{escaped_at, system_at, word_at};
use crate::numbers::number_at;
use crate::strings::string_at;
use std::alloc::{AllocError, Global};
use vl_tree::token::TokenKind;

/// What stands at the front of a text, and what follows it.
#[derive(Drop)]
pub enum Step<'a> {
    /// A gap.
    Gap(&'a [u8]),
    /// A token.
    Token(TokenKind, &'a [u8]),
    /// Neither, for this cause.
    Fault(u8),
}

/// What stands at the front of a text.
#[tactic(auto, unfolding(crate::specs::Reading::next))]
pub fn step_of<'a>(alloc: Global, text: &'a [u8]) -> Result<Step<'a>, AllocError>
    ensures { IfOk result (λ s. seen s ≡ next text.now) }
{
    let Some((byte, rest)) = text.split_first() else {
        return Ok(Step::Fault(1));
    };
    match first_of(*byte) {
        First::White => Ok(Step::Gap(rest)),
        First::Letter => word_at(alloc, text),
        First::Figure => Ok(number_at(text)),
        First::Apostrophe => Ok(number_at(text)),
        First::Quote => string_at(alloc, rest),
        First::Dollar => system_at(alloc, text),
        First::Backslash => escaped_at(alloc, rest),
        First::Grave => Ok(directive_at(rest)),
        First::Other => other_at(alloc, text),
    }
}
