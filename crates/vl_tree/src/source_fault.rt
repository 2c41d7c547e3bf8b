//! Faults inside the parser of sources.

ghost use Rattle.std.specs.Prelude.{◌≡◌};

use crate::token::Token;
use std::alloc::{AllocError, AllocFailed};

/// Why the reading of a source stops at a token.
#[derive(Clone, Copy, Debug, PartialEq, Eq)]
pub enum Cause {
    /// The tokens so far, it included, begin no source.
    Syntax,
    /// Limit 3: more than 128 statements stand around it.
    Statements,
    /// Limit 4: it stands past 1,000 tokens of an expression, or of a left side, that stands in no other.
    Tokens,
}

/// Why a part isn't read.
#[derive(Drop)]
pub enum Fault<'a> {
    /// The tokens from the one on at which the reading stops, and the cause.
    At(Cause, &'a [Token]),
    /// Memory ran out.
    Memory,
}

impl From<AllocError> for Fault<'_> {
    ghost use Rattle.vl_tree.specs.declared.source_fault.Fault.TheVariants.{Memory};

    ghost from_gives = { λ _ e. e ≡ Memory };

    fn from(_error: AllocError) -> Self {
        Fault::Memory
    }
}

impl<T: Drop> From<AllocFailed<T>> for Fault<'_> {
    ghost use Rattle.vl_tree.specs.declared.source_fault.Fault.TheVariants.{Memory};

    ghost from_gives = { λ _ e. e ≡ Memory };

    fn from(_error: AllocFailed<T>) -> Self {
        Fault::Memory
    }
}
