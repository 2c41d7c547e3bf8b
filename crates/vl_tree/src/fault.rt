//! Faults inside a parser.

ghost use Rattle.std.specs.Prelude.{◌≡◌};

use crate::token::Token;
use std::alloc::{AllocError, AllocFailed};

/// Why a part isn't read.
#[derive(Drop)]
pub enum Fault<'a> {
    /// The tokens from the first on with which those so far begin nothing that the grammar reads.
    At(&'a [Token]),
    /// Memory ran out.
    Memory,
}

impl From<AllocError> for Fault<'_> {
    ghost use Rattle.vl_tree.specs.declared.fault.Fault.TheVariants.{Memory};

    ghost from_gives = { λ _ e. e ≡ Memory };

    fn from(_error: AllocError) -> Self {
        Fault::Memory
    }
}

impl<T: Drop> From<AllocFailed<T>> for Fault<'_> {
    ghost use Rattle.vl_tree.specs.declared.fault.Fault.TheVariants.{Memory};

    ghost from_gives = { λ _ e. e ≡ Memory };

    fn from(_error: AllocFailed<T>) -> Self {
        Fault::Memory
    }
}
