//! Why reading ends.

ghost use Rattle.std.specs.Prelude.{◌≡◌};
ghost use Rattle.snap_form.specs.declared.fault.ReadError.TheVariants as errors;
ghost use Rattle.snap_form.specs.Reading as r;

use std::alloc::{AllocError, AllocFailed};

/// A fault of the bytes.
#[derive(Clone, Copy)]
pub(crate) struct Fault {
    /// The kind, from 1 to 7.
    pub kind: u8,
    /// How many bytes there are from its place on.
    pub left: usize,
}

/// Why a part was not read.
#[derive(Clone, Copy)]
pub(crate) enum ReadError {
    /// A fault of the bytes.
    Fault(Fault),
    /// Want of memory.
    Memory,
}

/// The fault of a kind at the place where these bytes begin.
pub(crate) fn bad(kind: u8, left: &[u8]) -> ReadError
    ensures { result ≡ errors.Fault (r.fault kind left.now) }
{
    ReadError::Fault(Fault {
        kind,
        left: left.len(),
    })
}

impl From<AllocError> for ReadError {
    ghost use Rattle.snap_form.specs.declared.fault.ReadError.TheVariants.{Memory};

    ghost from_gives = { λ _ e. e ≡ Memory };

    fn from(_: AllocError) -> ReadError {
        ReadError::Memory
    }
}

impl<T: Drop> From<AllocFailed<T>> for ReadError {
    ghost use Rattle.snap_form.specs.declared.fault.ReadError.TheVariants.{Memory};

    ghost from_gives = { λ _ e. e ≡ Memory };

    fn from(_: AllocFailed<T>) -> ReadError {
        ReadError::Memory
    }
}
