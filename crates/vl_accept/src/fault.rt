//! Why a design is refused.

ghost use Rattle.std.specs.Prelude.{◌≡◌};
ghost use Rattle.vl_accept.specs.Stopping as s;

use std::alloc::AllocError;
use vl_check::stop::Stop;
use vl_latch::{Nums, Place};

/// Why a design is refused.
#[derive(Drop)]
pub enum Fault {
    /// A refused construct, by its number.
    Construct(Place, u8),
    /// A limit that is passed, by its number.
    Limit(Place, u8),
    /// A combinational loop: the first token of the lowest process on one, and the numbers of the processes of one, that one first. Each drives a
    /// bit that the next reads, and the last one a bit that the first reads.
    Loop(Place, Nums),
    /// Memory ran out.
    Memory,
}

impl From<Stop> for Fault {
    ghost use Rattle.vl_accept.specs.Stopping as s;

    ghost from_gives = { λ stop f. f ≡ s.fault_of stop };

    fn from(stop: Stop) -> Self {
        match stop {
            Stop::Construct(place, number) => Fault::Construct(place, number),
            Stop::Limit(place, number) => Fault::Limit(place, number),
            Stop::Memory => Fault::Memory,
        }
    }
}

impl From<AllocError> for Fault {
    ghost use Rattle.vl_accept.specs.declared.fault.Fault.TheVariants.{Memory};

    ghost from_gives = { λ _ f. f ≡ Memory };

    fn from(_error: AllocError) -> Self {
        Fault::Memory
    }
}

/// What stops a design is its fault, if something does.
pub(crate) fn passed(found: Option<Stop>) -> Result<(), Fault>
    ensures { s.Passes found result }
{
    match found {
        None => Ok(()),
        Some(stop) => Err(Fault::from(stop)),
    }
}
