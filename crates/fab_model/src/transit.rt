//! Tenants between fabrics.

ghost use Rattle.std.specs.Prelude.{◌≡◌, [], false, true, IfOk};
ghost use Rattle.ten_core.specs.vl_design.specs.Alone.{first_tick};
ghost use Rattle.ten_parcel.specs.Parcels.{is_moved, run_of, ticks_of, IsLoaded};
ghost use Rattle.ten_parcel.specs.ten_shell.specs.Shells.{CanRunOn};
ghost use Rattle.fab_model.specs.Ends.{EndsNotBefore};
ghost use Rattle.fab_model.specs.Stays.{chains};

use std::alloc::{AllocError, Global};
use ten_core::origin::Origin;
use ten_parcel::parcel::Parcel;

/// A stay of a tenant on a fabric.
#[derive(Clone, Copy, Debug, PartialEq, Eq, Drop)]
pub struct Stay {
    /// The number of the fabric.
    pub fabric: u32,
    /// The tick at which it began.
    pub from: u64,
    /// The tick at which it ended.
    pub to: u64,
    /// It came there by the move of its plan that stands at the tick at which the stay began.
    pub by_move: bool,
}

/// A tenant at rest on no fabric, with its stays so far: the first begins where its run does, each next one where the one before it
/// ends, and the last ends where the tenant rests. Its run doesn't end before that.
#[derive(Drop)]
pub struct Transit {
    /// The tenant.
    pub parcel: Parcel,
    /// Its stays so far.
    pub stays: Vec<Stay>,
    /// It was a resident where it was last; a tenant that was taken out of a line, or has just been loaded, was not.
    pub resident: bool,
    ghost chained: { chains (first_tick (run_of parcel).resume) stays.items (ticks_of parcel) ≡ true },
    ghost before_end: { EndsNotBefore (run_of parcel) (ticks_of parcel) },
}

impl Transit {
    /// A tenant at the first boundary of its run, without stays. An `Err` is want of memory alone.
    pub fn load(alloc: Global, number: u32, origin: Origin) -> Result<Transit, AllocError>
        requires { CanRunOn origin }
        ensures loaded { IfOk result (λ t. IsLoaded number origin t.parcel) }
        ensures stays { IfOk result (λ t. t.stays.items ≡ []) }
        ensures resident { IfOk result (λ t. t.resident ≡ false) }
    {
        match Parcel::load(alloc, number, origin) {
            Err(error) => Err(error),
            Ok(parcel) => Ok(Transit {
                parcel,
                stays: Vec::new(alloc),
                resident: false,
            }),
        }
    }

    /// The move of its plan that stands where it rests is done.
    pub fn is_moved(&self) -> bool
        ensures { result ≡ is_moved self.now.parcel }
    {
        match &self.parcel {
            Parcel::Rests(tenant) => tenant.shell.moved,
            Parcel::Over(_) => false,
        }
    }
}
