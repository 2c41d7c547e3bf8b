//! What tenants begin with: nothing, or a snapshot.

ghost use Rattle.std.specs.Prelude.{◌≡◌, ◌≤◌, IfOk, option_map};
ghost use Rattle.ten_core.specs.vl_design.specs.Trees.{flat_of};
ghost use Rattle.ten_core.specs.Holding.{CanBeHeld};
ghost use Rattle.host_judge.specs.Deciding.{IsStarted};

use elab_laws::held::Held;
use std::alloc::{AllocError, Global};
use ten_core::design::Design;
use ten_core::files::FileSet;
use ten_core::read::read;
use ten_core::snapshot::SnapError;

/// What a run begins with, or the fault of its snapshot.
#[derive(Drop)]
pub(crate) enum Start {
    /// It begins with this; with time zero where it is nothing.
    From(Option<Held>),
    /// The snapshot's fault, from 1 to 8.
    Bad(u8),
}

/// What the bytes of a snapshot begin a run with, or their fault: 8 where their tick is above the budget.
fn resumed(
    alloc: Global,
    design: &Design,
    files: &FileSet,
    budget: u64,
    bytes: &[u8],
) -> Result<Start, AllocError>
    requires held { CanBeHeld (flat_of design.now) }
    requires budget { budget ≤ 1000000000 }
    ensures { IfOk result (IsStarted (flat_of design.now) files.now budget (Some bytes.now)) }
{
    match read(alloc, design, files, bytes) {
        Ok(held) => {
            if budget < held.tick {
                Ok(Start::Bad(8))
            } else {
                Ok(Start::From(Some(held)))
            }
        }
        Err(SnapError::Bad(fault, _)) => Ok(Start::Bad(fault)),
        Err(SnapError::Memory) => Err(AllocError),
    }
}

/// What a run begins with: time zero where there are no bytes of a snapshot.
pub(crate) fn start_of(
    alloc: Global,
    design: &Design,
    files: &FileSet,
    budget: u64,
    snapshot: Option<&[u8]>,
) -> Result<Start, AllocError>
    requires held { CanBeHeld (flat_of design.now) }
    requires budget { budget ≤ 1000000000 }
    ensures { IfOk result (IsStarted (flat_of design.now) files.now budget (option_map (λ bytes. bytes.now) snapshot.entry)) }
{
    match snapshot {
        None => Ok(Start::From(None)),
        Some(bytes) => resumed(alloc, design, files, budget, bytes),
    }
}
