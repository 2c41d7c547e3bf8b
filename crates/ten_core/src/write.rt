//! Snapshots written.

ghost use Rattle.std.specs.Prelude.{◌≡◌, IfOk};
ghost use Rattle.vl_design.specs.Trees.{flat_of};
ghost use Rattle.snap_form.specs.Spelling.{IsSnapshot};
ghost use Rattle.ten_core.specs.Holding.{CanBeHeld};
ghost use Rattle.ten_plan.specs.Held.{snapshot_of};
ghost use Rattle.ten_plan.specs.Written.{bytes_of, written};

use crate::ports::snapshot_rows;
use snap_form::snapshot::Snapshot;
use snap_form::writing::to_bytes;
use std::alloc::{AllocError, Global};
use ten_plan::held::Held;
use vl_design::Bytes;
use vl_design::design::Design;

/// The bytes of a snapshot of a design.
pub fn write(alloc: Global, design: &Design, held: Held) -> Result<Bytes, AllocError>
    requires design { CanBeHeld (flat_of design.now) }
    requires snapshot { IsSnapshot (written (snapshot_of (flat_of design.now).rows held)) }
    ensures { IfOk result (λ bytes. bytes ≡ bytes_of (snapshot_of (flat_of design.now).rows held)) }
{
    let rows = snapshot_rows(alloc, design)?;
    let snapshot = Snapshot {
        tick: held.tick,
        rows,
        words: held.words,
        files: held.files,
    };
    to_bytes(alloc, &snapshot)
}
