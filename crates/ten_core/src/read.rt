//! Snapshots read.

ghost use Rattle.std.specs.Prelude.{◌≡◌, ℕ, Ok, Err, IfOk, IfErr};
ghost use Rattle.vl_design.specs.Laws.{IsTable};
ghost use Rattle.vl_design.specs.Trees.{flat_of};
ghost use Rattle.reg_ports.specs.Refusals.{AreFit};
ghost use Rattle.snap_form.specs.Reading as r;
ghost use Rattle.snap_form.specs.declared.snapshot.SnapError.TheVariants as snap;
ghost use Rattle.ten_plan.specs.Held.{snapshot_of};
ghost use Rattle.ten_plan.specs.Written.{rows_of, written};
ghost use Rattle.ten_core.specs.Holding.{CanBeHeld};
ghost use Rattle.ten_core.specs.Ports.{ports_of};

use crate::hold_laws::what_is_read_fits;
use crate::ports::snapshot_rows;
use snap_form::reading::from_bytes;
use snap_form::snapshot::{SnapError, Snapshot};
use std::alloc::Global;
use ten_plan::held::Held;
use vl_design::design::Design;
use vl_design::files::FileSet;

/// What the bytes of a snapshot of a design and its files hold. An error is their first fault, or want of memory.
pub fn read(
    alloc: Global,
    design: &Design,
    files: &FileSet,
    bytes: &[u8],
) -> Result<Held, SnapError>
    requires { CanBeHeld (flat_of design.now) }
    ensures read { IfOk result (λ h. r.read (rows_of (flat_of design.now).rows) files.now bytes.now ≡ Ok (written (snapshot_of (flat_of design.now).rows h))) }
    ensures words { IfOk result (λ h. AreFit (ports_of (flat_of design.now).rows) h.words) }
    ensures table { IfOk result (λ h. IsTable files.now h.files) }
    ensures bad { (kind offset : ℕ) → result ≡ Err (snap.Bad kind offset) → r.read (rows_of (flat_of design.now).rows) files.now bytes.now ≡ Err (snap.Bad kind offset) }
{
    what_is_read_fits();
    let rows = match snapshot_rows(alloc, design) {
        Ok(rows) => rows,
        Err(_) => return Err(SnapError::Memory),
    };
    match from_bytes(alloc, bytes, rows.as_slice(), files) {
        Ok(
            Snapshot {
                tick,
                words,
                files,
                ..
            },
        ) => Ok(Held { tick, words, files }),
        Err(error) => Err(error),
    }
}
