//! What runs are resumed from: the bytes of a snapshot in a row.

ghost use Rattle.std.specs.Prelude.{IfOk};
ghost use Rattle.vl_design.specs.Trees.{flat_of};
ghost use Rattle.ten_core.specs.Holding.{CanBeHeld};
ghost use Rattle.machine_rows.specs.Starts.{IsStarted};

use crate::splits::files::bytes_of;
use elab_laws::held::Held;
use std::alloc::{AllocError, Global};
use ten_core::read::read;
use ten_core::snapshot::SnapError;
use vl_design::design::Design;
use vl_design::files::FileSet;

/// What a row's run starts with.
#[derive(Drop)]
pub enum Start {
    /// Nothing, or what it is resumed from.
    Held(Option<Held>),
    /// The kind of a fault of the snapshot, and its offset.
    Bad(u8, u64),
}

/// What a run starts with whose row has this line; nothing where the line is empty.
pub fn start_of(
    alloc: Global,
    design: &Design,
    files: &FileSet,
    line: &str,
) -> Result<Start, AllocError>
    requires { CanBeHeld (flat_of design.now) }
    ensures { IfOk result (IsStarted (flat_of design.now) files.now) }
{
    if line.is_empty() {
        return Ok(Start::Held(None));
    }
    let bytes = bytes_of(alloc, line, 0)?;
    match read(alloc, design, files, &bytes) {
        Ok(held) => Ok(Start::Held(Some(held))),
        Err(SnapError::Bad(kind, offset)) => Ok(Start::Bad(kind, offset)),
        Err(SnapError::Memory) => Err(AllocError),
    }
}
