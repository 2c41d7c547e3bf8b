//! Rows of the table of open files (IEEE 1364-2005, clause 17.2.1).

ghost use Rattle.std.specs.Prelude.{◌≡◌, ◌==◌, if◌then◌else◌, IfOk, OnOk};
ghost use Rattle.vl_base.specs.Files as f;

use crate::name::copy_text;
use std::alloc::{AllocError, Global};
use vl_base::files::OpenFile;

/// The descriptor of a slot.
pub(crate) fn descriptor(slot: u8) -> u32
    ensures { result ≡ f.descriptor slot }
{
    0x8000_0003 + u32::from(slot)
}

/// Another row that says the same.
fn copy_row(alloc: Global, file: &OpenFile) -> Result<OpenFile, AllocError>
    ensures { IfOk result (λ o. o ≡ file.now) }
{
    let name = copy_text(alloc, &file.name)?;
    Ok(OpenFile {
        slot: file.slot,
        name,
        place: file.place,
        ended: file.ended,
    })
}

/// What is known of the open file of a descriptor; none where it is not open.
#[tactic(auto, using(crate::proofs::Tables::tables))]
pub(crate) fn open_row(
    alloc: Global,
    table: &[OpenFile],
    fd: u32,
) -> Result<Option<OpenFile>, AllocError>
    ensures { IfOk result (λ o. o ≡ f.open_file table.now fd) }
{
    for file in table {
        if descriptor(file.slot) == fd {
            let found = copy_row(alloc, file)?;
            return Ok(Some(found));
        }
    }
    Ok(None)
}

/// Replaces a row of the same slot.
fn replace_row(alloc: Global, row: &mut OpenFile, file: &OpenFile) -> Result<(), AllocError>
    ensures { OnOk result (row.new ≡ (if row.old.slot == file.now.slot then file.now else row.old)) }
{
    if row.slot == file.slot {
        *row = copy_row(alloc, file)?;
    }
    Ok(())
}

/// Replaces what is known of the file of a slot. After an `Err` the table may have changed.
pub(crate) fn put_row(
    alloc: Global,
    table: &mut Vec<OpenFile>,
    file: &OpenFile,
) -> Result<(), AllocError>
    ensures { OnOk result (table.new.items ≡ f.with_row file.now table.old.items) }
{
    for number in 0..table.len() {
        replace_row(alloc, &mut table[number], file)?;
    }
    Ok(())
}
