//! Files are opened and closed (IEEE 1364-2005, clause 17.2.1).

ghost use Rattle.std.specs.Prelude.{◌≡◌, ◌≤◌, ◌++◌, ◌∷◌, IfOk, OnOk, OnErr, length, take, drop};
ghost use Rattle.vl_base.specs.Files as f;
ghost use Rattle.vl_base.specs.declared.files.OpenFile.{OpenFile as Row};

use crate::files_row::descriptor;
use crate::name::copy_text;
use std::alloc::{AllocError, Global};
use vl_base::files::{FileSet, OpenFile};
use vl_base::items::Text;

/// A file has the slot.
#[tactic(auto, using(crate::proofs::Tables::tables))]
fn is_taken(table: &[OpenFile], slot: u8) -> bool
    ensures { result ≡ f.is_taken table.now slot }
{
    for file in table {
        if file.slot == slot {
            return true;
        }
    }
    false
}

/// The lowest of the 16 slots that no file has; none where each has one.
#[tactic(auto, using(crate::proofs::Tables::tables))]
fn free_slot(table: &[OpenFile]) -> Option<u8>
    ensures { result ≡ f.free_slot table.now }
{
    for slot in 0..16 {
        if !is_taken(table, slot) {
            return Some(slot);
        }
    }
    None
}

/// The place of the first row with a higher slot; the number of rows where there is none.
#[tactic(auto, using(crate::proofs::Tables::tables))]
fn place_behind(table: &[OpenFile], slot: u8) -> usize
    ensures within { result ≤ length table.now }
    ensures place { (file : Row) → file.slot ≡ slot → f.with_file file table.now ≡ take result table.now ++ file ∷ drop result table.now }
{
    for number in 0..table.len() {
        if slot < table[number].slot {
            return number;
        }
    }
    table.len()
}

/// Adds a row, in ascending order of slots.
fn add_row(table: &mut Vec<OpenFile>, file: OpenFile) -> Result<(), AllocError>
    ensures ok { OnOk result (table.new.items ≡ f.with_file file table.old.items) }
    ensures err { OnErr result (table.new.items ≡ table.old.items) }
{
    let place = place_behind(table, file.slot);
    table.insert(place, file)?;
    Ok(())
}

/// Opens a file at its start, and gives the lowest free descriptor; 0 where the set has no file of the name or none is free.
/// An `Err` is want of memory, and leaves the table as it was.
pub fn open(
    alloc: Global,
    files: &FileSet,
    table: &mut Vec<OpenFile>,
    name: &Text,
) -> Result<u32, AllocError>
    ensures table { OnOk result (table.new.items ≡ (f.opened files.now table.old.items name.now).table) }
    ensures answer { IfOk result (λ a. a ≡ (f.opened files.now table.old.items name.now).answer) }
    ensures err { OnErr result (table.new.items ≡ table.old.items) }
{
    if files.find(name).is_none() {
        return Ok(0);
    }
    match free_slot(table) {
        None => Ok(0),
        Some(slot) => {
            let name = copy_text(alloc, name)?;
            let row = OpenFile {
                slot,
                name,
                place: 0,
                ended: false,
            };
            add_row(table, row)?;
            Ok(descriptor(slot))
        }
    }
}

/// Closes the file of a descriptor; nothing where it is not open.
pub fn close(table: &mut Vec<OpenFile>, fd: u32)
    ensures { table.new.items ≡ f.closed table.old.items fd }
{
    table.retain(|file| descriptor(file.slot) != fd);
}
