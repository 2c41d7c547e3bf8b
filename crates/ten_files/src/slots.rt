//! Slots and descriptors (IEEE 1364-2005, clause 17.2.1).

ghost use Rattle.std.specs.Prelude.{◌≡◌, ◌≢◌, ◌<◌, List, ℕ, length, Some, IfSome, IfNone, slice_get, option_map};
ghost use Rattle.vl_base.specs.declared.files.File.{File};
ghost use Rattle.vl_base.specs.Files as f;
ghost use Rattle.ten_files.specs.Tables.{open_files, open_row, IsTableOf};

use crate::row::Row;

/// The descriptor of a slot.
pub(crate) fn descriptor(slot: usize) -> u32
    requires { slot < 16 }
    ensures { result ≡ f.descriptor slot }
{
    0x8000_0003 + slot as u32
}

/// The slot of a descriptor. None where it is of none of the 16.
fn slot_of(fd: u32) -> Option<usize>
    ensures below { IfSome result (λ slot. slot < 16) }
    ensures slot { IfSome result (λ slot. f.descriptor slot ≡ fd) }
    ensures none { IfNone result ((slot : ℕ) → slot < 16 → f.descriptor slot ≢ fd) }
{
    if fd < 0x8000_0003 || fd - 0x8000_0003 >= 16 {
        return None;
    }
    Some((fd - 0x8000_0003) as usize)
}

/// The lowest slot that isn't open. None where each is.
pub(crate) fn free_slot(rows: &[Option<Row>]) -> Option<usize>
    requires { length rows.now ≡ 16 }
    ensures below { IfSome result (λ slot. slot < 16) }
    ensures free { IfSome result (λ slot. slice_get rows.now slot ≡ Some None) }
    ensures lowest { (files : List File) → result ≡ f.free_slot (open_files files rows.now) }
{
    for slot in 0..16 {
        if rows[slot].is_none() {
            return Some(slot);
        }
    }
    None
}

/// The slot and the row of the open file of a descriptor. None where it isn't open.
pub(crate) fn find_row(rows: &[Option<Row>], fd: u32) -> Option<(usize, Row)>
    requires { length rows.now ≡ 16 }
    ensures below { IfSome result (λ found. found.0 < 16) }
    ensures row { IfSome result (λ found. slice_get rows.now found.0 ≡ Some (Some found.1)) }
    ensures file { (files : List File) → f.open_file (open_files files rows.now) fd ≡ option_map (λ found. open_row files found.0 found.1) result }
{
    match slot_of(fd) {
        None => None,
        Some(slot) => match rows[slot] {
            None => None,
            Some(row) => Some((slot, row)),
        },
    }
}

/// Closes the file of a descriptor; nothing where it isn't open.
pub(crate) fn close_row(rows: &mut [Option<Row>], fd: u32)
    requires { length rows.old ≡ 16 }
    ensures table { (files : List File) → open_files files rows.new ≡ f.closed (open_files files rows.old) fd }
    ensures fits { (files : List File) → IsTableOf files rows.old → IsTableOf files rows.new }
{
    match slot_of(fd) {
        None => {}
        Some(slot) => rows[slot] = None,
    }
}
