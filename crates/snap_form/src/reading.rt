//! Snapshots read from bytes.

ghost use Rattle.std.specs.Prelude.{◌≡◌, ◌<◌, ◌≤◌, ◌+◌, ◌^◌, ◌↔◌, [], ◌∷◌, ◌++◌, length, replicate, IfOk, Ok};
ghost use Rattle.std.specs.List.{AllByRecursion};
ghost use Rattle.snap_form.specs.Reading as r;
ghost use Rattle.snap_form.specs.Spelling as s;
ghost use Rattle.snap_form.specs.declared.snapshot.Snapshot.{Snapshot as Snap};

use crate::fault::{ReadError, bad};
use crate::fields::{field, number, same_bytes, same_number};
use crate::snapshot::{SnapError, SnapRow, Snapshot};
use std::alloc::{AllocError, Global};
use vl_base::files::{FileSet, OpenFile};
use vl_base::items::{Items, Text, Words};

/// The magic, the version, the tick and the number of rows; the tick.
#[tactic(auto, unfolding(crate::specs::Reading::heading_at))]
fn heading_of(rows: usize, left: &[u8]) -> Result<(u64, &[u8]), ReadError>
    ensures { r.Gives (λ x. (x.0, x.1.now)) result (r.heading_at rows left.now) }
{
    let left = same_bytes(b"FABSNAP\n", 1, left)?;
    let left = same_number(1, 2, 4, left)?;
    let (tick, left) = number(8, left)?;
    let left = same_number(rows as u128, 5, 4, left)?;
    Ok((tick as u64, left))
}

/// What stands of a row before the words.
#[tactic(auto, unfolding(crate::specs::Reading::row_at))]
fn row_of<'a>(row: &SnapRow, left: &'a [u8]) -> Result<&'a [u8], ReadError>
    ensures { r.Gives (λ x. x.now) result (r.row_at row.now left.now) }
{
    let name = row.name.as_slice();
    let left = same_number(name.len() as u128, 5, 2, left)?;
    let left = same_bytes(name, 5, left)?;
    let left = same_number(u128::from(row.width), 5, 1, left)?;
    same_number(u128::from(row.words), 5, 4, left)
}

/// What stands of the rows before the words.
fn rows_of<'a>(rows: &[SnapRow], left: &'a [u8]) -> Result<&'a [u8], ReadError>
    ensures { r.Gives (λ x. x.now) result (r.rows_at rows.now left.now) }
{
    let mut rest = left;
    for row in rows {
        rest = row_of(row, rest)?;
    }
    Ok(rest)
}

/// A number of at most 128 bits fits a width.
fn fits(value: u128, width: u8) -> bool
    requires { width ≤ 128 }
    ensures { result ≡ r.fits width value }
{
    width == 128 || value >> width == 0
}

/// A word of a width.
#[tactic(auto, unfolding(crate::specs::Reading::number_if))]
fn word_of(width: u8, left: &[u8]) -> Result<(u128, &[u8]), ReadError>
    requires { width ≤ 128 }
    ensures { r.Gives (λ x. (x.0, x.1.now)) result (r.word_at width left.now) }
{
    let size = (usize::from(width) + 7) / 8;
    let (value, rest) = number(size, left)?;
    if !fits(value, width) {
        return Err(bad(6, left));
    }
    Ok((value, rest))
}

/// Adds so many words of a width.
fn words_of<'a>(
    count: u32,
    width: u8,
    words: &mut Vec<u128>,
    left: &'a [u8],
) -> Result<&'a [u8], ReadError>
    requires { width ≤ 128 }
    ensures { r.Gives (λ x. (words.new.items, x.now)) result (r.words_at (replicate count width) words.old.items left.now) }
{
    let mut rest = left;
    for _ in 0..count {
        let (word, after) = word_of(width, rest)?;
        words.push(word)?;
        rest = after;
    }
    Ok(rest)
}

/// How many words a row has.
pub(crate) fn word_count(row: &SnapRow) -> u32
    ensures { result ≡ s.word_count row.now }
{
    if row.words == 0 { 1 } else { row.words }
}

/// The words of all rows.
fn values_of<'a>(
    alloc: Global,
    rows: &[SnapRow],
    left: &'a [u8],
) -> Result<(Words, &'a [u8]), ReadError>
    requires { AllByRecursion s.HasWidth rows.now }
    ensures { r.Gives (λ x. (x.0, x.1.now)) result (r.words_at (s.widths rows.now) [] left.now) }
{
    let mut words = Vec::new(alloc);
    let mut rest = left;
    for row in rows {
        rest = words_of(word_count(row), row.width, &mut words, rest)?;
    }
    Ok((Words::from_vec(words), rest))
}

/// A slot, which is at least this one.
#[tactic(auto, unfolding(crate::specs::Reading::number_if, crate::specs::Reading::slot_at))]
fn slot_of(least: u8, left: &[u8]) -> Result<(u8, &[u8]), ReadError>
    ensures gives { r.Gives (λ x. (x.0, x.1.now)) result (r.slot_at least left.now) }
    ensures small { IfOk result (λ x. x.0 ≤ 15) }
{
    let (slot, rest) = number(1, left)?;
    if slot < u128::from(least) || slot > 15 {
        return Err(bad(7, left));
    }
    Ok((slot as u8, rest))
}

/// The name of a file of the set.
#[tactic(auto, unfolding(crate::specs::Reading::name_at))]
fn name_of<'a>(
    alloc: Global,
    files: &FileSet,
    left: &'a [u8],
) -> Result<(Text, &'a [u8]), ReadError>
    ensures { r.Gives (λ x. (x.0, x.1.now)) result (r.name_at files.now left.now) }
{
    let (size, left) = number(2, left)?;
    let (bytes, rest) = field(size as usize, left)?;
    let name = Text::from_vec(Vec::from_slice(alloc, bytes)?);
    if files.find(&name).is_none() {
        return Err(bad(7, left));
    }
    Ok((name, rest))
}

/// How many bytes the file of a name has; 0 where there is none.
fn size_of(files: &FileSet, name: &Text) -> usize
    ensures { result ≡ r.size_of files.now name.now }
{
    match files.find(name) {
        Some(bytes) => bytes.as_slice().len(),
        None => 0,
    }
}

/// The place in the file of a name.
#[tactic(auto, unfolding(crate::specs::Reading::number_if, crate::specs::Reading::place_at))]
fn place_of<'a>(files: &FileSet, name: &Text, left: &'a [u8]) -> Result<(u64, &'a [u8]), ReadError>
    ensures { r.Gives (λ x. (x.0, x.1.now)) result (r.place_at files.now name.now left.now) }
{
    let (place, rest) = number(8, left)?;
    if place > size_of(files, name) as u128 {
        return Err(bad(7, left));
    }
    Ok((place as u64, rest))
}

/// An end flag: 0 or 1.
#[tactic(auto, unfolding(crate::specs::Reading::number_if, crate::specs::Reading::flag_at))]
fn flag_of(left: &[u8]) -> Result<(u8, &[u8]), ReadError>
    ensures { r.Gives (λ x. (x.0, x.1.now)) result (r.flag_at left.now) }
{
    let (flag, rest) = number(1, left)?;
    if flag > 1 {
        return Err(bad(7, left));
    }
    Ok((flag as u8, rest))
}

/// An open file, whose slot is at least this one.
#[tactic(auto, unfolding(crate::specs::Reading::file_at))]
fn file_of<'a>(
    alloc: Global,
    files: &FileSet,
    least: u8,
    left: &'a [u8],
) -> Result<(OpenFile, &'a [u8]), ReadError>
    ensures gives { r.Gives (λ x. (x.0, x.1.now)) result (r.file_at files.now least left.now) }
    ensures small { IfOk result (λ x. x.0.slot ≤ 15) }
{
    let (slot, left) = slot_of(least, left)?;
    let (name, left) = name_of(alloc, files, left)?;
    let (place, left) = place_of(files, &name, left)?;
    let (flag, left) = flag_of(left)?;
    let file = OpenFile {
        slot,
        name,
        place,
        ended: flag == 1,
    };
    Ok((file, left))
}

/// So many open files.
fn files_of<'a>(
    alloc: Global,
    files: &FileSet,
    count: u8,
    left: &'a [u8],
) -> Result<(Items<OpenFile>, &'a [u8]), ReadError>
    ensures { r.Gives (λ x. (x.0, x.1.now)) result (r.files_at files.now count 0 [] left.now) }
{
    let mut table = Vec::new(alloc);
    let mut least = 0;
    let mut rest = left;
    for _ in 0..count {
        let (file, after) = file_of(alloc, files, least, rest)?;
        least = file.slot + 1;
        table.push(file)?;
        rest = after;
    }
    Ok((Items::from_vec(table), rest))
}

/// A copy of a row.
fn row_copy(alloc: Global, row: &SnapRow) -> Result<SnapRow, AllocError>
    ensures { IfOk result (λ x. x ≡ row.now) }
{
    let name = Text::from_vec(Vec::from_slice(alloc, row.name.as_slice())?);
    Ok(SnapRow {
        name,
        width: row.width,
        words: row.words,
    })
}

/// A copy of rows.
fn rows_copy(alloc: Global, rows: &[SnapRow]) -> Result<Items<SnapRow>, AllocError>
    ensures { IfOk result (λ x. x ≡ rows.now) }
{
    let mut copies = Vec::new(alloc);
    for row in rows {
        copies.push(row_copy(alloc, row)?)?;
    }
    Ok(Items::from_vec(copies))
}

/// The open files, and the end of the bytes.
#[tactic(auto, unfolding(crate::specs::Reading::last_at))]
fn last_of(alloc: Global, files: &FileSet, left: &[u8]) -> Result<Items<OpenFile>, ReadError>
    ensures { r.Gives (λ x. x) result (r.last_at files.now left.now) }
{
    let (count, left) = number(1, left)?;
    let (table, left) = files_of(alloc, files, count as u8, left)?;
    if !left.is_empty() {
        return Err(bad(4, left));
    }
    Ok(table)
}

/// A snapshot.
#[tactic(auto, unfolding(crate::specs::Reading::snapshot_at))]
fn snapshot_of(
    alloc: Global,
    rows: &[SnapRow],
    files: &FileSet,
    left: &[u8],
) -> Result<Snapshot, ReadError>
    requires { AllByRecursion s.HasWidth rows.now }
    ensures { r.Gives (λ x. x) result (r.snapshot_at rows.now files.now left.now) }
{
    let (tick, left) = heading_of(rows.len(), left)?;
    let left = rows_of(rows, left)?;
    let (words, left) = values_of(alloc, rows, left)?;
    let files = last_of(alloc, files, left)?;
    let rows = rows_copy(alloc, rows)?;
    Ok(Snapshot {
        tick,
        rows,
        words,
        files,
    })
}

/// What is read of the bytes.
fn outcome_of(
    alloc: Global,
    bytes: &[u8],
    rows: &[SnapRow],
    files: &FileSet,
) -> Result<Snapshot, SnapError>
    requires { AllByRecursion s.HasWidth rows.now }
    ensures { r.Tells result (r.read rows.now files.now bytes.now) }
{
    match snapshot_of(alloc, rows, files, bytes) {
        Ok(snapshot) => Ok(snapshot),
        Err(ReadError::Memory) => Err(SnapError::Memory),
        Err(ReadError::Fault(fault)) => {
            let offset = (bytes.len() as u64).saturating_sub(fault.left as u64);
            Err(SnapError::Bad(fault.kind, offset))
        }
    }
}

/// The snapshot of a design's rows and of files of the set that the bytes spell, all of them. An
/// error is the first fault of the bytes, or want of memory.
pub fn from_bytes(
    alloc: Global,
    bytes: &[u8],
    rows: &[SnapRow],
    files: &FileSet,
) -> Result<Snapshot, SnapError>
    requires { AllByRecursion s.HasWidth rows.now }
    ensures outcome { r.Tells result (r.read rows.now files.now bytes.now) }
    // What is read is spelt so.
    ensures found { IfOk result (λ x. s.IsSnapshotOf rows.now files.now x × (bytes.now ≡ s.spelt x)) }
    // What is spelt so is read, unless memory runs out.
    ensures only { (x : Snap) → s.IsSnapshotOf rows.now files.now x → bytes.now ≡ s.spelt x → r.Tells result (Ok x) }
{
    outcome_of(alloc, bytes, rows, files)
}
