//! Snapshots written as bytes.

ghost use Rattle.std.specs.Prelude.{◌≡◌, ◌≤◌, ◌*◌, ◌++◌, length, replicate, OnOk, IfOk};
ghost use Rattle.std.specs.List.{AllByRecursion, flat_map};
ghost use Rattle.snap_form.specs.Spelling as form;

use crate::reading::word_count;
use crate::snapshot::{SnapRow, Snapshot};
use std::alloc::{AllocError, Global};
use vl_base::files::OpenFile;
use vl_base::items::Bytes;

/// Adds a number's lowest n bytes, at most 16, the highest first.
fn put_number(number: u128, n: u8, out: &mut Vec<u8>) -> Result<(), AllocError>
    requires { n ≤ 16 }
    ensures { OnOk result (out.new.items ≡ out.old.items ++ form.big_endian n number) }
{
    for place in 0..n {
        let byte = (number >> (8 * (n - 1 - place))) % 256;
        out.push(byte as u8)?;
    }
    Ok(())
}

/// Adds what stands of a row before the words.
fn put_row(row: &SnapRow, out: &mut Vec<u8>) -> Result<(), AllocError>
    ensures { OnOk result (out.new.items ≡ out.old.items ++ form.row row.now) }
{
    let name = row.name.as_slice();
    put_number(name.len() as u128, 2, out)?;
    out.extend_from_slice(name)?;
    put_number(u128::from(row.width), 1, out)?;
    put_number(u128::from(row.words), 4, out)
}

/// Adds what stands of the rows before the words.
fn put_rows(rows: &[SnapRow], out: &mut Vec<u8>) -> Result<(), AllocError>
    ensures { OnOk result (out.new.items ≡ out.old.items ++ flat_map form.row rows.now) }
{
    for row in rows {
        put_row(row, out)?;
    }
    Ok(())
}

/// Adds words of one width.
fn put_words(width: u8, words: &[u128], out: &mut Vec<u8>) -> Result<(), AllocError>
    requires { width ≤ 128 }
    ensures { OnOk result (out.new.items ≡ out.old.items ++ form.words (replicate (length words.now) width) words.now) }
{
    let size = (width + 7) / 8;
    for word in words {
        put_number(*word, size, out)?;
    }
    Ok(())
}

/// Adds the words of all rows.
fn put_values(rows: &[SnapRow], words: &[u128], out: &mut Vec<u8>) -> Result<(), AllocError>
    requires rows { AllByRecursion form.IsRow rows.now }
    requires words { form.AreWords (form.widths rows.now) words.now }
    ensures { OnOk result (out.new.items ≡ out.old.items ++ form.words (form.widths rows.now) words.now) }
{
    let mut left = words;
    for row in rows {
        let (own, others) = left.split_at(word_count(row) as usize);
        put_words(row.width, own, out)?;
        left = others;
    }
    Ok(())
}

/// Adds an open file.
fn put_file(file: &OpenFile, out: &mut Vec<u8>) -> Result<(), AllocError>
    ensures { OnOk result (out.new.items ≡ out.old.items ++ form.file file.now) }
{
    let name = file.name.as_slice();
    put_number(u128::from(file.slot), 1, out)?;
    put_number(name.len() as u128, 2, out)?;
    out.extend_from_slice(name)?;
    put_number(u128::from(file.place), 8, out)?;
    put_number(u128::from(file.ended), 1, out)
}

/// Adds the open files.
fn put_files(files: &[OpenFile], out: &mut Vec<u8>) -> Result<(), AllocError>
    ensures { OnOk result (out.new.items ≡ out.old.items ++ flat_map form.file files.now) }
{
    for file in files {
        put_file(file, out)?;
    }
    Ok(())
}

/// Adds the magic, the version, the tick and the number of rows.
fn put_heading(snapshot: &Snapshot, out: &mut Vec<u8>) -> Result<(), AllocError>
    ensures { OnOk result (out.new.items ≡ out.old.items ++ form.heading snapshot.now) }
{
    out.extend_from_slice(b"FABSNAP\n")?;
    put_number(1, 4, out)?;
    put_number(u128::from(snapshot.tick), 8, out)?;
    put_number(snapshot.rows.as_slice().len() as u128, 4, out)
}

/// The spelling of a snapshot.
pub fn to_bytes(alloc: Global, s: &Snapshot) -> Result<Bytes, AllocError>
    requires { form.IsSnapshot s.now }
    ensures { IfOk result (λ bytes. bytes ≡ form.spelt s.now) }
{
    let mut out = Vec::new(alloc);
    let rows = s.rows.as_slice();
    let files = s.files.as_slice();
    put_heading(s, &mut out)?;
    put_rows(rows, &mut out)?;
    put_values(rows, s.words.as_slice(), &mut out)?;
    put_number(files.len() as u128, 1, &mut out)?;
    put_files(files, &mut out)?;
    Ok(Bytes::from_vec(out))
}
