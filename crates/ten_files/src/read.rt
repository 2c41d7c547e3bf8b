//! Reading of open files (IEEE 1364-2005, clauses 17.2.4 and 17.2.8).

ghost use Rattle.std.specs.Prelude.{◌≡◌, ◌≤◌, ◌<◌, ◌+◌, ◌^◌, ◌%◌, IfOk, OnOk, length, take, drop};
ghost use Rattle.vl_base.specs.Files as f;

use crate::files_row::{descriptor, open_row, put_row};
use fmt_text::show_text::number;
use std::alloc::{AllocError, Global};
use vl_base::files::{FileSet, OpenFile};

/// A read of a file was short or met the end, or the descriptor is not open: 1; else 0.
#[tactic(auto, using(crate::proofs::Tables::tables))]
pub fn at_end(table: &[OpenFile], fd: u32) -> u32
    ensures { result ≡ f.at_end table.now fd }
{
    for file in table {
        if descriptor(file.slot) == fd {
            return if file.ended { 1 } else { 0 };
        }
    }
    1
}

/// The bytes from a place on.
fn from_place(bytes: &[u8], place: u64) -> &[u8]
    ensures rest { result.now ≡ drop place bytes.now }
    ensures within { 0 < length result.now → place + length result.now < 2 ^ 64 }
{
    if place < bytes.len() as u64 {
        &bytes[place as usize..]
    } else {
        &[]
    }
}

/// The bytes of an open file from its place on.
fn bytes_left<'a>(files: &'a FileSet, file: &OpenFile) -> &'a [u8]
    ensures rest { result.now ≡ f.bytes_left files.now file.now }
    ensures within { 0 < length result.now → file.now.place + length result.now < 2 ^ 64 }
{
    match files.find(&file.name) {
        None => &[],
        Some(bytes) => from_place(bytes.as_slice(), file.place),
    }
}

/// Reads a byte of an open file.
fn read_character(
    alloc: Global,
    files: &FileSet,
    table: &mut Vec<OpenFile>,
    mut file: OpenFile,
) -> Result<u32, AllocError>
    ensures table { OnOk result (table.new.items ≡ (f.character_read table.old.items file (f.bytes_left files.now file)).table) }
    ensures answer { IfOk result (λ a. a ≡ (f.character_read table.old.items file (f.bytes_left files.now file)).answer) }
{
    match bytes_left(files, &file) {
        [] => {
            file.ended = true;
            put_row(alloc, table, &file)?;
            Ok(u32::MAX)
        }
        [first, ..] => {
            file.place += 1;
            put_row(alloc, table, &file)?;
            Ok(u32::from(*first))
        }
    }
}

/// Reads the next byte of the file of a descriptor: it; 2^32 - 1 at the end or where the descriptor is not open. An `Err` is
/// want of memory; after it the table may have changed.
pub fn next_character(
    alloc: Global,
    files: &FileSet,
    table: &mut Vec<OpenFile>,
    fd: u32,
) -> Result<u32, AllocError>
    ensures table { OnOk result (table.new.items ≡ (f.next_character files.now table.old.items fd).table) }
    ensures answer { IfOk result (λ a. a ≡ (f.next_character files.now table.old.items fd).answer) }
{
    match open_row(alloc, table, fd)? {
        None => Ok(u32::MAX),
        Some(file) => read_character(alloc, files, table, file),
    }
}

/// What a read gives.
#[derive(Clone, Copy)]
pub struct Given {
    /// The new value of the variable.
    pub value: u128,
    /// How many bytes were read.
    pub count: u32,
}

/// The lowest bits of a value, at most 128.
fn low_bits(value: u128, width: u32) -> u128
    requires { width ≤ 128 }
    ensures { result ≡ value % 2 ^ width }
{
    if width < 128 {
        value % (1 << width)
    } else {
        value
    }
}

/// A variable of at most 128 bits after a read of these bytes, which are no more than it has: they replace its first ones.
#[tactic(auto, using(crate::proofs::Bytes::reads))]
fn with_bytes(width: u32, got: &[u8], value: u128) -> u128
    requires narrow { width ≤ 128 }
    requires few { length got.now ≤ f.bytes_of width }
    ensures { result ≡ f.with_bytes width (f.bytes_of width) got.now value }
{
    if got.is_empty() {
        return low_bits(value, width);
    }
    let bytes = (width as usize + 7) / 8;
    let rest: u128 = 1 << (8 * (bytes - got.len()));
    low_bits(number(got) * rest + value % rest, width)
}

/// At most so many bytes.
fn first_bytes(bytes: &[u8], most: usize) -> &[u8]
    ensures first { result.now ≡ take most bytes.now }
    ensures few { length result.now ≤ most }
    ensures no_more { length result.now ≤ length bytes.now }
{
    if most < bytes.len() {
        &bytes[..most]
    } else {
        bytes
    }
}

/// Reads an open file to a variable of so many bits.
fn read_bytes(
    alloc: Global,
    files: &FileSet,
    table: &mut Vec<OpenFile>,
    mut file: OpenFile,
    width: u32,
    value: u128,
) -> Result<Given, AllocError>
    requires narrow { width ≤ 128 }
    ensures table { OnOk result (table.new.items ≡ (f.bytes_read table.old.items file width (f.bytes_of width) (take (f.bytes_of width) (f.bytes_left files.now file)) value).table) }
    ensures value { IfOk result (λ r. r.value ≡ (f.bytes_read table.old.items file width (f.bytes_of width) (take (f.bytes_of width) (f.bytes_left files.now file)) value).value) }
    ensures count { IfOk result (λ r. r.count ≡ (f.bytes_read table.old.items file width (f.bytes_of width) (take (f.bytes_of width) (f.bytes_left files.now file)) value).count) }
{
    let bytes = (width as usize + 7) / 8;
    let got = first_bytes(bytes_left(files, &file), bytes);
    file.place += got.len() as u64;
    file.ended = file.ended || got.len() < bytes;
    put_row(alloc, table, &file)?;
    Ok(Given {
        value: with_bytes(width, got, value),
        count: got.len() as u32,
    })
}

/// Reads the file of a descriptor to a variable of at most 128 bits: as many bytes as it has, the first at the top; fewer at the
/// end of the file; none where the descriptor is not open. An `Err` is want of memory; after it the table may have changed.
pub fn read(
    alloc: Global,
    files: &FileSet,
    table: &mut Vec<OpenFile>,
    fd: u32,
    width: u32,
    value: u128,
) -> Result<Given, AllocError>
    requires narrow { width ≤ 128 }
    ensures table { OnOk result (table.new.items ≡ (f.read files.now table.old.items fd width value).table) }
    ensures value { IfOk result (λ r. r.value ≡ (f.read files.now table.old.items fd width value).value) }
    ensures count { IfOk result (λ r. r.count ≡ (f.read files.now table.old.items fd width value).count) }
{
    match open_row(alloc, table, fd)? {
        None => Ok(Given { value, count: 0 }),
        Some(file) => read_bytes(alloc, files, table, file, width, value),
    }
}
