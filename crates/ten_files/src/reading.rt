//! What reads of a file give (IEEE 1364-2005, clause 17.2.4).

ghost use Rattle.std.specs.Prelude.{◌≡◌, ◌≤◌, ◌<◌, ◌+◌, ◌-◌, ◌*◌, ◌%◌, ◌^◌, length, take, drop};
ghost use Rattle.std.specs.Int.Digits.{number_from_digits};
ghost use Rattle.vl_base.specs.Files as f;
ghost use Rattle.ten_files.specs.Tables.{bytes_at, row_after, IsRowOf};

use crate::row::Row;
use fmt_text::show_text::number;
use vl_base::bits::{Bits, resize};
use vl_base::files::FileSet;

/// The bytes of a row's file from its place on.
pub(crate) fn bytes_left(files: &FileSet, row: Row) -> &[u8]
    requires { IsRowOf files.now row }
    ensures rest { result.now ≡ drop row.place (bytes_at files.now row.file) }
    ensures within { row.place + length result.now ≡ length (bytes_at files.now row.file) }
    ensures room { row.place + length result.now < 2 ^ 64 }
{
    match files.find(files.name(row.file)) {
        None => &[],
        Some(bytes) => &bytes.as_slice()[row.place as usize..],
    }
}

/// At most so many bytes.
pub(crate) fn first_bytes(bytes: &[u8], most: usize) -> &[u8]
    ensures first { result.now ≡ take most bytes.now }
    ensures few { length result.now ≤ most }
    ensures no_more { length result.now ≤ length bytes.now }
{
    if most < bytes.len() {
        &bytes[..most]
    } else {
        bytes
    }
}

/// A row behind a read that gave so many bytes, of as many as were wanted.
pub(crate) fn after_read(row: Row, count: usize, wanted: usize) -> Row
    requires { row.place + count < 2 ^ 64 }
    ensures { result ≡ row_after row count wanted }
{
    Row {
        file: row.file,
        place: row.place + count as u64,
        ended: row.ended || count < wanted,
    }
}

/// The number of some bytes, with the lowest bytes of a value behind it: so many bytes in all, at most 16.
#[tactic(auto, using(crate::proofs::Bytes::reads))]
fn joined(size: usize, got: &[u8], value: u128) -> u128
    requires some { 0 < length got.now }
    requires few { length got.now ≤ size }
    requires most { size ≤ 16 }
    ensures { let rest = 2 ^ (8 * (size - length got.now)) in result ≡ number_from_digits 256 got.now * rest + value % rest }
{
    let rest: u128 = 1 << (8 * (size - got.len()));
    number(got) * rest + value % rest
}

/// A variable after a read of these bytes, which are no more than it has: they replace its first ones.
pub(crate) fn with_bytes(bits: Bits, got: &[u8]) -> Bits
    requires { length got.now ≤ f.bytes_of bits.width }
    ensures value { result.value ≡ f.with_bytes bits.width (f.bytes_of bits.width) got.now bits.value }
    ensures width { result.width ≡ bits.width }
{
    if got.is_empty() {
        return bits;
    }
    let size = (bits.width as usize + 7) / 8;
    let whole = Bits {
        value: joined(size, got, bits.value),
        width: 128,
    };
    resize(whole, false, bits.width)
}
