//! The words of a line.

ghost use Rattle.std.specs.Prelude.{◌≡◌, ◌==◌, map, filter, IfOk};
ghost use Rattle.std.specs.List.{slice_split, list_all};
ghost use Rattle.std.specs.Str.Lines.{strip_carriage_return};
ghost use Rattle.host_text.specs.Words as w;

use std::alloc::{AllocError, Global};

/// Whether a byte is a tab or from 32 to 126.
fn is_plain_byte(byte: u8) -> bool
    ensures { result ≡ w.is_plain_byte byte }
{
    byte == b'\t' || (32 <= byte && byte <= 126)
}

/// Whether each byte is a tab or from 32 to 126.
fn are_plain_bytes(text: &[u8]) -> bool
    ensures { result ≡ list_all w.is_plain_byte text.now }
{
    text.iter().all(|byte| is_plain_byte(*byte))
}

/// Whether a byte is a space or a tab.
fn is_blank(byte: u8) -> bool
    ensures { result ≡ w.is_blank byte }
{
    byte == b' ' || byte == b'\t'
}

/// A line without the carriage return at its end.
pub(crate) fn without_return(line: &[u8]) -> &[u8]
    ensures { result.now ≡ strip_carriage_return line.now }
{
    if line.last() == Some(&b'\r') {
        return &line[..line.len() - 1];
    }
    line
}

/// Whether a text has at most 1,024 bytes, each a tab or from 32 to 126.
pub(crate) fn is_plain(text: &[u8]) -> bool
    ensures { result ≡ w.is_plain text.now }
{
    text.len() <= 1024 && are_plain_bytes(text)
}

/// A text up to the first `#`.
fn uncommented(text: &[u8]) -> &[u8]
    ensures { result.now ≡ w.uncommented text.now }
{
    for (i, byte) in text.iter().enumerate() {
        if *byte == b'#' {
            let (front, _) = text.split_at(i);
            return front;
        }
    }
    text
}

/// What stands between spaces and tabs.
fn between_blanks(alloc: Global, text: &[u8]) -> Result<Vec<&[u8]>, AllocError>
    ensures { IfOk result (λ v. map (λ x. x.now) v.items ≡ slice_split w.is_blank text.now) }
{
    text.split(|byte| is_blank(*byte)).collect(alloc)
}

/// The words of a text: what stands between spaces and tabs, up to the first `#`.
pub(crate) fn words(alloc: Global, text: &[u8]) -> Result<Vec<&[u8]>, AllocError>
    ensures { IfOk result (λ v. map (λ x. x.now) v.items ≡ w.words text.now) }
{
    let pieces = between_blanks(alloc, uncommented(text))?;
    let mut words = Vec::new(alloc);
    for piece in &pieces {
        if !piece.is_empty() {
            words.push(*piece)?;
        }
    }
    Ok(words)
}
