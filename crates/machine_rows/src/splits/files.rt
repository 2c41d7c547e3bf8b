//! Files of a row: a line for each, of its name and its bytes, two small hexadecimal digits each, with blanks between.

ghost use Rattle.std.specs.Prelude.{◌≤◌, ◌<◌, IfOk, length};

use std::alloc::{AllocError, Global};
use vl_design::files::{FileError, FileSet};
use vl_design::{Bytes, Text};

/// The value of a digit; 0 of another byte.
fn digit(byte: u8) -> u8
    ensures { result < 16 }
{
    if byte >= b'0' && byte <= b'9' {
        byte - b'0'
    } else if byte >= b'a' && byte <= b'f' {
        byte - b'a' + 10
    } else {
        0
    }
}

/// The number of two digits.
fn number(word: &[u8]) -> u8 {
    if word.len() == 2 {
        digit(word[0]) * 16 + digit(word[1])
    } else {
        0
    }
}

/// The bytes of the words of a line behind so many first ones.
pub fn bytes_of(alloc: Global, line: &str, behind: usize) -> Result<Vec<u8>, AllocError> {
    let mut bytes = Vec::new(alloc);
    for word in line.split(' ').skip(behind) {
        bytes.push(number(word.as_bytes()))?;
    }
    Ok(bytes)
}

/// The first word of a line, cut at 255 bytes.
pub fn name_of(alloc: Global, line: &str) -> Result<Vec<u8>, AllocError>
    ensures { IfOk result (λ name. length name.items ≤ 255) }
{
    let mut name = Vec::new(alloc);
    for byte in line.as_bytes() {
        if *byte == b' ' || name.len() == 255 {
            return Ok(name);
        }
        name.push(*byte)?;
    }
    Ok(name)
}

/// The file of a line is added; none where the set is full or has the name.
fn add(alloc: Global, files: &mut FileSet, line: &str) -> Result<(), AllocError> {
    let name = Text::from_vec(name_of(alloc, line)?);
    let bytes = Bytes::from_vec(bytes_of(alloc, line, 1)?);
    match files.add(name, bytes) {
        Err((FileError::Memory, _, _)) => Err(AllocError),
        _ => Ok(()),
    }
}

/// The files of these lines.
pub fn files_of(alloc: Global, lines: &str) -> Result<FileSet, AllocError> {
    let mut files = FileSet::new(alloc);
    for line in lines.lines() {
        add(alloc, &mut files, line)?;
    }
    Ok(files)
}
