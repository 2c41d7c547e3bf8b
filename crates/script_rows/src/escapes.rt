//! Bytes that a row can't hold, by marks.

use std::alloc::{AllocError, Global};

/// The byte behind a `\`.
fn meant(mark: u8) -> u8 {
    match mark {
        b'n' => b'\n',
        b'r' => b'\r',
        b't' => b'\t',
        b's' => b' ',
        b'0' => 0,
        b'd' => 127,
        b'h' => 200,
        other => other,
    }
}

/// Adds the bytes of a text in which `\` stands before marks. Whether it has `\e`, which stands for
/// nothing.
fn push(text: &[u8], bytes: &mut Vec<u8>) -> Result<bool, AllocError> {
    let mut is_mark = false;
    let mut is_open = false;
    for byte in text {
        if is_mark && *byte == b'e' {
            is_open = true;
            is_mark = false;
        } else if is_mark {
            bytes.push(meant(*byte))?;
            is_mark = false;
        } else if *byte == b'\\' {
            is_mark = true;
        } else {
            bytes.push(*byte)?;
        }
    }
    Ok(is_open)
}

/// The bytes of a text in which `\` stands before marks.
pub fn bytes_of(alloc: Global, text: &str) -> Result<Vec<u8>, AllocError> {
    let mut bytes = Vec::new(alloc);
    let _ = push(text.as_bytes(), &mut bytes)?;
    Ok(bytes)
}

/// The bytes of lines: a newline stands behind each but those with `\e`.
pub fn lines_of(alloc: Global, lines: &str) -> Result<Vec<u8>, AllocError> {
    let mut bytes = Vec::new(alloc);
    for line in lines.lines() {
        if !push(line.as_bytes(), &mut bytes)? {
            bytes.push(b'\n')?;
        }
    }
    Ok(bytes)
}
