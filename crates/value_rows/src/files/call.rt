//! A row: a call and its arguments, numbers in hexadecimal.

use crate::files::held::Held;
use std::alloc::{AllocError, Global};
use std::str::SplitWhitespace;
use ten_files::table::Table;
use vl_base::bits::Bits;
use vl_base::files::FileSet;
use vl_base::items::{Items, Text};

/// The next number of a row, or 0.
pub fn number(words: &mut SplitWhitespace) -> u128 {
    let Some(word) = words.next() else {
        return 0;
    };
    u128::from_str_radix(word, 16).unwrap_or(0)
}

/// The next descriptor of a row, or 0.
fn descriptor(words: &mut SplitWhitespace) -> u32 {
    u32::try_from(number(words)).unwrap_or(0)
}

/// The next word of a row, or none, as a text.
fn text(alloc: Global, words: &mut SplitWhitespace) -> Result<Text, AllocError> {
    let word = words.next().unwrap_or("");
    let bytes = Vec::from_slice(alloc, word.as_bytes())?;
    Ok(Items::from_vec(bytes))
}

/// `file NAME BYTES`: one more file, and a table without open files.
fn add(alloc: Global, held: &mut Held, words: &mut SplitWhitespace) -> Result<(), AllocError> {
    let name = text(alloc, words)?;
    let bytes = text(alloc, words)?;
    if name.as_slice().len() <= 255 {
        let _added = held.files.add(name, bytes).is_ok();
    }
    held.table = Table::new();
    Ok(())
}

/// `open NAME`: the descriptor.
fn open(
    alloc: Global,
    held: &mut Held,
    words: &mut SplitWhitespace,
    out: &mut String,
) -> Result<(), AllocError> {
    let name = text(alloc, words)?;
    let fd = held.table.open_file(&held.files, &name);
    write!(out, " {fd:x}")
}

/// `read FD WIDTH VALUE`: the variable's new value, and how many bytes were read.
fn read(held: &mut Held, words: &mut SplitWhitespace, out: &mut String) -> Result<(), AllocError> {
    let fd = descriptor(words);
    let width = u8::try_from(number(words)).unwrap_or(0);
    match Bits::new(number(words), width) {
        None => out.push_str(" none"),
        Some(bits) => {
            let (bits, count) = held.table.read(&held.files, fd, bits);
            let value = bits.value();
            write!(out, " {value:x} {count:x}")
        }
    }
}

/// `getc FD`: the byte.
fn getc(held: &mut Held, words: &mut SplitWhitespace, out: &mut String) -> Result<(), AllocError> {
    match held.table.getc(&held.files, descriptor(words)) {
        None => out.push_str(" none"),
        Some(byte) => write!(out, " {byte:x}"),
    }
}

/// `end FD`: 1 at the end, else 0.
fn end(held: &Held, words: &mut SplitWhitespace, out: &mut String) -> Result<(), AllocError> {
    let flag = u8::from(held.table.at_end(descriptor(words)));
    write!(out, " {flag}")
}

/// `row SLOT`: the file's number, the place and the end flag.
fn row(held: &Held, words: &mut SplitWhitespace, out: &mut String) -> Result<(), AllocError> {
    let slot = (number(words) % 16) as u8;
    match held.table.row(slot) {
        None => out.push_str(" none"),
        Some((file, place, ended)) => {
            let flag = u8::from(ended);
            write!(out, " {file:x} {place:x} {flag}")
        }
    }
}

/// The row and the answer to its call; `new` begins with no files.
pub fn answer(alloc: Global, held: &mut Held, row_text: &str) -> Result<String, AllocError> {
    let mut out = String::new(alloc);
    out.push_str(row_text)?;
    out.push_str(" =")?;
    let mut words = row_text.split_whitespace();
    let Some(call) = words.next() else {
        return Ok(out);
    };
    if call == "new" {
        held.files = FileSet::new(alloc);
        held.table = Table::new();
    } else if call == "file" {
        add(alloc, held, &mut words)?;
    } else if call == "open" {
        open(alloc, held, &mut words, &mut out)?;
    } else if call == "read" {
        read(held, &mut words, &mut out)?;
    } else if call == "getc" {
        getc(held, &mut words, &mut out)?;
    } else if call == "end" {
        end(held, &mut words, &mut out)?;
    } else if call == "close" {
        held.table.close(descriptor(&mut words));
    } else if call == "row" {
        row(held, &mut words, &mut out)?;
    }
    Ok(out)
}
