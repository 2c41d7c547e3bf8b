//! A row of a call on the real files of the folder in which the program runs.

use crate::files::call::number;
use fab_io::dir_store::DirStore;
use fab_io::store::{ReadError, Store, WriteError};
use std::alloc::{AllocError, Global};
use std::rt::Files;
use std::str::SplitWhitespace;

/// Why a file was not read, in a word.
fn read_word(error: ReadError) -> &'static str {
    match error {
        ReadError::NotThere => " notthere",
        ReadError::TooLong => " toolong",
        ReadError::Failed => " failed",
        ReadError::Memory => " memory",
    }
}

/// Whether a file was written, in a word.
fn write_word(answer: Result<(), WriteError>) -> &'static str {
    match answer {
        Ok(()) => " ok",
        Err(WriteError::Failed) => " failed",
        Err(WriteError::Memory) => " memory",
    }
}

/// How many bytes there are, and the first eight of them.
fn show(bytes: &[u8], out: &mut String) -> Result<(), AllocError> {
    let count = bytes.len();
    write!(out, " {count:x} ")?;
    for byte in bytes.iter().take(8) {
        out.push(char::from(*byte))?;
    }
    Ok(())
}

/// `load NAME MOST`: the bytes of a file of at most so many.
fn load<R: Files>(
    alloc: Global,
    store: &mut DirStore<R>,
    words: &mut SplitWhitespace,
    out: &mut String,
) -> Result<(), AllocError> {
    let name = words.next().unwrap_or("");
    let most = u64::try_from(number(words)).unwrap_or(u64::MAX);
    match store.read(alloc, name, most) {
        Ok(bytes) => show(bytes.as_slice(), out),
        Err(error) => out.push_str(read_word(error)),
    }
}

/// `fill NAME COUNT`: makes a file so many digits 7.
fn fill<R: Files>(
    alloc: Global,
    store: &mut DirStore<R>,
    words: &mut SplitWhitespace,
    out: &mut String,
) -> Result<(), AllocError> {
    let name = words.next().unwrap_or("");
    let count = u16::try_from(number(words)).unwrap_or(0);
    let bytes = vec![in alloc; b'7'; count as usize]?;
    out.push_str(write_word(store.write(name, bytes.as_slice())))
}

/// `save NAME TEXT`: makes a file these bytes.
fn save<R: Files>(
    store: &mut DirStore<R>,
    words: &mut SplitWhitespace,
    out: &mut String,
) -> Result<(), AllocError> {
    let name = words.next().unwrap_or("");
    let text = words.next().unwrap_or("");
    out.push_str(write_word(store.write(name, text.as_bytes())))
}

/// `reports`: how often a call failed, and how often a file was absent or too long.
fn reports<R: Files>(store: &DirStore<R>, out: &mut String) -> Result<(), AllocError> {
    let (faults, absences) = (store.faults(), store.absences());
    write!(out, " {faults:x} {absences:x}")
}

/// Adds the answer to a call.
fn answer_to<R: Files>(
    alloc: Global,
    store: &mut DirStore<R>,
    call: &str,
    out: &mut String,
) -> Result<(), AllocError> {
    let mut words = call.split_whitespace();
    match words.next().unwrap_or("") {
        "load" => load(alloc, store, &mut words, out),
        "fill" => fill(alloc, store, &mut words, out),
        "save" => save(store, &mut words, out),
        _ => reports(&*store, out),
    }
}

/// The row and the answer to its call, which stands behind the row's first word.
pub fn answer<R: Files>(
    alloc: Global,
    store: &mut DirStore<R>,
    row: &str,
    call: &str,
) -> Result<String, AllocError> {
    let mut out = format!(in alloc; "{row} =")?;
    answer_to(alloc, store, call, &mut out)?;
    Ok(out)
}
