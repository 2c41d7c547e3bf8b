//! A test program of the lowest crates: it reads rows of operators, display texts and file calls, and prints each with its answer.
//!
//! A line `### operators` begins a section of rows of operands, `### texts` one of values and the items that print them, and `### files`
//! one of calls on tables of open files.
//!
//! Proved: safe, and ends.
//!
//! Tested: `operators`: 2,097 rows of operands against Python's whole numbers, as the program's input and output.
//!
//! Tested: `texts`: values of 9 widths under all letters, signed and unsigned, against Python's (`tools/text_rows.py`), as the program's
//! input and output.
//!
//! Tested: `files`: 1,252 calls on tables of open files against Python's (`tools/file_rows.py`): 16 open files and a 17th, short reads at 1
//! to 16 bytes, ends, calls at random; and 30 on real files: written, read up to a limit, too long, absent, folders, one with no end.
#![tactic(auto)]

mod files;
mod operators;
mod texts;

use fab_io::dir_store::DirStore;
use files::held::Held;
use std::alloc::{AllocError, Global};
use std::io;
use std::rt::Files;

/// What the rows of a section are.
#[derive(Clone, Copy)]
enum Section {
    /// Rows of operands.
    Operators,
    /// Rows of items and a value.
    Texts,
    /// Rows of calls on open files, and those of a section of another name.
    Files,
}

/// The section of this name.
fn section_of(name: &str) -> Section {
    match name {
        "operators" => Section::Operators,
        "texts" => Section::Texts,
        _ => Section::Files,
    }
}

/// A row with its answer.
fn answer<R: Files>(
    alloc: Global,
    section: Section,
    held: &mut Held,
    store: &mut DirStore<R>,
    row: &str,
) -> Result<String, AllocError> {
    match section {
        Section::Operators => operators::answer(alloc, row),
        Section::Texts => texts::answer(alloc, row),
        Section::Files => files::answer(alloc, held, store, row),
    }
}

fn main(rt: HostRuntime) -> io::Result<()> {
    let mut held = Held::new(rt.alloc());
    let mut store = DirStore::new(&rt);
    let mut section = Section::Files;
    for line in rt.lines(rt.alloc()) {
        let line = line?;
        match line.as_str().strip_prefix("### ") {
            Some(name) => section = section_of(name),
            None => {
                let text = answer(rt.alloc(), section, &mut held, &mut store, line.as_str())?;
                println!(rt; "{text}")?;
            }
        }
    }
    Ok(())
}
