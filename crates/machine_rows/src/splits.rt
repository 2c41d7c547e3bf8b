//! Reads sources, each behind a line `= ` of its name and lines `> ` of the table that is wanted, and tells whether this is the
//! table of nodes that their blocks are split into; of a long one `> nodes ` and their number is wanted. Where the first line is
//! `> states ` the states are wanted that are made of the nodes; where it is `> run ` and a number, how the run alone of as many ticks
//! ends on them: its ticks, its acts, how many bytes it prints, these, and the snapshots that it keeps; lines `% ` are its errands, a line
//! `^ ` the snapshot that it is resumed from; and without both it is also saved and resumed at some ticks, which has to come to the same,
//! and how often that was is wanted behind `resumed `. A line `< ` gives it a file, by name and bytes. Where the first line is `> cells ` the
//! states are wanted with their cells and writes, and where it is `> bank ` and a number, what the bank holds behind a run of so many ticks: no
//! row wants these, they are for looking inside.

mod again;
mod ended;
mod files;
mod inside;
mod judge;
mod kept;
mod plan;
pub mod row;
mod runs;
mod show;
mod start;
mod states;
mod writes;

use row::Row;
use std::alloc::{AllocError, Global};

/// What comes of a row, in lines; nothing where there is none.
pub fn shown(alloc: Global, row: &Row) -> Result<String, AllocError> {
    if row.source.is_empty() {
        return Ok(String::new(alloc));
    }
    let mut text = judge::compared(alloc, row)?;
    text.push('\n')?;
    Ok(text)
}

/// Reads one more line. A name begins another row: then what comes of the one before is told.
pub fn read(alloc: Global, row: &mut Row, line: &str) -> Result<String, AllocError> {
    let Some(name) = line.strip_prefix("= ") else {
        row.read(line)?;
        return Ok(String::new(alloc));
    };
    let text = shown(alloc, &*row)?;
    *row = Row::new(alloc, name)?;
    Ok(text)
}
