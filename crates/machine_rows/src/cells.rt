//! Reads sources whose combinational `always` blocks are compiled to cells, runs one cycle of the cells, and tells whether a signal
//! has the value that is wanted. Before a source stand a line `= ` of the signal and this value, and lines `: ` of signals and what
//! their registers hold; a signal is named by its path, and values are decimal. A word j of a memory holds 37 j + 11, cut to its
//! width.

mod bench;
mod compile;
mod judge;
pub mod row;
mod value;

use row::Row;
use std::alloc::{AllocError, Global};

/// What comes of a row, in lines; nothing where there is none.
pub fn shown(alloc: Global, row: &Row) -> Result<String, AllocError> {
    if row.source.is_empty() {
        return Ok(String::new(alloc));
    }
    let mut text = judge::compared(alloc, row)?;
    text.push('\n')?;
    Ok(text)
}

/// Reads one more line. What is wanted begins another row: then what comes of the one before is told.
pub fn read(alloc: Global, row: &mut Row, line: &str) -> Result<String, AllocError> {
    let Some(wanted) = line.strip_prefix("= ") else {
        row.read(alloc, line)?;
        return Ok(String::new(alloc));
    };
    let text = shown(alloc, &*row)?;
    *row = Row::new(alloc, wanted)?;
    Ok(text)
}
