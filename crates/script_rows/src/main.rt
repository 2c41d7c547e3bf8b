//! A test program of scripts and reports: it reads them as rows, and prints whether the wanted answers come.
//!
//! A row begins with a line `@ script` or `@ report`; lines `= ` have what is wanted, and lines `| ` the script, or what the report is made
//! of.
//!
//! Proved: safe, and ends.
//!
//! Tested: 151 scripts and reports worked by hand (`tools/script_rows.txt`), as the program's input.
#![tactic(auto)]

mod escapes;
mod judge;
mod parts;
mod row;
mod told;

use row::Row;
use std::alloc::{AllocError, Global};
use std::io;

/// What came of a row, in a line; nothing where there is no row.
fn answered(alloc: Global, row: &Row) -> Result<String, AllocError> {
    if row.wanted.is_empty() {
        return Ok(String::new(alloc));
    }
    let mut text = judge::compared(alloc, row)?;
    text.push('\n')?;
    Ok(text)
}

fn main(rt: HostRuntime) -> io::Result<()> {
    let mut row = Row::new(rt.alloc(), false);
    for line in rt.lines(rt.alloc()) {
        let line = line?;
        if let Some(kind) = line.as_str().strip_prefix("@ ") {
            let text = answered(rt.alloc(), &row)?;
            print!(rt; "{text}")?;
            row = Row::new(rt.alloc(), kind == "report");
        } else {
            row.add(line.as_str())?;
        }
    }
    let text = answered(rt.alloc(), &row)?;
    print!(rt; "{text}")
}
