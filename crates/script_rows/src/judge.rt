//! What is answered to a row.

use crate::escapes::lines_of;
use crate::parts::read_parts;
use crate::row::Row;
use crate::told::told;
use host_text::read::read_script;
use host_text::report::report;
use std::alloc::{AllocError, Global};

/// What a script is read as.
fn read(alloc: Global, row: &Row) -> Result<String, AllocError> {
    let bytes = lines_of(alloc, row.lines.as_str())?;
    told(alloc, read_script(alloc, &bytes))
}

/// The report behind a byte that was there, and a mark of its end.
fn written(alloc: Global, row: &Row) -> Result<String, AllocError> {
    let parts = read_parts(alloc, row.lines.as_str())?;
    let mut bytes = Vec::from_slice(alloc, b">")?;
    report(alloc, &parts.blocks, &parts.free, &mut bytes)?;
    bytes.extend_from_slice(b".\n")?;
    String::from_utf8_lossy(alloc, &bytes)
}

/// `ok` where the answer is the wanted one, else both.
pub fn compared(alloc: Global, row: &Row) -> Result<String, AllocError> {
    let answer = if row.is_report {
        written(alloc, row)?
    } else {
        read(alloc, row)?
    };
    let wanted = row.wanted.as_str();
    if answer.as_str() == wanted {
        return String::from_str(alloc, "ok");
    }
    format!(in alloc; "{wanted}is wanted,\n{answer}came")
}
