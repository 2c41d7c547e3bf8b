//! Reads command lines with files and tells whether the host answers what is wanted of each. A row begins with a line `@ ` of the
//! words. Lines `= ` are the status and what is printed: a word `*` of a tenant's first line, or of that of a stay or a free order, stands
//! for any, and a line `...` for any lines up to the next that is as wanted; a line `% ` is a part of a last line, and with what stands in a
//! line `- ` no printed line begins. A line `! ` has
//! four numbers where the sink takes less than all in a call, a call fails, or blanks stand before the first file; a line `> ` is a file
//! that is wanted behind the call, with its bytes in hexadecimal, `*` for any, or `-` where no such file is wanted. A line `? ` names a tenant
//! that is to have run `examples/counter.v` up to the tick at which a free order has stopped it, whichever that is. A line `+ ` begins a file; its lines, joined by
//! newlines, and lines `^ ` of bytes in hexadecimal follow. The words `()` stand for no words at all.
//!
//! A line `& F T G U` is of the gate: whoever comes there with the numbers F and T is held until someone has come with G and U. A worker
//! comes before each turn with the number of its fabric, from 0, and that of the turn, from 1; the operator before each try of an order with
//! the number of fabrics and that of the order, from 1, among those that are given to tenants, so that one that is answered `small` or
//! `refused` has none. The rounds of fab_rounds end when their workers and the operator have ended, so neither is held until a later one.
//! Where someone is held too long, a line `held N` stands behind what is printed.

mod counting;
mod gates;
mod judge;
mod lines;
mod numbers;
pub mod row;

use row::Row;
use std::alloc::{AllocError, Global};
use std::sync::Wait;
use std::thread::Threads;
use std::time::Clock;

/// What comes of a row, in lines; nothing where there is none.
pub fn shown<R: Threads + Wait + Clock + Sync>(
    rt: &R,
    alloc: Global,
    row: &Row,
) -> Result<String, AllocError> {
    if row.words.is_empty() {
        return Ok(String::new(alloc));
    }
    let mut text = judge::compared(rt, alloc, row)?;
    text.push('\n')?;
    Ok(text)
}

/// Adds a line to a row that has begun.
fn extend(alloc: Global, row: &mut Row, line: &str) -> Result<(), AllocError> {
    if let Some(numbers) = line.strip_prefix("! ") {
        row.set(numbers);
        Ok(())
    } else if let Some(wanted) = line.strip_prefix("= ") {
        row.want(wanted)
    } else if let Some(part) = line.strip_prefix("% ") {
        row.want_part(part)
    } else if let Some(text) = line.strip_prefix("- ") {
        row.refuse(text)
    } else if let Some(numbers) = line.strip_prefix("& ") {
        row.hold(numbers)
    } else if let Some(tenant) = line.strip_prefix("? ") {
        row.count(tenant)
    } else if let Some(path) = line.strip_prefix("+ ") {
        row.begin(alloc, path)
    } else if let Some(saved) = line.strip_prefix("> ") {
        row.save(alloc, saved)
    } else if let Some(digits) = line.strip_prefix("^ ") {
        row.extend_by(digits)
    } else {
        row.extend(line)
    }
}

/// Reads one more line. Words begin another row: then what comes of the one before is told.
pub fn read<R: Threads + Wait + Clock + Sync>(
    rt: &R,
    alloc: Global,
    row: &mut Row,
    line: &str,
) -> Result<String, AllocError> {
    let Some(words) = line.strip_prefix("@ ") else {
        extend(alloc, row, line)?;
        return Ok(String::new(alloc));
    };
    let text = shown(rt, alloc, &*row)?;
    *row = Row::new(alloc, words)?;
    Ok(text)
}
