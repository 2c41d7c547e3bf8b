//! Sections of rows.

use crate::{cells, fabrics, splits};
use std::alloc::{AllocError, Global};
use std::sync::Wait;
use std::thread::Threads;
use std::time::Clock;

/// A section, with what is read of its last row.
#[derive(Drop)]
pub enum Section {
    /// None has begun.
    Nothing,
    /// Sources whose combinational blocks are compiled to cells.
    Cells(Box<cells::row::Row>),
    /// Sources that are split into nodes and states, and their runs alone.
    Splits(Box<splits::row::Row>),
    /// Orders to a core, to a desk or to a joined bank.
    Fabrics(Box<fabrics::row::Row>),
}

/// The section that a line begins; none where it begins none.
fn begun(alloc: Global, line: &str) -> Result<Option<Section>, AllocError> {
    match line {
        "### cells" => Ok(Some(Section::Cells(Box::new(alloc, cells::row::Row::new(alloc, "")?)?))),
        "### splits" => Ok(Some(Section::Splits(Box::new(
            alloc,
            splits::row::Row::new(alloc, "")?,
        )?))),
        "### fabrics" => Ok(Some(Section::Fabrics(Box::new(
            alloc,
            fabrics::row::Row::new(alloc, "")?,
        )?))),
        _ => Ok(None),
    }
}

/// What comes of a section's last row, in lines; nothing where there is no row.
pub fn shown<R: Threads + Wait + Clock + Sync>(
    rt: &R,
    alloc: Global,
    section: &Section,
) -> Result<String, AllocError> {
    match section {
        Section::Nothing => Ok(String::new(alloc)),
        Section::Cells(row) => cells::shown(alloc, row),
        Section::Splits(row) => splits::shown(alloc, row),
        Section::Fabrics(row) => fabrics::shown(rt, alloc, row),
    }
}

/// Reads a line of a section: what comes of the row that ends there, in lines; nothing where none ends.
fn read_row<R: Threads + Wait + Clock + Sync>(
    rt: &R,
    alloc: Global,
    section: &mut Section,
    line: &str,
) -> Result<String, AllocError> {
    match section {
        Section::Nothing => Ok(String::new(alloc)),
        Section::Cells(row) => cells::read(alloc, row, line),
        Section::Splits(row) => splits::read(alloc, row, line),
        Section::Fabrics(row) => fabrics::read(rt, alloc, row, line),
    }
}

/// Reads a line, which may begin a section: what comes of the row that ends there, in lines; nothing where none ends.
pub fn read<R: Threads + Wait + Clock + Sync>(
    rt: &R,
    alloc: Global,
    section: &mut Section,
    line: &str,
) -> Result<String, AllocError> {
    match begun(alloc, line)? {
        None => read_row(rt, alloc, section, line),
        Some(next) => {
            let text = shown(rt, alloc, &*section)?;
            *section = next;
            Ok(text)
        }
    }
}
