//! Sections of the rows.

use crate::{checking, flat, parsing};
use std::alloc::Global;
use std::io;

/// A section, with its row so far.
#[derive(Drop)]
pub enum Section {
    /// What stands before the first section, or in one of another name: it is passed over.
    Outside,
    /// Rows of the lexer and the parsers.
    Parsing(parsing::Row),
    /// Rows of elaboration.
    Flat(flat::Row),
    /// Rows of the whole front end.
    Checking(checking::Row),
}

impl Section {
    /// The section of this name, of which nothing is read.
    pub fn new(alloc: Global, name: &str) -> Self {
        match name {
            "parse" => Section::Parsing(parsing::Row::new(alloc)),
            "flat" => Section::Flat(flat::Row::new(alloc)),
            "check" => Section::Checking(checking::Row::new(alloc)),
            _ => Section::Outside,
        }
    }

    /// Reads one more line.
    pub fn read(&mut self, rt: &HostRuntime, line: &str) -> io::Result<()> {
        match self {
            Section::Outside => Ok(()),
            Section::Parsing(row) => row.read(rt, line),
            Section::Flat(row) => row.read(rt, line),
            Section::Checking(row) => row.read(rt, line),
        }
    }

    /// Prints what came of the row so far, unless there is none.
    pub fn show(&self, rt: &HostRuntime) -> io::Result<()> {
        match self {
            Section::Outside => Ok(()),
            Section::Parsing(row) => row.show(rt),
            Section::Flat(row) => row.show(rt),
            Section::Checking(row) => row.show(rt),
        }
    }
}
