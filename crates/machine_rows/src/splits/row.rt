//! Rows: a source, and what is wanted of it.

use std::alloc::{AllocError, Global};

/// A source, and what is wanted of it.
#[derive(Drop)]
pub struct Row {
    /// What is shown of it.
    pub name: String,
    /// The lines of the table that is wanted.
    pub wanted: String,
    /// The lines of the files that the source may open.
    pub files: String,
    /// The lines of the errands of its run.
    pub errands: String,
    /// The line of the snapshot from which its run is resumed; empty where there is none.
    pub start: String,
    /// The source.
    pub source: String,
}

impl Row {
    /// A row of this name, of which nothing else is read.
    pub fn new(alloc: Global, name: &str) -> Result<Row, AllocError> {
        Ok(Row {
            name: String::from_str(alloc, name)?,
            wanted: String::new(alloc),
            files: String::new(alloc),
            errands: String::new(alloc),
            start: String::new(alloc),
            source: String::new(alloc),
        })
    }

    /// Reads one more line.
    pub fn read(&mut self, line: &str) -> Result<(), AllocError> {
        if let Some(wanted) = line.strip_prefix("> ") {
            self.wanted.push_str(wanted)?;
            return self.wanted.push('\n');
        }
        if let Some(file) = line.strip_prefix("< ") {
            self.files.push_str(file)?;
            return self.files.push('\n');
        }
        if let Some(errand) = line.strip_prefix("% ") {
            self.errands.push_str(errand)?;
            return self.errands.push('\n');
        }
        if let Some(start) = line.strip_prefix("^ ") {
            return self.start.push_str(start);
        }
        self.source.push_str(line)?;
        self.source.push('\n')
    }
}
