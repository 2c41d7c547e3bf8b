//! A row: a script or what a report is made of, and what is wanted of it.

use std::alloc::{AllocError, Global};

/// A script or what a report is made of, and what is wanted of it.
#[derive(Drop)]
pub struct Row {
    /// A report is to be written, else a script is to be read.
    pub is_report: bool,
    /// What is wanted: lines, each with a newline.
    pub wanted: String,
    /// The lines of the script or of the report's parts, each with a newline.
    pub lines: String,
}

impl Row {
    /// A row without lines.
    pub fn new(alloc: Global, is_report: bool) -> Row {
        Row {
            is_report,
            wanted: String::new(alloc),
            lines: String::new(alloc),
        }
    }

    /// Adds a line that begins with `= ` or `| `.
    pub fn add(&mut self, line: &str) -> Result<(), AllocError> {
        if let Some(wanted) = line.strip_prefix("= ") {
            self.wanted.push_str(wanted)?;
            return self.wanted.push('\n');
        }
        if let Some(more) = line.strip_prefix("| ") {
            self.lines.push_str(more)?;
            return self.lines.push('\n');
        }
        Ok(())
    }
}
