//! Rows: orders to a core, the sources of its tenants, and what is wanted.

use std::alloc::{AllocError, Global};

/// Orders, and what is wanted of them.
#[derive(Drop)]
pub struct Row {
    /// What is shown of it.
    pub name: String,
    /// The lines that are wanted.
    pub wanted: String,
    /// The lines of the orders.
    pub orders: String,
    /// The sources.
    pub sources: Vec<String>,
}

/// Puts a line behind a text.
fn push_line(text: &mut String, line: &str) -> Result<(), AllocError> {
    text.push_str(line)?;
    text.push('\n')
}

impl Row {
    /// A row of this name, of which nothing else is read.
    pub fn new(alloc: Global, name: &str) -> Result<Row, AllocError> {
        Ok(Row {
            name: String::from_str(alloc, name)?,
            wanted: String::new(alloc),
            orders: String::new(alloc),
            sources: Vec::new(alloc),
        })
    }

    /// Reads one more line.
    pub fn read(&mut self, alloc: Global, line: &str) -> Result<(), AllocError> {
        if let Some(wanted) = line.strip_prefix("> ") {
            return push_line(&mut self.wanted, wanted);
        }
        if let Some(order) = line.strip_prefix("% ") {
            return push_line(&mut self.orders, order);
        }
        self.read_source(alloc, line)
    }

    /// Reads a line of a source; a line `@` begins another source.
    fn read_source(&mut self, alloc: Global, line: &str) -> Result<(), AllocError> {
        if line == "@" || self.sources.is_empty() {
            self.sources.push(String::new(alloc))?;
        }
        if line == "@" {
            return Ok(());
        }
        let last = self.sources.len() - 1;
        push_line(&mut self.sources[last], line)
    }

    /// The source of a tenant: that of its number, counted round.
    pub fn source(&self, number: u32) -> &str {
        if self.sources.is_empty() {
            return "";
        }
        self.sources[number as usize % self.sources.len()].as_str()
    }
}
