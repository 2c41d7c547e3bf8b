//! Rows.

use std::alloc::{AllocError, Global};

/// A signal and its value.
#[derive(Drop)]
pub struct Told {
    /// The path of the signal.
    pub signal: String,
    /// Its value.
    pub value: u128,
}

impl Told {
    /// Of a line: a path, a blank and a number.
    fn new(alloc: Global, line: &str) -> Result<Told, AllocError> {
        let (signal, value) = line.split_once(' ').unwrap_or((line, ""));
        Ok(Told {
            signal: String::from_str(alloc, signal)?,
            value: value.parse().unwrap_or(0),
        })
    }
}

/// A source, what registers hold at the start, and what a signal is to have at the end.
#[derive(Drop)]
pub struct Row {
    /// The signal, and its value.
    pub wanted: Told,
    /// The signals whose registers don't hold 0.
    pub told: Vec<Told>,
    /// The source.
    pub source: String,
}

impl Row {
    /// A row of which nothing is known but what is wanted.
    pub fn new(alloc: Global, wanted: &str) -> Result<Row, AllocError> {
        let wanted = Told::new(alloc, wanted)?;
        Ok(Row {
            wanted,
            told: Vec::new(alloc),
            source: String::new(alloc),
        })
    }

    /// Takes a line: what a register holds, or a line of the source.
    pub fn read(&mut self, alloc: Global, line: &str) -> Result<(), AllocError> {
        match line.strip_prefix(": ") {
            Some(told) => {
                let told = Told::new(alloc, told)?;
                self.told.push(told)?;
            }
            None => {
                self.source.push_str(line)?;
                self.source.push('\n')?;
            }
        }
        Ok(())
    }
}
