//! Rows of elaboration: sources, each behind lines `= ` of what is wanted. Whether it is what elaboration answers is printed: the
//! flat design as a table, or the first fault; or, where `named` is wanted, no fault of names.

mod expressions;
mod judge;
mod marks;
mod statements;
mod table;

use crate::flat::judge::compared;
use std::alloc::Global;
use std::io;

/// What is wanted, a line each, and the source so far.
#[derive(Drop)]
pub struct Row {
    wanted: String,
    source: String,
}

impl Row {
    /// A row of which nothing is read.
    pub fn new(alloc: Global) -> Self {
        Row {
            wanted: String::new(alloc),
            source: String::new(alloc),
        }
    }

    /// Prints what came of a source, unless there is none.
    pub fn show(&self, rt: &HostRuntime) -> io::Result<()> {
        if self.source.is_empty() {
            return Ok(());
        }
        let text = compared(rt.alloc(), self.wanted.as_str(), self.source.as_str())?;
        println!(rt; "{text}")
    }

    /// Reads one more line. What is wanted behind a source begins another row: then the one before is shown.
    pub fn read(&mut self, rt: &HostRuntime, line: &str) -> io::Result<()> {
        match line.strip_prefix("= ") {
            Some(next) => {
                if !self.source.is_empty() {
                    self.show(rt)?;
                    self.wanted = String::new(rt.alloc());
                    self.source = String::new(rt.alloc());
                }
                self.wanted.push_str(next)?;
                self.wanted.push('\n')?;
            }
            None => {
                self.source.push_str(line)?;
                self.source.push('\n')?;
            }
        }
        Ok(())
    }
}
