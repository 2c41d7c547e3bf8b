//! Rows of the whole front end: sources, each behind a line `= ` of what is wanted. Whether it is what the front end answers is
//! printed: the first fault of the tokens, the grammar, the names, the flat design, its uses, the limits of its loops, what it leaves
//! unassigned, and its loops of processes; or that the source is accepted, or `cost` and the three numbers of its cost.

mod judge;
mod words;

use crate::checking::judge::compared;
use std::alloc::Global;
use std::io;

/// What is wanted, and the source so far.
#[derive(Drop)]
pub struct Row {
    wanted: String,
    source: String,
}

impl Row {
    /// A row of which nothing is read.
    pub fn new(alloc: Global) -> Self {
        Row {
            wanted: String::new(alloc),
            source: String::new(alloc),
        }
    }

    /// Prints what came of a source, unless there is none.
    pub fn show(&self, rt: &HostRuntime) -> io::Result<()> {
        if self.source.is_empty() {
            return Ok(());
        }
        let text = compared(rt.alloc(), self.wanted.as_str(), self.source.as_str())?;
        println!(rt; "{text}")
    }

    /// Reads one more line. What is wanted begins another row: then the one before is shown.
    pub fn read(&mut self, rt: &HostRuntime, line: &str) -> io::Result<()> {
        match line.strip_prefix("= ") {
            Some(next) => {
                self.show(rt)?;
                self.wanted = String::from_str(rt.alloc(), next)?;
                self.source = String::new(rt.alloc());
            }
            None => {
                self.source.push_str(line)?;
                self.source.push('\n')?;
            }
        }
        Ok(())
    }
}
