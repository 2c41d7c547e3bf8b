//! Rows of the lexer and the parsers: sources, each behind a line `= ` of what is asked. What they answer is printed.

mod answer;
mod declarations;
mod expressions;
mod modules;
mod parts;
mod printer;
mod statements;
mod tokens;

use crate::parsing::answer::{Question, answer};
use std::alloc::Global;
use std::io;

fn question(word: &str) -> Option<Question> {
    match word {
        "tokens" => Some(Question::Tokens),
        "read" => Some(Question::Read),
        "tree" => Some(Question::Tree),
        "length" => Some(Question::Length),
        "expression" => Some(Question::Expression),
        _ => None,
    }
}

/// What is asked, and the source so far.
#[derive(Drop)]
pub struct Row {
    asked: Option<Question>,
    source: String,
}

impl Row {
    /// A row of which nothing is read.
    pub fn new(alloc: Global) -> Self {
        Row {
            asked: None,
            source: String::new(alloc),
        }
    }

    /// Prints the answer to a question on a source, if one was asked.
    pub fn show(&self, rt: &HostRuntime) -> io::Result<()> {
        let Some(asked) = self.asked else {
            return Ok(());
        };
        let text = answer(rt.alloc(), asked, self.source.as_str())?;
        println!(rt; "{text}")
    }

    /// Reads one more line. What is asked begins another row: then the one before is shown.
    pub fn read(&mut self, rt: &HostRuntime, line: &str) -> io::Result<()> {
        match line.strip_prefix("= ") {
            Some(next) => {
                self.show(rt)?;
                self.asked = question(next);
                self.source = String::new(rt.alloc());
            }
            None => {
                self.source.push_str(line)?;
                self.source.push('\n')?;
            }
        }
        Ok(())
    }
}
