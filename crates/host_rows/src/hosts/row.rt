//! A row: words, files, and what is wanted of them.

use crate::hosts::gates::Hold;
use crate::hosts::numbers::number;
use std::alloc::{AllocError, Global};

/// The most bytes that a sink takes in a call, where a row doesn't say.
const PIECE: usize = 4096;

/// A file of a store: its path and its bytes.
#[derive(Drop)]
pub struct Named {
    /// The path.
    pub path: String,
    /// The bytes.
    pub bytes: Vec<u8>,
}

/// Words, files, and what is wanted of them.
#[derive(Drop)]
pub struct Row {
    /// The words of the command line.
    pub words: String,
    /// The most bytes that the sink takes in a call.
    pub piece: usize,
    /// The number of the read that fails, from 1.
    pub failing_read: u64,
    /// The number of the write that fails, from 1.
    pub failing_write: u64,
    /// The status and what is printed. A word `*` of a tenant's first line, or of that of a stay or a free order, stands for any word, and a line
    /// `...` for any lines up to the next that is as wanted.
    pub wanted: String,
    /// Lines with which no line of what is printed begins.
    pub unwanted: String,
    /// The tenant that is to have run the counter up to where a free order has stopped it; nothing where none is.
    pub counted: String,
    /// Who is held at the gate, and until when.
    pub holds: Vec<Hold>,
    /// How many blanks stand before the bytes of the first file.
    pub blanks: usize,
    /// The files.
    pub files: Vec<Named>,
    /// The files that are wanted behind the call, with their bytes in hexadecimal, `*` for any bytes, or `-` where none is wanted.
    pub saved: Vec<Named>,
    /// A line of the last file was read.
    begun: bool,
}

impl Row {
    /// Nothing fails in it, the sink takes as much as it is given, nobody is held at a gate, and no file is wanted behind the call.
    pub fn is_plain(&self) -> bool {
        self.piece == PIECE
            && self.failing_read == 0
            && self.failing_write == 0
            && self.holds.is_empty()
            && self.saved.is_empty()
    }

    /// A row of these words, whose reads and writes don't fail.
    pub fn new(alloc: Global, words: &str) -> Result<Row, AllocError> {
        Ok(Row {
            words: String::from_str(alloc, words)?,
            piece: PIECE,
            failing_read: 0,
            failing_write: 0,
            wanted: String::new(alloc),
            unwanted: String::new(alloc),
            counted: String::new(alloc),
            holds: Vec::new(alloc),
            blanks: 0,
            files: Vec::new(alloc),
            saved: Vec::new(alloc),
            begun: false,
        })
    }

    /// Takes four numbers from a line: the most bytes that the sink takes in a call, the read and the
    /// write that fail, and the blanks before the first file's bytes.
    pub fn set(&mut self, line: &str) {
        let mut words = line.split(' ');
        self.piece = number(words.next()) as usize;
        self.failing_read = u64::from(number(words.next()));
        self.failing_write = u64::from(number(words.next()));
        self.blanks = number(words.next()) as usize;
    }

    /// Adds a line to what is wanted.
    pub fn want(&mut self, line: &str) -> Result<(), AllocError> {
        self.wanted.push_str(line)?;
        self.wanted.push('\n')
    }

    /// Adds a line to what is not wanted.
    pub fn refuse(&mut self, line: &str) -> Result<(), AllocError> {
        self.unwanted.push_str(line)?;
        self.unwanted.push('\n')
    }

    /// Names the tenant that is to have run the counter.
    pub fn count(&mut self, tenant: &str) -> Result<(), AllocError> {
        self.counted.push_str(tenant)
    }

    /// Adds a hold to the gate, by its four numbers.
    pub fn hold(&mut self, line: &str) -> Result<(), AllocError> {
        self.holds.push(Hold::of(line))?;
        Ok(())
    }

    /// Adds the part of a last line to what is wanted.
    pub fn want_part(&mut self, part: &str) -> Result<(), AllocError> {
        self.wanted.push_str(part)
    }

    /// Begins a file.
    pub fn begin(&mut self, alloc: Global, path: &str) -> Result<(), AllocError> {
        let blanks = if self.files.is_empty() {
            self.blanks
        } else {
            0
        };
        let bytes = vec![in alloc; b' '; blanks]?;
        let path = String::from_str(alloc, path)?;
        self.begun = false;
        self.files.push(Named { path, bytes })?;
        Ok(())
    }

    /// Wants a file: its path, a blank, and its bytes in hexadecimal, `*` for any bytes, or `-` where it isn't to be there.
    pub fn save(&mut self, alloc: Global, line: &str) -> Result<(), AllocError> {
        if let Some((path, digits)) = line.split_once(' ') {
            let path = String::from_str(alloc, path)?;
            let bytes = Vec::from_slice(alloc, digits.as_bytes())?;
            self.saved.push(Named { path, bytes })?;
        }
        Ok(())
    }

    /// Adds a line to the last file.
    pub fn extend(&mut self, line: &str) -> Result<(), AllocError> {
        let begun = self.begun;
        self.begun = true;
        match self.files.last_mut() {
            None => Ok(()),
            Some(file) => {
                if begun {
                    file.bytes.push(b'\n')?;
                }
                file.bytes.extend_from_slice(line.as_bytes())
            }
        }
    }

    /// Adds bytes to the last file, which are written in hexadecimal with blanks between them.
    pub fn extend_by(&mut self, line: &str) -> Result<(), AllocError> {
        self.begun = true;
        if let Some(file) = self.files.last_mut() {
            for word in line.split(' ') {
                file.bytes.push(u8::from_str_radix(word, 16).unwrap_or(0))?;
            }
        }
        Ok(())
    }
}
