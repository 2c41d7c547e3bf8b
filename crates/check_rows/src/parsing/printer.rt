//! The text of a row's answer.

use std::alloc::{AllocError, Global};
use vl_design::{Place, Text};

/// A text that grows. Once memory fails it stays failed, and `finish` says so.
#[derive(Drop)]
pub struct Printer {
    text: String,
    has_failed: bool,
}

impl Printer {
    /// An empty text.
    pub fn new(alloc: Global) -> Self {
        Printer {
            text: String::new(alloc),
            has_failed: false,
        }
    }

    /// Adds a word.
    pub fn word(&mut self, word: &str) {
        if self.text.push_str(word).is_err() {
            self.has_failed = true;
        }
    }

    /// Adds a byte of a name or a string: one that isn't printed by its number.
    fn byte(&mut self, byte: u8) {
        if byte < 32 || byte > 126 {
            self.word("<");
            self.number(u128::from(byte));
            self.word(">");
        } else if self.text.push(char::from(byte)).is_err() {
            self.has_failed = true;
        }
    }

    /// Adds a name or a string.
    pub fn text(&mut self, text: &Text) {
        for byte in text.as_slice() {
            self.byte(*byte);
        }
    }

    /// Adds a word, and a name or a string behind it.
    pub fn kind(&mut self, word: &str, text: &Text) {
        self.word(word);
        self.text(text);
    }

    /// Adds a number.
    pub fn number(&mut self, value: u128) {
        if write!(self.text, "{value}").is_err() {
            self.has_failed = true;
        }
    }

    /// Adds a place.
    pub fn place(&mut self, place: Place) {
        if write!(self.text, "@{}:{}", place.line, place.column).is_err() {
            self.has_failed = true;
        }
    }

    /// Adds a word and its place.
    pub fn at(&mut self, word: &str, place: Place) {
        self.word(word);
        self.place(place);
    }

    /// The text.
    pub fn finish(self) -> Result<String, AllocError> {
        if self.has_failed {
            return Err(AllocError);
        }
        Ok(self.text)
    }
}
