//! The words that a signal keeps.

ghost use Rattle.std.specs.Prelude.{◌≡◌, IfOk, replicate, slice_index, slice_set};

use std::alloc::AllocError;
use std::marker::Model;

/// The words of a signal, each below 2 to its width: one, or a memory's. Contracts see them as a list.
#[derive(Drop)]
pub struct Kept {
    words: Vec<u128>,
}

impl Model for Kept {
    ghost use Rattle.std.specs.Prelude.{ℕ, List};

    ghost Value = { List ℕ };

    ghost view = { λ a. a.words.items };
}

impl Kept {
    /// So many words that are 0.
    pub fn zeros(alloc: std::alloc::Global, count: usize) -> Result<Kept, AllocError>
        ensures { IfOk result (λ k. k ≡ replicate count 0) }
    {
        Ok(Kept {
            words: vec![in alloc; 0; count]?,
        })
    }

    /// Others with the same words.
    pub fn copy(&self) -> Result<Kept, AllocError>
        ensures { IfOk result (λ k. k ≡ self.now) }
    {
        Ok(Kept {
            words: self.words.clone()?,
        })
    }

    /// A word, from 0 on; 0 where there is none.
    pub fn word(&self, number: usize) -> u128
        ensures { result ≡ slice_index self.now number }
    {
        if number < self.words.len() {
            self.words[number]
        } else {
            0
        }
    }

    /// Writes a word; nothing where there is none.
    pub fn set(&mut self, number: usize, value: u128)
        ensures { self.new ≡ slice_set self.old number value }
    {
        if number < self.words.len() {
            self.words[number] = value;
        }
    }
}
