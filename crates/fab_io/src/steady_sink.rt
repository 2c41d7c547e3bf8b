//! A sink in memory that never fails.

ghost use Rattle.std.specs.Prelude.{◌≡◌, ◌≢◌, ◌≤◌, ◌<◌, ◌++◌, [], length, take, IfOk, OnErr, Err};

use crate::sink::Sink;
use crate::store::WriteError;
use std::alloc::Global;
use std::marker::Model;

/// A sink in memory that never fails: a write takes all bytes, or wants memory; there is no other error.
#[derive(Drop)]
pub struct SteadySink {
    taken: Vec<u8>,
}

impl Model for SteadySink {
    ghost use Rattle.std.specs.Prelude.{ℕ, List};

    ghost Value = { List ℕ };

    ghost view = { λ sink. sink.taken.items };
}

impl SteadySink {
    /// A sink that has taken nothing.
    pub fn new(alloc: Global) -> SteadySink
        ensures { result ≡ [] }
    {
        SteadySink {
            taken: Vec::new(alloc),
        }
    }

    /// The bytes taken so far.
    pub fn taken(&self) -> &[u8]
        ensures { result.now ≡ self.now }
    {
        self.taken.as_slice()
    }
}

impl Sink for SteadySink {
    ghost use Rattle.std.specs.Prelude.{Some};

    ghost taken = { λ taken. Some taken };

    ghost faults = { λ _. 0 };

    /// Takes the whole piece. Want of memory may come in place of that.
    fn write(&mut self, bytes: &[u8]) -> Result<usize, WriteError>
        requires { 0 < length bytes.now }
        ensures some { IfOk result (λ n. 1 ≤ n) }
        ensures within { IfOk result (λ n. n ≤ length bytes.now) }
        ensures taken { IfOk result (λ n. self.new ≡ self.old ++ take n bytes.now) }
        ensures err { OnErr result (self.new ≡ self.old) }

        // How many it takes, and which error comes when.
        ensures count { IfOk result (λ n. n ≡ length bytes.now) }
        ensures steady { result ≢ Err WriteError.Failed }
    {
        match self.taken.extend_from_slice(bytes) {
            Ok(()) => Ok(bytes.len()),
            Err(_) => Err(WriteError::Memory),
        }
    }
}
