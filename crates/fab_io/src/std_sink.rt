//! Standard output as a sink.

ghost use Rattle.std.specs.Prelude.{◌≡◌, ◌≤◌, ◌<◌, length, IfOk, IfErr, OnOk, OnErr};
ghost use Rattle.fab_io.specs.Calls.{next_count};

use crate::calls::raised;
use crate::sink::Sink;
use crate::store::WriteError;
use std::io;
use std::io::Write;
use std::marker::Model;

/// Standard output, written with no buffer. Contracts see how often a write failed.
#[derive(Drop)]
pub struct StdSink<R> {
    rt: R,
    faults: u64,
}

impl<R> Model for StdSink<R> {
    ghost use Rattle.std.specs.Prelude.{ℕ};

    ghost Value = { ℕ };

    ghost view = { λ sink. sink.faults };
}

impl<R: Print> StdSink<R> {
    /// The standard output of a runtime, or of a reference to one.
    pub fn new(rt: R) -> Self
        ensures { result ≡ 0 }
    {
        StdSink { rt, faults: 0 }
    }

    /// How often a write failed.
    pub fn faults(&self) -> u64
        ensures { result ≡ self.now }
    {
        self.faults
    }
}

impl<R: Print> Sink for StdSink<R> {
    ghost use Rattle.std.specs.Prelude.{None};

    ghost taken = { λ _. None };

    ghost faults = { λ faults. faults };

    /// Writes some bytes from the front. An error of the system, and a write of no byte, is `Failed`.
    fn write(&mut self, bytes: &[u8]) -> Result<usize, WriteError>
        requires { 0 < length bytes.now }
        ensures some { IfOk result (λ n. 1 ≤ n) }
        ensures within { IfOk result (λ n. n ≤ length bytes.now) }
        ensures ok { OnOk result (self.new ≡ self.old) }
        ensures failed { OnErr result (self.new ≡ next_count self.old) }
        ensures only_failed { IfErr result (λ e. e ≡ WriteError.Failed) }
    {
        match io::writer(&self.rt).write(bytes) {
            Ok(count) if count > 0 => Ok(count),
            _ => {
                self.faults = raised(self.faults);
                Err(WriteError::Failed)
            }
        }
    }
}
