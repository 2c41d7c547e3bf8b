//! A sink in memory.

ghost use Rattle.std.specs.Prelude.{◌≡◌, ◌≤◌, ◌<◌, ◌∷◌, ◌++◌, ◌↔◌, [], length, take, min, IsTrue, IfOk, OnOk, OnErr, IsErrOf};
ghost use Rattle.fab_io.specs.Outside.{HasRisen};
ghost use Rattle.fab_io.specs.Calls.{no_calls, fails_next, after_call};

use crate::calls::CallLog;
use crate::sink::Sink;
use crate::store::WriteError;
use std::alloc::{AllocError, Global};
use std::marker::Model;

/// A sink in memory. Its writes are numbered from 1, and those that are listed fail.
#[derive(Drop)]
pub struct MemSink {
    taken: Vec<u8>,
    piece: usize,
    calls: CallLog,
}

impl Model for MemSink {
    ghost use Rattle.std.specs.Prelude.{◌≤◌};
    ghost use Rattle.fab_io.specs.Memory.{SinkMemory};

    ghost Value = { SinkMemory };

    ghost view = { λ sink. record { taken = sink.taken.items; piece = sink.piece; calls = sink.calls } };

    ghost invariant = { λ sink. 1 ≤ sink.piece };
}

impl MemSink {
    /// A sink that has taken nothing, and takes at most `piece` bytes a call.
    pub fn new(alloc: Global, piece: usize) -> MemSink
        requires { 1 ≤ piece }
        ensures { result ≡ record { taken = []; piece = piece; calls = no_calls } }
    {
        MemSink {
            taken: Vec::new(alloc),
            piece,
            calls: CallLog::new(alloc),
        }
    }

    /// Lists the number of a call that is to fail.
    pub fn fail_call(&mut self, call: u64) -> Result<(), AllocError>
        ensures listed { OnOk result (self.new.calls ≡ record self.old.calls { failing = self.old.calls.failing ++ call ∷ [] }) }
        ensures taken { self.new.taken ≡ self.old.taken }
        ensures piece { self.new.piece ≡ self.old.piece }
        ensures err { OnErr result (self.new ≡ self.old) }
    {
        self.calls.fail_call(call)
    }

    /// The bytes taken so far.
    pub fn taken(&self) -> &[u8]
        ensures { result.now ≡ self.now.taken }
    {
        self.taken.as_slice()
    }
}

impl Sink for MemSink {
    ghost use Rattle.std.specs.Prelude.{Some};

    ghost taken = { λ sink. Some sink.taken };

    ghost faults = { λ sink. sink.calls.faults };

    /// Takes a piece from the front. Want of memory may come in place of that.
    fn write(&mut self, bytes: &[u8]) -> Result<usize, WriteError>
        requires { 0 < length bytes.now }
        ensures faults { self.old.calls.faults ≤ self.new.calls.faults }
        ensures some { IfOk result (λ n. 1 ≤ n) }
        ensures within { IfOk result (λ n. n ≤ length bytes.now) }
        ensures taken { IfOk result (λ n. self.new.taken ≡ self.old.taken ++ take n bytes.now) }
        ensures failed { IsErrOf result WriteError.Failed → HasRisen self.old.calls.faults self.new.calls.faults }
        ensures quiet { ¬ IsErrOf result WriteError.Failed → self.new.calls.faults ≡ self.old.calls.faults }
        ensures err { OnErr result (self.new.taken ≡ self.old.taken) }

        // How many it takes, what the sink holds then, and which error comes when.
        ensures count { IfOk result (λ n. n ≡ min self.old.piece (length bytes.now)) }
        ensures piece { self.new.piece ≡ self.old.piece }
        ensures calls { self.new.calls ≡ after_call self.old.calls }
        ensures failed_if_listed { IsErrOf result WriteError.Failed ↔ IsTrue (fails_next self.old.calls) }
    {
        if self.calls.count() {
            return Err(WriteError::Failed);
        }
        let count = self.piece.min(bytes.len());
        match self.taken.extend_from_slice(&bytes[..count]) {
            Ok(()) => Ok(count),
            Err(_) => Err(WriteError::Memory),
        }
    }
}
