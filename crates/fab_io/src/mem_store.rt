//! A store in memory.

ghost use Rattle.std.specs.Prelude.{◌≡◌, ◌≤◌, ◌∷◌, ◌++◌, ◌↔◌, [], false, length, option_copied, option_map, IsTrue, IfOk, OnOk, OnErr, IsErrOf};
ghost use Rattle.fab_io.specs.Outside.{HasRisen, IsAbsent, IsTooLong, IsTold, misses, with_file};
ghost use Rattle.fab_io.specs.Calls.{no_calls, fails_next, after_call};
ghost use Rattle.fab_io.specs.Memory.{files_of, told_files};

use crate::calls::CallLog;
use crate::misses::Misses;
use crate::store::{ReadError, Store, WriteError};
use crate::stored::{StoredFile, bytes_named, put_file, read_stored};
use std::alloc::{AllocError, Global};
use std::marker::Model;

/// A store in memory. Its reads and writes are numbered from 1, and those that are listed fail.
#[derive(Drop)]
pub struct MemStore {
    alloc: Global,
    files: Vec<StoredFile>,
    calls: CallLog,
    missed: Misses,
}

impl Model for MemStore {
    ghost use Rattle.fab_io.specs.Memory.{StoreMemory};

    ghost Value = { StoreMemory };

    ghost view = { λ store. record { files = store.files.items; calls = store.calls; missed = store.missed } };
}

impl MemStore {
    /// A store with no file.
    pub fn new(alloc: Global) -> MemStore
        ensures { result ≡ record { files = []; calls = no_calls; missed = [] } }
    {
        MemStore {
            alloc,
            files: Vec::new(alloc),
            calls: CallLog::new(alloc),
            missed: Misses::new(),
        }
    }

    /// Makes a file these bytes. This is no numbered call.
    pub fn add(&mut self, name: &str, bytes: &[u8]) -> Result<(), AllocError>
        ensures written { OnOk result (files_of self.new.files ≡ with_file name.now bytes.now (files_of self.old.files)) }
        ensures calls { self.new.calls ≡ self.old.calls }
        ensures missed { self.new.missed ≡ self.old.missed }
        ensures err { OnErr result (self.new ≡ self.old) }
    {
        put_file(self.alloc, &mut self.files, name, bytes)
    }

    /// Lists the number of a call that is to fail.
    pub fn fail_call(&mut self, call: u64) -> Result<(), AllocError>
        ensures listed { OnOk result (self.new.calls ≡ record self.old.calls { failing = self.old.calls.failing ++ call ∷ [] }) }
        ensures files { self.new.files ≡ self.old.files }
        ensures missed { self.new.missed ≡ self.old.missed }
        ensures err { OnErr result (self.new ≡ self.old) }
    {
        self.calls.fail_call(call)
    }

    /// A file's bytes. This is no numbered call.
    pub fn get(&self, name: &str) -> Option<&[u8]>
        ensures { option_copied result ≡ files_of self.now.files name.now }
    {
        bytes_named(self.files.as_slice(), name)
    }
}

impl Store for MemStore {
    ghost use Rattle.fab_io.specs.Memory.{told_files};

    ghost told = { λ store. told_files store.files };

    ghost faults = { λ store. store.calls.faults };

    ghost absences = { λ _. 0 };

    ghost missed = { λ store. store.missed };

    /// Reads a file of at most `most` bytes. Want of memory may come in place of its bytes.
    fn read(&mut self, alloc: Global, name: &str, most: u64) -> Result<Vec<u8>, ReadError>
        ensures told { told_files self.new.files ≡ told_files self.old.files }
        ensures faults { self.old.calls.faults ≤ self.new.calls.faults }
        ensures bytes { IfOk result (λ bytes. IsTold (told_files self.old.files) name.now bytes.items) }
        ensures short { IfOk result (λ bytes. length bytes.items ≤ most) }
        ensures failed { IsErrOf result ReadError.Failed → HasRisen self.old.calls.faults self.new.calls.faults }
        ensures quiet { ¬ IsErrOf result ReadError.Failed → self.new.calls.faults ≡ self.old.calls.faults }
        ensures missed { self.new.missed ≡ self.old.missed ++ misses name.now result }

        // What the store holds then, and which error comes when.
        ensures files { self.new.files ≡ self.old.files }
        ensures calls { self.new.calls ≡ after_call self.old.calls }
        ensures failed_if_listed { IsErrOf result ReadError.Failed ↔ IsTrue (fails_next self.old.calls) }
        ensures not_there { IsErrOf result ReadError.NotThere ↔
            ((fails_next self.old.calls ≡ false) × IsAbsent (told_files self.old.files) name.now) }
        ensures too_long { IsErrOf result ReadError.TooLong ↔
            ((fails_next self.old.calls ≡ false) × IsTooLong (told_files self.old.files) name.now most) }
    {
        let answer = if self.calls.count() {
            Err(ReadError::Failed)
        } else {
            read_stored(alloc, self.files.as_slice(), name, most)
        };
        self.missed.note(name, &answer);
        answer
    }

    /// Makes a file these bytes. Want of memory may come in place of that.
    fn write(&mut self, name: &str, bytes: &[u8]) -> Result<(), WriteError>
        ensures faults { self.old.calls.faults ≤ self.new.calls.faults }
        ensures written { OnOk result (told_files self.new.files ≡ option_map (with_file name.now bytes.now) (told_files self.old.files)) }
        ensures failed { IsErrOf result WriteError.Failed → HasRisen self.old.calls.faults self.new.calls.faults }
        ensures quiet { ¬ IsErrOf result WriteError.Failed → self.new.calls.faults ≡ self.old.calls.faults }
        ensures missed { self.new.missed ≡ self.old.missed }

        // What the store holds then, and which error comes when.
        ensures err { OnErr result (self.new.files ≡ self.old.files) }
        ensures calls { self.new.calls ≡ after_call self.old.calls }
        ensures failed_if_listed { IsErrOf result WriteError.Failed ↔ IsTrue (fails_next self.old.calls) }
    {
        if self.calls.count() {
            return Err(WriteError::Failed);
        }
        match put_file(self.alloc, &mut self.files, name, bytes) {
            Ok(()) => Ok(()),
            Err(_) => Err(WriteError::Memory),
        }
    }
}
