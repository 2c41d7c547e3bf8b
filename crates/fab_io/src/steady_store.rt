//! A store in memory that never fails.

ghost use Rattle.std.specs.Prelude.{◌≡◌, ◌≢◌, ◌≤◌, ◌++◌, ◌↔◌, [], length, option_copied, option_map, IfOk, OnOk, OnErr, IsErrOf, Err};
ghost use Rattle.fab_io.specs.Outside.{IsAbsent, IsTold, IsTooLong, misses, with_file};
ghost use Rattle.fab_io.specs.Memory.{files_of, told_files};

use crate::misses::Misses;
use crate::store::{ReadError, Store, WriteError};
use crate::stored::{StoredFile, bytes_named, put_file, read_stored};
use std::alloc::{AllocError, Global};
use std::marker::Model;

/// A store in memory that never fails: a read answers that a file isn't there or is too long exactly where it is so, and a read or a write
/// may want memory; there is no other error.
#[derive(Drop)]
pub struct SteadyStore {
    alloc: Global,
    files: Vec<StoredFile>,
    missed: Misses,
}

impl Model for SteadyStore {
    ghost use Rattle.fab_io.specs.Memory.{SteadyMemory};

    ghost Value = { SteadyMemory };

    ghost view = { λ store. record { files = store.files.items; missed = store.missed } };
}

impl SteadyStore {
    /// A store with no file.
    pub fn new(alloc: Global) -> SteadyStore
        ensures { result ≡ record { files = []; missed = [] } }
    {
        SteadyStore {
            alloc,
            files: Vec::new(alloc),
            missed: Misses::new(),
        }
    }

    /// Makes a file these bytes.
    pub fn add(&mut self, name: &str, bytes: &[u8]) -> Result<(), AllocError>
        ensures written { OnOk result (files_of self.new.files ≡ with_file name.now bytes.now (files_of self.old.files)) }
        ensures missed { self.new.missed ≡ self.old.missed }
        ensures err { OnErr result (self.new ≡ self.old) }
    {
        put_file(self.alloc, &mut self.files, name, bytes)
    }

    /// A file's bytes.
    pub fn get(&self, name: &str) -> Option<&[u8]>
        ensures { option_copied result ≡ files_of self.now.files name.now }
    {
        bytes_named(self.files.as_slice(), name)
    }
}

impl Store for SteadyStore {
    ghost use Rattle.fab_io.specs.Memory.{told_files};

    ghost told = { λ store. told_files store.files };

    ghost faults = { λ _. 0 };

    ghost absences = { λ _. 0 };

    ghost missed = { λ store. store.missed };

    /// Reads a file of at most `most` bytes. Want of memory may come in place of its bytes.
    fn read(&mut self, alloc: Global, name: &str, most: u64) -> Result<Vec<u8>, ReadError>
        ensures told { told_files self.new.files ≡ told_files self.old.files }
        ensures bytes { IfOk result (λ bytes. IsTold (told_files self.old.files) name.now bytes.items) }
        ensures short { IfOk result (λ bytes. length bytes.items ≤ most) }
        ensures missed { self.new.missed ≡ self.old.missed ++ misses name.now result }

        // What the store holds then, and which error comes when.
        ensures files { self.new.files ≡ self.old.files }
        ensures not_there { IsErrOf result ReadError.NotThere ↔ IsAbsent (told_files self.old.files) name.now }
        ensures too_long { IsErrOf result ReadError.TooLong ↔ IsTooLong (told_files self.old.files) name.now most }
        ensures steady { result ≢ Err ReadError.Failed }
    {
        let answer = read_stored(alloc, self.files.as_slice(), name, most);
        self.missed.note(name, &answer);
        answer
    }

    /// Makes a file these bytes. Want of memory may come in place of that.
    fn write(&mut self, name: &str, bytes: &[u8]) -> Result<(), WriteError>
        ensures written { OnOk result (told_files self.new.files ≡ option_map (with_file name.now bytes.now) (told_files self.old.files)) }
        ensures missed { self.new.missed ≡ self.old.missed }

        // What the store holds then, and which error comes when.
        ensures err { OnErr result (self.new ≡ self.old) }
        ensures steady { result ≢ Err WriteError.Failed }
    {
        match self.add(name, bytes) {
            Ok(()) => Ok(()),
            Err(_) => Err(WriteError::Memory),
        }
    }
}
