//! Real files as a store.

ghost use Rattle.std.specs.Prelude.{◌≡◌, ◌≢◌, ◌≤◌, ◌∷◌, ◌++◌, ◌↔◌, [], length, take, IfOk, IfErr, IfSome, OnOk, OnErr, IsErrOf};
ghost use Rattle.std.specs.IoError.{error_kind};
ghost use Rattle.fab_io.specs.Calls.{next_count};

use crate::calls::raised;
use crate::misses::Misses;
use crate::store::{ReadError, Store, WriteError};
use std::alloc::Global;
use std::fs::File;
use std::io::{ErrorKind, Read};
use std::marker::Model;
use std::rt::Files;
use std::{fs, io};

/// How many bytes are read at once.
const CHUNK: usize = 4096;

/// What an error of the system means to a reader.
fn read_error(error: &io::Error) -> ReadError
    ensures not_there { (result ≡ ReadError.NotThere) ↔ (error_kind error.now ≡ ErrorKind.NotFound) }
    ensures memory { (result ≡ ReadError.Memory) ↔ (error_kind error.now ≡ ErrorKind.OutOfMemory) }
    ensures not_long { result ≢ ReadError.TooLong }
{
    match error.kind() {
        ErrorKind::NotFound => ReadError::NotThere,
        ErrorKind::OutOfMemory => ReadError::Memory,
        _ => ReadError::Failed,
    }
}

/// Reads to the end, or until `limit` bytes came. Each turn takes a byte at least.
fn read_within<F: Read>(alloc: Global, file: &mut F, limit: u64) -> Result<Vec<u8>, ReadError>
    ensures within { IfOk result (λ bytes. length bytes.items ≤ limit) }
    ensures bytes { IfOk result (λ bytes. IfSome (F.remaining file.old) (λ all. bytes.items ≡ take limit all)) }
    ensures not_long { ¬ IsErrOf result ReadError.TooLong }
{
    let mut bytes = Vec::new(alloc);
    let mut chunk = [0u8; CHUNK];
    for _ in 0..limit {
        let room = (limit - bytes.len() as u64).min(CHUNK as u64) as usize;
        if room == 0 {
            return Ok(bytes);
        }
        let part = &mut chunk[..room];
        let count = match file.read(part) {
            Ok(count) => count,
            Err(error) => return Err(read_error(&error)),
        };
        if count == 0 {
            return Ok(bytes);
        }
        if bytes.extend_from_slice(&part[..count]).is_err() {
            return Err(ReadError::Memory);
        }
    }
    Ok(bytes)
}

/// Reads a file of at most `most` bytes.
fn read_file<R: Files>(rt: &R, alloc: Global, name: &str, most: u64) -> Result<Vec<u8>, ReadError>
    ensures short { IfOk result (λ bytes. length bytes.items ≤ most) }
{
    let mut file = match File::open(rt, name) {
        Ok(file) => file,
        Err(error) => return Err(read_error(&error)),
    };
    let bytes = read_within(alloc, &mut file, most.saturating_add(1))?;
    if bytes.len() as u64 > most {
        return Err(ReadError::TooLong);
    }
    Ok(bytes)
}

/// The real files below the working folder. It tells nothing of them; contracts see what it reported.
#[derive(Drop)]
pub struct DirStore<R> {
    rt: R,
    faults: u64,
    absences: u64,
    missed: Misses,
}

impl<R> Model for DirStore<R> {
    ghost use Rattle.fab_io.specs.Calls.{Reports};

    ghost Value = { Reports };

    ghost view = { λ store. record { faults = store.faults; absences = store.absences; missed = store.missed } };
}

impl<R: Files> DirStore<R> {
    /// The files of a runtime, or of a reference to one.
    pub fn new(rt: R) -> Self
        ensures { result ≡ record { faults = 0; absences = 0; missed = [] } }
    {
        DirStore {
            rt,
            faults: 0,
            absences: 0,
            missed: Misses::new(),
        }
    }

    /// How often a call failed.
    pub fn faults(&self) -> u64
        ensures { result ≡ self.now.faults }
    {
        self.faults
    }

    /// How often a file was reported absent or too long.
    pub fn absences(&self) -> u64
        ensures { result ≡ self.now.absences }
    {
        self.absences
    }
}

impl<R: Files> Store for DirStore<R> {
    ghost use Rattle.std.specs.Prelude.{None};

    ghost told = { λ _. None };

    ghost faults = { λ store. store.faults };

    ghost absences = { λ store. store.absences };

    ghost missed = { λ store. store.missed };

    /// Reads a file of at most `most` bytes. A path that names a folder is `Failed`.
    fn read(&mut self, alloc: Global, name: &str, most: u64) -> Result<Vec<u8>, ReadError>
        ensures short { IfOk result (λ bytes. length bytes.items ≤ most) }
        ensures ok { OnOk result (self.new ≡ self.old) }
        ensures not_there { IsErrOf result ReadError.NotThere → self.new ≡ record self.old { absences = next_count self.old.absences; missed = self.old.missed ++ record { path = name.now; why = ReadError.NotThere } ∷ [] } }
        ensures too_long { IsErrOf result ReadError.TooLong → self.new ≡ record self.old { absences = next_count self.old.absences; missed = self.old.missed ++ record { path = name.now; why = ReadError.TooLong } ∷ [] } }
        ensures failed { IsErrOf result ReadError.Failed → self.new ≡ record self.old { faults = next_count self.old.faults; missed = self.old.missed ++ record { path = name.now; why = ReadError.Failed } ∷ [] } }
        ensures memory { IsErrOf result ReadError.Memory → self.new ≡ self.old }
    {
        let answer = read_file(&self.rt, alloc, name, most);
        match &answer {
            Ok(_) | Err(ReadError::Memory) => {}
            Err(ReadError::NotThere | ReadError::TooLong) => self.absences = raised(self.absences),
            Err(ReadError::Failed) => self.faults = raised(self.faults),
        }
        self.missed.note(name, &answer);
        answer
    }

    /// Makes a file these bytes. An error of the system, want of memory too, is `Failed`, and may
    /// leave a part of them in the file.
    fn write(&mut self, name: &str, bytes: &[u8]) -> Result<(), WriteError>
        ensures ok { OnOk result (self.new ≡ self.old) }
        ensures failed { OnErr result (self.new ≡ record self.old { faults = next_count self.old.faults }) }
        ensures only_failed { IfErr result (λ e. e ≡ WriteError.Failed) }
    {
        match fs::write(&self.rt, name, bytes) {
            Ok(()) => Ok(()),
            Err(_) => {
                self.faults = raised(self.faults);
                Err(WriteError::Failed)
            }
        }
    }
}
