//! The files that a source may open, by name.

ghost use Rattle.std.specs.Prelude.{◌≡◌, ◌<◌, ◌≤◌, ◌∷◌, [], ◌++◌, ◌↔◌, length, All, slice_get, option_map, option_copied, Some, IsNone, IsSome, OnOk, OnErr, IfErr, IsErrAnd};

use crate::items::{Bytes, Text};
use std::alloc::Global;
use std::marker::Model;

/// A file: its name in the source, and its bytes.
#[derive(Drop)]
pub struct File {
    /// The name.
    pub name: Text,
    /// The bytes.
    pub bytes: Bytes,
}

/// A file that a run has open.
#[derive(Drop)]
pub struct OpenFile {
    /// The slot, from 0 to 15; slot 0 has the descriptor 32'h8000_0003.
    pub slot: u8,
    /// The file's name.
    pub name: Text,
    /// The place of the next byte, from 0.
    pub place: u64,
    /// A read was short or met the end.
    pub ended: bool,
}

/// Why a file was not added.
#[derive(Clone, Copy, Debug, PartialEq, Eq)]
pub enum FileError {
    /// A file has the name.
    Twice,
    /// 16 files are there.
    Full,
    /// Want of memory.
    Memory,
}

/// The files that a source may open: at most 16, of different names of at most 255 bytes, each with bytes below 256. Contracts
/// see the list of the files, in the order in which they were added.
#[derive(Drop)]
pub struct FileSet {
    files: Vec<File>,
}

impl Model for FileSet {
    ghost use Rattle.std.specs.Prelude.{List};
    ghost use Rattle.vl_base.specs.declared.files.File.{File};
    ghost use Rattle.vl_base.specs.Files.{IsFileSet};

    ghost Value = { List File };

    ghost view = { λ s. s.files.items };

    ghost invariant = { λ s. IsFileSet s.files.items };
}

/// A number of 8 bits is below 256.
fn is_byte(byte: u8)
    ensures { byte < 256 }
{}

/// So is each of these.
fn are_bytes(bytes: &[u8])
    ensures { All (λ b. b < 256) bytes.now }
{
    for byte in bytes {
        is_byte(*byte);
    }
}

impl FileSet {
    ghost use Rattle.vl_base.specs.Files.{number_of, contents, IsFileSet};

    /// The empty set, on an allocator.
    pub fn new(alloc: Global) -> FileSet
        ensures { result ≡ [] }
    {
        FileSet {
            files: Vec::new(alloc),
        }
    }

    /// Adds a file at the end. An error hands name and bytes back and leaves the set as it was: the
    /// name is there; else 16 files are there; want of memory.
    pub fn add(&mut self, name: Text, bytes: Bytes) -> Result<(), (FileError, Text, Bytes)>
        requires { length name ≤ 255 }
        ensures ok { OnOk result (self.new ≡ self.old ++ record { name = name; bytes = bytes } ∷ []) }
        ensures err { OnErr result (self.new ≡ self.old) }
        ensures handed_back { IfErr result (λ e. (e.1 ≡ name) × (e.2 ≡ bytes)) }
        ensures twice { IsErrAnd result (λ e. e.0 ≡ FileError.Twice) ↔ IsSome (number_of self.old name) }
        ensures full { IsErrAnd result (λ e. e.0 ≡ FileError.Full) ↔ (IsNone (number_of self.old name) × (length self.old ≡ 16)) }
    {
        if self.number(&name).is_some() {
            return Err((FileError::Twice, name, bytes));
        }
        if self.files.len() == 16 {
            return Err((FileError::Full, name, bytes));
        }
        are_bytes(bytes.as_slice());
        match self.files.push(File { name, bytes }) {
            Ok(()) => Ok(()),
            Err(failed) => {
                let File { name, bytes } = failed.value;
                Err((FileError::Memory, name, bytes))
            }
        }
    }

    /// The bytes of the file of a name. None exactly where no file has it.
    pub fn find(&self, name: &Text) -> Option<&Bytes>
        ensures { option_copied result ≡ contents self.now name.now }
    {
        match self.number(name) {
            Some(number) => Some(self.bytes(number)),
            None => None,
        }
    }

    /// The place of the file of a name, in the order of adding, from 0. None exactly where no file
    /// has it.
    pub fn number(&self, name: &Text) -> Option<u32>
        ensures number { result ≡ number_of self.now name.now }
        ensures set { IsFileSet self.now }
    {
        let place = self
            .files
            .iter()
            .position(|file| file.name.as_slice() == name.as_slice())?;
        Some(place as u32)
    }

    /// The name of a file by its number, which is below that of the files.
    pub fn name(&self, number: u32) -> &Text
        requires { number < length self.now }
        ensures { option_map (λ f. f.name) (slice_get self.now number) ≡ Some result.now }
    {
        &self.files[number as usize].name
    }

    /// The bytes of a file by its number, which is below that of the files.
    pub fn bytes(&self, number: u32) -> &Bytes
        requires { number < length self.now }
        ensures { option_map (λ f. f.bytes) (slice_get self.now number) ≡ Some result.now }
    {
        &self.files[number as usize].bytes
    }
}
