//! Files in memory, and what is read of them.

ghost use Rattle.std.specs.Prelude.{◌≡◌, ◌≤◌, ◌↔◌, length, find, position, option_copied, IfOk, OnOk, OnErr, IsErrOf};
ghost use Rattle.std.specs.Str.{bytes_eq};
ghost use Rattle.fab_io.specs.Outside.{IsAbsent, IsTold, IsTooLong, with_file};
ghost use Rattle.fab_io.specs.Memory.{files_of, told_files};

use crate::store::ReadError;
use std::alloc::{AllocError, Global};
use std::marker::Model;

/// A file in memory.
#[derive(Drop)]
pub(crate) struct StoredFile {
    name: String,
    bytes: Vec<u8>,
}

impl Model for StoredFile {
    ghost use Rattle.std.specs.Prelude.{string_bytes};
    ghost use Rattle.fab_io.specs.Memory.{NamedBytes};

    ghost Value = { NamedBytes };

    ghost view = { λ file. record { name = string_bytes file.name; bytes = file.bytes.items } };
}

impl StoredFile {
    fn is_named(&self, name: &str) -> bool
        ensures { result ≡ bytes_eq name.now self.now.name }
    {
        name == self.name.as_str()
    }

    fn as_slice(&self) -> &[u8]
        ensures { result.now ≡ self.now.bytes }
    {
        self.bytes.as_slice()
    }

    fn replace(&mut self, bytes: Vec<u8>)
        ensures { self.new ≡ record self.old { bytes = bytes.items } }
    {
        self.bytes = bytes;
    }
}

fn file_named<'a>(files: &'a [StoredFile], name: &str) -> Option<&'a StoredFile>
    ensures { option_copied result ≡ find (λ file. bytes_eq name.now file.name) files.now }
{
    files.iter().find(|file| file.is_named(name))
}

fn find_file(files: &[StoredFile], name: &str) -> Option<usize>
    ensures { result ≡ position (λ file. bytes_eq name.now file.name) files.now }
{
    files.iter().position(|file| file.is_named(name))
}

/// Makes the file of a name these bytes.
pub(crate) fn put_file(
    alloc: Global,
    files: &mut Vec<StoredFile>,
    name: &str,
    bytes: &[u8],
) -> Result<(), AllocError>
    ensures ok { OnOk result (files_of files.new.items ≡ with_file name.now bytes.now (files_of files.old.items)) }
    ensures err { OnErr result (files.new.items ≡ files.old.items) }
{
    let bytes = Vec::from_slice(alloc, bytes)?;
    match find_file(files.as_slice(), name) {
        Some(index) => {
            let file = &mut files[index];
            file.replace(bytes);
        }
        None => {
            let name = String::from_str(alloc, name)?;
            files.push(StoredFile { name, bytes })?;
        }
    }
    Ok(())
}

/// A file's bytes.
pub(crate) fn bytes_named<'a>(files: &'a [StoredFile], name: &str) -> Option<&'a [u8]>
    ensures { option_copied result ≡ files_of files.now name.now }
{
    let file = file_named(files, name)?;
    Some(file.as_slice())
}

/// A copy of a file's bytes, of which there may be `most`. Want of memory may come in their place.
pub(crate) fn read_stored(
    alloc: Global,
    files: &[StoredFile],
    name: &str,
    most: u64,
) -> Result<Vec<u8>, ReadError>
    ensures bytes { IfOk result (λ bytes. IsTold (told_files files.now) name.now bytes.items) }
    ensures short { IfOk result (λ bytes. length bytes.items ≤ most) }
    ensures not_there { IsErrOf result ReadError.NotThere ↔ IsAbsent (told_files files.now) name.now }
    ensures too_long { IsErrOf result ReadError.TooLong ↔ IsTooLong (told_files files.now) name.now most }
    ensures steady { ¬ IsErrOf result ReadError.Failed }
{
    let bytes = bytes_named(files, name).ok_or(ReadError::NotThere)?;
    if bytes.len() as u64 > most {
        return Err(ReadError::TooLong);
    }
    match Vec::from_slice(alloc, bytes) {
        Ok(copy) => Ok(copy),
        Err(_) => Err(ReadError::Memory),
    }
}
