//! A list of reads that failed, for clauses alone: it takes no bytes.

ghost use Rattle.std.specs.Prelude.{◌≡◌, ◌∷◌, ◌++◌, []};
ghost use Rattle.fab_io.specs.Missing.{bytes_of, reads_of};
ghost use Rattle.fab_io.specs.Outside.{misses};

use crate::store::ReadError;
use std::marker::Model;
use std::mem;
use std::snapshot::Snapshot;

/// The bytes of a name: none, or one behind those before it.
#[derive(Drop)]
enum Name {
    Empty,
    Byte(Snapshot<Name>, u8),
}

/// Reads that failed: none, or one behind those before it.
#[derive(Drop)]
enum Noted {
    Nothing,
    Read(Snapshot<Noted>, Snapshot<Name>, ReadError),
}

/// The bytes of a name, for clauses alone.
fn name_of(name: &str) -> Snapshot<Name>
    ensures { bytes_of result.value ≡ name.now }
{
    let mut bytes = Snapshot::of(&Name::Empty);
    for byte in name.as_bytes() {
        bytes = Snapshot::of(&Name::Byte(bytes, *byte));
    }
    bytes
}

/// The reads that failed, in order.
#[derive(Drop)]
pub(crate) struct Misses {
    noted: Snapshot<Noted>,
}

impl Model for Misses {
    ghost use Rattle.std.specs.Prelude.{List};
    ghost use Rattle.fab_io.specs.Outside.{Miss};
    ghost use Rattle.fab_io.specs.Missing.{reads_of};

    ghost Value = { List Miss };

    ghost view = { λ misses. reads_of misses.noted.value };
}

impl Misses {
    /// No read.
    pub(crate) fn new() -> Misses
        ensures { result ≡ [] }
    {
        Misses {
            noted: Snapshot::of(&Noted::Nothing),
        }
    }

    /// Adds a read that failed.
    fn add(&mut self, name: &str, why: ReadError)
        ensures { self.new ≡ self.old ++ record { path = name.now; why = why } ∷ [] }
    {
        let before = mem::replace(&mut self.noted, Snapshot::of(&Noted::Nothing));
        self.noted = Snapshot::of(&Noted::Read(before, name_of(name), why));
    }

    /// Adds a read that was answered so, if it failed. Want of memory is no failure of a store.
    pub(crate) fn note<T>(&mut self, name: &str, answer: &Result<T, ReadError>)
        ensures { self.new ≡ self.old ++ misses name.now answer.now }
    {
        match answer {
            Ok(_) | Err(ReadError::Memory) => {}
            Err(why) => self.add(name, *why),
        }
    }
}
