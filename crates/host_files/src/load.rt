//! The reading of what a script's tenants have.

ghost use Rattle.std.specs.Prelude.{◌≡◌, ◌≢◌, ◌≤◌, ◌<◌, ◌-◌, ◌++◌, ℕ, List, true, length, min, IfOk, IfSome, OnOk, IsErrOf, IsNone, Some};
ghost use Rattle.std.specs.List.{AllByRecursion, IsDistinct};
ghost use Rattle.std.specs.Str.{bytes_eq};
ghost use Rattle.host_form.specs.fab_io.specs.Outside.{IsTold, miss_of};
ghost use Rattle.ten_core.specs.vl_base.specs.Files.{number_of};
ghost use Rattle.host_form.specs.host_text.specs.Words.{is_path};
ghost use Rattle.host_form.specs.host_text.specs.Laws.{IsWithinLimits, IsSpelt, IsSpeltTenant, IsSpeltFile};
ghost use Rattle.host_form.specs.Origins.{AreFilesAt, IsSnapshotAt};
ghost use Rattle.host_files.specs.Reading.{counts_of, IsCause, missed_by, missed_in, bytes_in, bytes_of, IsLoaded, AreLoaded, IsMissed, IsAvailable, most_file, most_snapshot};
ghost use Rattle.host_files.specs.Steps.{IsAdded, IsFileMissed, IsPartMissed, AreWithin, IsSnapshotWithin, IsTenantWithin};

use crate::loaded::{LoadError, Loaded};
use host_form::script::{FileLine, Script, TenantLine};
use host_form::store::{ReadError, Store};
use std::alloc::{AllocError, Global};
use ten_core::files::{FileError, FileSet};
use ten_core::{Bytes, Text};

/// The most bytes that are read of a source.
const MOST_SOURCE: u64 = 2_097_152;

/// The most bytes that are read of a snapshot.
const MOST_SNAPSHOT: u64 = 16_777_216;

/// The most bytes that are read of a file.
const MOST_FILE: u64 = 4_194_304;

/// The most bytes that are read of all files of a script.
const MOST_FILES: u64 = 268_435_456;

/// A path as a `str`.
fn path_text(path: &Text) -> &str
    requires { is_path path.now ≡ true }
    ensures { result.now ≡ path.now }
{
    match str::from_utf8(path.as_slice()) {
        Ok(text) => text,
        Err(_) => unreachable!(),
    }
}

/// A copy of a text.
fn copy_of(alloc: Global, text: &Text) -> Result<Text, AllocError>
    ensures { IfOk result (λ copy. copy ≡ text.now) }
{
    Ok(Text::from_vec(Vec::from_slice(alloc, text.as_slice())?))
}

/// That the file of a path was not read.
fn unread(asked: Text, why: ReadError) -> LoadError
    ensures asked { (path : List ℕ) (cause : ReadError) → result ≡ LoadError.Unread path cause → (path ≡ asked) × (cause ≡ why) × (why ≢ ReadError.Memory) }
    ensures missed { missed_by result ≡ miss_of asked why }
{
    if why == ReadError::Memory {
        return LoadError::Memory;
    }
    LoadError::Unread(asked, why)
}

/// Reads the file of a path of at most so many bytes. Its path is copied before, so a read that failed is always told.
pub fn read_at<S: Store>(
    alloc: Global,
    path: &Text,
    most: u64,
    store: &mut S,
) -> Result<Vec<u8>, LoadError>
    requires { is_path path.now ≡ true }
    ensures told { S.told store.new ≡ S.told store.old }
    ensures faults { S.faults store.old ≤ S.faults store.new }
    ensures absences { S.absences store.old ≤ S.absences store.new }
    ensures noted { S.missed store.new ≡ S.missed store.old ++ missed_in result }
    ensures bytes { IfOk result (λ bytes. IsTold (S.told store.old) path.now bytes.items × (length bytes.items ≤ most)) }
    ensures missed { (asked : List ℕ) (why : ReadError) → IsErrOf result (LoadError.Unread asked why) → (asked ≡ path.now)
        × IsCause (S.told store.old) (counts_of (S.faults store.old) (S.absences store.old)) (counts_of (S.faults store.new) (S.absences store.new)) path.now most why }
{
    let Ok(asked) = copy_of(alloc, path) else {
        return Err(LoadError::Memory);
    };
    match store.read(alloc, path_text(path), most) {
        Ok(bytes) => Ok(bytes),
        Err(why) => Err(unread(asked, why)),
    }
}

/// Reads a tenant's snapshot, if it has one.
fn read_snapshot<S: Store>(
    alloc: Global,
    resume: &Option<Text>,
    store: &mut S,
) -> Result<Option<Vec<u8>>, LoadError>
    requires { IfSome resume.now (λ path. is_path path ≡ true) }
    ensures told { S.told store.new ≡ S.told store.old }
    ensures faults { S.faults store.old ≤ S.faults store.new }
    ensures absences { S.absences store.old ≤ S.absences store.new }
    ensures noted { S.missed store.new ≡ S.missed store.old ++ missed_in result }
    ensures snapshot { IfOk result (λ bytes. IfSome (S.told store.old) (λ files. IsSnapshotAt files resume.now (bytes_in bytes))) }
    ensures within { OnOk result (IfSome (S.told store.old) (λ files. IsSnapshotWithin files resume.now)) }
    ensures missed { (asked : List ℕ) (why : ReadError) → IsErrOf result (LoadError.Unread asked why) → (resume.now ≡ Some asked)
        × IsCause (S.told store.old) (counts_of (S.faults store.old) (S.absences store.old)) (counts_of (S.faults store.new) (S.absences store.new)) asked most_snapshot why }
{
    match resume {
        None => Ok(None),
        Some(path) => Ok(Some(read_at(alloc, path, MOST_SNAPSHOT, store)?)),
    }
}

/// Reads a script's files, one after another.
#[derive(Drop)]
struct Reader {
    /// How many bytes the files that aren't read yet may have.
    room: u64,
}

impl Reader {
    /// Reads a file of a tenant, and adds it to those before it.
    fn read_file<S: Store>(
        &mut self,
        alloc: Global,
        line: &FileLine,
        set: &mut FileSet,
        store: &mut S,
    ) -> Result<(), LoadError>
        requires spelt { IsSpeltFile line.now }
        requires new { IsNone (number_of set.old line.now.name) }
        requires few { length set.old < 16 }
        ensures told { S.told store.new ≡ S.told store.old }
        ensures faults { S.faults store.old ≤ S.faults store.new }
        ensures absences { S.absences store.old ≤ S.absences store.new }
        ensures noted { S.missed store.new ≡ S.missed store.old ++ missed_in result }
        ensures added { OnOk result (IsAdded (S.told store.old) line.now set.old set.new self.old.room self.new.room) }
        ensures missed { (asked : List ℕ) (why : ReadError) → IsErrOf result (LoadError.Unread asked why) → (asked ≡ line.now.path)
            × IsCause (S.told store.old) (counts_of (S.faults store.old) (S.absences store.old)) (counts_of (S.faults store.new) (S.absences store.new)) asked (min most_file self.old.room) why }
    {
        let bytes = read_at(alloc, &line.path, MOST_FILE.min(self.room), store)?;
        let left = self.room - bytes.len() as u64;
        let Ok(name) = copy_of(alloc, &line.name) else {
            return Err(LoadError::Memory);
        };
        match set.add(name, Bytes::from_vec(bytes)) {
            Ok(()) => {
                self.room = left;
                Ok(())
            }
            Err((FileError::Memory, _, _)) => Err(LoadError::Memory),
            Err(_) => unreachable!(),
        }
    }

    /// Reads a tenant's files.
    fn read_files<S: Store>(
        &mut self,
        alloc: Global,
        lines: &[FileLine],
        store: &mut S,
    ) -> Result<FileSet, LoadError>
        requires few { length lines.now ≤ 16 }
        requires spelt { AllByRecursion IsSpeltFile lines.now }
        requires different { IsDistinct (λ f g. bytes_eq f.name g.name) lines.now }
        ensures told { S.told store.new ≡ S.told store.old }
        ensures faults { S.faults store.old ≤ S.faults store.new }
        ensures absences { S.absences store.old ≤ S.absences store.new }
        ensures noted { S.missed store.new ≡ S.missed store.old ++ missed_in result }
        ensures files { IfOk result (λ set. IfSome (S.told store.old) (λ files. AreFilesAt files lines.now set)) }
        ensures within { OnOk result (IfSome (S.told store.old) (λ files. AreWithin files self.old.room lines.now)) }
        ensures room { OnOk result (IfSome (S.told store.old) (λ files. self.new.room ≡ self.old.room - bytes_of files lines.now)) }
        ensures missed { (asked : List ℕ) (why : ReadError) → IsErrOf result (LoadError.Unread asked why) → IsFileMissed (S.told store.old)
            (counts_of (S.faults store.old) (S.absences store.old)) (counts_of (S.faults store.new) (S.absences store.new)) self.old.room lines.now asked why }
    {
        let mut set = FileSet::new(alloc);
        for line in lines {
            self.read_file(alloc, line, &mut set, store)?;
        }
        Ok(set)
    }

    /// Reads what a tenant has: its source, its files, and its snapshot, if it has one.
    fn read_tenant<S: Store>(
        &mut self,
        alloc: Global,
        line: &TenantLine,
        store: &mut S,
    ) -> Result<Loaded, LoadError>
        requires few { length line.now.files ≤ 16 }
        requires spelt { IsSpeltTenant line.now }
        ensures told { S.told store.new ≡ S.told store.old }
        ensures faults { S.faults store.old ≤ S.faults store.new }
        ensures absences { S.absences store.old ≤ S.absences store.new }
        ensures noted { S.missed store.new ≡ S.missed store.old ++ missed_in result }
        ensures loaded { IfOk result (λ loaded. IfSome (S.told store.old) (λ files. IsLoaded files line.now loaded)) }
        ensures within { OnOk result (IfSome (S.told store.old) (λ files. IsTenantWithin files self.old.room line.now)) }
        ensures room { OnOk result (IfSome (S.told store.old) (λ files. self.new.room ≡ self.old.room - bytes_of files line.now.files)) }
        ensures missed { (asked : List ℕ) (why : ReadError) → IsErrOf result (LoadError.Unread asked why) → IsPartMissed (S.told store.old)
            (counts_of (S.faults store.old) (S.absences store.old)) (counts_of (S.faults store.new) (S.absences store.new)) self.old.room line.now asked why }
    {
        let source = read_at(alloc, &line.source, MOST_SOURCE, store)?;
        let files = self.read_files(alloc, line.files.as_slice(), store)?;
        let snapshot = read_snapshot(alloc, &line.resume, store)?;
        Ok(Loaded {
            source,
            files,
            snapshot,
        })
    }
}

/// Reads what a script's tenants have, tenant by tenant: its source, its files in order, and its snapshot, if it has one. Read are
/// sources of at most 2,097,152 bytes, snapshots of at most 16,777,216, and files, each of at most the lesser of 4,194,304 bytes and
/// what the files read before it leave of 268,435,456. The first read that fails ends it, and is told with its path.
pub fn load<S: Store>(
    alloc: Global,
    script: &Script,
    store: &mut S,
) -> Result<Vec<Loaded>, LoadError>
    requires limits { IsWithinLimits script.now }
    requires spelt { IsSpelt script.now }
    ensures told { S.told store.new ≡ S.told store.old }
    ensures faults { S.faults store.old ≤ S.faults store.new }
    ensures absences { S.absences store.old ≤ S.absences store.new }
    ensures noted { S.missed store.new ≡ S.missed store.old ++ missed_in result }
    ensures loaded { IfOk result (λ all. IfSome (S.told store.old) (λ files. AreLoaded files script.now.tenants all.items)) }
    ensures count { IfOk result (λ all. length all.items ≡ length script.now.tenants) }
    ensures within { IfOk result (λ all. IfSome (S.told store.old) (λ files. IsAvailable files script.now)) }
    ensures missed { (path : List ℕ) (why : ReadError) → IsErrOf result (LoadError.Unread path why) → IsMissed (S.told store.old)
        (counts_of (S.faults store.old) (S.absences store.old)) (counts_of (S.faults store.new) (S.absences store.new)) script.now path why }
{
    let mut reader = Reader { room: MOST_FILES };
    let mut all = Vec::new(alloc);
    for line in script.tenants.as_slice() {
        let loaded = reader.read_tenant(alloc, line, store)?;
        let Ok(()) = all.push(loaded) else {
            return Err(LoadError::Memory);
        };
    }
    Ok(all)
}
