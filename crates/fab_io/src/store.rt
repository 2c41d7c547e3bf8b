//! Where files are read and written.

ghost use Rattle.std.specs.Prelude.{◌≡◌, ◌≤◌, ◌⊎◌, ◌++◌, length, IfOk, OnOk, IsErrOf, option_map};
ghost use Rattle.fab_io.specs.Outside.{HasRisen, IsAbsent, IsTooLong, IsTold, ChangesOnly, misses, with_file};

use std::alloc::Global;

/// Why a file was not read.
#[derive(Clone, Copy, Debug, PartialEq, Eq)]
pub enum ReadError {
    /// There is no file of that name.
    NotThere,
    /// The file has more bytes than were asked for.
    TooLong,
    /// The store failed.
    Failed,
    /// Want of memory.
    Memory,
}

/// Why bytes were not written.
#[derive(Clone, Copy, Debug, PartialEq, Eq)]
pub enum WriteError {
    /// The store or the sink failed.
    Failed,
    /// Want of memory.
    Memory,
}

/// Files by name. A store may tell which files it has; one that stands for a real folder does not.
pub trait Store {
    ghost use Rattle.std.specs.Prelude.{ℕ, List, Option};
    ghost use Rattle.fab_io.specs.Outside.{Files, Miss};

    /// The files, where the store tells them.
    ghost told: { Self → Option Files };

    /// How often a call failed.
    ghost faults: { Self → ℕ };

    /// How often a file was reported absent or too long without being so by the told files.
    ghost absences: { Self → ℕ };

    /// The reads that failed, in order.
    ghost missed: { Self → List Miss };

    /// Reads a file of at most `most` bytes. A read that fails is noted; none but it raises a count.
    fn read(&mut self, alloc: Global, name: &str, most: u64) -> Result<Vec<u8>, ReadError>
        ensures told { told self.new ≡ told self.old }
        ensures faults { faults self.old ≤ faults self.new }
        ensures absences { absences self.old ≤ absences self.new }
        ensures bytes { IfOk result (λ bytes. IsTold (told self.old) name.now bytes.items) }
        ensures short { IfOk result (λ bytes. length bytes.items ≤ most) }
        ensures not_there { IsErrOf result ReadError.NotThere →
            IsAbsent (told self.old) name.now ⊎ HasRisen (absences self.old) (absences self.new) }
        ensures too_long { IsErrOf result ReadError.TooLong →
            IsTooLong (told self.old) name.now most ⊎ HasRisen (absences self.old) (absences self.new) }
        ensures failed { IsErrOf result ReadError.Failed → HasRisen (faults self.old) (faults self.new) }
        ensures quiet { ¬ IsErrOf result ReadError.Failed → faults self.new ≡ faults self.old }
        ensures present { ¬ IsErrOf result ReadError.NotThere → ¬ IsErrOf result ReadError.TooLong → absences self.new ≡ absences self.old }
        ensures missed { missed self.new ≡ missed self.old ++ misses name.now result };

    /// Makes a file these bytes. A write that fails changes at most that file; none but it raises the count of faults.
    fn write(&mut self, name: &str, bytes: &[u8]) -> Result<(), WriteError>
        ensures faults { faults self.old ≤ faults self.new }
        ensures absences { absences self.new ≡ absences self.old }
        ensures missed { missed self.new ≡ missed self.old }
        ensures written { OnOk result (told self.new ≡ option_map (with_file name.now bytes.now) (told self.old)) }
        ensures failed { IsErrOf result WriteError.Failed → HasRisen (faults self.old) (faults self.new) }
        ensures quiet { ¬ IsErrOf result WriteError.Failed → faults self.new ≡ faults self.old }
        ensures others { IsErrOf result WriteError.Failed → ChangesOnly (told self.old) (told self.new) name.now }
        ensures memory { IsErrOf result WriteError.Memory → told self.new ≡ told self.old };
}
