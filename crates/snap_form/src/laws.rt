//! What follows from the definitions alone.

ghost use Rattle.std.specs.Prelude.{◌≡◌, ◌≢◌, ◌<◌, ◌⊎◌, ℕ, List, Ok, Err};
ghost use Rattle.std.specs.List.{AllByRecursion};
ghost use Rattle.vl_base.specs.declared.files.File.{File as OneFile};
ghost use Rattle.vl_base.specs.Files.{IsFileSet};
ghost use Rattle.snap_form.specs.Reading.{read};
ghost use Rattle.snap_form.specs.Spelling.{spelt, HasWidth, IsRow, IsSnapshot, IsSnapshotOf};
ghost use Rattle.snap_form.specs.declared.snapshot.SnapError.TheVariants as snap;
ghost use Rattle.snap_form.specs.declared.snapshot.SnapRow.{SnapRow as Row};
ghost use Rattle.snap_form.specs.declared.snapshot.Snapshot.{Snapshot as Snap};

/// The spelling of a snapshot of a design and its files is read back as that snapshot.
pub fn spelling_is_read_back()
    ensures { (rows : List Row) (set : List OneFile) (s : Snap) → AllByRecursion HasWidth rows → IsSnapshotOf rows set s → read rows set (spelt s) ≡ Ok s }
{}

/// What is read is a snapshot of the design and its files, and the bytes are its spelling.
pub fn what_is_read_is_spelt_so()
    ensures { (rows : List Row) (set : List OneFile) (bytes : List ℕ) (s : Snap) → AllByRecursion (λ b. b < 256) bytes → read rows set bytes ≡ Ok s → IsSnapshotOf rows set s × (bytes ≡ spelt s) }
{}

/// No two snapshots of a design and its files have one spelling.
pub fn one_snapshot_of_a_spelling()
    ensures { (rows : List Row) (set : List OneFile) (s t : Snap) → AllByRecursion HasWidth rows → IsSnapshotOf rows set s → IsSnapshotOf rows set t → spelt s ≡ spelt t → s ≡ t }
{}

/// Bytes are a spelling or have a fault, and never both.
pub fn one_outcome()
    ensures either { (rows : List Row) (set : List OneFile) (bytes : List ℕ) → AllByRecursion (λ b. b < 256) bytes → ((s : Snap) × IsSnapshotOf rows set s × (bytes ≡ spelt s)) ⊎ ((kind : ℕ) × (offset : ℕ) × (read rows set bytes ≡ Err (snap.Bad kind offset))) }
    ensures never_both { (rows : List Row) (set : List OneFile) (s : Snap) (kind offset : ℕ) → AllByRecursion HasWidth rows → IsSnapshotOf rows set s → read rows set (spelt s) ≢ Err (snap.Bad kind offset) }
{}

/// A snapshot of a design whose names have at most 255 bytes, and of its files, is well-formed.
pub fn what_is_read_is_well_formed()
    ensures { (rows : List Row) (set : List OneFile) (s : Snap) → AllByRecursion IsRow rows → IsFileSet set → IsSnapshotOf rows set s → IsSnapshot s }
{}
