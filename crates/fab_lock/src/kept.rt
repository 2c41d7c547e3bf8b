//! What a value under the lock has.
ghost use Rattle.std.specs.Prelude.{List};

/// A value with a label, which the lock keeps as it is, and a history of notes, which only grows.
pub trait Kept {
    ghost use Rattle.fab_lock.specs.declared.entry.Entry.{Entry};

    /// What never changes.
    type Label;

    /// What a history lists.
    type Note;

    /// The label of a value.
    ghost label: { Self → Self.Label };

    /// The history of a value, from its first note on.
    ghost history: { Self → List Self.Note };

    /// What a note says of its seat, its tenant and its ticks.
    ghost entry: { Self.Note → Entry };
}
