//! Laws of the definitions, and that threads may share a lock. Each function does nothing: its contract, or what it
//! asks of types, is the law.
ghost use Rattle.std.specs.Prelude.{◌≡◌, ◌<◌, ◌≤◌, ℕ, List, [], ◌∷◌, ◌++◌, max, slice_index, slice_set, All};
ghost use Rattle.fab_lock.specs.declared.view.View.{View};
ghost use Rattle.fab_lock.specs.Facts.{Finds};
ghost use Rattle.fab_lock.specs.Histories.{Reaches, notes_of, high};
ghost use Rattle.fab_lock.specs.Views.{after_join};

use crate::{Kept, Lock, LockSeat};

/// Where a history goes on by a note, the word of the note's tenant rises to the note's tick, and the
/// others stay.
pub fn a_note_more_raises_its_word<T: Kept>()
    ensures { (count : ℕ) (words : List ℕ) (history : List T.Note) (note : T.Note) → Reaches T.entry count words history → (T.entry note).tenant < count →
        Reaches T.entry count (slice_set words (T.entry note).tenant (max (slice_index words (T.entry note).tenant) (T.entry note).to)) (history ++ note ∷ []) }
{}

/// What a seat finds after another was joined into it is, of all that the other knew, what the other could have found.
pub fn what_a_joined_seat_knew_is_found<T: Kept>()
    ensures own { (v other : View T.Label T.Note) (history : List T.Note) (words : List ℕ) → Finds T.entry history words (after_join v other) → notes_of T.entry other.low history ≡ other.own }
    ensures joined { (v other : View T.Label T.Note) (history : List T.Note) (words : List ℕ) → Finds T.entry history words (after_join v other) → All (λ seat. notes_of T.entry seat.0 history ≡ seat.1) other.joined }
    ensures known { (v other : View T.Label T.Note) (history : List T.Note) (words : List ℕ) → Finds T.entry history words (after_join v other) → All (λ word. word.1 ≤ high T.entry word.0 history) other.known }
{}

fn may_be_shared<X: Sync>(_: &X) {}

fn may_be_given<X: Send>(_: &X) {}

/// Threads may share a lock, and be given it and its seats.
pub fn threads_may_share_a_lock<T: Kept + Send>(lock: &Lock<T>, seat: &LockSeat<T>) {
    may_be_shared(lock);
    may_be_given(lock);
    may_be_given(seat);
}
