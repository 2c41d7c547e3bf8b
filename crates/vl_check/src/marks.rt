//! Marks on signals.

ghost use Rattle.std.specs.Prelude.{◌≡◌, ◌<◌, ◌==◌, ℕ, length, map, get_or, false, true, if◌then◌else◌};
ghost use Rattle.std.specs.List.{list_any};
ghost use Rattle.vl_sites.specs.Seen.{site_of, what_of};
ghost use Rattle.vl_check.specs.Rules.{sets};
ghost use Rattle.vl_check.specs.Writers.{assigns};

use vl_design::design::Event;
use vl_sites::site::{Site, What};

/// Marks a signal so; nothing where there is no such signal.
fn put(marks: &mut Vec<bool>, number: u32, mark: bool)
    ensures long { length marks.new.items ≡ length marks.old.items }
    ensures marks { (k : ℕ) → k < length marks.old.items → get_or marks.new.items k false ≡ (if number == k then mark else get_or marks.old.items k false) }
{
    if (number as usize) < marks.len() {
        marks[number as usize] = mark;
    }
}

/// Marks the signals of events so.
#[tactic(auto, using(crate::proofs::Marking::steps))]
pub(crate) fn put_events(marks: &mut Vec<bool>, events: &[Event], mark: bool)
    ensures long { length marks.new.items ≡ length marks.old.items }
    ensures marks { (k : ℕ) → k < length marks.old.items → get_or marks.new.items k false
        ≡ (if list_any (λ e. e.signal == k) events.now then mark else get_or marks.old.items k false) }
{
    for event in events {
        put(marks, event.signal, mark);
    }
}

/// Marks a signal so that is assigned elsewhere than in the header of a loop.
fn put_site(marks: &mut Vec<bool>, what: What<'_>, mark: bool)
    ensures long { length marks.new.items ≡ length marks.old.items }
    ensures marks { (k : ℕ) → k < length marks.old.items → get_or marks.new.items k false
        ≡ (if sets (λ j. j == k) (what_of what.entry) then mark else get_or marks.old.items k false) }
{
    if let What::Sets(number, _, _) = what {
        put(marks, number, mark);
    }
}

/// Marks the signals so that are assigned at sites elsewhere than in headers of loops.
#[tactic(auto, using(crate::proofs::Marking::steps))]
pub(crate) fn put_sites(marks: &mut Vec<bool>, all: &[Site<'_>], mark: bool)
    ensures long { length marks.new.items ≡ length marks.old.items }
    ensures marks { (k : ℕ) → k < length marks.old.items → get_or marks.new.items k false
        ≡ (if list_any (λ s. sets (λ j. j == k) s.what) (map site_of all.now) then mark else get_or marks.old.items k false) }
{
    for site in all {
        put_site(marks, site.what, mark);
    }
}

/// Marks a signal that is assigned.
fn put_assigned_site(marks: &mut Vec<bool>, what: What<'_>)
    ensures long { length marks.new.items ≡ length marks.old.items }
    ensures marks { (k : ℕ) → k < length marks.old.items → get_or marks.new.items k false
        ≡ (if assigns k (what_of what.entry) then true else get_or marks.old.items k false) }
{
    match what {
        What::Sets(number, _, _) | What::Heads(number) => put(marks, number, true),
        What::Reads(_) | What::Calls(_) | What::Delays | What::Tasks(_) => {}
    }
}

/// Marks the signals that are assigned at sites.
#[tactic(auto, using(crate::proofs::Marking::steps))]
pub(crate) fn put_assigned(marks: &mut Vec<bool>, all: &[Site<'_>])
    ensures long { length marks.new.items ≡ length marks.old.items }
    ensures marks { (k : ℕ) → k < length marks.old.items → get_or marks.new.items k false
        ≡ (if list_any (λ s. assigns k s.what) (map site_of all.now) then true else get_or marks.old.items k false) }
{
    for site in all {
        put_assigned_site(marks, site.what);
    }
}
