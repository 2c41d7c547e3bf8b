//! Who writes a variable or a memory: refused construct 14.

ghost use Rattle.std.specs.Prelude.{◌≡◌, ◌<◌, length, map};
ghost use Rattle.std.specs.List.{list_any};
ghost use Rattle.vl_design.specs.Stops.{earliest, construct_if};
ghost use Rattle.vl_sites.specs.Seen.{site_of, what_of};
ghost use Rattle.vl_check.specs.Told.{second_by, taken_by, AreLong, Notes};
ghost use Rattle.vl_check.specs.Writers as w;

use crate::kinds::is_store;
use crate::marks::put_assigned;
use vl_design::design::{ProcKind, Process, Signal};
use vl_design::stop::Stop;
use vl_design::stops::construct_if;
use vl_sites::site::{Site, What};

/// Which signals some processes write: marks by their numbers.
#[derive(Drop)]
pub(crate) struct Writers {
    /// Those that any of them writes.
    pub(crate) any: Vec<bool>,
    /// Those that an `always` block writes.
    pub(crate) always: Vec<bool>,
    /// Those that a combinational process writes.
    pub(crate) combinational: Vec<bool>,
}

/// It is an `always` block.
fn is_always(kind: ProcKind) -> bool
    ensures { result ≡ w.is_always kind }
{
    match kind {
        ProcKind::Rise | ProcKind::Fall | ProcKind::Comb => true,
        ProcKind::Init | ProcKind::Assign => false,
    }
}

/// It is a combinational process.
fn is_combinational(kind: ProcKind) -> bool
    ensures { result ≡ w.is_combinational kind }
{
    match kind {
        ProcKind::Comb | ProcKind::Assign => true,
        ProcKind::Init | ProcKind::Rise | ProcKind::Fall => false,
    }
}

/// One of the processes writes the signal, which a process of a kind may not write then.
fn is_second(writers: &Writers, kind: ProcKind, number: usize) -> bool
    requires long { AreLong (length writers.now.any.items) writers.now }
    requires there { number < length writers.now.any.items }
    ensures { result ≡ second_by writers.now kind number }
{
    (is_combinational(kind) && writers.any[number])
        || ((is_always(kind) && writers.always[number]) || writers.combinational[number])
}

/// What it assigns is a variable or a memory that one of the processes writes, and it may not then.
fn is_taken(writers: &Writers, signals: &[Signal], kind: ProcKind, what: What<'_>) -> bool
    requires { AreLong (length signals.now) writers.now }
    ensures { result ≡ taken_by writers.now signals.now kind (what_of what.entry) }
{
    match what {
        What::Sets(k, _, _) | What::Heads(k) => {
            is_store(signals, k) && is_second(writers, kind, k as usize)
        }
        What::Reads(_) | What::Calls(_) | What::Delays | What::Tasks(_) => false,
    }
}

/// Something that is assigned at the sites is taken.
fn is_rival(writers: &Writers, signals: &[Signal], kind: ProcKind, all: &[Site<'_>]) -> bool
    requires { AreLong (length signals.now) writers.now }
    ensures { result ≡ list_any (λ s. taken_by writers.now signals.now kind s.what) (map site_of all.now) }
{
    for site in all {
        if is_taken(writers, signals, kind, site.what) {
            return true;
        }
    }
    false
}

/// Notes what a process of a kind writes whose body has these sites.
fn note(writers: &mut Writers, kind: ProcKind, all: &[Site<'_>])
    requires { AreLong (length writers.old.any.items) writers.old }
    ensures { Notes (length writers.old.any.items) kind (map site_of all.now) writers.old writers.new }
{
    put_assigned(&mut writers.any, all);
    if is_always(kind) {
        put_assigned(&mut writers.always, all);
    }
    if is_combinational(kind) {
        put_assigned(&mut writers.combinational, all);
    }
}

/// The first of a fault so far and that of a process, whose body has these sites, behind others. Notes what it writes.
pub(crate) fn writer_fault(
    writers: &mut Writers,
    signals: &[Signal],
    best: Option<Stop>,
    a: &Process,
    all: &[Site<'_>],
) -> Option<Stop>
    requires long { AreLong (length signals.now) writers.old }
    ensures stop { result ≡ earliest best (construct_if (list_any (λ s. taken_by writers.old signals.now a.now.kind s.what) (map site_of all.now)) a.now.place 14) }
    ensures notes { Notes (length signals.now) a.now.kind (map site_of all.now) writers.old writers.new }
{
    let rival = is_rival(writers, signals, a.kind, all);
    note(writers, a.kind, all);
    construct_if(best, rival, a.place, 14)
}
