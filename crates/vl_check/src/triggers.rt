//! What processes wait for: refused construct 16, and of 15 the edges.

ghost use Rattle.std.specs.Prelude.{◌≡◌, ◌<◌, ◌&&◌, not, ℕ, length, map, get_or, false};
ghost use Rattle.std.specs.List.{list_any};
ghost use Rattle.vl_design.specs.Seen as seen;
ghost use Rattle.vl_design.specs.Stops.{earliest};
ghost use Rattle.vl_sites.specs.Seen.{site_of, what_of};
ghost use Rattle.vl_sites.specs.Sites.{sites};
ghost use Rattle.vl_check.specs.Bodies.{kind_is};
ghost use Rattle.vl_check.specs.Rules.{reads};
ghost use Rattle.vl_check.specs.Triggers as t;

use crate::kinds::{has_value, is_clock};
use crate::marks::{put_events, put_sites};
use vl_design::design::{Event, Process, Signal};
use vl_design::stop::Stop;
use vl_design::stops::construct_if;
use vl_sites::site::{Site, What};

/// One of the events is an edge.
fn has_edge(events: &[Event]) -> bool
    ensures { result ≡ list_any t.is_edge events.now }
{
    for event in events {
        if event.edge != 0 {
            return true;
        }
    }
    false
}

/// They are a list of names.
fn is_list(events: &[Event]) -> bool
    ensures { result ≡ t.is_list events.now }
{
    match events {
        [] => false,
        [_, ..] => !has_edge(events),
    }
}

/// One of the events is an edge on anything but a clock.
fn has_misplaced(signals: &[Signal], events: &[Event]) -> bool
    ensures { result ≡ list_any (t.is_misplaced signals.now) events.now }
{
    for event in events {
        if event.edge != 0 && !is_clock(signals, event.signal) {
            return true;
        }
    }
    false
}

/// It reads a signal that isn't marked.
fn is_unmarked(marks: &[bool], signals: &[Signal], what: What<'_>) -> bool
    requires { length marks.now ≡ length signals.now }
    ensures { result ≡ reads (λ k. kind_is t.has_value signals.now k && not (get_or marks.now k false)) (what_of what.entry) }
{
    match what {
        What::Reads(k) => has_value(signals, k) && !marks[k as usize],
        _ => false,
    }
}

/// At a site a signal is read that isn't marked.
fn reads_unmarked(marks: &[bool], signals: &[Signal], all: &[Site<'_>]) -> bool
    requires { length marks.now ≡ length signals.now }
    ensures { result ≡ list_any (λ s. reads (λ k. kind_is t.has_value signals.now k && not (get_or marks.now k false)) s.what) (map site_of all.now) }
{
    for site in all {
        if is_unmarked(marks, signals, site.what) {
            return true;
        }
    }
    false
}

/// The list of a process, whose body has these sites, lacks a signal. No signal is marked, and none is behind it.

fn lacks_some(marks: &mut Vec<bool>, signals: &[Signal], a: &Process, all: &[Site<'_>]) -> bool
    requires long { length marks.old.items ≡ length signals.now }
    requires clean { (k : ℕ) → k < length signals.now → get_or marks.old.items k false ≡ false }
    requires sites { map site_of all.now ≡ sites (seen.stm_of a.now.body) }
    ensures lacks { result ≡ t.lacks_some signals.now (seen.process_of a.now) }
    ensures long { length marks.new.items ≡ length signals.now }
    ensures clean { (k : ℕ) → k < length signals.now → get_or marks.new.items k false ≡ false }
{
    let events = a.events.as_slice();
    if !is_list(events) {
        return false;
    }
    put_events(marks, events, true);
    put_sites(marks, all, true);
    let lacks = reads_unmarked(marks, signals, all);
    put_events(marks, events, false);
    put_sites(marks, all, false);
    lacks
}

/// The first of a fault so far and those in the trigger of a process, whose body has these sites.
pub(crate) fn trigger_fault(
    marks: &mut Vec<bool>,
    signals: &[Signal],
    best: Option<Stop>,
    a: &Process,
    all: &[Site<'_>],
) -> Option<Stop>
    requires long { length marks.old.items ≡ length signals.now }
    requires clean { (k : ℕ) → k < length signals.now → get_or marks.old.items k false ≡ false }
    requires sites { map site_of all.now ≡ sites (seen.stm_of a.now.body) }
    ensures stop { result ≡ earliest best (t.trigger_faults signals.now (seen.process_of a.now)) }
    ensures long { length marks.new.items ≡ length signals.now }
    ensures clean { (k : ℕ) → k < length signals.now → get_or marks.new.items k false ≡ false }
{
    let events = a.events.as_slice();
    let mixed = has_edge(events) && events.len() > 1;
    let lacks = lacks_some(marks, signals, a, all);
    let own = construct_if(best, has_misplaced(signals, events), a.place, 15);
    construct_if(own, mixed || lacks, a.place, 16)
}
