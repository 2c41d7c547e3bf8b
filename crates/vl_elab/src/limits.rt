//! Limits 5, 6, 7 and 11 of a design.

ghost use Rattle.std.specs.Prelude.{◌≡◌, ◌+◌, ◌∷◌, [], fold, nat_lt, ◌||◌, ◌&&◌, IfOk, if◌then◌else◌};
ghost use Rattle.vl_design.specs.vl_base.specs.declared.place.Place.{Place as Where};
ghost use Rattle.elab_plain.specs.vl_flat.specs.Expressions as e;
ghost use Rattle.elab_plain.specs.vl_flat.specs.Outcome as o;
ghost use Rattle.elab_plain.specs.vl_flat.specs.Flat as f;
ghost use Rattle.vl_design.specs.Stops.{earliest};
ghost use Rattle.vl_elab.specs.Growing.{totals_of};

use crate::making::Totals;
use elab_kinds::counts::next_number;
use std::alloc::AllocError;
use vl_design::Place;
use vl_design::design::{SigKind, Signal};
use vl_design::stop::Stop;
use vl_design::stops::limit_if;

/// The most instances.
const MOST_INSTANCES: u32 = 4096;

/// The most signals.
const MOST_SIGNALS: u32 = 16384;

/// The most words of a memory.
const MOST_WORDS: u64 = 65536;

/// The most words of all memories.
const MOST_WORDS_IN_ALL: u64 = 262144;

/// A signal of this kind counts.
fn is_counted(kind: SigKind) -> bool
    ensures { result ≡ o.is_counted kind }
{
    match kind {
        SigKind::Clock | SigKind::Loop => false,
        SigKind::Net | SigKind::Var | SigKind::Comb | SigKind::Mem => true,
    }
}

/// It is a memory.
fn is_memory(kind: SigKind) -> bool
    ensures { result ≡ e.is_mem kind }
{
    matches!(kind, SigKind::Mem)
}

/// How many words a memory has; none where it is no memory.
fn memory_words(signal: &Signal) -> u64
    ensures { result ≡ o.memory_words signal.now }
{
    if is_memory(signal.kind) {
        u64::from(signal.first.abs_diff(signal.last)) + 1
    } else {
        0
    }
}

/// How many signals there are with one more; want of memory from 2^32 - 1 on.
fn signals_with(t: Totals, kind: SigKind) -> Result<u32, AllocError>
    ensures { IfOk result (λ n. n ≡ (if o.is_counted kind then t.signals + 1 else t.signals)) }
{
    if is_counted(kind) {
        next_number(t.signals)
    } else {
        Ok(t.signals)
    }
}

/// How many words there are with so many more; want of memory from 2^64 on.
fn words_with(words: u64, more: u64) -> Result<u64, AllocError>
    ensures { IfOk result (λ n. n ≡ words + more) }
{
    match words.checked_add(more) {
        Some(all) => Ok(all),
        None => Err(AllocError),
    }
}

/// What is counted with one more signal.
fn with_signal(t: Totals, signal: &Signal) -> Result<Totals, AllocError>
    ensures { IfOk result (λ n. totals_of n ≡ o.with_signal (totals_of t) signal.now) }
{
    let signals = signals_with(t, signal.kind)?;
    let words = words_with(t.words, memory_words(signal))?;
    Ok(Totals {
        instances: t.instances,
        signals,
        words,
    })
}

/// What is counted with one more instance.
pub fn with_instance(t: Totals) -> Result<Totals, AllocError>
    ensures { IfOk result (λ n. (at : Where) → totals_of n ≡ o.with_instance (totals_of t) at) }
{
    let instances = next_number(t.instances)?;
    Ok(Totals {
        instances,
        signals: t.signals,
        words: t.words,
    })
}

/// A path is longer than 255 bytes.
pub fn is_long_path(path: &[u8]) -> bool
    ensures { result ≡ f.is_long_path path.now }
{
    path.len() > 255
}

/// A memory, or all of them together, have too many words.
fn has_many_words(t: Totals, signal: &Signal) -> bool
    ensures { result ≡ (nat_lt o.most_words (o.memory_words signal.now) || (e.is_mem signal.now.kind && nat_lt o.most_words_in_all t.words)) }
{
    memory_words(signal) > MOST_WORDS || (is_memory(signal.kind) && t.words > MOST_WORDS_IN_ALL)
}

/// The first of those so far and the limits that a signal passes, with which there are so many.
fn signal_limits(best: Option<Stop>, t: Totals, signal: &Signal) -> Option<Stop>
    ensures { result ≡ earliest best (o.signal_limits (totals_of t) signal.now) }
{
    let counted = is_counted(signal.kind);
    let best = limit_if(best, counted && t.signals > MOST_SIGNALS, signal.place, 6);
    let best = limit_if(best, has_many_words(t, signal), signal.place, 7);
    limit_if(
        best,
        counted && is_long_path(signal.name.as_slice()),
        signal.place,
        11,
    )
}

/// What was found of signals, and what is counted with them.
#[derive(Clone, Copy)]
pub struct Counted {
    /// The first fault.
    pub best: Option<Stop>,
    /// What is counted.
    pub totals: Totals,
}

/// The first of those so far and the limits that these signals pass.
#[tactic(auto, using(crate::proofs::Counting::counting))]
pub fn signals_limits(
    best: Option<Stop>,
    t: Totals,
    signals: &[Signal],
) -> Result<Counted, AllocError>
    ensures best { IfOk result (λ n. n.best ≡ earliest best (o.signals_limits (totals_of t) signals.now)) }
    ensures totals { IfOk result (λ n. totals_of n.totals ≡ fold o.with_signal (totals_of t) signals.now) }
{
    let mut best = best;
    let mut totals = t;
    for signal in signals {
        totals = with_signal(totals, signal)?;
        best = signal_limits(best, totals, signal);
    }
    Ok(Counted { best, totals })
}

/// The limit that one more instance passes.
pub fn instance_limit(best: Option<Stop>, t: Totals, at: Place) -> Option<Stop>
    ensures { result ≡ earliest best (o.instance_limits (totals_of t) (at ∷ [])) }
{
    limit_if(best, t.instances >= MOST_INSTANCES, at, 5)
}
