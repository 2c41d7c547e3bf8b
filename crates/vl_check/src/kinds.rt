//! Kinds of signals.

ghost use Rattle.std.specs.Prelude.{◌≡◌, ◌<◌, ◌++◌, length, true};
ghost use Rattle.vl_check.specs.Bodies.{kind_is};
ghost use Rattle.vl_check.specs.Rules as r;
ghost use Rattle.vl_check.specs.Triggers.{has_value};
ghost use Rattle.vl_check.specs.Writers.{is_store};

use vl_design::design::{SigKind, Signal};

/// A clock name.
pub(crate) fn is_clock(signals: &[Signal], number: u32) -> bool
    ensures { result ≡ kind_is r.is_clock signals.now number }
{
    match signals.get(number as usize) {
        None => false,
        Some(signal) => matches!(signal.kind, SigKind::Clock),
    }
}

/// A net, or a variable of a combinational process.
pub(crate) fn is_derived(signals: &[Signal], number: u32) -> bool
    ensures { result ≡ kind_is r.is_derived signals.now number }
{
    match signals.get(number as usize) {
        None => false,
        Some(signal) => matches!(signal.kind, SigKind::Net | SigKind::Comb),
    }
}

/// A variable or a memory.
pub(crate) fn is_store(signals: &[Signal], number: u32) -> bool
    ensures value { result ≡ kind_is is_store signals.now number }
    ensures there { result ≡ true → number < length signals.now }
{
    match signals.get(number as usize) {
        None => false,
        Some(signal) => matches!(signal.kind, SigKind::Var | SigKind::Comb | SigKind::Mem),
    }
}

/// Anything but a loop variable.
pub(crate) fn has_value(signals: &[Signal], number: u32) -> bool
    ensures value { result ≡ kind_is has_value signals.now number }
    ensures there { result ≡ true → number < length signals.now }
{
    match signals.get(number as usize) {
        None => false,
        Some(signal) => !matches!(signal.kind, SigKind::Loop),
    }
}

/// A loop variable.
fn is_loop(signals: &[Signal], number: usize) -> bool
    ensures { result ≡ kind_is r.is_loop signals.now number }
{
    match signals.get(number) {
        None => false,
        Some(signal) => matches!(signal.kind, SigKind::Loop),
    }
}

/// A loop variable among signals of a design and those of a function, whose numbers follow.
#[tactic(auto, using(crate::proofs::Joined::joined))]
pub(crate) fn is_loop_in(shared: &[Signal], own: &[Signal], number: u32) -> bool
    ensures { result ≡ kind_is r.is_loop (shared.now ++ own.now) number }
{
    let number = number as usize;
    if number < shared.len() {
        is_loop(shared, number)
    } else {
        is_loop(own, number - shared.len())
    }
}
