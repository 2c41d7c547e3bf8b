//! Copies of what unrolling leaves as it is.

ghost use Rattle.std.specs.Prelude.{◌≡◌, IfOk};

use std::alloc::{AllocError, Global};
use vl_design::design::{Event, Signal};
use vl_design::{Items, Nums, Text};

/// A copy of a text.
pub(crate) fn copied(alloc: Global, text: &Text) -> Result<Text, AllocError>
    ensures { IfOk result (λ t. t ≡ text.now) }
{
    Ok(Items::from_vec(Vec::from_slice(alloc, text.as_slice())?))
}

/// A copy of numbers.
pub(crate) fn copied_numbers(alloc: Global, numbers: &Nums) -> Result<Nums, AllocError>
    ensures { IfOk result (λ t. t ≡ numbers.now) }
{
    Ok(Items::from_vec(Vec::from_slice(alloc, numbers.as_slice())?))
}

/// A copy of the events of a process.
pub(crate) fn copied_events(
    alloc: Global,
    events: &Items<Event>,
) -> Result<Items<Event>, AllocError>
    ensures { IfOk result (λ t. t ≡ events.now) }
{
    Ok(Items::from_vec(Vec::from_slice(alloc, events.as_slice())?))
}

/// A copy of a signal.
fn copied_signal(alloc: Global, signal: &Signal) -> Result<Signal, AllocError>
    ensures { IfOk result (λ x. x ≡ signal.now) }
{
    let name = copied(alloc, &signal.name)?;
    Ok(Signal {
        name,
        place: signal.place,
        kind: signal.kind,
        signed: signal.signed,
        left: signal.left,
        right: signal.right,
        first: signal.first,
        last: signal.last,
    })
}

/// A copy of signals.
pub(crate) fn copied_signals(alloc: Global, signals: &[Signal]) -> Result<Items<Signal>, AllocError>
    ensures { IfOk result (λ t. t ≡ signals.now) }
{
    let mut all = Vec::new(alloc);
    for signal in signals {
        all.push(copied_signal(alloc, signal)?)?;
    }
    Ok(Items::from_vec(all))
}
