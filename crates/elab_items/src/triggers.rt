//! Triggers (IEEE 1364-2005, clause 9.7.5).

ghost use Rattle.std.specs.Prelude.{◌≡◌, IfOk};

use crate::types::copied_name;
use std::alloc::{AllocError, Global};
use vl_tree::parts::Parts;
use vl_tree::source_tree::{Event, Trigger};

/// A copy of an event.
fn copied_event(alloc: Global, a: &Event) -> Result<Event, AllocError>
    ensures { IfOk result (λ b. b ≡ a.now) }
{
    Ok(Event {
        place: a.place,
        edge: a.edge,
        name: copied_name(alloc, &a.name)?,
    })
}

/// Copies of events.
fn copied_events(alloc: Global, events: &[Event]) -> Result<Vec<Event>, AllocError>
    ensures { IfOk result (λ v. v.items ≡ events.now) }
{
    let mut all = Vec::new(alloc);
    for a in events {
        all.push(copied_event(alloc, a)?)?;
    }
    Ok(all)
}

/// A copy of a trigger.
pub(crate) fn copied_trigger(alloc: Global, a: &Trigger) -> Result<Trigger, AllocError>
    ensures { IfOk result (λ b. b ≡ a.now) }
{
    match a {
        Trigger::Star => Ok(Trigger::Star),
        Trigger::Parenthesized => Ok(Trigger::Parenthesized),
        Trigger::Events(events) => {
            let events = copied_events(alloc, events.as_slice())?;
            Ok(Trigger::Events(Parts::from_vec(events)))
        }
    }
}
