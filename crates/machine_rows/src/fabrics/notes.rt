//! What comes of orders to a desk, in words.

use crate::fabrics::outcomes::{too_large_text, why_text};
use fab_desk::bay::Bay;
use fab_desk::leaving::{DeskError, Found, Leaving, Refused, Turn};
use fab_model::{Entry, Kind};
use std::alloc::{AllocError, Global};

/// What a note tells.
pub fn entry_text(alloc: Global, entry: Entry) -> Result<String, AllocError> {
    let tenant = entry.tenant;
    let from = entry.from;
    match entry.kind {
        Kind::Line => format!(in alloc; "line {tenant} at {from}\n"),
        Kind::Came => format!(in alloc; "came {tenant} at {from}\n"),
        Kind::Ran => format!(in alloc; "ran {tenant} from {from} to {}\n", entry.to),
        Kind::Saved => format!(in alloc; "saved {tenant} at {from}\n"),
        Kind::Left => format!(in alloc; "left {tenant} at {from}\n"),
    }
}

/// What notes tell.
pub fn entries_text(alloc: Global, entries: &[Entry]) -> Result<String, AllocError> {
    let mut text = String::new(alloc);
    for entry in entries {
        let more = entry_text(alloc, *entry)?;
        text.push_str(more.as_str())?;
    }
    Ok(text)
}

/// A history, behind the line `history`.
pub fn history_text(alloc: Global, bay: &Bay) -> Result<String, AllocError> {
    let mut text = String::from_str(alloc, "history\n")?;
    for note in bay.history() {
        let more = entry_text(alloc, note.entry)?;
        text.push_str(more.as_str())?;
    }
    Ok(text)
}

/// Why a tenant couldn't be put in line; it is given back.
pub fn refused_text(alloc: Global, refused: &Refused) -> Result<String, AllocError> {
    match refused.why {
        DeskError::TooLarge(cost, capacity) => too_large_text(alloc, cost, capacity),
        DeskError::Doubled(number) => format!(in alloc; "doubled {number}\n"),
        DeskError::Memory => Err(AllocError),
    }
}

/// A tenant that left, and why.
pub fn leaving_text(alloc: Global, leaving: &Leaving) -> Result<String, AllocError> {
    let mut text = why_text(alloc, leaving.why)?;
    let more = rest_text(
        alloc,
        leaving.transit.parcel.number(),
        leaving.transit.parcel.ticks(),
    )?;
    text.push_str(more.as_str())?;
    Ok(text)
}

/// A tenant at rest.
fn rest_text(alloc: Global, number: u32, tick: u64) -> Result<String, AllocError> {
    format!(in alloc; "tenant {number} at {tick}\n")
}

/// What a turn did, its leaving tenants left out.
pub fn turn_text(alloc: Global, turn: &Turn) -> Result<String, AllocError> {
    let mut text = entries_text(alloc, &turn.entries)?;
    if turn.idle {
        text.push_str("idle\n")?;
    }
    if turn.short {
        return Err(AllocError);
    }
    Ok(text)
}

/// What became of a tenant that was to be taken out.
pub fn found_text(alloc: Global, found: &Found) -> Result<String, AllocError> {
    match found {
        Found::Here(out) => rest_text(alloc, out.parcel.number(), out.parcel.ticks()),
        Found::Absent => String::from_str(alloc, "absent\n"),
        Found::Short => Err(AllocError),
    }
}
