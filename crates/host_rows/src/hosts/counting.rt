//! Whether a tenant has run the counter up to the tick at which it was stopped, or ended.

use crate::hosts::lines::lines_of;
use crate::hosts::numbers::number;
use std::alloc::{AllocError, Global};

/// What the first line of a tenant's block tells.
#[derive(Clone, Copy)]
struct Head {
    /// An order has stopped it, or its plan.
    stopped: bool,
    /// The ticks begun.
    ticks: u32,
    /// The cycles done.
    cycles: u32,
    /// How many bytes were printed.
    bytes: u32,
}

/// What this line tells, if it is the first one of the tenant's block.
fn head_of(tenant: &str, line: &str) -> Option<Head> {
    let mut words = line.split(' ');
    if words.next() != Some("tenant") || words.next() != Some(tenant) {
        return None;
    }
    Some(Head {
        stopped: words.next() == Some("stopped"),
        ticks: number(words.next()),
        cycles: number(words.next()),
        bytes: number(words.next()),
    })
}

/// What is told of a tenant, and the place of the line behind that.
fn told_of(tenant: &str, lines: &[&str]) -> Option<(Head, usize)> {
    for place in 0..lines.len() {
        if let Some(head) = head_of(tenant, lines[place]) {
            return Some((head, place + 1));
        }
    }
    None
}

/// Whether lines from a place on are what the counter prints in so many ticks, so many bytes, with a blank line behind.
fn are_counted(alloc: Global, head: Head, lines: &[&str], from: usize) -> Result<bool, AllocError> {
    let (mut place, mut bytes) = (from, 0u64);
    for tick in 0..head.ticks {
        let shown = (tick % 256).to_string(alloc)?;
        if lines.get(place).copied() != Some(shown.as_str()) {
            return Ok(false);
        }
        place = place.saturating_add(1);
        bytes = bytes.saturating_add(shown.len() as u64 + 1);
    }
    Ok(bytes == u64::from(head.bytes) && lines.get(place).copied() == Some(""))
}

/// Whether a line tells that the tenant was stopped at the tick at which it ended, or that it had ended there.
fn is_answered(
    alloc: Global,
    tenant: &str,
    head: Head,
    lines: &[&str],
) -> Result<bool, AllocError> {
    let word = if head.stopped { "" } else { "ended " };
    let ticks = head.ticks;
    let answer = format!(in alloc; "free stop {tenant} {word}{ticks}")?;
    Ok(lines.iter().any(|line| *line == answer.as_str()))
}

/// Whether a tenant that is to be stopped has run `examples/counter.v` for the ticks that are told of it, whichever: two cycles and three for
/// each tick, and the number of each tick, of eight bits, in a line; and whether the answer to the stop tells these ticks. True where no
/// tenant is named.
pub fn is_counted(alloc: Global, tenant: &str, answer: &str) -> Result<bool, AllocError> {
    if tenant.is_empty() {
        return Ok(true);
    }
    let lines = lines_of(alloc, answer)?;
    let Some((head, place)) = told_of(tenant, &lines) else {
        return Ok(false);
    };
    if u64::from(head.cycles) != 2 + 3 * u64::from(head.ticks) {
        return Ok(false);
    }
    Ok(are_counted(alloc, head, &lines, place)? && is_answered(alloc, tenant, head, &lines)?)
}
