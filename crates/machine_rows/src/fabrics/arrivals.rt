//! What a tenant is given when it arrives: its number, its most ticks, and its errands.

use elab_laws::plan::{Due, Errand, Plan};
use std::alloc::{AllocError, Global};
use vl_design::{Items, Text};

/// What a tenant is given.
#[derive(Drop)]
pub struct Arrival {
    /// Its number.
    pub number: u32,
    /// Its most ticks.
    pub budget: u64,
    /// Its order: behind its most ticks are three words for each errand, a tick, `move`, `save` or `stop`, and a fabric's number, a name or
    /// nothing of meaning.
    pub order: String,
}

/// A word of a line; empty where it isn't there.
pub fn word(line: &str, place: usize) -> &str {
    line.split(' ').nth(place).unwrap_or("")
}

/// The number that the digits of a word write, up to the first byte that is none.
pub fn number_of(word: &str) -> u64 {
    let mut number = 0;
    for byte in word.as_bytes() {
        if *byte < b'0' || *byte > b'9' || number > 99_999_999 {
            return number;
        }
        number = number * 10 + u64::from(*byte - b'0');
    }
    number
}

/// Likewise a tenant's or a fabric's number: 0 of one that is too large.
pub fn small_of(word: &str) -> u32 {
    u32::try_from(number_of(word)).unwrap_or(0)
}

/// What an errand of these words is.
fn due_of(alloc: Global, kind: &str, what: &str) -> Result<Due, AllocError> {
    if kind == "save" {
        return Ok(Due::Save(Text::from_vec(Vec::from_slice(alloc, what.as_bytes())?)));
    }
    if kind == "move" {
        return Ok(Due::Move(small_of(what)));
    }
    Ok(Due::Stop)
}

/// The plan of an arrival.
pub fn plan_of(alloc: Global, arrival: &Arrival) -> Result<Plan, AllocError> {
    let mut errands = Vec::new(alloc);
    let mut tick = 0;
    let mut kind = "";
    for (place, word) in arrival.order.as_str().split(' ').enumerate() {
        if place % 3 == 0 {
            tick = number_of(word);
        } else if place % 3 == 1 {
            kind = word;
        } else if place > 2 {
            let due = due_of(alloc, kind, word)?;
            errands.push(Errand { tick, due })?;
        }
    }
    Ok(Plan {
        budget: arrival.budget,
        errands: Items::from_vec(errands),
    })
}

/// The arrival of an order: its second word is the tenant's number, its third its most ticks.
pub fn arrival_of(alloc: Global, order: &str) -> Result<Arrival, AllocError> {
    Ok(Arrival {
        number: small_of(word(order, 1)),
        budget: number_of(word(order, 2)),
        order: String::from_str(alloc, order)?,
    })
}
