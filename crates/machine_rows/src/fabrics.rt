//! Reads sources, each behind a line `= ` of a name, lines `> ` of what is wanted and lines `% ` of orders, and tells whether the orders to
//! the core of a fabric, in which tenants run these sources, come to what is wanted. A line `@` begins another source; a tenant runs the one
//! of its number, counted round. The first order is `fabric` and its capacity in register bits, cells and bits of memory. The others are
//! `arrive` and the number of a tenant, its most ticks, and its errands, three words each; `cycle` and how many; `trap`, `serve`, `hold`,
//! `rebuild`, `leave`; `take` and a number; `fits` and `show`; and `mix` with a number that chooses what comes next, until all have ended.
//! Or the first order is `desk`, a capacity, for how many tenants it is, and a word more where every seat may put: then they are `put` like
//! `arrive`, `turn` and the most cycles, `take` and `progress` with a number. Or it is `race`, the same, and how often two threads put at a desk.
//! Or it is `joined` and a number: then a joined bank has two parts, which are made by hand, and the second is given that number.

mod arrivals;
mod desks;
mod joined;
mod judge;
mod mix;
mod notes;
mod orders;
mod outcomes;
mod race;
pub mod row;
mod tenants;

use row::Row;
use std::alloc::{AllocError, Global};
use std::sync::Wait;
use std::thread::Threads;

/// What comes of a row, in lines; nothing where there is none.
pub fn shown<R: Threads + Wait + Sync>(
    rt: &R,
    alloc: Global,
    row: &Row,
) -> Result<String, AllocError> {
    if row.orders.is_empty() {
        return Ok(String::new(alloc));
    }
    let mut text = judge::compared(rt, alloc, row)?;
    text.push('\n')?;
    Ok(text)
}

/// Reads one more line. A name begins another row: then what comes of the one before is told.
pub fn read<R: Threads + Wait + Sync>(
    rt: &R,
    alloc: Global,
    row: &mut Row,
    line: &str,
) -> Result<String, AllocError> {
    let Some(name) = line.strip_prefix("= ") else {
        row.read(alloc, line)?;
        return Ok(String::new(alloc));
    };
    let text = shown(rt, alloc, &*row)?;
    *row = Row::new(alloc, name)?;
    Ok(text)
}
