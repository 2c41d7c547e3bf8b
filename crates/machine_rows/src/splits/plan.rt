//! Plans of rows: a line for each errand, of its tick, what it is (`save` or `stop`), and the name of a snapshot.

use crate::splits::files::name_of;
use crate::splits::judge::number_of;
use elab_laws::plan::{Due, Errand, Plan};
use std::alloc::{AllocError, Global};
use vl_design::{Items, Text};

/// What an errand of these words is.
fn due_of(alloc: Global, kind: &str, name: &str) -> Result<Due, AllocError> {
    if kind == "save" {
        Ok(Due::Save(Text::from_vec(name_of(alloc, name)?)))
    } else {
        Ok(Due::Stop)
    }
}

/// The errand of a line.
fn errand_of(alloc: Global, line: &str) -> Result<Errand, AllocError> {
    let mut words = line.split(' ');
    let tick = number_of(words.next().unwrap_or(""));
    let kind = words.next().unwrap_or("");
    let due = due_of(alloc, kind, words.next().unwrap_or(""))?;
    Ok(Errand { tick, due })
}

/// The plan of these lines, for at most so many ticks.
pub fn plan_of(alloc: Global, budget: u64, lines: &str) -> Result<Plan, AllocError> {
    let mut errands = Vec::new(alloc);
    for line in lines.lines() {
        errands.push(errand_of(alloc, line)?)?;
    }
    Ok(Plan {
        budget,
        errands: Items::from_vec(errands),
    })
}
