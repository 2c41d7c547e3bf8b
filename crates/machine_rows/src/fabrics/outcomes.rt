//! What comes of orders, in words.

ghost use Rattle.fab_model.specs.ten_parcel.specs.Parcels.{IsParcel};

use fab_core::cores::CoreError;
use fab_core::shell::Why;
use fab_model::parcel::Parcel;
use std::alloc::{AllocError, Global};
use vl_design::capacity::Cost;
use vl_design::design::End;

/// Why a run ended, in a word.
fn end_word(end: End) -> &'static str {
    match end {
        End::Finished => "finished",
        End::Budget => "budget",
        End::Stopped => "stopped",
    }
}

/// How a parcel ended, in a word.
fn ended_word(ended: Option<End>) -> &'static str {
    match ended {
        Some(end) => end_word(end),
        None => "running",
    }
}

/// What is told of a tenant at rest: its number, whether it ended and why, its ticks, its acts, and how many bytes it has printed.
#[derive(Clone, Copy)]
pub struct Told {
    number: u32,
    ended: Option<End>,
    ticks: u64,
    cycles: u64,
    printed: usize,
}

/// What is told of this tenant.
pub fn told_of(parcel: &Parcel) -> Told
    requires { IsParcel parcel.now }
{
    Told {
        number: parcel.number(),
        ended: parcel.ended(),
        ticks: parcel.ticks(),
        cycles: parcel.cycles(),
        printed: parcel.printed().len(),
    }
}

/// A tenant at rest, as it is told.
pub fn told_text(alloc: Global, told: Told) -> Result<String, AllocError> {
    let word = ended_word(told.ended);
    format!(in alloc;
        "tenant {} {word} {} {} {}\n",
        told.number, told.ticks, told.cycles, told.printed
    )
}

/// Why a tenant leaves.
pub fn why_text(alloc: Global, why: Why) -> Result<String, AllocError> {
    match why {
        Why::Ended(end) => {
            let word = end_word(end);
            format!(in alloc; "leaves by {word}\n")
        }
        Why::Move(fabric) => format!(in alloc; "leaves for {fabric}\n"),
    }
}

/// What is taken of a fabric, or what it has.
fn cost_text(alloc: Global, cost: Cost) -> Result<String, AllocError> {
    format!(in alloc; "{} {} {}", cost.regs, cost.cells, cost.mem)
}

/// A tenant takes more than a fabric has.
pub fn too_large_text(alloc: Global, cost: Cost, capacity: Cost) -> Result<String, AllocError> {
    let takes = cost_text(alloc, cost)?;
    let has = cost_text(alloc, capacity)?;
    format!(in alloc; "too large: {takes} of {has}\n")
}

/// Why a tenant couldn't arrive.
pub fn refused_text(alloc: Global, why: CoreError) -> Result<String, AllocError> {
    match why {
        CoreError::TooLarge(cost, capacity) => too_large_text(alloc, cost, capacity),
        CoreError::Doubled(number) => format!(in alloc; "doubled {number}\n"),
        CoreError::Memory => Err(AllocError),
    }
}

/// A tenant leaves; what comes of it behind that.
pub fn left_text(alloc: Global, why: Why, told: Told, more: &str) -> Result<String, AllocError> {
    let mut text = why_text(alloc, why)?;
    text.push_str(told_text(alloc, told)?.as_str())?;
    text.push_str(more)?;
    Ok(text)
}
