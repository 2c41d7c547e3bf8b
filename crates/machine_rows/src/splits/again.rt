//! Runs of rows that are saved and resumed on their way.

ghost use Rattle.std.specs.Prelude.{IfOk, IfSome};
ghost use Rattle.machine_rows.specs.Starts.{CanBeTold};

use crate::splits::kept::last_kept;
use crate::splits::plan::plan_of;
use crate::splits::row::Row;
use crate::splits::runs::{Outcome, run_row};
use fab_model::parcel::Parcel;
use std::alloc::{AllocError, Global};
use ten_build::build::build;

/// The parcel at the end of a row's run by the errands of these lines, from the snapshot of this line. None where there is none.
fn run_by(
    alloc: Global,
    row: &Row,
    ticks: u64,
    errands: &str,
    start: &str,
) -> Result<Option<Box<Parcel>>, AllocError>
    ensures { IfOk result (λ o. IfSome o (λ b. CanBeTold b.value)) }
{
    let Ok(image) = build(alloc, row.source.as_bytes()) else {
        return Ok(None);
    };
    let image = Box::new(alloc, image)?;
    let plan = plan_of(alloc, ticks, errands)?;
    match run_row(alloc, image, plan, row.files.as_str(), start)? {
        Outcome::Parcel(parcel) => Ok(Some(parcel)),
        _ => Ok(None),
    }
}

/// What a run told.
#[derive(Drop)]
struct Told {
    /// The bytes printed.
    printed: Vec<u8>,
    /// The acts done.
    acts: u64,
    /// The bytes of the last snapshot that it keeps, in digits.
    kept: Option<String>,
}

/// What a parcel tells.
fn told_of(alloc: Global, parcel: Box<Parcel>) -> Result<Told, AllocError>
    requires { CanBeTold parcel.value }
{
    let printed = Vec::from_slice(alloc, parcel.printed())?;
    let acts = parcel.cycles();
    let kept = last_kept(alloc, Box::into_inner(parcel).into_remains(alloc))?;
    Ok(Told {
        printed,
        acts,
        kept,
    })
}

/// What a row's run tells.
fn told_by(
    alloc: Global,
    row: &Row,
    ticks: u64,
    errands: &str,
    start: &str,
) -> Result<Option<Told>, AllocError> {
    match run_by(alloc, row, ticks, errands, start)? {
        None => Ok(None),
        Some(parcel) => Ok(Some(told_of(alloc, parcel)?)),
    }
}

/// The whole run tells what the first part and the rest tell together.
fn is_both(whole: &Told, first: &Told, rest: &Told) -> bool {
    let (front, back) = whole
        .printed
        .as_slice()
        .split_at(first.printed.len().min(whole.printed.len()));
    front == first.printed.as_slice()
        && back == rest.printed.as_slice()
        && whole.acts == first.acts.saturating_add(rest.acts)
}

/// What comes of a run that is saved at a tick and resumed there.
enum Again {
    /// No snapshot can be made there.
    Ended,
    /// Both parts together tell what the whole run tells.
    Same,
    /// They don't.
    Otherwise,
}

/// What comes of a row's run that is saved at a tick and resumed there.
fn again_at(
    alloc: Global,
    row: &Row,
    whole: &Told,
    ticks: u64,
    tick: u64,
) -> Result<Again, AllocError> {
    let errand = format!(in alloc; "{tick} save x\n")?;
    let Some(first) = told_by(alloc, row, tick, errand.as_str(), "")? else {
        return Ok(Again::Otherwise);
    };
    let Some(kept) = &first.kept else {
        return Ok(Again::Ended);
    };
    match told_by(alloc, row, ticks, "", kept.as_str())? {
        Some(rest) if is_both(whole, &first, &rest) => Ok(Again::Same),
        _ => Ok(Again::Otherwise),
    }
}

/// The ticks that are tried: the first ten, the middle one, and the last one.
fn tick_at(place: u64, ticks: u64) -> u64 {
    if place == 10 {
        ticks / 2
    } else if place == 11 {
        ticks.saturating_sub(1)
    } else {
        place
    }
}

/// Whether the tick at a place is tried, and wasn't before.
fn is_tried(place: u64, ticks: u64) -> bool {
    let tick = tick_at(place, ticks);
    tick < ticks && (place < 10 || tick >= 10)
}

/// Whether a row's run that is saved at a tick and resumed there comes to the same, where it can be saved; it is counted then.
fn goes_on(
    alloc: Global,
    row: &Row,
    whole: &Told,
    ticks: u64,
    tick: u64,
    times: &mut u64,
) -> Result<bool, AllocError> {
    match again_at(alloc, row, whole, ticks, tick)? {
        Again::Ended => Ok(true),
        Again::Same => {
            *times = times.saturating_add(1);
            Ok(true)
        }
        Again::Otherwise => Ok(false),
    }
}

/// How often a run comes to the same, or the first tick at which it doesn't.
fn again_of(alloc: Global, row: &Row, whole: &Told, ticks: u64) -> Result<String, AllocError> {
    let mut times = 0_u64;
    for place in 0..12 {
        let tick = tick_at(place, ticks);
        if is_tried(place, ticks) && !goes_on(alloc, row, whole, ticks, tick, &mut times)? {
            return format!(in alloc; "resumed at {tick} it goes on otherwise\n");
        }
    }
    format!(in alloc; "resumed {times}\n")
}

/// A row whose run is saved and resumed on its way: it has no errands and no snapshot.
fn is_free(row: &Row) -> bool {
    row.errands.is_empty() && row.start.is_empty() && row.wanted.as_str().starts_with("run ")
}

/// How often the run of a row was saved and resumed, at the first ten ticks, the middle one and the last one, or the first tick at which
/// that came to something else. Empty for rows with errands or with a snapshot, and for rows without a run.
pub fn again_text(alloc: Global, row: &Row, ticks: u64) -> Result<String, AllocError> {
    if !is_free(row) {
        return Ok(String::new(alloc));
    }
    match told_by(alloc, row, ticks, "", "")? {
        None => Ok(String::new(alloc)),
        Some(whole) => again_of(alloc, row, &whole, ticks),
    }
}
