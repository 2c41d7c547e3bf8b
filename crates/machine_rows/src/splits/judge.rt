//! What a source is split into.

ghost use Rattle.std.specs.Prelude.{ℕ, List};
ghost use Rattle.ten_build.specs.Builds.{IsImageOf};
ghost use Rattle.machine_rows.specs.Starts.{IsOutcome};

use crate::splits::again::again_text;
use crate::splits::ended::ended_text;
use crate::splits::inside::{bank_text, cells_text};
use crate::splits::kept::kept_text;
use crate::splits::plan::plan_of;
use crate::splits::row::Row;
use crate::splits::runs::{Outcome, run_row};
use crate::splits::show::{count_text, table_text};
use crate::splits::states::states_text;
use std::alloc::{AllocError, Global};
use sub_split::split::split;
use ten_build::build::build;
use ten_core::image::Image;
use vl_design::design::Design;
use vl_front::fault::BuildError;
use vl_front::front::front;

/// The number that the digits of a word write, up to the first byte that is none.
pub fn number_of(word: &str) -> u64 {
    let mut number = 0;
    for byte in word.as_bytes() {
        if *byte < b'0' || *byte > b'9' || number > 99_999_999 {
            return number;
        }
        number = number * 10 + u64::from(*byte - b'0');
    }
    number
}

/// The number of ticks in what is wanted, behind `run `.
fn ticks_of(wanted: &str) -> u64 {
    match wanted.strip_prefix("run ") {
        Some(word) => number_of(word),
        None => 0,
    }
}

/// The number of ticks behind which the bank is wanted, behind `bank `. None where it isn't.
fn bank_ticks_of(wanted: &str) -> Option<u64> {
    match wanted.strip_prefix("bank ") {
        Some(word) => Some(number_of(word)),
        None => None,
    }
}

/// What came of a run, in words: how it ended, its ticks and acts, what it printed, and the snapshots that it keeps.
fn outcome_text(alloc: Global, ticks: u64, outcome: Outcome) -> Result<String, AllocError>
    requires { IsOutcome outcome }
{
    match outcome {
        Outcome::Parcel(parcel) => {
            let mut text = ended_text(alloc, ticks, &parcel)?;
            let kept = kept_text(alloc, Box::into_inner(parcel).into_remains(alloc))?;
            text.push_str(kept.as_str())?;
            Ok(text)
        }
        Outcome::Bad(kind, offset) => format!(in alloc; "run {ticks}\nbad {kind} {offset}\n"),
        Outcome::Unfit => format!(in alloc; "run {ticks}\nunfit\n"),
    }
}

/// The run of a row's image.
fn answer_in_acts(alloc: Global, row: &Row, image: Box<Image>) -> Result<String, AllocError>
    requires image { (text : List ℕ) × IsImageOf text image.value }
{
    let ticks = ticks_of(row.wanted.as_str());
    let plan = plan_of(alloc, ticks, row.errands.as_str())?;
    let files = row.files.as_str();
    let outcome = run_row(alloc, image, plan, files, row.start.as_str())?;
    outcome_text(alloc, ticks, outcome)
}

/// The bank of a row's image behind a run of so many ticks.
fn answer_in_bank(
    alloc: Global,
    row: &Row,
    ticks: u64,
    image: Box<Image>,
) -> Result<String, AllocError>
    requires image { (text : List ℕ) × IsImageOf text image.value }
{
    let plan = plan_of(alloc, ticks, row.errands.as_str())?;
    match run_row(alloc, image, plan, row.files.as_str(), row.start.as_str())? {
        Outcome::Parcel(parcel) => bank_text(alloc, ticks, &parcel),
        Outcome::Bad(_, _) | Outcome::Unfit => String::from_str(alloc, "unfit\n"),
    }
}

/// What is wanted of an image: its states, these with their cells, the bank of a run, or the run.
fn answer_of_image(alloc: Global, row: &Row, image: Box<Image>) -> Result<String, AllocError>
    requires image { (text : List ℕ) × IsImageOf text image.value }
{
    let wanted = row.wanted.as_str();
    if wanted.starts_with("states ") {
        return states_text(alloc, &image);
    }
    if wanted.starts_with("cells ") {
        return cells_text(alloc, &image);
    }
    match bank_ticks_of(wanted) {
        Some(ticks) => answer_in_bank(alloc, row, ticks, image),
        None => answer_in_acts(alloc, row, image),
    }
}

/// What is wanted of an image, and of a run also how often it came to the same where it was saved and resumed on its way.
fn answer_and_again(alloc: Global, row: &Row, image: Box<Image>) -> Result<String, AllocError>
    requires image { (text : List ℕ) × IsImageOf text image.value }
{
    let mut text = answer_of_image(alloc, row, image)?;
    let again = again_text(alloc, row, ticks_of(row.wanted.as_str()))?;
    text.push_str(again.as_str())?;
    Ok(text)
}

/// The answer to a source in states, or in what its run came to.
fn answer_in_states(alloc: Global, row: &Row) -> Result<String, AllocError> {
    match build(alloc, row.source.as_bytes()) {
        Ok(image) => answer_and_again(alloc, row, Box::new(alloc, image)?),
        Err(BuildError::Memory) => Err(AllocError),
        Err(_) => String::from_str(alloc, "refused\n"),
    }
}

/// The table of a design whose loops are unrolled, or its number of nodes.
fn answer_in_nodes(alloc: Global, wanted: &str, design: &Design) -> Result<String, AllocError> {
    let table = split(alloc, design)?;
    if wanted.starts_with("nodes ") {
        return count_text(alloc, &table);
    }
    table_text(alloc, design.signals.as_slice(), &table)
}

/// What is wanted is of an image.
fn is_of_image(wanted: &str) -> bool {
    wanted.starts_with("states ")
        || wanted.starts_with("run ")
        || wanted.starts_with("cells ")
        || wanted.starts_with("bank ")
}

/// The answer to a source: the table of its blocks, or what its image comes to.
fn answer(alloc: Global, row: &Row) -> Result<String, AllocError> {
    let wanted = row.wanted.as_str();
    let text = row.source.as_bytes();
    if is_of_image(wanted) {
        return answer_in_states(alloc, row);
    }
    match front(alloc, text) {
        Ok(accepted) => answer_in_nodes(alloc, wanted, &accepted.design),
        Err(BuildError::Memory) => Err(AllocError),
        Err(_) => String::from_str(alloc, "refused\n"),
    }
}

/// `ok` and the row's name where its table is the wanted one, else both.
pub fn compared(alloc: Global, row: &Row) -> Result<String, AllocError> {
    let answer = answer(alloc, row)?;
    if answer.as_str() == row.wanted.as_str() {
        return format!(in alloc; "ok {}", row.name);
    }
    format!(in alloc;
        "{}:\n{}is wanted, but this came:\n{answer}",
        row.name, row.wanted
    )
}
