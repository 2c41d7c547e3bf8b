//! Runs of rows.

ghost use Rattle.std.specs.Prelude.{◌≡◌, true, ℕ, List, IfOk};
ghost use Rattle.vl_design.specs.Trees.{flat_of};
ghost use Rattle.ten_build.specs.Builds.{IsImageOf};
ghost use Rattle.machine_rows.specs.Starts.{IsFit, IsOutcome, IsWithin};

use crate::splits::files::files_of;
use crate::splits::start::{Start, start_of};
use elab_laws::held::Held;
use elab_laws::plan::Plan;
use fab_model::parcel::Parcel;
use std::alloc::{AllocError, Global};
use ten_alone::alone::run_alone;
use ten_core::image::Image;
use ten_core::origin::Origin;
use vl_design::files::FileSet;

/// What came of a row's run.
#[derive(Drop)]
pub enum Outcome {
    /// The parcel at its end.
    Parcel(Box<Parcel>),
    /// The kind of a fault of the row's snapshot, and its offset.
    Bad(u8, u64),
    /// The plan is none, or the snapshot is past its ticks.
    Unfit,
}

/// What a run starts with is no later than its budget.
fn is_within(start: &Option<Held>, budget: u64) -> bool
    ensures { result ≡ true → IsWithin start.now budget }
{
    match start {
        None => true,
        Some(held) => held.tick <= budget,
    }
}

/// The run alone of an image over files, by a plan, from what it is resumed from, if it is.
fn run_from(
    alloc: Global,
    image: Box<Image>,
    files: FileSet,
    plan: Plan,
    start: Box<Option<Held>>,
) -> Result<Outcome, AllocError>
    requires image { (text : List ℕ) × IsImageOf text image.value }
    requires start { IsFit (flat_of image.value.design) files start.value }
    ensures { IfOk result IsOutcome }
{
    if !plan.is_in_order() {
        return Ok(Outcome::Unfit);
    }
    if !is_within(&start, plan.budget) {
        return Ok(Outcome::Unfit);
    }
    let origin = Origin {
        image: Box::into_inner(image),
        files,
        plan,
        start: Box::into_inner(start),
    };
    let parcel = Box::new(alloc, run_alone(alloc, 1, origin)?)?;
    Ok(Outcome::Parcel(parcel))
}

/// The run alone of an image over the files of these lines, by a plan, resumed from the snapshot of this line, if there is one.
pub fn run_row(
    alloc: Global,
    image: Box<Image>,
    plan: Plan,
    files: &str,
    start: &str,
) -> Result<Outcome, AllocError>
    requires { (text : List ℕ) × IsImageOf text image.value }
    ensures { IfOk result IsOutcome }
{
    let files = files_of(alloc, files)?;
    match start_of(alloc, &image.design, &files, start)? {
        Start::Held(start) => run_from(alloc, image, files, plan, Box::new(alloc, start)?),
        Start::Bad(kind, offset) => Ok(Outcome::Bad(kind, offset)),
    }
}
