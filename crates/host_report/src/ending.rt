//! How the run of a tenant has ended.

ghost use Rattle.std.specs.Prelude.{◌≡◌};
ghost use Rattle.host_files.specs.host_form.specs.Reports.{status_of};
ghost use Rattle.host_report.specs.Endings.{IsEndingOf};
ghost use Rattle.host_report.specs.Telling.{IsTellable};

use fab_model::transit::{Stay, Transit};
use host_files::block::Status;
use host_files::kept::Kept;
use std::alloc::Global;
use ten_files::design::End;

/// How a run has ended.
#[derive(Drop)]
pub(crate) struct Ending {
    /// Why it ended.
    pub(crate) status: Status,
    /// The ticks begun.
    pub(crate) ticks: u64,
    /// The cycles of the run.
    pub(crate) cycles: u64,
    /// The bytes printed.
    pub(crate) printed: Vec<u8>,
    /// Its stays, as they ended.
    pub(crate) stays: Vec<Stay>,
    /// The snapshots that it keeps.
    pub(crate) kept: Kept,
}

/// The word of a report for an end.
fn status_of(end: End) -> Status
    ensures { result ≡ status_of end }
{
    match end {
        End::Finished => Status::Finished,
        End::Budget => Status::Budget,
        End::Stopped => Status::Stopped,
    }
}

/// How the run of a tenant has ended.
pub(crate) fn ending_of(alloc: Global, transit: Transit) -> Ending
    requires { IsTellable transit }
    ensures { IsEndingOf transit result }
{
    let Transit { parcel, stays, .. } = transit;
    let end = match parcel.ended() {
        Some(end) => end,
        None => unreachable!(),
    };
    let ticks = parcel.ticks();
    let cycles = parcel.cycles();
    let remains = parcel.into_remains(alloc);
    Ending {
        status: status_of(end),
        ticks,
        cycles,
        printed: remains.printed,
        stays,
        kept: Kept {
            origin: remains.origin,
            saved: remains.saved,
        },
    }
}
