//! Ends of runs in words.

ghost use Rattle.fab_model.specs.ten_parcel.specs.Parcels.{IsParcel};

use fab_model::parcel::Parcel;
use std::alloc::{AllocError, Global};
use vl_design::design::End;

/// Why a run ended, in a word.
fn end_word(end: End) -> &'static str {
    match end {
        End::Finished => "finished",
        End::Budget => "budget",
        End::Stopped => "stopped",
    }
}

/// How a parcel ended, in a word.
fn ended_word(ended: Option<End>) -> &'static str {
    match ended {
        Some(end) => end_word(end),
        None => "running",
    }
}

/// The parcel of a run of at most so many ticks: why it ended, the ticks, the acts and the bytes, which come behind.
pub fn ended_text(alloc: Global, ticks: u64, parcel: &Parcel) -> Result<String, AllocError>
    requires { IsParcel parcel.now }
{
    let printed = parcel.printed();
    let word = ended_word(parcel.ended());
    let mut text = format!(in alloc;
        "run {ticks}\n{word} {} {} {}\n",
        parcel.ticks(),
        parcel.cycles(),
        printed.len()
    )?;
    for byte in printed {
        text.push(char::from(*byte))?;
    }
    Ok(text)
}
