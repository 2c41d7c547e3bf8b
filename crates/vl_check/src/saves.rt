//! The first call of `$save` that gives a 17th name.

ghost use Rattle.std.specs.Prelude.{◌≡◌, ◌&&◌, not, nat_lt, length, [], map, None, IfOk, OnOk, List};
ghost use Rattle.vl_design.specs.Seen.{placed};
ghost use Rattle.vl_design.specs.Stops.{earliest};
ghost use Rattle.vl_check.specs.Saves as x;
ghost use Rattle.vl_check.specs.SeenOfSaves.{save_of, Tells};

use crate::calls::{Save, all_sites, saves};
use std::alloc::{AllocError, Global};
use vl_design::design::Design;
use vl_design::stop::Stop;
use vl_design::stops::limit_if;

/// One of the calls gives this call's name.
fn is_given(calls: &[Save<'_>], call: &Save<'_>) -> bool
    ensures { result ≡ x.is_given (map save_of calls.now) (save_of call.now) }
{
    for c in calls {
        if c.name == call.name {
            return true;
        }
    }
    false
}

/// The call gives another name than the others, and they aren't 17.
fn is_new(ones: &[Save<'_>], call: &Save<'_>) -> bool
    ensures { result ≡ (nat_lt (length ones.now) 17 && not (x.is_given (map save_of ones.now) (save_of call.now))) }
{
    ones.len() < 17 && !is_given(ones, call)
}

/// Adds a call, if it gives another name than the others, and they aren't 17.
fn add_new<'a>(ones: &mut Vec<Save<'a>>, call: &Save<'a>) -> Result<(), AllocError>
    ensures { OnOk result ((all : List x.Save) → Tells (map save_of ones.old.items) all → Tells (map save_of ones.new.items) (x.with_new all (save_of call.now))) }
{
    if is_new(ones.as_slice(), call) {
        ones.push(*call)?;
    }
    Ok(())
}

/// The call gives another name than the others, of which there are 16.
fn is_past(ones: &[Save<'_>], call: &Save<'_>) -> bool
    ensures { result ≡ x.is_past (map save_of ones.now) (save_of call.now) }
{
    ones.len() == 16 && !is_given(ones, call)
}

/// The first call that gives a 17th name.
fn calls_fault(alloc: Global, calls: &[Save<'_>]) -> Result<Option<Stop>, AllocError>
    ensures { IfOk result (λ r. r ≡ earliest None (x.save_faults [] (map save_of calls.now))) }
{
    let mut ones = Vec::new(alloc);
    let mut best = None;
    for call in calls {
        best = limit_if(best, is_past(ones.as_slice(), call), call.place, 10);
        add_new(&mut ones, call)?;
    }
    Ok(best)
}

/// The fault of limit 10 in a design: the call of `$save`, in the order of its processes, that gives a 17th different name.
/// None where there is none.
pub fn saves_fault(alloc: Global, design: &Design) -> Result<Option<Stop>, AllocError>
    ensures { IfOk result (λ r. r ≡ earliest None (x.saves_faults (placed design.now))) }
{
    let all = all_sites(alloc, design.processes.as_slice())?;
    let calls = saves(alloc, all.as_slice())?;
    calls_fault(alloc, calls.as_slice())
}
