//! What a report says of one tenant.

ghost use Rattle.std.specs.Prelude.{◌≡◌, IfOk, map};
ghost use Rattle.std.specs.Vec.Iter.{into_iter_items};
ghost use Rattle.host_files.specs.host_form.specs.Orders.{fabric_name};
ghost use Rattle.host_files.specs.host_form.specs.Reports.{stay_of};
ghost use Rattle.host_report.specs.Told.{visit_of};
ghost use Rattle.host_report.specs.Endings.{IsEndingOf, IsNextTellable, IsSaid, IsSaidOf, IsSaidRefused};

use crate::ending::{Ending, ending_of};
use crate::order::in_order;
use fab_model::transit::{Stay, Transit};
use host_files::block::{Block, RefusedLine, RunBlock, Stay as StayLine};
use host_files::kept::Kept;
use host_files::refusal::Refusal;
use host_files::script::Script;
use std::alloc::{AllocError, Global};
use std::vec::IntoIter;
use ten_files::name::copy_text;
use ten_files::{Items, Text};

/// What is said of a tenant, and the snapshots that it keeps, if it ran.
#[derive(Drop)]
pub(crate) struct Said {
    /// What a report says of it.
    pub(crate) block: Block,
    /// The snapshots that it keeps.
    pub(crate) kept: Option<Kept>,
}

/// The name of the fabric of a number; no text where there is none.
fn name_of(alloc: Global, script: &Script, fabric: u32) -> Result<Text, AllocError>
    ensures { IfOk result (λ name. name ≡ fabric_name script.now fabric) }
{
    match script.fabrics.as_slice().get(fabric as usize) {
        Some(line) => copy_text(alloc, &line.name),
        None => Ok(Items::new(alloc)),
    }
}

/// A stay, as a report lists it.
fn stay_line(alloc: Global, script: &Script, stay: Stay) -> Result<StayLine, AllocError>
    ensures { IfOk result (λ line. line ≡ stay_of script.now (visit_of stay)) }
{
    let fabric = name_of(alloc, script, stay.fabric)?;
    Ok(StayLine {
        fabric,
        from: stay.from,
        to: stay.to,
    })
}

/// Stays, as a report lists them.
fn stay_lines(alloc: Global, script: &Script, stays: &[Stay]) -> Result<Vec<StayLine>, AllocError>
    ensures { IfOk result (λ lines. lines.items ≡ map (stay_of script.now) (map visit_of stays.now)) }
{
    let mut lines = Vec::new(alloc);
    for stay in stays {
        lines.push(stay_line(alloc, script, *stay)?)?;
    }
    Ok(lines)
}

/// What is said of a tenant of this name whose run has ended so.
fn said_of(alloc: Global, script: &Script, name: &Text, ending: Ending) -> Result<Said, AllocError>
    ensures { IfOk result (λ said. (e : Transit) → IsEndingOf e ending → IsSaidOf script.now name.now e said) }
{
    let name = copy_text(alloc, name)?;
    let ordered = in_order(alloc, ending.stays.as_slice())?;
    let stays = stay_lines(alloc, script, ordered.as_slice())?;
    Ok(Said {
        block: Block::Ran(RunBlock {
            name,
            status: ending.status,
            ticks: ending.ticks,
            cycles: ending.cycles,
            printed: Items::from_vec(ending.printed),
            stays: Items::from_vec(stays),
        }),
        kept: Some(ending.kept),
    })
}

/// What is said of a tenant of this name that is refused.
fn refused(alloc: Global, name: &Text, refusal: Refusal) -> Result<Said, AllocError>
    ensures { IfOk result (λ said. (s : Script) → IsSaidRefused s name.now refusal said) }
{
    let name = copy_text(alloc, name)?;
    Ok(Said {
        block: Block::Refused(RefusedLine {
            name,
            place: refusal.place,
            kind: refusal.kind,
        }),
        kept: None,
    })
}

/// What is said of the next tenant, which has this name: one that isn't refused is the next of those that have ended.
pub(crate) fn say(
    alloc: Global,
    script: &Script,
    name: &Text,
    refusal: Option<Refusal>,
    ended: &mut IntoIter<Transit, Global>,
) -> Result<Said, AllocError>
    requires { IsNextTellable refusal (into_iter_items ended.old) }
    ensures { IfOk result (IsSaid script.now name.now refusal (into_iter_items ended.old) (into_iter_items ended.new)) }
{
    match refusal {
        Some(refusal) => refused(alloc, name, refusal),
        None => match ended.next() {
            Some(transit) => said_of(alloc, script, name, ending_of(alloc, transit)),
            None => unreachable!(),
        },
    }
}
