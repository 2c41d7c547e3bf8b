//! Beginning the runs of tenants.

ghost use Rattle.std.specs.Prelude.{◌≡◌, ◌≤◌, length, All, IfOk};
ghost use Rattle.fab_rounds.specs.ten_shell.specs.Shells.{CanRunOn};
ghost use Rattle.fab_rounds.specs.fab_orders.specs.Starts.{AreLabels, AreStarts};
ghost use Rattle.host_judge.specs.Judged.{AreReady};
ghost use Rattle.host_run.specs.Rooms.{HaveRoom};
ghost use Rattle.host_outcomes.specs.Begun.{AreBegun};
ghost use Rattle.host_run.specs.Made.{AreLabelsOf, AreLoadedOn};

use crate::begun::Begun;
use crate::labels::labels_of;
use crate::parts::{Parts, parts_of};
use crate::starts::starts_of;
use host_judge::verdict::Ready;
use host_text::script::FabricLine;
use std::alloc::{AllocError, Global};

/// Begins the runs of tenants that are taken apart, and names the fabrics' labels. An `Err` is want of memory alone.
fn begin_parts(alloc: Global, fabrics: &[FabricLine], parts: Parts) -> Result<Begun, AllocError>
    requires can { All CanRunOn parts.origins.items }
    requires few { length parts.origins.items ≤ 64 }
    requires beside { length parts.fabrics.items ≡ length parts.origins.items }
    requires some { length fabrics.now ≤ 8 }
    ensures labels { IfOk result (λ b. AreLabelsOf parts.origins.items b.labels.items) }
    ensures starts { IfOk result (λ b. AreLoadedOn 0 parts.fabrics.items parts.origins.items b.starts.items) }
    ensures room { IfOk result (λ b. HaveRoom fabrics.now b.labels.items) }
{
    let labels = labels_of(alloc, fabrics, &parts.origins)?;
    match starts_of(alloc, parts.origins, parts.fabrics.as_slice()) {
        Err(error) => Err(error),
        Ok(starts) => Ok(Begun { labels, starts }),
    }
}

/// Begins the runs of tenants, each at its first boundary on its fabric, and names the fabrics' labels. An `Err` is want of memory alone.
pub(crate) fn begin_all(
    alloc: Global,
    fabrics: &[FabricLine],
    readies: Vec<Ready>,
) -> Result<Begun, AllocError>
    requires ready { AreReady fabrics.now readies.items }
    requires few { length readies.items ≤ 64 }
    requires some { length fabrics.now ≤ 8 }
    ensures labels { IfOk result (λ b. AreLabels b.starts.items b.labels.items) }
    ensures starts { IfOk result (λ b. AreStarts b.labels.items b.starts.items) }
    ensures begun { IfOk result (λ b. AreBegun readies.items b.starts.items) }
    ensures room { IfOk result (λ b. HaveRoom fabrics.now b.labels.items) }
{
    let parts = parts_of(alloc, readies)?;
    begin_parts(alloc, fabrics, parts)
}
