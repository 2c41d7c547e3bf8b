//! The tenants of a script before they run.

ghost use Rattle.std.specs.Prelude.{◌≡◌, ◌≤◌, length, IfOk};
ghost use Rattle.host_text.specs.Laws.{IsSpelt, IsWithinLimits};
ghost use Rattle.fab_rounds.specs.fab_orders.specs.Starts.{AreLabels, AreStarts};
ghost use Rattle.host_judge.specs.Judged.{AreReady};
ghost use Rattle.host_run.specs.Rooms.{HaveRoom};
ghost use Rattle.host_outcomes.specs.Begun.{AreBegun};
ghost use Rattle.host_run.specs.Steps.{Begin};

use crate::begin::begin_all;
use crate::begun::Begun;
use fab_rounds::noted::Label;
use fab_rounds::outcomes::Start;
use host_files::loaded::Loaded;
use host_form::refusal::Refusal;
use host_judge::judge::judge_all;
use host_judge::laws::those_that_run_are_ready;
use host_judge::verdict::Judged;
use host_text::script::Script;
use std::alloc::{AllocError, Global};

/// The tenants of a script, judged, and the runs begun of those that run.
#[derive(Drop)]
pub(crate) struct Prepared {
    /// Of each tenant why it is refused, if it is.
    pub(crate) refusals: Vec<Option<Refusal>>,
    /// The labels of the fabrics, in their order.
    pub(crate) labels: Vec<Label>,
    /// Those that run, in their order.
    pub(crate) starts: Vec<Start>,
}

/// Begins the runs of judged tenants.
fn begin_runs(alloc: Global, script: &Script, judged: Judged) -> Result<Prepared, AllocError>
    requires ready { AreReady script.now.fabrics judged.readies.items }
    requires few { length judged.readies.items ≤ 64 }
    requires some { length script.now.fabrics ≤ 8 }
    ensures refusals { IfOk result (λ p. p.refusals.items ≡ judged.refusals.items) }
    ensures labels { IfOk result (λ p. AreLabels p.starts.items p.labels.items) }
    ensures starts { IfOk result (λ p. AreStarts p.labels.items p.starts.items) }
    ensures begun { IfOk result (λ p. AreBegun judged.readies.items p.starts.items) }
    ensures room { IfOk result (λ p. HaveRoom script.now.fabrics p.labels.items) }
{
    let Judged { refusals, readies } = judged;
    let Begun { labels, starts } = begin_all(alloc, script.fabrics.as_slice(), readies)?;
    Ok(Prepared {
        refusals,
        labels,
        starts,
    })
}

/// Judges the tenants of a script, and begins the runs of those that run.
pub(crate) fn judged_and_begun(
    alloc: Global,
    script: &Script,
    loaded: Vec<Loaded>,
) -> Result<Prepared, AllocError>
    requires limits { IsWithinLimits script.now }
    requires spelt { IsSpelt script.now }
    requires count { length loaded.items ≡ length script.now.tenants }
    ensures { IfOk result (λ p. Begin script.now loaded.items p.refusals.items p.labels.items p.starts.items) }
{
    those_that_run_are_ready();
    let judged = judge_all(alloc, script, loaded)?;
    begin_runs(alloc, script, judged)
}
