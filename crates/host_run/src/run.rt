//! Running the tenants of a script.

ghost use Rattle.std.specs.Prelude.{◌≡◌, ℕ, List, filter, length, map, not, Ok, IfOk};
ghost use Rattle.std.specs.List.{AllByRecursion};
ghost use Rattle.host_form.specs.fab_io.specs.Outside.{Files};
ghost use Rattle.host_text.specs.Laws.{IsSpelt, IsWithinLimits};
ghost use Rattle.host_text.specs.Reading.{reading};
ghost use Rattle.fab_rounds.specs.fab_orders.specs.Orders.{AreOrders};
ghost use Rattle.fab_rounds.specs.fab_orders.specs.Outcomes.{IsOutcome};
ghost use Rattle.fab_rounds.specs.fab_orders.specs.Starts.{AreLabels, AreStarts};
ghost use Rattle.host_files.specs.Reading.{AreLoaded};
ghost use Rattle.host_report.specs.Ends.{is_refused};
ghost use Rattle.host_report.specs.Telling.{AreTellable};
ghost use Rattle.host_files.specs.Kept.{CanBeKept};
ghost use Rattle.host_run.specs.Reported.{AreBays, IsReported};
ghost use Rattle.host_run.specs.Steps.{orders_for, AreAnswersTo, Says};

use crate::prepared::{Prepared, judged_and_begun};
use crate::reported::Reported;
use crate::said::{Said, said_of};
use elab_laws::save_names_laws::kept_snapshots_are_named;
use fab_rounds::outcomes::Outcome;
use fab_rounds::rounds;
use host_files::loaded::Loaded;
use host_form::gate::Gate;
use host_form::laws::free_saves_may_be_made_in_any_order;
use host_form::refusal::Refusal;
use host_judge::laws::tenants_are_read;
use host_outcomes::laws::{
    all_tenants_are_reported, answers_do_as_orders, given_orders_may_be_given, orders_are_seen,
    replies_may_be_given, tenants_end_at_their_costs,
};
use host_outcomes::replies::orders_of;
use host_text::script::Script;
use host_text::text_laws::{a_script_keeps_to_its_limits, words_of_a_script_are_spelt};
use std::alloc::{AllocError, Global};
use std::sync::Wait;
use std::thread::Threads;

/// The tenants of a script, run.
#[derive(Drop)]
struct Ran {
    /// Of each tenant why it is refused, if it is.
    refusals: Vec<Option<Refusal>>,
    /// What became of those that ran.
    outcome: Outcome,
}

/// Runs tenants that were judged and whose runs were begun, while a script's free orders are done.
fn run_prepared<R: Threads + Wait + Sync, G: Gate + Sync>(
    rt: &R,
    alloc: Global,
    gate: &G,
    script: &Script,
    prepared: Prepared,
) -> Result<Ran, AllocError>
    requires limits { IsWithinLimits script.now }
    requires spelt { IsSpelt script.now }
    requires count { length prepared.refusals.items ≡ length script.now.tenants }
    requires running { length prepared.starts.items ≡ length (filter (λ r. not r) (map is_refused prepared.refusals.items)) }
    requires labels { AreLabels prepared.starts.items prepared.labels.items }
    requires starts { AreStarts prepared.labels.items prepared.starts.items }
    requires orders { AreOrders prepared.labels.items prepared.starts.items (orders_for script.now prepared.refusals.items prepared.starts.items) }
    ensures refusals { IfOk result (λ r. r.refusals.items ≡ prepared.refusals.items) }
    ensures outcome { IfOk result (λ r. IsOutcome prepared.labels.items prepared.starts.items (orders_for script.now prepared.refusals.items prepared.starts.items) r.outcome) }
{
    let orders = orders_of(alloc, script, &prepared.refusals, &prepared.starts)?;
    let Prepared {
        refusals,
        labels,
        starts,
    } = prepared;
    let outcome = rounds::run(rt, alloc, gate, labels, starts, orders)?;
    Ok(Ran { refusals, outcome })
}

/// Reports tenants that were run.
fn report_on(alloc: Global, script: &Script, ran: Ran) -> Result<Reported, AllocError>
    requires limits { IsWithinLimits script.now }
    requires spelt { IsSpelt script.now }
    requires count { length ran.refusals.items ≡ length script.now.tenants }
    requires each { AreTellable ran.refusals.items ran.outcome.ended.items }
    requires answers { AreAnswersTo script.now ran.refusals.items ran.outcome.ended.items ran.outcome.answers.items }
    ensures says { IfOk result (λ r. Says script.now ran.refusals.items ran.outcome.ended.items ran.outcome.answers.items r.refused r.blocks.items r.text.items r.kept.items) }
    ensures bays { IfOk result (λ r. r.bays.items ≡ ran.outcome.bays.items) }
{
    let Ran { refusals, outcome } = ran;
    let Outcome {
        ended,
        bays,
        answers,
    } = outcome;
    let Said {
        refused,
        blocks,
        text,
        kept,
    } = said_of(alloc, script, refusals, ended, &answers)?;
    Ok(Reported {
        refused,
        blocks,
        text,
        kept,
        bays,
    })
}

/// Runs the tenants of a script that were read, until each has ended, while its free orders are done, and reports. An `Err` is want of memory alone. It may wait.
pub fn run_script<R: Threads + Wait + Sync, G: Gate + Sync>(
    rt: &R,
    alloc: Global,
    gate: &G,
    script: &Script,
    loaded: Vec<Loaded>,
) -> Result<Reported, AllocError>
    requires read { (bytes : List ℕ) × (reading bytes ≡ Ok script.now) }
    requires count { length loaded.items ≡ length script.now.tenants }
    ensures report { IfOk result (λ r. (files : Files) → AreLoaded files script.now.tenants loaded.items → IsReported files script.now r) }
    ensures bays { IfOk result (λ r. AreBays script.now r.bays.items) }
    ensures kept { IfOk result (λ r. AllByRecursion CanBeKept r.kept.items) }
    ensures count { IfOk result (λ r. length r.kept.items ≡ length script.now.tenants) }
{
    a_script_keeps_to_its_limits();
    words_of_a_script_are_spelt();
    kept_snapshots_are_named();
    free_saves_may_be_made_in_any_order();
    tenants_are_read();
    given_orders_may_be_given();
    tenants_end_at_their_costs();
    answers_do_as_orders();
    replies_may_be_given();
    orders_are_seen();
    all_tenants_are_reported();
    let prepared = judged_and_begun(alloc, script, loaded)?;
    let ran = run_prepared(rt, alloc, gate, script, prepared)?;
    report_on(alloc, script, ran)
}
