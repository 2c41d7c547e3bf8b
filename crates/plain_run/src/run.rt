//! Ticks, and whole runs (IEEE 1364-2005, clause 11).

ghost use Rattle.std.specs.Prelude.{◌≡◌, ◌<◌, ◌+◌, ◌^◌, suc, [], OnOk, IfOk, false, ℕ};
ghost use Rattle.vl_eval.specs.vl_design.specs.Trees.{flat_of};
ghost use Rattle.vl_eval.specs.vl_design.specs.Sound.{IsSound};
ghost use Rattle.vl_eval.specs.vl_design.specs.Queue.{Queue, is_fall};
ghost use Rattle.vl_eval.specs.vl_design.specs.Alone.{Ends, blocks, falls as waves_of};
ghost use Rattle.vl_eval.specs.vl_design.specs.Plain.{alone};
ghost use Rattle.vl_eval.specs.vl_design.specs.Width as w;
ghost use Rattle.vl_run.specs.Machines.{state_of, IsMachine};
ghost use Rattle.vl_runs.specs.Checked.{IsChecked, IsOrder};
ghost use Rattle.plain_run.specs.Runs as r;
ghost use Rattle.plain_run.specs.Runs.{over, Completes, StandsAt};

use crate::wave::settle;
use std::alloc::{AllocError, Global};
use vl_eval::Bytes;
use vl_eval::design::{Design, End, ProcKind};
use vl_eval::files::FileSet;
use vl_run::machine::Machine;
use vl_run::process::begin_run;

/// What a run printed, and how it ended.
#[derive(Drop)]
pub struct Outcome {
    /// Why it ended.
    pub end: End,
    /// The number of ticks begun.
    pub ticks: u64,
    /// The bytes printed.
    pub printed: Bytes,
}

/// Whether a block waits for the clock's fall.
fn has_fall(design: &Design) -> bool
    ensures { result ≡ r.has_fall (flat_of design.now) }
{
    for process in design.processes.as_slice() {
        if matches!(process.kind, ProcKind::Fall) {
            return true;
        }
    }
    false
}

/// One more tick begins, in which no snapshot is asked for yet.
fn rise(m: &mut Machine)
    requires { m.old.ticks + 1 < 2 ^ 64 }
    ensures state { (c : ℕ) → state_of m.new c ≡ record (state_of m.old c) { ticks = m.old.ticks + 1; saves = [] } }
    ensures values { m.new.values ≡ m.old.values }
    ensures later { m.new.later ≡ m.old.later }
{
    m.saves.clear();
    m.ticks += 1;
}

/// Lets the clock fall, where a block waits for that and the run goes on.
fn fall(
    alloc: Global,
    design: &Design,
    files: &FileSet,
    order: &[u32],
    falls: bool,
    m: &mut Machine,
) -> Result<(), AllocError>
    requires sound { IsSound (flat_of design.now) }
    requires checked { IsChecked (flat_of design.now) }
    requires order { IsOrder (flat_of design.now) order.now }
    requires falls { falls ≡ r.has_fall (flat_of design.now) }
    requires machine { IsMachine (w.names_of (flat_of design.now)) m.old }
    ensures machine { OnOk result (IsMachine (w.names_of (flat_of design.now)) m.new) }
    ensures ticks { OnOk result (m.new.ticks ≡ m.old.ticks) }
    ensures completes { OnOk result (Completes (flat_of design.now) files.now (waves_of (blocks is_fall (flat_of design.now).procs)) m.old m.new) }
{
    if m.finished {
        return Ok(());
    }
    if falls {
        settle(alloc, design, files, order, ProcKind::Fall, m)
    } else {
        Ok(())
    }
}

/// Lets the clock rise, and then fall.
fn tick(
    alloc: Global,
    design: &Design,
    files: &FileSet,
    order: &[u32],
    falls: bool,
    m: &mut Machine,
) -> Result<(), AllocError>
    requires sound { IsSound (flat_of design.now) }
    requires checked { IsChecked (flat_of design.now) }
    requires order { IsOrder (flat_of design.now) order.now }
    requires falls { falls ≡ r.has_fall (flat_of design.now) }
    requires machine { IsMachine (w.names_of (flat_of design.now)) m.old }
    requires going { m.old.finished ≡ false }
    requires room { m.old.ticks + 1 < 2 ^ 64 }
    ensures machine { OnOk result (IsMachine (w.names_of (flat_of design.now)) m.new) }
    ensures boundary { OnOk result ((budget k : ℕ) → StandsAt (flat_of design.now) files.now budget k m.old
        → StandsAt (flat_of design.now) files.now budget (suc k) m.new) }
    ensures ticks { OnOk result (m.new.ticks ≡ m.old.ticks + 1) }
{
    rise(m);
    settle(alloc, design, files, order, ProcKind::Rise, m)?;
    fall(alloc, design, files, order, falls, m)
}

/// Runs a checked design over these files.
fn run_over(
    alloc: Global,
    design: &Design,
    files: &FileSet,
    order: &[u32],
    budget: u64,
) -> Result<Outcome, AllocError>
    requires sound { IsSound (flat_of design.now) }
    requires checked { IsChecked (flat_of design.now) }
    requires order { IsOrder (flat_of design.now) order.now }
    ensures { IfOk result (λ o. (q : Queue) × Ends (over (flat_of design.now) files.now budget) o.ticks o.end q
        × (q.state.ticks ≡ o.ticks) × (q.state.printed ≡ o.printed)) }
{
    let falls = has_fall(design);
    let mut m = begin_run(alloc, design)?;
    settle(alloc, design, files, order, ProcKind::Init, &mut m)?;
    'ticks: while !m.finished && m.ticks < budget {
        tick(alloc, design, files, order, falls, &mut m)?;
    }
    let end = if m.finished {
        End::Finished
    } else {
        End::Budget
    };
    Ok(Outcome {
        end,
        ticks: m.ticks,
        printed: Bytes::from_vec(m.printed),
    })
}

/// Runs a design alone, from time zero and without files, for at most a budget of ticks: its initial blocks, its blocks that
/// wait for the clock's rise or fall, and its combinational processes (IEEE 1364-2005, clauses 6.1, 9.7.5, 9.9 and 11). `order`
/// is an order of its processes by levels: a combinational one stands behind those that drive what it reads. An `Err` is want
/// of memory alone.
pub fn run(
    alloc: Global,
    design: &Design,
    order: &[u32],
    budget: u64,
) -> Result<Outcome, AllocError>
    requires sound { IsSound (flat_of design.now) }
    requires checked { IsChecked (flat_of design.now) }
    requires order { IsOrder (flat_of design.now) order.now }
    ensures { IfOk result (λ o. (q : Queue) × Ends (alone (flat_of design.now) budget) o.ticks o.end q
        × (q.state.ticks ≡ o.ticks) × (q.state.printed ≡ o.printed)) }
{
    let files = FileSet::new(alloc);
    run_over(alloc, design, &files, order, budget)
}
