//! The waves of a tick (IEEE 1364-2005, clauses 9.9 and 11).

ghost use Rattle.std.specs.Prelude.{◌≡◌, ℕ, [], OnOk, false};
ghost use Rattle.vl_eval.specs.vl_design.specs.Trees.{flat_of};
ghost use Rattle.vl_eval.specs.vl_design.specs.Sound.{IsSound};
ghost use Rattle.vl_eval.specs.vl_design.specs.Queue.{with_updates};
ghost use Rattle.vl_eval.specs.vl_design.specs.Width as w;
ghost use Rattle.vl_run.specs.Machines.{state_of, IsMachine};
ghost use Rattle.vl_runs.specs.Checked.{IsChecked, IsOrder};
ghost use Rattle.plain_run.specs.Runs.{is_of, wave_of, RunsWave, SettlesAs};

use crate::nets::pass;
use std::alloc::{AllocError, Global};
use vl_eval::design::{Design, ProcKind};
use vl_eval::files::FileSet;
use vl_eval::update::write_all;
use vl_run::machine::Machine;
use vl_run::outer::room_of;
use vl_run::process::exec_process;

/// Makes all pending updates, in order.
fn update(design: &Design, m: &mut Machine)
    requires { IsMachine (w.names_of (flat_of design.now)) m.old }
    ensures state { (c : ℕ) → with_updates (flat_of design.now).rows (state_of m.old c) ≡ state_of m.new c }
    ensures machine { IsMachine (w.names_of (flat_of design.now)) m.new }
{
    let room = room_of(design);
    write_all(&room, &mut m.values, &m.later);
    m.later.clear();
}

/// Whether a process of a kind belongs to a wave.
fn belongs(wave: ProcKind, kind: ProcKind) -> bool
    ensures { result ≡ is_of wave kind }
{
    match wave {
        ProcKind::Init => matches!(kind, ProcKind::Init),
        ProcKind::Rise => matches!(kind, ProcKind::Rise),
        ProcKind::Fall => matches!(kind, ProcKind::Fall),
        ProcKind::Comb | ProcKind::Assign => false,
    }
}

/// Runs the blocks of a wave in text order, each whole, up to a `$finish`.
fn run_wave(
    alloc: Global,
    design: &Design,
    files: &FileSet,
    wave: ProcKind,
    m: &mut Machine,
) -> Result<(), AllocError>
    requires sound { IsSound (flat_of design.now) }
    requires machine { IsMachine (w.names_of (flat_of design.now)) m.old }
    ensures machine { OnOk result (IsMachine (w.names_of (flat_of design.now)) m.new) }
    ensures ticks { OnOk result (m.new.ticks ≡ m.old.ticks) }
    ensures runs { OnOk result (RunsWave (flat_of design.now) files.now (wave_of (flat_of design.now) wave) m.old m.new) }
{
    for process in design.processes.as_slice() {
        if m.finished {
            return Ok(());
        }
        if belongs(wave, process.kind) {
            exec_process(
                alloc,
                design,
                files,
                process.path.as_slice(),
                &process.body,
                m,
            )?;
        }
    }
    Ok(())
}

/// Behind a wave: evaluates the combinational processes, makes the updates, and evaluates those processes again.
fn calm(
    alloc: Global,
    design: &Design,
    files: &FileSet,
    order: &[u32],
    m: &mut Machine,
) -> Result<(), AllocError>
    requires sound { IsSound (flat_of design.now) }
    requires checked { IsChecked (flat_of design.now) }
    requires order { IsOrder (flat_of design.now) order.now }
    requires machine { IsMachine (w.names_of (flat_of design.now)) m.old }
    requires going { m.old.finished ≡ false }
    ensures machine { OnOk result (IsMachine (w.names_of (flat_of design.now)) m.new) }
    ensures ticks { OnOk result (m.new.ticks ≡ m.old.ticks) }
    ensures settles { OnOk result (SettlesAs (flat_of design.now) files.now [] m.old m.new) }
{
    pass(alloc, design, files, order, m)?;
    update(design, m);
    pass(alloc, design, files, order, m)
}

/// Runs the blocks of a wave and, where the run goes on, what is to be done behind them.
pub(crate) fn settle(
    alloc: Global,
    design: &Design,
    files: &FileSet,
    order: &[u32],
    wave: ProcKind,
    m: &mut Machine,
) -> Result<(), AllocError>
    requires sound { IsSound (flat_of design.now) }
    requires checked { IsChecked (flat_of design.now) }
    requires order { IsOrder (flat_of design.now) order.now }
    requires machine { IsMachine (w.names_of (flat_of design.now)) m.old }
    ensures machine { OnOk result (IsMachine (w.names_of (flat_of design.now)) m.new) }
    ensures ticks { OnOk result (m.new.ticks ≡ m.old.ticks) }
    ensures settles { OnOk result (SettlesAs (flat_of design.now) files.now (wave_of (flat_of design.now) wave) m.old m.new) }
{
    run_wave(alloc, design, files, wave, m)?;
    if m.finished {
        return Ok(());
    }
    calm(alloc, design, files, order, m)
}
