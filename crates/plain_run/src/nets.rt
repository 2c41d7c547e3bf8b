//! Combinational processes (IEEE 1364-2005, clauses 6.1 and 9.7.5).

ghost use Rattle.std.specs.Prelude.{◌≡◌, ◌<◌, [], ◌∷◌, length, OnOk};
ghost use Rattle.vl_eval.specs.vl_design.specs.Queue as q;
ghost use Rattle.vl_eval.specs.vl_design.specs.Sound.{IsSound};
ghost use Rattle.vl_eval.specs.vl_design.specs.Trees.{flat_of};
ghost use Rattle.vl_eval.specs.vl_design.specs.Width as w;
ghost use Rattle.vl_run.specs.Machines.{IsMachine};
ghost use Rattle.vl_runs.specs.Nets.{AllBelow};
ghost use Rattle.vl_runs.specs.Checked.{IsChecked};
ghost use Rattle.plain_run.specs.Runs.{Passes};

use std::alloc::{AllocError, Global};
use vl_eval::design::{Design, ProcKind};
use vl_eval::files::FileSet;
use vl_run::machine::Machine;
use vl_run::process::exec_process;

/// Whether processes of a kind are combinational.
fn is_comb(kind: ProcKind) -> bool
    ensures { result ≡ q.is_comb kind }
{
    matches!(kind, ProcKind::Comb | ProcKind::Assign)
}

/// Evaluates the process of a number, if it is combinational.
fn evaluate(
    alloc: Global,
    design: &Design,
    files: &FileSet,
    number: u32,
    m: &mut Machine,
) -> Result<(), AllocError>
    requires sound { IsSound (flat_of design.now) }
    requires checked { IsChecked (flat_of design.now) }
    requires there { number < length (flat_of design.now).procs }
    requires machine { IsMachine (w.names_of (flat_of design.now)) m.old }
    ensures machine { OnOk result (IsMachine (w.names_of (flat_of design.now)) m.new) }
    ensures passes { OnOk result (Passes (flat_of design.now) files.now (number ∷ []) m.old m.new) }
{
    let process = &design.processes.as_slice()[number as usize];
    if !is_comb(process.kind) {
        return Ok(());
    }
    exec_process(
        alloc,
        design,
        files,
        process.path.as_slice(),
        &process.body,
        m,
    )
}

/// Evaluates the combinational processes of a list of numbers, one after another.
pub(crate) fn pass(
    alloc: Global,
    design: &Design,
    files: &FileSet,
    order: &[u32],
    m: &mut Machine,
) -> Result<(), AllocError>
    requires sound { IsSound (flat_of design.now) }
    requires checked { IsChecked (flat_of design.now) }
    requires there { AllBelow (length (flat_of design.now).procs) order.now }
    requires machine { IsMachine (w.names_of (flat_of design.now)) m.old }
    ensures machine { OnOk result (IsMachine (w.names_of (flat_of design.now)) m.new) }
    ensures passes { OnOk result (Passes (flat_of design.now) files.now order.now m.old m.new) }
{
    for number in order {
        evaluate(alloc, design, files, *number, m)?;
    }
    Ok(())
}
