//! Time zero of a run (IEEE 1364-2005, clauses 9.9.1 and 11.3).

ghost use Rattle.std.specs.Prelude.{◌≡◌, IfOk, OnOk};
ghost use Rattle.vl_design.specs.Laws.{IsUnrolled};
ghost use Rattle.vl_design.specs.Queue.{is_init};
ghost use Rattle.vl_design.specs.Sound.{IsSound};
ghost use Rattle.vl_design.specs.Trees.{flat_of};
ghost use Rattle.vl_design.specs.Width.{names_of};
ghost use Rattle.vl_run.specs.Machines.{IsMachine};
ghost use Rattle.sub_runs.specs.vl_runs.specs.Checked.{IsChecked, IsOrder};
ghost use Rattle.ten_zero.specs.Early.{blocks_done, flat_in, state_in, wave_done, zero_done, IsBehindZero};

use crate::early::Early;
use crate::nets::update;
use crate::setting::Setting;
use std::alloc::{AllocError, Global};
use sub_runs::laws::the_table_of_a_checked_design_can_run;
use vl_design::design::{Design, ProcKind};
use vl_design::files::FileSet;
use vl_run::process::begin_run;

/// Whether a block is one of time zero.
fn is_initial(kind: ProcKind) -> bool
    ensures { result ≡ is_init kind }
{
    matches!(kind, ProcKind::Init)
}

impl Setting<'_> {
    /// Does the initial blocks in text order.
    fn do_blocks(&self, e: &mut Early) -> Result<(), AllocError>
        requires sound { IsSound (flat_in self.now) }
        requires unrolled { IsUnrolled (flat_in self.now) }
        requires machine { IsMachine (names_of (flat_in self.now)) e.old.machine }
        ensures does { OnOk result (blocks_done (flat_in self.now) self.now.files.now (state_in e.old) ≡ state_in e.new) }
        ensures machine { OnOk result (IsMachine (names_of (flat_in self.now)) e.new.machine) }
    {
        for process in self.design.processes.as_slice() {
            if is_initial(process.kind) {
                self.walk(process.path.as_slice(), &process.body, e)?;
            }
        }
        Ok(())
    }

    /// Ends their wave: evaluates the combinational processes, makes the updates, and evaluates those processes again.
    fn end_wave(&self, order: &[u32], e: &mut Early) -> Result<(), AllocError>
        requires sound { IsSound (flat_in self.now) }
        requires checked { IsChecked (flat_in self.now) }
        requires order { IsOrder (flat_in self.now) order.now }
        requires machine { IsMachine (names_of (flat_in self.now)) e.old.machine }
        ensures does { OnOk result (wave_done (flat_in self.now) self.now.files.now order.now (state_in e.old) ≡ state_in e.new) }
        ensures machine { OnOk result (IsMachine (names_of (flat_in self.now)) e.new.machine) }
    {
        e.count()?;
        self.pass(order, &mut e.machine)?;
        update(self.design, &mut e.machine);
        e.count()?;
        self.pass(order, &mut e.machine)
    }

    /// Does time zero from its start.
    fn run(&self, order: &[u32]) -> Result<Early, AllocError>
        requires sound { IsSound (flat_in self.now) }
        requires unrolled { IsUnrolled (flat_in self.now) }
        requires checked { IsChecked (flat_in self.now) }
        requires order { IsOrder (flat_in self.now) order.now }
        ensures { IfOk result (λ e. IsMachine (names_of (flat_in self.now)) e.machine × (zero_done (flat_in self.now) self.now.files.now order.now ≡ state_in e)) }
    {
        let machine = begin_run(self.alloc, self.design)?;
        let mut e = Early { machine, acts: 0 };
        self.do_blocks(&mut e)?;
        if !e.machine.finished {
            self.end_wave(order, &mut e)?;
        }
        Ok(e)
    }
}

/// Runs time zero of a design without loops over these files: its initial blocks, whole, and what settles behind them. It is what
/// the run of the design's table comes to, after as many acts. An `Err` is want of memory alone.
pub fn run_zero(
    alloc: Global,
    design: &Design,
    files: &FileSet,
    order: &[u32],
) -> Result<Early, AllocError>
    requires sound { IsSound (flat_of design.now) }
    requires unrolled { IsUnrolled (flat_of design.now) }
    requires checked { IsChecked (flat_of design.now) }
    requires order { IsOrder (flat_of design.now) order.now }
    ensures { IfOk result (IsBehindZero (flat_of design.now) files.now order.now) }
{
    the_table_of_a_checked_design_can_run();
    let setting = Setting {
        alloc,
        design,
        files,
    };
    setting.run(order)
}
