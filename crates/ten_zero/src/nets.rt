//! Combinational processes, and updates (IEEE 1364-2005, clauses 6.1, 9.2.2 and 9.7.5).

ghost use Rattle.std.specs.Prelude.{◌≡◌, ◌<◌, [], ◌∷◌, ℕ, length, OnOk};
ghost use Rattle.vl_design.specs.Queue as q;
ghost use Rattle.vl_design.specs.Queue.{with_updates};
ghost use Rattle.vl_design.specs.Sound.{IsSound};
ghost use Rattle.vl_design.specs.Trees.{flat_of};
ghost use Rattle.vl_design.specs.Width.{names_of};
ghost use Rattle.vl_run.specs.Machines.{state_of, IsMachine};
ghost use Rattle.sub_runs.specs.vl_runs.specs.Nets.{AllBelow};
ghost use Rattle.sub_runs.specs.vl_runs.specs.Checked.{IsChecked};
ghost use Rattle.plain_run.specs.Runs.{Passes};
ghost use Rattle.ten_zero.specs.Early.{flat_in};

use crate::setting::Setting;
use std::alloc::AllocError;
use vl_design::design::{Design, ProcKind};
use vl_eval::update::write_all;
use vl_run::machine::Machine;
use vl_run::outer::room_of;
use vl_run::process::exec_process;

/// Whether processes of a kind are combinational.
fn is_comb(kind: ProcKind) -> bool
    ensures { result ≡ q.is_comb kind }
{
    matches!(kind, ProcKind::Comb | ProcKind::Assign)
}

/// Makes all pending updates, in order.
pub(crate) fn update(design: &Design, m: &mut Machine)
    requires { IsMachine (names_of (flat_of design.now)) m.old }
    ensures state { (c : ℕ) → with_updates (flat_of design.now).rows (state_of m.old c) ≡ state_of m.new c }
    ensures machine { IsMachine (names_of (flat_of design.now)) m.new }
{
    let room = room_of(design);
    write_all(&room, &mut m.values, &m.later);
    m.later.clear();
}

impl Setting<'_> {
    /// Evaluates the process of a number, if it is combinational.
    fn evaluate(&self, number: u32, m: &mut Machine) -> Result<(), AllocError>
        requires sound { IsSound (flat_in self.now) }
        requires checked { IsChecked (flat_in self.now) }
        requires there { number < length (flat_in self.now).procs }
        requires machine { IsMachine (names_of (flat_in self.now)) m.old }
        ensures machine { OnOk result (IsMachine (names_of (flat_in self.now)) m.new) }
        ensures passes { OnOk result (Passes (flat_in self.now) self.now.files.now (number ∷ []) m.old m.new) }
    {
        let process = &self.design.processes.as_slice()[number as usize];
        if !is_comb(process.kind) {
            return Ok(());
        }
        exec_process(
            self.alloc,
            self.design,
            self.files,
            process.path.as_slice(),
            &process.body,
            m,
        )
    }

    /// Evaluates the combinational processes of a list of numbers, one after another.
    pub(crate) fn pass(&self, order: &[u32], m: &mut Machine) -> Result<(), AllocError>
        requires sound { IsSound (flat_in self.now) }
        requires checked { IsChecked (flat_in self.now) }
        requires there { AllBelow (length (flat_in self.now).procs) order.now }
        requires machine { IsMachine (names_of (flat_in self.now)) m.old }
        ensures machine { OnOk result (IsMachine (names_of (flat_in self.now)) m.new) }
        ensures passes { OnOk result (Passes (flat_in self.now) self.now.files.now order.now m.old m.new) }
    {
        for number in order {
            self.evaluate(*number, m)?;
        }
        Ok(())
    }
}
