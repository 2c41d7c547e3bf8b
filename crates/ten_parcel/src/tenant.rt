//! Tenants on their way.

ghost use Rattle.std.specs.Prelude.{◌≡◌, ℕ, suc, true, false, not, List, ◌∷◌, IfOk, OnOk, OnErr, if◌then◌else◌};
ghost use Rattle.ten_core.specs.cell_form.specs.Sound.{shape_of};
ghost use Rattle.ten_core.specs.cell_form.specs.Views.{bank_of};
ghost use Rattle.sub_nodes.specs.Cycles.{Stage};
ghost use Rattle.ten_core.specs.Memory.{serving_takes_memory};
ghost use Rattle.ten_core.specs.Runs.{after_cycle, after_call};
ghost use Rattle.ten_core.specs.Running.{goes_on};
ghost use Rattle.ten_shell.specs.Shells.{beat_of, flat_in, is_at_boundary, left_at, left_in, run_of, waits_in, IsSameTenant, IsUnchanged, MayCycle, Rests};
ghost use Rattle.ten_parcel.specs.Parcels.{IsAtRest, IsOn, IsParcel, IsTenant};
ghost use Rattle.ten_parcel.specs.Ways.{IsNearer, IsReady};

use crate::parcel::Parcel;
use std::alloc::{AllocError, Global};
use ten_core::Bank;
use ten_core::run_laws::{each_act_comes_nearer, ticks_and_acts_can_be_counted};
use ten_shell::laws::a_shell_at_rest_is_at_a_boundary;
use ten_shell::shell::{Beat, Shell};

/// A tenant on its way through its run.
#[derive(Drop)]
pub struct Tenant {
    /// The tenant without its bank.
    pub shell: Shell,
    /// The bank that its image's states run on.
    pub bank: Bank,
}

impl Tenant {
    /// A tenant at rest on its way again. A parcel that is none has finished in time zero: `Parcel::ended` tells.
    pub fn from_parcel(parcel: Parcel) -> Tenant
        requires { IsTenant parcel }
        ensures { parcel ≡ Parcel.Rests result }
    {
        match parcel {
            Parcel::Rests(tenant) => tenant,
            Parcel::Over(_) => unreachable!(),
        }
    }

    /// One cycle: the next act, unless that is a call, which then waits. It takes no memory.
    pub fn cycle(&mut self) -> Beat
        requires { (c : ℕ) × (i : Stage) × IsOn self.old c i × MayCycle self.old.shell i }
        ensures point { (c : ℕ) (i : Stage) → (w : IsOn self.old c i) → MayCycle self.old.shell i →
            IsOn self.new (if self.new.shell.engine.waits then c else suc c) (after_cycle (run_of self.old.shell) w.order i) }
        ensures beat { (c : ℕ) (i : Stage) → IsOn self.new c i → result ≡ beat_of (flat_in self.new.shell) i }
        ensures same { IsSameTenant self.old.shell self.new.shell }
    {
        ticks_and_acts_can_be_counted();
        let next = self.shell.engine.drive(&mut self.bank);
        self.shell.stepped(next)
    }

    /// Serves the call that waits, which is the next act, or else makes the snapshot that is to be made next at this boundary. The answer is
    /// whether it was a snapshot. Want of memory leaves all as it was; of a call it is the answer only where serving it takes memory.
    pub fn serve(&mut self, alloc: Global) -> Result<bool, AllocError>
        requires { (c : ℕ) × (i : Stage) × IsOn self.old c i × (waits_in self.old.shell i ≡ true) }
        ensures call { OnOk result (self.old.shell.engine.waits ≡ true → (c : ℕ) (i : Stage) → IsOn self.old c i → IsOn self.new (suc c) (after_call (run_of self.old.shell) i)) }
        ensures save { OnOk result (self.old.shell.engine.waits ≡ false → (c : ℕ) (i : Stage) → IsOn self.old c i → IsOn self.new c i) }
        ensures made { OnOk result (self.old.shell.engine.waits ≡ false → (name : List ℕ) × (left_in self.old.shell ≡ name ∷ left_in self.new.shell)) }
        ensures which { IfOk result (λ saved. saved ≡ not self.old.shell.engine.waits) }
        ensures left { OnOk result (self.old.shell.engine.waits ≡ true → (c : ℕ) (i : Stage) → IsOn self.old c i →
            is_at_boundary (flat_in self.old.shell) (after_call (run_of self.old.shell) i) ≡ true → left_in self.new.shell ≡ left_at (run_of self.old.shell) (after_call (run_of self.old.shell) i)) }
        ensures bank { OnOk result (self.old.shell.engine.waits ≡ false → bank_of self.new.bank ≡ bank_of self.old.bank) }
        ensures same { IsSameTenant self.old.shell self.new.shell }
        ensures moved { self.new.shell.moved ≡ self.old.shell.moved }
        ensures shape { shape_of (bank_of self.new.bank) ≡ shape_of (bank_of self.old.bank) }
        ensures err { OnErr result (IsUnchanged self.old.shell self.new.shell (bank_of self.old.bank) (bank_of self.new.bank)) }
        ensures memory { OnErr result (self.old.shell.engine.waits ≡ true → (c : ℕ) (i : Stage) → IsOn self.old c i → serving_takes_memory (flat_in self.old.shell) i ≡ true) }
    {
        self.shell.serve(alloc, &mut self.bank)
    }

    /// Runs on until its run has ended: it has finished, or is at the boundary where its ticks are spent or a stop stands. Snapshots are made
    /// where they are due. After an `Err`, which is want of memory, it is somewhere on its way.
    pub fn run(&mut self, alloc: Global) -> Result<(), AllocError>
        requires { (c : ℕ) × (i : Stage) × IsOn self.old c i × (self.old.shell.stopped ≡ false) }
        ensures rests { OnOk result (IsAtRest self.new) }
        ensures stands { (c : ℕ) × (i : Stage) × IsOn self.new c i }
        ensures ended { OnOk result ((c : ℕ) (i : Stage) → IsOn self.new c i → goes_on (run_of self.new.shell).plan (flat_in self.new.shell) i ≡ false) }
        ensures same { IsSameTenant self.old.shell self.new.shell }
    {
        self.shell.make_saves(alloc, &self.bank)?;
        'acts: while self.goes_on() {
            self.advance(alloc)?;
            self.shell.make_saves(alloc, &self.bank)?;
        }
        Ok(())
    }

    /// Its run goes on from here.
    fn goes_on(&self) -> bool
        requires { (c : ℕ) × (i : Stage) × IsReady self.now c i }
        ensures { (c : ℕ) (i : Stage) → IsOn self.now c i → result ≡ goes_on (run_of self.now.shell).plan (flat_in self.now.shell) i }
    {
        a_shell_at_rest_is_at_a_boundary();
        if self.shell.done() {
            false
        } else if self.shell.at_boundary() {
            self.shell.end().is_none()
        } else {
            true
        }
    }

    /// The next act: the call that waits is served, or else a cycle is done.
    fn advance(&mut self, alloc: Global) -> Result<(), AllocError>
        requires { (c : ℕ) × (i : Stage) × IsReady self.old c i × (goes_on (run_of self.old.shell).plan (flat_in self.old.shell) i ≡ true) }
        ensures stands { OnErr result ((c : ℕ) (i : Stage) → IsOn self.old c i → IsOn self.new c i) }
        ensures nearer { OnOk result ((c : ℕ) (i : Stage) → IsReady self.old c i → goes_on (run_of self.old.shell).plan (flat_in self.old.shell) i ≡ true → IsNearer self.old.shell i self.new) }
        ensures same { IsSameTenant self.old.shell self.new.shell }
    {
        each_act_comes_nearer();
        if self.shell.engine.waits {
            self.serve(alloc)?;
            return Ok(());
        }
        self.cycle();
        Ok(())
    }

    /// The tenant at rest: at a boundary, where no snapshot is left to be made, or after `$finish`.
    pub fn into_parcel(self) -> Parcel
        requires { (c : ℕ) × (i : Stage) × IsOn self c i × Rests self.shell i }
        ensures parcel { IsParcel result }
        ensures same { result ≡ Parcel.Rests self }
    {
        Parcel::Rests(self)
    }
}
