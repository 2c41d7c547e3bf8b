//! Tenants at rest.

ghost use Rattle.std.specs.Prelude.{◌≡◌, ◌++◌, ◌∷◌, [], true, false, IfOk, IfSome, OnOk, OnErr, IsNone, map};
ghost use Rattle.std.specs.Arc.{arc_value};
ghost use Rattle.vl_eval.specs.vl_design.specs.Alone.{Boundary, Ends, Keeps};
ghost use Rattle.vl_eval.specs.vl_design.specs.Queue.{Queue};
ghost use Rattle.ten_core.specs.ten_plan.specs.Held.{saved_of};
ghost use Rattle.ten_core.specs.ten_plan.specs.Written.{HasRows};
ghost use Rattle.ten_shell.specs.Shells.{CanRunOn};
ghost use Rattle.ten_parcel.specs.Parcels.{cost_of, end_at, free_of, is_moved, is_stopped, number_of, origin_in, run_of, ticks_of, AreWritable, HasNotEnded, IsLoaded, IsParcel, IsSameParcel, IsTenant};

use crate::laws::a_run_over_in_time_zero_has_ended;
use crate::load::{Begun, begin};
use crate::tenant::Tenant;
use std::alloc::{AllocError, Global};
use std::snapshot::Snapshot;
use std::sync::Arc;
use ten_core::engine::Engine;
use ten_core::held::Saved;
use ten_core::hold_laws::kept_snapshots_are_written;
use ten_core::origin::Origin;
use ten_shell::laws::a_shell_at_rest_is_at_a_boundary;
use ten_shell::shell::Shell;
use ten_zero::early::Early;
use vl_eval::design::{Design, End};
use vl_eval::{Cost, Text};

/// A run that has finished in time zero.
#[derive(Drop)]
pub struct Over {
    /// Its number, by which a script's orders name it.
    pub number: u32,
    /// What it started from.
    pub origin: Arc<Origin, Global>,
    /// What the run has come to.
    pub early: Early,
}

/// A tenant at rest.
#[derive(Drop)]
pub enum Parcel {
    /// At a boundary of its run, or finished behind time zero: it goes on from here.
    Rests(Tenant),
    /// Finished in time zero.
    Over(Over),
}

/// What contracts know of a tenant at rest: what it started from, the snapshots made besides, and whether the move that stands there is
/// done. It has no bytes.
#[derive(Drop)]
pub struct Deed {
    /// The tenant, as contracts see it.
    pub known: Snapshot<Parcel>,
}

/// What a tenant leaves behind.
#[derive(Drop)]
pub struct Remains {
    /// What it started from.
    pub origin: Arc<Origin, Global>,
    /// The bytes printed.
    pub printed: Vec<u8>,
    /// The snapshots that it keeps.
    pub saved: Vec<Saved>,
}

impl Parcel {
    /// A tenant at the first boundary of its run, with the snapshots made that are due there, or one that has finished in time zero. The run
    /// is that of the origin's image over its files: from time zero, which runs here, or resumed from what it starts with. An `Err` is want
    /// of memory alone.
    pub fn load(alloc: Global, number: u32, origin: Origin) -> Result<Parcel, AllocError>
        requires { CanRunOn origin }
        ensures { IfOk result (IsLoaded number origin) }
    {
        match begin(alloc, origin)? {
            Begun::Runs(engine, bank) => {
                let mut shell = Shell::begun(alloc, number, engine);
                shell.make_saves(alloc, &bank)?;
                Ok(Parcel::Rests(Tenant { shell, bank }))
            }
            Begun::Over(origin, early) => Ok(Parcel::Over(Over {
                number,
                origin,
                early,
            })),
        }
    }

    /// Its number.
    pub fn number(&self) -> u32
        ensures { result ≡ number_of self.now }
    {
        match self {
            Parcel::Rests(tenant) => tenant.shell.number,
            Parcel::Over(over) => over.number,
        }
    }

    /// Its design.
    pub fn design(&self) -> &Design
        ensures { result.now ≡ (origin_in self.now).image.design }
    {
        match self {
            Parcel::Rests(tenant) => &tenant.shell.engine.origin.image.design,
            Parcel::Over(over) => &over.origin.image.design,
        }
    }

    /// What its image takes of a fabric: bits of registers, cells, and bits of memories.
    pub fn cost(&self) -> Cost
        ensures { IsParcel self.now → result ≡ cost_of self.now }
    {
        match self {
            Parcel::Rests(tenant) => tenant.shell.engine.origin.image.cost,
            Parcel::Over(over) => over.origin.image.cost,
        }
    }

    /// What contracts know of it.
    pub fn deed(&self) -> Deed
        ensures { result.known.value ≡ self.now }
    {
        Deed {
            known: Snapshot::of(self),
        }
    }

    /// The ticks begun: the number of the boundary at which it rests. A run that has finished in time zero has begun none.
    pub fn ticks(&self) -> u64
        ensures { result ≡ ticks_of self.now }
    {
        match self {
            Parcel::Rests(tenant) => tenant.shell.engine.ticks,
            Parcel::Over(_) => 0,
        }
    }

    /// The bytes printed: those that the run alone has printed at that boundary.
    pub fn printed(&self) -> &[u8]
        ensures { IsParcel self.now → (q : Queue) × Boundary (run_of self.now) (ticks_of self.now) q × (q.state.printed ≡ result.now) }
    {
        a_shell_at_rest_is_at_a_boundary();
        a_run_over_in_time_zero_has_ended();
        match self {
            Parcel::Rests(tenant) => tenant.shell.engine.printed(),
            Parcel::Over(over) => over.early.machine.printed.as_slice(),
        }
    }

    /// The acts done: those that the run alone has counted at that boundary.
    pub fn cycles(&self) -> u64
        ensures { IsParcel self.now → (q : Queue) × Boundary (run_of self.now) (ticks_of self.now) q × (q.state.count ≡ result) }
    {
        a_shell_at_rest_is_at_a_boundary();
        a_run_over_in_time_zero_has_ended();
        match self {
            Parcel::Rests(tenant) => tenant.shell.engine.cycles(),
            Parcel::Over(over) => over.early.acts,
        }
    }

    /// The snapshots kept: those that the run alone keeps up to that boundary, with those that were made besides.
    pub fn saves(&self) -> &[Saved]
        ensures { IsParcel self.now → Keeps (run_of self.now) (free_of self.now) (ticks_of self.now) (map (saved_of (run_of self.now).flat.rows) result.now) }
    {
        a_shell_at_rest_is_at_a_boundary();
        a_run_over_in_time_zero_has_ended();
        match self {
            Parcel::Rests(tenant) => tenant.shell.saved.as_slice(),
            Parcel::Over(_) => &[],
        }
    }

    /// Why its run has ended, if it has. One that has not ended is a tenant, which can go on its way.
    pub fn ended(&self) -> Option<End>
        requires { IsParcel self.now }
        ensures reason { (q : Queue) → Boundary (run_of self.now) (ticks_of self.now) q → result ≡ end_at self.now q }
        ensures ends { IfSome result (λ end. is_stopped self.now ≡ false → (q : Queue) × Ends (run_of self.now) (ticks_of self.now) end q) }
        ensures tenant { IsNone result → IsTenant self.now }
    {
        a_shell_at_rest_is_at_a_boundary();
        a_run_over_in_time_zero_has_ended();
        match self {
            Parcel::Rests(tenant) => tenant.shell.end(),
            Parcel::Over(_) => Some(End::Finished),
        }
    }

    /// Ends its run here, where it hasn't ended: `ended` tells. From then on `ended` says that it was stopped.
    pub fn stop(&mut self)
        requires parcel { IsParcel self.old }
        requires goes_on { HasNotEnded self.old }
        ensures parcel { IsParcel self.new }
        ensures stopped { is_stopped self.new ≡ true }
        ensures run { run_of self.new ≡ run_of self.old }
        ensures ticks { ticks_of self.new ≡ ticks_of self.old }
        ensures free { free_of self.new ≡ free_of self.old }
        ensures number { number_of self.new ≡ number_of self.old }
        ensures moved { is_moved self.new ≡ is_moved self.old }
    {
        a_shell_at_rest_is_at_a_boundary();
        a_run_over_in_time_zero_has_ended();
        match self {
            Parcel::Rests(tenant) => tenant.shell.stop(),
            Parcel::Over(_) => unreachable!(),
        }
    }

    /// Makes a snapshot of its run besides, which hasn't finished by `$finish`. Want of memory leaves all as it was.
    pub fn save(&mut self, alloc: Global, name: Text) -> Result<(), AllocError>
        requires parcel { IsParcel self.old }
        requires goes_on { (q : Queue) × Boundary (run_of self.old) (ticks_of self.old) q × (q.state.finished ≡ false) }
        ensures parcel { IsParcel self.new }
        ensures free { OnOk result (free_of self.new ≡ free_of self.old ++ record { name = name; tick = ticks_of self.old } ∷ []) }
        ensures err { OnErr result (IsSameParcel self.old self.new) }
        ensures run { run_of self.new ≡ run_of self.old }
        ensures ticks { ticks_of self.new ≡ ticks_of self.old }
        ensures stopped { is_stopped self.new ≡ is_stopped self.old }
        ensures number { number_of self.new ≡ number_of self.old }
        ensures moved { is_moved self.new ≡ is_moved self.old }
    {
        a_shell_at_rest_is_at_a_boundary();
        a_run_over_in_time_zero_has_ended();
        match self {
            Parcel::Rests(tenant) => tenant.shell.save(alloc, &tenant.bank, name),
            Parcel::Over(_) => Ok(()),
        }
    }

    /// What it leaves behind.
    pub fn into_remains(self, alloc: Global) -> Remains
        ensures origin { arc_value result.origin ≡ origin_in self }
        ensures printed { IsParcel self → (q : Queue) × Boundary (run_of self) (ticks_of self) q × (q.state.printed ≡ result.printed.items) }
        ensures saves { IsParcel self → Keeps (run_of self) (free_of self) (ticks_of self) (map (saved_of (run_of self).flat.rows) result.saved.items) }
        ensures written { IsParcel self → HasRows (run_of self).flat.rows → AreWritable result }
    {
        a_shell_at_rest_is_at_a_boundary();
        a_run_over_in_time_zero_has_ended();
        kept_snapshots_are_written();
        match self {
            Parcel::Rests(tenant) => {
                let Shell { engine, saved, .. } = tenant.shell;
                let Engine {
                    origin,
                    printed,
                    ..
                } = engine;
                Remains {
                    origin,
                    printed,
                    saved,
                }
            }
            Parcel::Over(over) => Remains {
                origin: over.origin,
                printed: over.early.machine.printed,
                saved: Vec::new(alloc),
            },
        }
    }
}
