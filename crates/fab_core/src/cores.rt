//! Cores of fabrics.

ghost use Rattle.std.specs.Prelude.{◌≡◌, false, true, [], None, IfErr, OnOk, OnErr};
ghost use Rattle.fab_model.specs.Points.{cost_of, ended, Point};
ghost use Rattle.fab_model.specs.Fabrics.{arrived, has, held, within, Fabric};
ghost use Rattle.fab_core.specs.Refusals.{IsRefusal};
ghost use Rattle.fab_core.specs.Standing.{IsFabric, IsPointOf};

use crate::resident::Resident;
use fab_join::joined::Joined;
use fab_model::laws::each_number_stays_once;
use fab_model::parcel::Parcel;
use fab_model::tenant::Tenant;
use std::alloc::Global;
use vl_design::capacity::{Cost, fits};

/// A cost of nothing.
const NOTHING: Cost = Cost {
    regs: 0,
    cells: 0,
    mem: 0,
};

/// Why a parcel can't arrive.
#[derive(Clone, Copy, Debug, PartialEq)]
pub enum CoreError {
    /// It takes more than the fabric has: what it takes, and what the fabric has.
    TooLarge(Cost, Cost),
    /// A tenant of its number is here.
    Doubled(u32),
    /// There is no memory.
    Memory,
}

/// A parcel that couldn't arrive, and why.
#[derive(Drop)]
pub struct Refused {
    /// Why.
    pub why: CoreError,
    /// The parcel.
    pub parcel: Parcel,
}

/// The core of a fabric.
#[derive(Drop)]
pub struct FabCore {
    /// What it has.
    pub capacity: Cost,
    /// What its residents take together.
    pub used: Cost,
    /// The residents in order.
    pub residents: Vec<Resident>,
    /// The tenants that wait to join them, first in, first out.
    pub line: Vec<Tenant>,
    /// No resident starts another tick.
    pub holding: bool,
    /// The residents' banks.
    pub joined: Joined,
}

impl FabCore {
    /// A fabric of this capacity, without tenants.
    pub fn new(alloc: Global, capacity: Cost) -> FabCore
        ensures { IsFabric result (record { capacity = capacity; residents = []; line = []; holding = false }) }
    {
        FabCore {
            capacity,
            used: Cost {
                regs: 0,
                cells: 0,
                mem: 0,
            },
            residents: Vec::new(alloc),
            line: Vec::new(alloc),
            holding: false,
            joined: Joined::new(alloc),
        }
    }

    /// A tenant at rest that hasn't ended is last in the line; or else it is given back: where it takes more than the fabric has, where a tenant of its number is a resident or in line, or
    /// for want of memory.
    pub fn arrive(&mut self, parcel: Parcel) -> Result<(), Refused>
        requires fabric { (f : Fabric) × IsFabric self.old f }
        requires parcel { (p : Point) × IsPointOf parcel p × (ended p ≡ None) }
        ensures arrived { OnOk result ((f : Fabric) (p : Point) → IsFabric self.old f → IsPointOf parcel p → IsFabric self.new (arrived p f)) }
        ensures fits { OnOk result ((f : Fabric) (p : Point) → IsFabric self.old f → IsPointOf parcel p → (within (cost_of p) f.capacity ≡ true) × (has p.number f ≡ false)) }
        ensures same { OnErr result ((f : Fabric) → IsFabric self.old f → IsFabric self.new f) }
        ensures back { IfErr result (λ r. r.parcel ≡ parcel) }
        ensures why { IfErr result (λ r. (f : Fabric) (p : Point) → IsFabric self.old f → IsPointOf parcel p → IsRefusal f p r.why) }
    {
        each_number_stays_once();
        let cost = parcel.cost();
        if !fits(NOTHING, cost, self.capacity) {
            return Err(Refused {
                why: CoreError::TooLarge(cost, self.capacity),
                parcel,
            });
        }
        let number = parcel.number();
        if self.has(number) {
            return Err(Refused {
                why: CoreError::Doubled(number),
                parcel,
            });
        }
        if self.line.reserve(1).is_err() {
            return Err(Refused {
                why: CoreError::Memory,
                parcel,
            });
        }
        self.line.push_reserved(Tenant::from_parcel(parcel));
        Ok(())
    }

    /// No resident starts another tick, until the joined bank is made anew.
    pub fn hold(&mut self)
        requires { self.old.holding ≡ false }
        ensures { (f : Fabric) → IsFabric self.old f → IsFabric self.new (held f) }
    {
        self.holding = true;
    }
}
