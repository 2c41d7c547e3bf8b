//! Tenants that come out.

ghost use Rattle.std.specs.Prelude.{◌≡◌, ◌<◌, false, length, slice_get, true, Some, IfNone, IfSome};
ghost use Rattle.std.specs.List.{remove};
ghost use Rattle.ten_shell.specs.declared.shell.Why.{Why as Reason};
ghost use Rattle.fab_model.specs.Points.{departed, due, Point};
ghost use Rattle.fab_model.specs.Fabrics.{first_of, found, has, left, taken, Fabric};
ghost use Rattle.fab_model.specs.Worlds.{is_at_rest};
ghost use Rattle.fab_core.specs.Alone.{IsOn};
ghost use Rattle.fab_core.specs.Standing.{IsFabric, IsPointOf};

use crate::cores::FabCore;
use crate::finding::{resident_of, waiter_of};
use fab_model::parcel::Parcel;
use fab_model::tenant::Tenant;
use ten_shell::shell::Why;

/// A tenant that comes out, and why.
#[derive(Drop)]
pub struct Leaving {
    /// The tenant.
    pub parcel: Parcel,
    /// Why.
    pub why: Why,
}

/// A tenant that leaves for this reason: where it moves, the move of its boundary is done.
fn moved_off(mut tenant: Tenant, why: Why) -> Tenant
    ensures { (p : Point) → IsOn tenant p → IsOn result (departed why p) }
{
    match why {
        Why::Move(_) => {
            tenant.shell.set_moved();
            tenant
        }
        Why::Ended(_) => tenant,
    }
}

impl FabCore {
    /// Takes the resident at a place out: it changes places with its part. The others stay where they stand.
    fn take_resident(&mut self, place: usize) -> Tenant
        requires { (f : Fabric) × IsFabric self.old f × (place < length f.residents) }
        ensures fabric { (f : Fabric) → IsFabric self.old f → IsFabric self.new (record f { residents = remove f.residents place }) }
        ensures tenant { (f : Fabric) (p : Point) → IsFabric self.old f → slice_get f.residents place ≡ Some p → IsOn result p }
    {
        let mut resident = self.residents.remove(place);
        resident.swap(&mut self.joined);
        let cost = resident.tenant.shell.engine.origin.image.cost;
        self.used.regs -= cost.regs;
        self.used.cells -= cost.cells;
        self.used.mem -= cost.mem;
        resident.tenant
    }

    /// Takes a tenant out, from the residents or else from the line. None where it is neither. It takes no memory.
    pub fn take(&mut self, tenant: u32) -> Option<Parcel>
        requires { (f : Fabric) × IsFabric self.old f × (is_at_rest f ≡ true) }
        ensures fabric { (f : Fabric) → IsFabric self.old f → IsFabric self.new (taken tenant f) }
        ensures some { IfSome result (λ parcel. (f : Fabric) → IsFabric self.old f → (p : Point) × (found tenant f ≡ Some p) × IsPointOf parcel p) }
        ensures none { IfNone result ((f : Fabric) → IsFabric self.old f → has tenant f ≡ false) }
    {
        if let Some(place) = resident_of(&self.residents, tenant) {
            return Some(self.take_resident(place).into_parcel());
        }
        let place = waiter_of(&self.line, tenant)?;
        Some(self.line.remove(place).into_parcel())
    }

    /// Takes a resident out that is due to leave: where it moves, the move of its boundary is done. It takes no memory.
    pub fn leave(&mut self, tenant: u32) -> Leaving
        requires { (f : Fabric) × (p : Point) × (why : Reason) × IsFabric self.old f × (is_at_rest f ≡ true) × (first_of tenant f.residents ≡ Some p) × (due p ≡ Some why) }
        ensures fabric { (f : Fabric) → IsFabric self.old f → IsFabric self.new (left tenant f) }
        ensures out { (f : Fabric) (p : Point) → IsFabric self.old f → first_of tenant f.residents ≡ Some p → (due p ≡ Some result.why) × IsPointOf result.parcel (departed result.why p) }
    {
        let Some(place) = resident_of(&self.residents, tenant) else {
            unreachable!()
        };
        let resident = self.take_resident(place);
        let Some(why) = resident.shell.due() else {
            unreachable!()
        };
        Leaving {
            parcel: moved_off(resident, why).into_parcel(),
            why,
        }
    }
}
