//! Where tenants are.

ghost use Rattle.std.specs.Prelude.{◌≡◌, ◌<◌, ◌==◌, length, slice_get, Some, position};
ghost use Rattle.fab_model.specs.Points.{tick_of, Point};
ghost use Rattle.fab_model.specs.Fabrics.{has, Fabric};
ghost use Rattle.fab_core.specs.Standing.{IsFabric};

use crate::cores::FabCore;
use crate::resident::Resident;
use fab_model::tenant::Tenant;

/// The place of the first resident of a number.
pub(crate) fn resident_of(residents: &[Resident], number: u32) -> Option<usize>
    ensures { result ≡ position (λ r. r.tenant.shell.number == number) residents.now }
{
    residents
        .iter()
        .position(|r| r.tenant.shell.number == number)
}

/// The place of the first tenant of a number in a line.
pub(crate) fn waiter_of(line: &[Tenant], number: u32) -> Option<usize>
    ensures { result ≡ position (λ t. t.shell.number == number) line.now }
{
    line.iter().position(|t| t.shell.number == number)
}

impl FabCore {
    /// A tenant of this number is a resident or in line.
    pub(crate) fn has(&self, number: u32) -> bool
        ensures { (f : Fabric) → IsFabric self.now f → result ≡ has number f }
    {
        resident_of(&self.residents, number).is_some() || waiter_of(&self.line, number).is_some()
    }

    /// How many residents there are.
    pub fn residents(&self) -> usize
        ensures { (f : Fabric) → IsFabric self.now f → result ≡ length f.residents }
    {
        self.residents.as_slice().len()
    }

    /// How many tenants are in line.
    pub fn waiting(&self) -> usize
        ensures { (f : Fabric) → IsFabric self.now f → result ≡ length f.line }
    {
        self.line.as_slice().len()
    }

    /// The number of the resident at a place, and its tick: that of its last boundary, or the ticks begun once finished.
    pub fn resident(&self, place: usize) -> (u32, u64)
        requires { (f : Fabric) × IsFabric self.now f × (place < length f.residents) }
        ensures { (f : Fabric) (p : Point) → IsFabric self.now f → slice_get f.residents place ≡ Some p → (result.0 ≡ p.number) × (result.1 ≡ tick_of p) }
    {
        match self.residents.get(place) {
            None => unreachable!(),
            Some(resident) => (
                resident.tenant.shell.number,
                resident.tenant.shell.last_tick(),
            ),
        }
    }

    /// The number of the tenant at a place of the line, and its tick.
    pub fn waiter(&self, place: usize) -> (u32, u64)
        requires { (f : Fabric) × IsFabric self.now f × (place < length f.line) }
        ensures { (f : Fabric) (p : Point) → IsFabric self.now f → slice_get f.line place ≡ Some p → (result.0 ≡ p.number) × (result.1 ≡ tick_of p) }
    {
        match self.line.get(place) {
            None => unreachable!(),
            Some(waiter) => (waiter.shell.number, waiter.shell.last_tick()),
        }
    }
}
