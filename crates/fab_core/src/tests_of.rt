//! What may happen next. None of these takes memory.

ghost use Rattle.std.specs.Prelude.{◌≡◌, ◌<◌, ◌↔◌, IsTrue};
ghost use Rattle.fab_model.specs.Fabrics.{first_leaving, first_waiting, head_fits, is_still, steppers, Fabric};
ghost use Rattle.fab_core.specs.Standing.{IsFabric};

use crate::cores::FabCore;
use vl_design::capacity::fits;

impl FabCore {
    /// No resident starts another tick.
    pub fn holding(&self) -> bool
        ensures { (f : Fabric) → IsFabric self.now f → result ≡ f.holding }
    {
        self.holding
    }

    /// All residents rest.
    pub fn still(&self) -> bool
        requires { (f : Fabric) × IsFabric self.now f }
        ensures { (f : Fabric) → IsFabric self.now f → result ≡ is_still f }
    {
        for resident in &self.residents {
            if !resident.tenant.shell.rests() {
                return false;
            }
        }
        true
    }

    /// The first resident that waits: at a call, or at a boundary where a snapshot is to be made.
    pub fn next_trap(&self) -> Option<u32>
        requires { (f : Fabric) × IsFabric self.now f }
        ensures { (f : Fabric) → IsFabric self.now f → result ≡ first_waiting f.residents }
    {
        for resident in &self.residents {
            if resident.tenant.shell.waits() {
                return Some(resident.tenant.shell.number);
            }
        }
        None
    }

    /// The first resident that is due to leave.
    pub fn next_leaving(&self) -> Option<u32>
        requires { (f : Fabric) × IsFabric self.now f }
        ensures { (f : Fabric) → IsFabric self.now f → result ≡ first_leaving f.residents }
    {
        for resident in &self.residents {
            if resident.tenant.shell.due().is_some() {
                return Some(resident.tenant.shell.number);
            }
        }
        None
    }

    /// The head of the line fits beside the residents.
    pub fn head_fits(&self) -> bool
        requires { (f : Fabric) × IsFabric self.now f }
        ensures { (f : Fabric) → IsFabric self.now f → result ≡ head_fits f }
    {
        match self.line.first() {
            None => false,
            Some(head) => fits(
                self.used,
                head.shell.engine.origin.image.cost,
                self.capacity,
            ),
        }
    }

    /// Some resident may do a cycle.
    pub fn can_cycle(&self) -> bool
        requires { (f : Fabric) × IsFabric self.now f }
        ensures { (f : Fabric) → IsFabric self.now f → IsTrue result ↔ (0 < steppers f.holding f.residents) }
    {
        for resident in &self.residents {
            if resident.can_step(self.holding) {
                return true;
            }
        }
        false
    }
}
