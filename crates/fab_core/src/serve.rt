//! What residents wait for.

ghost use Rattle.std.specs.Prelude.{◌≡◌, not, true, Some, slice_set, IfOk, OnOk, OnErr};
ghost use Rattle.ten_core.specs.sub_nodes.specs.Code.{table_of};
ghost use Rattle.ten_core.specs.sub_nodes.specs.Stands.{at_trap};
ghost use Rattle.fab_model.specs.Points.{run_in, served, waits, Point};
ghost use Rattle.fab_model.specs.Fabrics.{all_served, first_of, Fabric};
ghost use Rattle.fab_join.specs.Parts.{part_at};
ghost use Rattle.fab_core.specs.Memory.{takes_memory};
ghost use Rattle.fab_core.specs.Standing.{IsFabric, Stands};

use crate::cores::FabCore;
use crate::finding::resident_of;
use crate::resident::Resident;
use fab_join::joined::Joined;
use fab_model::laws::each_number_stays_once;
use std::alloc::{AllocError, Global};

impl Resident {
    /// Serves the call at which it waits, or makes the next snapshot. The answer is whether it was a snapshot. The words of its memories
    /// are not copied. Want of memory leaves it where it was, and is the answer only where what it waits for takes memory.
    fn serve(&mut self, alloc: Global, joined: &mut Joined) -> Result<bool, AllocError>
        requires { (p : Point) × Stands joined.old self.old p × (waits p ≡ true) }
        ensures stands { OnOk result ((p : Point) → Stands joined.old self.old p → Stands joined.new self.new (served p)) }
        ensures which { IfOk result (λ saved. (p : Point) → Stands joined.old self.old p → saved ≡ not (at_trap (table_of (run_in p).flat) p.stage)) }
        ensures err { OnErr result ((p : Point) → Stands joined.old self.old p → Stands joined.new self.new p) }
        ensures memory { OnErr result ((p : Point) → Stands joined.old self.old p → takes_memory p ≡ true) }
        ensures part { self.new.part ≡ self.old.part }
        ensures others { joined.new ≡ slice_set joined.old self.old.part (part_at joined.new self.old.part) }
    {
        joined.swap_part(self.part, &mut self.tenant.bank);
        let served = self.tenant.serve(alloc);
        joined.swap_part(self.part, &mut self.tenant.bank);
        served
    }
}

impl FabCore {
    /// Serves the call at which a resident waits, or makes the next snapshot that is due at its boundary. The answer is whether it was a
    /// snapshot. Want of memory leaves the fabric as it was, and is the answer only where what the resident waits for takes memory: a snapshot,
    /// and of calls `$display`, `$write`, `$save` and `$readmemh`.
    pub fn serve(&mut self, alloc: Global, tenant: u32) -> Result<bool, AllocError>
        requires { (f : Fabric) × (p : Point) × IsFabric self.old f × (first_of tenant f.residents ≡ Some p) × (waits p ≡ true) }
        ensures fabric { OnOk result ((f : Fabric) → IsFabric self.old f → IsFabric self.new (all_served tenant f)) }
        ensures which { IfOk result (λ saved. (f : Fabric) (p : Point) → IsFabric self.old f → first_of tenant f.residents ≡ Some p → saved ≡ not (at_trap (table_of (run_in p).flat) p.stage)) }
        ensures err { OnErr result ((f : Fabric) → IsFabric self.old f → IsFabric self.new f) }
        ensures memory { OnErr result ((f : Fabric) (p : Point) → IsFabric self.old f → first_of tenant f.residents ≡ Some p → takes_memory p ≡ true) }
    {
        each_number_stays_once();
        match resident_of(&self.residents, tenant) {
            None => unreachable!(),
            Some(place) => self.residents[place].serve(alloc, &mut self.joined),
        }
    }
}
