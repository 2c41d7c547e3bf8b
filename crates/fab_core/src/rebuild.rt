//! The joined bank made anew.

ghost use Rattle.std.specs.Prelude.{◌≡◌, ◌+◌, ◌++◌, ◌<◌, ◌≤◌, ◌^◌, ◌∷◌, [], true, take, drop, map, All, List, length, vec_len, vec_capacity, IfOk, OnOk, OnErr};
ghost use Rattle.fab_model.specs.Points.{Point};
ghost use Rattle.fab_model.specs.Fabrics.{joiners, plus, rebuilt, total, Fabric};
ghost use Rattle.fab_model.specs.Worlds.{is_at_rest};
ghost use Rattle.fab_core.specs.Alone.{part_for, tenants_of, AreNumbered, HasPoint};
ghost use Rattle.fab_core.specs.Standing.{AreWaiting, IsFabric};

use crate::cores::FabCore;
use crate::resident::Resident;
use crate::swapping::swap_all;
use fab_join::joined::Joined;
use fab_model::laws::each_number_stays_once;
use fab_model::tenant::Tenant;
use std::alloc::{AllocError, Global};
use vl_design::capacity::{Cost, fits};

/// The tenants at the head of a line that join the residents.
#[derive(Clone, Copy)]
struct Joining {
    /// How many they are.
    count: usize,
    /// What is used with them.
    used: Cost,
}

/// How many of a line join, from its head on, until one doesn't fit beside what is used.
fn joining_of(line: &[Tenant], used: Cost, capacity: Cost) -> Joining
    ensures there { result.count ≤ length line.now }
    ensures count { (ps : List Point) → AreWaiting line.now ps → result.count ≡ joiners capacity used ps }
    ensures used { (ps : List Point) → AreWaiting line.now ps → result.used ≡ plus used (total (take result.count ps)) }
{
    let mut count = 0;
    let mut all = used;
    for tenant in line {
        let cost = tenant.shell.engine.origin.image.cost;
        if !fits(all, cost, capacity) {
            return Joining { count, used: all };
        }
        all = Cost {
            regs: all.regs + cost.regs,
            cells: all.cells + cost.cells,
            mem: all.mem + cost.mem,
        };
        count += 1;
    }
    Joining { count, used: all }
}

/// A last part for a tenant that stands with its own bank: its image's states and ports, and a copy of the bank.
fn add_part(alloc: Global, anew: &mut Joined, tenant: &Tenant) -> Result<(), AllocError>
    requires { HasPoint tenant.now }
    ensures { OnOk result (anew.new ≡ anew.old ++ part_for tenant.now ∷ []) }
{
    let image = &tenant.shell.engine.origin.image;
    anew.add(alloc, &image.table, &image.ports, &tenant.bank)
}

/// A new joined bank with a part for each resident, and then for each of these of the line.
fn joined_anew(alloc: Global, residents: &[Resident], line: &[Tenant]) -> Result<Joined, AllocError>
    requires residents { All HasPoint (tenants_of residents.now) }
    requires line { All HasPoint line.now }
    ensures { IfOk result (λ j. j ≡ map part_for (tenants_of residents.now ++ line.now)) }
{
    let mut anew = Joined::new(alloc);
    for resident in residents {
        add_part(alloc, &mut anew, &resident.tenant)?;
    }
    for tenant in line {
        add_part(alloc, &mut anew, tenant)?;
    }
    Ok(anew)
}

/// The residents' parts have the numbers of their places.
fn number_all(residents: &mut [Resident])
    requires { length residents.old < 2 ^ 32 }
    ensures tenants { tenants_of residents.new ≡ tenants_of residents.old }
    ensures numbers { AreNumbered residents.new }
{
    for place in 0..residents.len() {
        residents[place].part = place as u32;
    }
}

/// So many tenants move from the front of the line behind the residents, and all parts have the numbers of their residents' places. It
/// takes no memory.
fn join_all(residents: &mut Vec<Resident>, line: &mut Vec<Tenant>, count: usize)
    requires room { vec_len residents.old + count ≤ vec_capacity residents.old }
    requires few { vec_len residents.old + count < 2 ^ 32 }
    requires there { count ≤ vec_len line.old }
    ensures tenants { tenants_of residents.new.items ≡ tenants_of residents.old.items ++ take count line.old.items }
    ensures numbers { AreNumbered residents.new.items }
    ensures line { line.new.items ≡ drop count line.old.items }
{
    number_all(residents);
    for tenant in line.drain(..count) {
        let part = residents.len() as u32;
        residents.push_reserved(Resident { tenant, part });
    }
}

impl FabCore {
    /// The tenants at the head of the line join the residents, as far as they fit, and one new bank is made: each part is copied once. Then
    /// the fabric holds no longer. Want of memory leaves it as it was.
    pub fn rebuild(&mut self, alloc: Global) -> Result<(), AllocError>
        requires { (f : Fabric) × IsFabric self.old f × (is_at_rest f ≡ true) }
        ensures fabric { OnOk result ((f : Fabric) → IsFabric self.old f → IsFabric self.new (rebuilt f)) }
        ensures err { OnErr result ((f : Fabric) → IsFabric self.old f → IsFabric self.new f) }
    {
        each_number_stays_once();
        let joining = joining_of(&self.line, self.used, self.capacity);
        if self.residents.len() + joining.count > u32::MAX as usize {
            return Err(AllocError);
        }
        self.residents.reserve(joining.count)?;
        swap_all(&mut self.residents, &mut self.joined);
        match joined_anew(alloc, &self.residents, &self.line[..joining.count]) {
            Err(error) => {
                swap_all(&mut self.residents, &mut self.joined);
                Err(error)
            }
            Ok(anew) => {
                self.joined = anew;
                self.used = joining.used;
                self.holding = false;
                join_all(&mut self.residents, &mut self.line, joining.count);
                Ok(())
            }
        }
    }
}
