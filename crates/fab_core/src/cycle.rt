//! A cycle of a fabric.

ghost use Rattle.std.specs.Prelude.{◌≡◌, ◌+◌, ◌≤◌, ◌<◌, ◌^◌, map, true, slice_set, List, if◌then◌else◌};
ghost use Rattle.fab_model.specs.Points.{cycled, Point};
ghost use Rattle.fab_model.specs.Fabrics.{all_stepped, can_step, stepped, steppers, Fabric};
ghost use Rattle.fab_join.specs.Parts.{part_at, PartData};
ghost use Rattle.fab_core.specs.Standing.{ArePartsApart, AreStanding, IsFabric, Stands};

use crate::cores::FabCore;
use crate::resident::Resident;
use fab_join::joined::Joined;
use fab_model::laws::each_number_stays_once;
use ten_shell::laws::a_shells_cycle_leads_to_a_state;

impl Resident {
    /// It may do a cycle: it doesn't wait, isn't due to leave, and isn't at rest while the fabric holds.
    pub(crate) fn can_step(&self, holding: bool) -> bool
        requires { (j : List PartData) × (p : Point) × Stands j self.now p }
        ensures { (j : List PartData) (p : Point) → Stands j self.now p → result ≡ can_step holding p }
    {
        let shell = &self.tenant.shell;
        if shell.waits() {
            return false;
        }
        if shell.due().is_some() {
            return false;
        }
        !holding || !shell.rests()
    }

    /// A cycle of its part.
    fn cycle(&mut self, joined: &mut Joined)
        requires { (holding : _) × (p : Point) × Stands joined.old self.old p × (can_step holding p ≡ true) }
        ensures stands { (holding : _) (p : Point) → Stands joined.old self.old p → can_step holding p ≡ true → Stands joined.new self.new (cycled p) }
        ensures part { self.new.part ≡ self.old.part }
        ensures others { joined.new ≡ slice_set joined.old self.old.part (part_at joined.new self.old.part) }
    {
        a_shells_cycle_leads_to_a_state();
        let next = joined.step(self.part);
        self.tenant.shell.stepped(next);
    }

    /// A cycle of its part, where it may do one. The answer is whether it did.
    fn step(&mut self, joined: &mut Joined, holding: bool) -> bool
        requires { (p : Point) × Stands joined.old self.old p }
        ensures answer { (p : Point) → Stands joined.old self.old p → result ≡ can_step holding p }
        ensures stands { (p : Point) → Stands joined.old self.old p → Stands joined.new self.new (stepped holding p) }
        ensures part { self.new.part ≡ self.old.part }
        ensures others { joined.new ≡ slice_set joined.old self.old.part (part_at joined.new self.old.part) }
    {
        let steps = self.can_step(holding);
        if steps {
            self.cycle(joined);
        }
        steps
    }
}

/// One more where it counts.
fn one_more(count: usize, counts: bool) -> usize
    requires { count + 1 < 2 ^ 64 }
    ensures value { result ≡ count + (if counts then 1 else 0) }
    ensures small { result ≤ count + 1 }
{
    if counts { count + 1 } else { count }
}

/// One cycle of each resident that may do one. The answer is how many did.
fn cycle_all(residents: &mut [Resident], joined: &mut Joined, holding: bool) -> usize
    requires apart { ArePartsApart residents.old }
    requires standing { (ps : List Point) × AreStanding joined.old residents.old ps }
    ensures count { (ps : List Point) → AreStanding joined.old residents.old ps → result ≡ steppers holding ps }
    ensures standing { (ps : List Point) → AreStanding joined.old residents.old ps → AreStanding joined.new residents.new (map (stepped holding) ps) }
    ensures apart { ArePartsApart residents.new }
{
    let mut count = 0;
    for place in 0..residents.len() {
        let stepped = residents[place].step(joined, holding);
        count = one_more(count, stepped);
    }
    count
}

impl FabCore {
    /// Each resident that may does one cycle: one that doesn't wait, isn't due to leave, and isn't at rest while the fabric holds. The
    /// answer is how many did. It takes no memory.
    pub fn cycle(&mut self) -> usize
        requires { (f : Fabric) × IsFabric self.old f }
        ensures count { (f : Fabric) → IsFabric self.old f → result ≡ steppers f.holding f.residents }
        ensures fabric { (f : Fabric) → IsFabric self.old f → IsFabric self.new (all_stepped f) }
    {
        each_number_stays_once();
        cycle_all(&mut self.residents, &mut self.joined, self.holding)
    }
}
