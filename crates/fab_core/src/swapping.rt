//! Residents whose own banks and parts of the joined bank change places.

ghost use Rattle.std.specs.Prelude.{List, All};
ghost use Rattle.fab_model.specs.Points.{Point};
ghost use Rattle.fab_core.specs.Alone.{AreAlone, IsSwapped};
ghost use Rattle.fab_core.specs.Standing.{ArePartsApart, AreStanding, HasPart};

use crate::resident::Resident;
use fab_join::joined::Joined;

impl Resident {
    /// Its own bank and what its part holds change places. No word of a memory is copied.
    pub(crate) fn swap(&mut self, joined: &mut Joined)
        requires { HasPart joined.old self.old }
        ensures { IsSwapped joined.old self.old joined.new self.new }
    {
        joined.swap_part(self.part, &mut self.tenant.bank);
    }
}

/// Each resident's own bank and what its part holds change places: those that stood with their parts stand with their own banks, and the
/// other way round. It takes no memory.
pub(crate) fn swap_all(residents: &mut [Resident], joined: &mut Joined)
    requires apart { ArePartsApart residents.old }
    requires parts { All (HasPart joined.old) residents.old }
    ensures alone { (ps : List Point) → AreStanding joined.old residents.old ps → AreAlone residents.new ps }
    ensures standing { (ps : List Point) → AreAlone residents.old ps → AreStanding joined.new residents.new ps }
    ensures apart { ArePartsApart residents.new }
    ensures parts { All (HasPart joined.new) residents.new }
{
    for place in 0..residents.len() {
        residents[place].swap(joined);
    }
}
