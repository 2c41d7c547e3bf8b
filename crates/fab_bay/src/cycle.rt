//! Cycles of a fabric.

ghost use Rattle.std.specs.Prelude.{◌≡◌, false, true, List};
ghost use Rattle.fab_core.specs.fab_model.specs.Fabrics.{all_stepped, held, Fabric};
ghost use Rattle.fab_core.specs.Standing.{IsFabric};
ghost use Rattle.fab_core.specs.fab_model.specs.declared.transit.Transit.{Transit as Out};
ghost use Rattle.fab_bay.specs.Acts.{moves_to_come};
ghost use Rattle.fab_bay.specs.Nearness.{BeginsNone};
ghost use Rattle.fab_bay.specs.Rounds.{HasStepper, IsSettled};
ghost use Rattle.fab_bay.specs.Standing.{CanSettle, IsNoted};
ghost use Rattle.fab_bay.specs.Ways.{Goes};

use crate::noted::NotedCore;
use ten_core::run_laws::{a_run_at_rest_is_at_a_boundary, each_act_comes_nearer};
use vl_design::laws::has_one_state_at_a_boundary;

impl NotedCore {
    /// Each resident that may does one cycle, and some resident may. Where the fabric doesn't hold, nobody is due to leave and the head of
    /// the line doesn't fit.
    pub(crate) fn cycle(&mut self)
        requires fabric { (f : Fabric) × IsNoted self.old f }
        requires steps { HasStepper self.old }
        requires order { IsSettled self.old }
        ensures goes { (number : _) (out : List Out) → Goes number 1 self.old self.new out out }
        ensures core { (f : Fabric) → IsNoted self.old f → IsFabric self.new.core (all_stepped f) }
        ensures near { self.old.core.holding ≡ true → BeginsNone self.old self.new }
        ensures holding { self.new.core.holding ≡ self.old.core.holding }
        ensures notes { self.new.notes ≡ self.old.notes }
        ensures room { CanSettle self.old → CanSettle self.new }
    {
        each_act_comes_nearer();
        a_run_at_rest_is_at_a_boundary();
        has_one_state_at_a_boundary();
        self.core.cycle();
    }

    /// No resident starts another tick, until the joined bank is made anew.
    pub(crate) fn hold(&mut self)
        requires fabric { (f : Fabric) × IsNoted self.old f }
        requires free { self.old.core.holding ≡ false }
        ensures goes { (number : _) (out : List Out) → Goes number 0 self.old self.new out out }
        ensures room { CanSettle self.old → CanSettle self.new }
        ensures held { (f : Fabric) → IsNoted self.old f → IsNoted self.new (held f) }
        ensures holds { self.new.core.holding ≡ true }
        ensures notes { self.new.notes ≡ self.old.notes }
        ensures near { BeginsNone self.old self.new }
        ensures moves { moves_to_come self.new ≡ moves_to_come self.old }
    {
        self.core.hold();
    }
}
