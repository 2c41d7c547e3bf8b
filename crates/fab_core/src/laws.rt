//! What holds of tenants at rest and their points. Each function does nothing; its contract is the law.

ghost use Rattle.std.specs.Prelude.{◌≡◌, Some, if◌then◌else◌};
ghost use Rattle.vl_design.specs.declared.design.End.TheVariants.{Stopped};
ghost use Rattle.vl_design.specs.Alone.{Boundary, reason_at};
ghost use Rattle.vl_design.specs.Queue.{Queue};
ghost use Rattle.fab_model.specs.ten_parcel.specs.declared.parcel.Parcel.{Parcel as OneParcel};
ghost use Rattle.fab_model.specs.ten_parcel.specs.Parcels.{free_of, is_moved, is_stopped, number_of, origin_in, run_of, ticks_of, IsParcel, IsTenant};
ghost use Rattle.fab_model.specs.Points.{ended, tick_of, Point};
ghost use Rattle.fab_core.specs.Standing.{IsPointOf};

use ten_core::run_laws::a_run_at_rest_is_at_a_boundary;
use vl_design::laws::has_one_state_at_a_boundary;

/// A tenant at rest stands at a point, unless its run has finished in time zero.
pub fn tenants_at_rest_have_points()
    ensures { (q : OneParcel) → IsParcel q → IsTenant q → (p : Point) × IsPointOf q p }
{}

/// What is at a point is a tenant at rest, with what the point says of it.
pub fn points_tell_of_tenants()
    ensures parcel { (q : OneParcel) (p : Point) → IsPointOf q p → IsParcel q × IsTenant q }
    ensures number { (q : OneParcel) (p : Point) → IsPointOf q p → number_of q ≡ p.number }
    ensures origin { (q : OneParcel) (p : Point) → IsPointOf q p → origin_in q ≡ p.origin }
    ensures ticks { (q : OneParcel) (p : Point) → IsPointOf q p → (ticks_of q ≡ p.stage.state.ticks) × (tick_of p ≡ p.stage.state.ticks) }
    ensures free { (q : OneParcel) (p : Point) → IsPointOf q p → free_of q ≡ p.free }
    ensures moved { (q : OneParcel) (p : Point) → IsPointOf q p → is_moved q ≡ p.moved }
    ensures stopped { (q : OneParcel) (p : Point) → IsPointOf q p → is_stopped q ≡ p.stopped }
    ensures boundary { (q : OneParcel) (p : Point) → IsPointOf q p → (b : Queue) × Boundary (run_of q) (ticks_of q) b × (b.state ≡ p.stage.state) }
    ensures ended { (q : OneParcel) (p : Point) (b : Queue) → IsPointOf q p → Boundary (run_of q) (ticks_of q) b →
        ended p ≡ (if is_stopped q then Some Stopped else reason_at (run_of q).plan (ticks_of q) b) }
{
    a_run_at_rest_is_at_a_boundary();
    has_one_state_at_a_boundary();
}
