//! What follows from the definitions alone.

ghost use Rattle.std.specs.Prelude.{◌≡◌, ◌≤◌, ◌⊎◌, ℕ, true, List, [], Some, map, slice_get};
ghost use Rattle.std.specs.List.{AllByRecursion};
ghost use Rattle.host_text.specs.vl_base.specs.declared.place.Place.{Place};
ghost use Rattle.host_text.specs.vl_design.specs.declared.design.End.TheVariants.{Stopped};
ghost use Rattle.host_text.specs.vl_design.specs.Cost.{Cost};
ghost use Rattle.host_text.specs.vl_design.specs.Snapshots.{Saved};
ghost use Rattle.host_text.specs.vl_design.specs.Alone.{Origin, FreeSave, Keeps, first_tick, stop_at, save_names};
ghost use Rattle.host_text.specs.declared.script.FabricLine.{FabricLine};
ghost use Rattle.host_text.specs.declared.script.TenantLine.{TenantLine};
ghost use Rattle.host_text.specs.Laws.{AreOrdered as AreSorted};
ghost use Rattle.host_form.specs.Histories.{Histories, Visit, visits_on, times, AreOrdered, Chain, AreVisits};
ghost use Rattle.host_form.specs.Laws.{AreAscending};
ghost use Rattle.fab_io.specs.Outside.{Files};
ghost use Rattle.host_form.specs.Origins.{Tenant, IsOrigin, IsRefused, is_planned, plan_of};
ghost use Rattle.host_text.specs.ten_plan.specs.Plans.{errand_of};
ghost use Rattle.host_form.specs.Orders.{Answered, stop_of};
ghost use Rattle.host_form.specs.Runs.{Run, IsRun};
ghost use Rattle.host_form.specs.Saves.{IsReordered, with_saves};

/// A plan has the errands of the script in their order, which is that of ticks, but for moves to fabrics that are too
/// small: all of them where no move is to one, and none where there are none.
pub fn a_plan_keeps_the_order_of_errands()
    ensures order { (fabrics : List FabricLine) (c : Cost) (t : TenantLine) → AreSorted t.errands → AreAscending (plan_of fabrics c t).errands }
    ensures all { (fabrics : List FabricLine) (c : Cost) (t : TenantLine) → AllByRecursion (λ e. is_planned fabrics c e.due ≡ true) t.errands →
        (plan_of fabrics c t).errands ≡ map errand_of t.errands }
    ensures none { (fabrics : List FabricLine) (c : Cost) (t : TenantLine) → t.errands ≡ [] → (plan_of fabrics c t).errands ≡ [] }
{}

/// Moves that are not planned change neither when a run stops nor which snapshots are due.
pub fn unplanned_moves_change_no_stop_and_no_save()
    ensures stops { (fabrics : List FabricLine) (c : Cost) (t : TenantLine) (k : ℕ) → stop_at k (plan_of fabrics c t).errands ≡ stop_at k (map errand_of t.errands) }
    ensures saves { (fabrics : List FabricLine) (c : Cost) (t : TenantLine) (k : ℕ) → save_names k (plan_of fabrics c t).errands ≡ save_names k (map errand_of t.errands) }
{}

/// A tenant at a fabric of the script has one origin or is refused in one way, and never both.
pub fn a_tenant_has_one_origin_or_one_refusal()
    ensures either { (fabrics : List FabricLine) (fabric : FabricLine) (t : Tenant) → slice_get fabrics t.line.fabric ≡ Some fabric →
        ((o : Origin) × IsOrigin fabrics t o) ⊎ ((place : Place) × (kind : List ℕ) × IsRefused fabrics t place kind) }
    ensures one_origin { (fabrics : List FabricLine) (t : Tenant) (o u : Origin) → IsOrigin fabrics t o → IsOrigin fabrics t u → o ≡ u }
    ensures one_refusal { (fabrics : List FabricLine) (t : Tenant) (place at : Place) (kind why : List ℕ) →
        IsRefused fabrics t place kind → IsRefused fabrics t at why → (place ≡ at) × (kind ≡ why) }
    ensures not_both { (fabrics : List FabricLine) (t : Tenant) (o : Origin) (place : Place) (kind : List ℕ) →
        IsOrigin fabrics t o → IsRefused fabrics t place kind → ⊥ }
{}

/// The stays of a tenant are listed in one way.
pub fn stays_are_listed_in_one_way()
    ensures { (histories : Histories) (tenant from to : ℕ) (visits others : List Visit) →
        AreVisits histories tenant from to visits → AreVisits histories tenant from to others → visits ≡ others }
{}

/// Stays that chain and are those of a tenant's histories, each as often, are the tenant's stays once they are put in order.
pub fn stays_are_known_by_how_often_each_is_there()
    ensures { (histories : Histories) (tenant from to : ℕ) (trail visits : List Visit) →
        Chain from trail to → AllByRecursion (λ v. v.from ≤ v.to) trail → ((v : Visit) → times v trail ≡ times v (visits_on histories tenant v.fabric)) →
        AreOrdered visits → ((v : Visit) → times v visits ≡ times v trail) → AreVisits histories tenant from to visits }
{}

/// Snapshots that are made besides a run may be made in any order: there are some that are kept so, and they leave the same files.
pub fn free_saves_may_be_made_in_any_order()
    ensures { (o : Origin) (free others : List FreeSave) (k : ℕ) (saved : List Saved) → IsReordered free others → Keeps o free k saved →
        (kept : List Saved) × Keeps o others k kept × ((tenant : List ℕ) (files : Files) → with_saves tenant kept files ≡ with_saves tenant saved files) }
{}

/// A tenant runs from its first tick on, and not past its budget.
pub fn ticks_stay_within_the_budget()
    ensures { (fabrics : List FabricLine) (histories : Histories) (answers : List Answered) (n : ℕ) (t : Tenant) (r : Run) → IsRun fabrics histories answers n t r →
        (first_tick r.origin.resume ≤ r.tick) × (r.tick ≤ t.line.budget) }
{}

/// A tenant that is stopped has a stop at that tick: by a free order, or in the script.
pub fn a_stopped_tenant_has_a_stop()
    ensures { (fabrics : List FabricLine) (histories : Histories) (answers : List Answered) (n : ℕ) (t : Tenant) (r : Run) → IsRun fabrics histories answers n t r →
        r.reason ≡ Stopped → (stop_of n answers ≡ Some r.tick) ⊎ (stop_at r.tick (map errand_of t.line.errands) ≡ true) }
{}
