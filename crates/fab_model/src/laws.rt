//! What holds of several fabrics and the tenants in transit, over all lists of steps. Each function does nothing; its contract is the law.

ghost use Rattle.std.specs.Prelude.{◌≡◌, ◌≤◌, ℕ, true, false, List, ◌++◌, Some, is_some, if◌then◌else◌};
ghost use Rattle.ten_core.specs.vl_design.specs.declared.capacity.Cost.{Cost as Capacity};
ghost use Rattle.ten_core.specs.declared.origin.Origin.{Origin as From};
ghost use Rattle.ten_parcel.specs.ten_shell.specs.declared.shell.Why.{Why as Reason};
ghost use Rattle.fab_model.specs.Points.{due, waits, Point};
ghost use Rattle.fab_model.specs.Fabrics.{all_served, all_stepped, arrived, first_leaving, first_of, first_waiting, has, left, rebuilt, taken, AreOnce, Fabric};
ghost use Rattle.fab_model.specs.Worlds.{weight};
ghost use Rattle.fab_model.specs.Several.{acts_of, empty, everyone_in, loaded, places_of, run, AreFronts, AreRuns, Fit, Step};

use ten_core::front_laws::what_a_run_has_printed_is_a_front;
use ten_core::run_laws::each_act_comes_nearer;

/// Each tenant that was loaded is in exactly one place, and no other is anywhere; and whatever is somewhere has the number and the origin of
/// what was loaded, however these are weighed.
pub fn each_tenant_is_in_one_place()
    ensures one { (cs : List Capacity) (t : ℕ) (steps : List Step) → places_of t (everyone_in (run steps (empty cs))) ≡ (if is_some (first_of t (loaded steps)) then 1 else 0) }
    ensures same { (cs : List Capacity) (m : ℕ → From → ℕ) (steps : List Step) →
        weight (λ p. m p.number p.origin) (everyone_in (run steps (empty cs))) ≡ weight (λ p. m p.number p.origin) (loaded steps) }
{}

/// The acts of no tenant ever become fewer.
pub fn acts_never_become_fewer()
    ensures { (cs : List Capacity) (t : ℕ) (early late : List Step) → acts_of t (run early (empty cs)) ≤ acts_of t (run (early ++ late) (empty cs)) }
{}

/// The residents of each fabric fit it together.
pub fn residents_fit()
    ensures { (cs : List Capacity) (steps : List Step) → Fit cs (run steps (empty cs)).fabrics }
{}

/// Where what is loaded is on the way of its run, what a tenant has printed is always a front of what its run alone prints up to its end.
pub fn what_is_printed_is_a_front()
    ensures { (cs : List Capacity) (steps : List Step) → AreRuns (loaded steps) → AreFronts (everyone_in (run steps (empty cs))) }
{
    runs_go_on();
    what_a_run_has_printed_is_a_front();
}

/// Where what is loaded is on the way of its run, each tenant is always on the way of its own.
pub fn runs_go_on()
    ensures { (cs : List Capacity) (steps : List Step) → AreRuns (loaded steps) → AreRuns (everyone_in (run steps (empty cs))) }
{
    each_act_comes_nearer();
}

/// Where no two have one number, the first that waits is the one of its number, and so is the first that is due to leave.
pub fn who_comes_first_is_found()
    ensures waits { (ps : List Point) (t : ℕ) → AreOnce ps → first_waiting ps ≡ Some t → (p : Point) × (first_of t ps ≡ Some p) × (waits p ≡ true) }
    ensures leaves { (ps : List Point) (t : ℕ) → AreOnce ps → first_leaving ps ≡ Some t → (p : Point) × (why : Reason) × (first_of t ps ≡ Some p) × (due p ≡ Some why) }
{}

/// No event of a fabric makes two of its tenants have one number.
pub fn each_number_stays_once()
    ensures arrived { (p : Point) (f : Fabric) → AreOnce (f.residents ++ f.line) → has p.number f ≡ false → AreOnce ((arrived p f).residents ++ (arrived p f).line) }
    ensures stepped { (f : Fabric) → AreOnce (f.residents ++ f.line) → AreOnce ((all_stepped f).residents ++ (all_stepped f).line) }
    ensures served { (t : ℕ) (f : Fabric) → AreOnce (f.residents ++ f.line) → AreOnce ((all_served t f).residents ++ (all_served t f).line) }
    ensures rebuilt { (f : Fabric) → AreOnce (f.residents ++ f.line) → AreOnce ((rebuilt f).residents ++ (rebuilt f).line) }
    ensures taken { (t : ℕ) (f : Fabric) → AreOnce (f.residents ++ f.line) → AreOnce ((taken t f).residents ++ (taken t f).line) }
    ensures left { (t : ℕ) (f : Fabric) → AreOnce (f.residents ++ f.line) → AreOnce ((left t f).residents ++ (left t f).line) }
    ensures residents { (f : Fabric) → AreOnce (f.residents ++ f.line) → AreOnce f.residents }
{}
