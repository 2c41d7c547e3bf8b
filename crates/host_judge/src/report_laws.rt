//! What holds of reports where sources are judged as they are here. Each function does nothing; its contract is the law.

ghost use Rattle.std.specs.Prelude.{◌≡◌, ℕ, List, map};
ghost use Rattle.host_files.specs.fab_io.specs.Outside.{Files};
ghost use Rattle.host_files.specs.host_text.specs.declared.script.Script.{Script};
ghost use Rattle.host_files.specs.host_text.specs.declared.script.TenantLine.{TenantLine};
ghost use Rattle.host_files.specs.host_form.specs.Histories.{Histories};
ghost use Rattle.host_files.specs.host_form.specs.Laws.{name_of, IsOneJudgement, IsTellable};
ghost use Rattle.host_files.specs.host_form.specs.Origins.{Tenant, IsRead};
ghost use Rattle.host_files.specs.host_form.specs.Reports.{blocks_of, IsReport};
ghost use Rattle.host_files.specs.host_form.specs.Saves.{LeavesFiles};
ghost use Rattle.host_judge.specs.Judged.{judged};

use vl_front::laws::a_text_is_a_design_or_refused;

/// A source is judged in one way at most: it stands for one design, or is refused at one place for one kind of reason.
pub fn a_source_is_judged_in_one_way()
    ensures { IsOneJudgement judged }
{
    a_text_is_a_design_or_refused();
}

/// A line of a script is read as one tenant at most.
pub fn a_line_is_read_in_one_way()
    ensures { (told : Files) (line : TenantLine) (t u : Tenant) → IsRead judged told line t → IsRead judged told line u → t ≡ u }
{
    a_source_is_judged_in_one_way();
}

/// For these files, these histories, and these replies to its free orders, a script has one report at most, and leaves one set of
/// files.
pub fn a_script_has_one_report_at_most()
    ensures report { (told : Files) (s : Script) (histories : Histories) (bytes others : List ℕ) →
        (a : IsReport judged told s histories bytes) (b : IsReport judged told s histories others) → a.answers ≡ b.answers → bytes ≡ others }
    ensures files { (told : Files) (s : Script) (histories : Histories) (bytes others : List ℕ) →
        (a : IsReport judged told s histories bytes) (b : IsReport judged told s histories others) → a.answers ≡ b.answers →
        (left right : Files) → LeavesFiles judged told s histories bytes a left → LeavesFiles judged told s histories others b right → left ≡ right }
{
    a_source_is_judged_in_one_way();
}

/// A report has a block for each tenant, in the order of the script.
pub fn tenants_are_reported_in_order()
    ensures { (told : Files) (s : Script) (histories : Histories) (bytes : List ℕ) →
        (r : IsReport judged told s histories bytes) → map name_of (blocks_of s r.tenants r.outcomes) ≡ map (λ t. t.name) s.tenants }
{}

/// The bytes of a report tell the replies to the free orders of a script.
pub fn the_bytes_tell_the_replies()
    ensures { (told : Files) (s : Script) (histories : Histories) (bytes : List ℕ) →
        (a b : IsReport judged told s histories bytes) → IsTellable s a.tenants a.outcomes a.answers → IsTellable s b.tenants b.outcomes b.answers →
        a.answers ≡ b.answers }
{}
