//! What holds of tenants that are judged. Each function does nothing; its contract is the law.

ghost use Rattle.std.specs.Prelude.{List, Option};
ghost use Rattle.host_files.specs.fab_io.specs.Outside.{Files};
ghost use Rattle.host_files.specs.host_text.specs.declared.script.FabricLine.{FabricLine};
ghost use Rattle.host_files.specs.host_text.specs.declared.script.TenantLine.{TenantLine};
ghost use Rattle.host_files.specs.host_form.specs.Origins.{Tenant};
ghost use Rattle.host_files.specs.host_form.specs.Reports.{AreRead};
ghost use Rattle.host_files.specs.declared.loaded.Loaded.{Loaded};
ghost use Rattle.host_files.specs.Reading.{AreLoaded};
ghost use Rattle.host_judge.specs.declared.verdict.Ready.{Ready};
ghost use Rattle.host_files.specs.host_form.specs.declared.refusal.Refusal.{Refusal};
ghost use Rattle.host_judge.specs.Judged.{judged, AreTenants, AreJudged, AreReady};

/// What is read of a script's tenants is read by the report's words.
pub fn tenants_are_read()
    ensures { (told : Files) (lines : List TenantLine) (loaded : List Loaded) (tenants : List Tenant) →
        AreLoaded told lines loaded → AreTenants lines loaded tenants → AreRead judged told lines tenants }
{}

/// Those that are to run are some tenants of the script, each with what it starts from.
pub fn those_that_run_are_ready()
    ensures { (fabrics : List FabricLine) (tenants : List Tenant) (refusals : List (Option Refusal)) (readies : List Ready) →
        AreJudged fabrics tenants refusals readies → AreReady fabrics readies }
{}
