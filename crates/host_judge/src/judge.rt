//! Tenants judged.

ghost use Rattle.std.specs.Prelude.{◌≡◌, ℕ, ◌<◌, List, [], ◌∷◌, ◌++◌, None, length, option_map, IfOk, OnOk};
ghost use Rattle.ten_core.specs.vl_base.specs.Files.{IsFileSet};
ghost use Rattle.ten_core.specs.vl_design.specs.Costs.{saturated_cost};
ghost use Rattle.ten_core.specs.vl_design.specs.Cost as sums;
ghost use Rattle.ten_core.specs.vl_design.specs.Syntax.{Flat};
ghost use Rattle.ten_core.specs.vl_design.specs.Trees.{flat_of};
ghost use Rattle.vl_front.specs.Sources.{IsAcceptedOf};
ghost use Rattle.host_files.specs.host_text.specs.Laws.{IsSpelt, IsSpeltTenant, IsTenant as IsTenantAt, IsWithinLimits};
ghost use Rattle.ten_build.specs.Builds.{IsImageOf};
ghost use Rattle.host_files.specs.declared.loaded.Loaded.{Loaded as Read};
ghost use Rattle.ten_core.specs.Holding.{CanBeHeld};
ghost use Rattle.host_files.specs.host_form.specs.Origins.{Tenant};
ghost use Rattle.host_files.specs.Reading.{bytes_in};
ghost use Rattle.host_judge.specs.Judged.{IsTenantOf, AreTenants, AreJudged};
ghost use Rattle.host_judge.specs.Deciding as d;

use crate::kinds::{cost_text, snapshot_text, source_text};
use crate::planning::plan_for;
use crate::room::{fits_in, is_exact};
use crate::starting::{Start, start_of};
use crate::verdict::{Judged, Ready};
use elab_laws::Accepted;
use elab_laws::held::Held;
use elab_laws::plan::Plan;
use elab_laws::save_names_laws::an_elaborated_design_names_its_snapshots;
use host_files::loaded::Loaded;
use host_files::refusal::Refusal;
use host_files::script::{FabricLine, Script, TenantLine};
use std::alloc::{AllocError, Global};
use ten_alone::laws::a_tenants_image_can_be_run;
use ten_build::build::{cost_of, make};
use ten_core::files::FileSet;
use ten_core::image::Image;
use ten_core::origin::Origin;
use ten_core::{Cost, Place, Text};
use vl_front::fault::BuildError;
use vl_front::front::front;
use vl_front::laws::a_text_is_a_design_or_refused;

/// What comes of an image whose cost fits its fabric.
#[derive(Drop)]
enum Decision {
    /// It runs by this plan, from this on; from time zero where it is nothing.
    Runs(Plan, Option<Held>),
    /// It is refused, for its snapshot.
    Refused(Refusal),
}

/// What a tenant is judged to be.
#[derive(Drop)]
enum Verdict {
    /// It is to run.
    Runs(Ready),
    /// It is refused.
    Refused(Refusal),
}

/// A refusal that isn't of the source.
fn elsewhere(kind: Text) -> Refusal
    ensures { result ≡ d.elsewhere kind }
{
    Refusal {
        place: Place { line: 0, column: 0 },
        kind,
    }
}

/// Why a design of this cost is refused: it doesn't fit the tenant's fabric; nothing where it fits. Costs of 2 ^ 64 - 1 and more, to
/// which no design within the limits comes, are want of memory.
fn weigh(
    alloc: Global,
    fabrics: &[FabricLine],
    line: &TenantLine,
    cost: Cost,
) -> Result<Option<Refusal>, AllocError>
    requires { line.now.fabric < length fabrics.now }
    ensures { IfOk result (λ r. (e : Flat) → cost ≡ saturated_cost (sums.cost e) → d.IsWeighed fabrics.now line.now e r) }
{
    if !is_exact(cost) {
        return Err(AllocError);
    }
    let fabric = &fabrics[line.fabric as usize];
    if fits_in(cost, fabric) {
        return Ok(None);
    }
    let kind = cost_text(alloc, cost, fabric.capacity)?;
    Ok(Some(elsewhere(kind)))
}

/// Why an accepted design is refused for its cost, if it is; nothing is compiled for it.
fn weigh_accepted(
    alloc: Global,
    fabrics: &[FabricLine],
    line: &TenantLine,
    accepted: &Accepted,
) -> Result<Option<Refusal>, AllocError>
    requires accepted { (text : List ℕ) × IsAcceptedOf text accepted.now }
    requires fabric { line.now.fabric < length fabrics.now }
    ensures { IfOk result (λ r. (text : List ℕ) → IsAcceptedOf text accepted.now → d.IsWeighedOf text fabrics.now line.now r) }
{
    let cost = cost_of(alloc, accepted)?;
    weigh(alloc, fabrics, line, cost)
}

/// What comes of an image whose cost fits its fabric: it is refused for the first fault of its snapshot, or it runs.
fn decide_start(
    alloc: Global,
    fabrics: &[FabricLine],
    line: &TenantLine,
    image: &Image,
    files: &FileSet,
    snapshot: Option<&[u8]>,
) -> Result<Decision, AllocError>
    requires held { CanBeHeld (flat_of image.now.design) }
    requires cost { d.sums_of image.now.cost ≡ sums.cost (flat_of image.now.design) }
    requires room { d.HasRoom fabrics.now line.now (flat_of image.now.design) }
    requires spelt { IsSpeltTenant line.now }
    ensures { IfOk result (d.IsDecided fabrics.now line.now (flat_of image.now.design) files.now (option_map (λ bytes. bytes.now) snapshot.entry)) }
{
    match start_of(alloc, &image.design, files, line.budget, snapshot)? {
        Start::From(held) => {
            let plan = plan_for(alloc, fabrics, image.cost, line)?;
            Ok(Decision::Runs(plan, held))
        }
        Start::Bad(fault) => {
            let kind = snapshot_text(alloc, fault)?;
            Ok(Decision::Refused(elsewhere(kind)))
        }
    }
}

/// The bytes of a snapshot, if there is one.
fn bytes_of(snapshot: &Option<Vec<u8>>) -> Option<&[u8]>
    ensures { option_map (λ bytes. bytes.now) result ≡ bytes_in snapshot.now }
{
    match snapshot {
        Some(bytes) => Some(bytes.as_slice()),
        None => None,
    }
}

/// Files are a set: at most 16, of different names of at most 255 bytes. It does nothing but ask for a name, which may be any.
fn are_a_set(files: &FileSet, name: &Text)
    ensures { IsFileSet files.now }
{
    files.number(name);
}

/// What a tenant is judged to be whose image's cost fits its fabric.
fn judge_image(
    alloc: Global,
    fabrics: &[FabricLine],
    line: &TenantLine,
    image: Image,
    files: FileSet,
    snapshot: &Option<Vec<u8>>,
) -> Result<Verdict, AllocError>
    requires image { (text : List ℕ) × IsImageOf text image }
    requires cost { d.sums_of image.cost ≡ sums.cost (flat_of image.design) }
    requires room { d.HasRoom fabrics.now line.now (flat_of image.design) }
    requires line { IsTenantAt (length fabrics.now) line.now }
    requires spelt { IsSpeltTenant line.now }
    ensures { IfOk result (λ v. (text : List ℕ) (is : IsImageOf text image) → d.IsVerdict fabrics.now (d.accepted line.now is.design files (bytes_in snapshot.now)) v) }
{
    a_tenants_image_can_be_run();
    an_elaborated_design_names_its_snapshots();
    are_a_set(&files, &line.name);
    match decide_start(alloc, fabrics, line, &image, &files, bytes_of(snapshot))? {
        Decision::Runs(plan, start) => Ok(Verdict::Runs(Ready {
            fabric: line.fabric,
            origin: Origin {
                image,
                files,
                plan,
                start,
            },
        })),
        Decision::Refused(refusal) => Ok(Verdict::Refused(refusal)),
    }
}

/// What a tenant is judged to be whose source is accepted, and whose design's cost fits its fabric.
fn judge_fitting(
    alloc: Global,
    fabrics: &[FabricLine],
    line: &TenantLine,
    accepted: Accepted,
    files: FileSet,
    snapshot: &Option<Vec<u8>>,
) -> Result<Verdict, AllocError>
    requires accepted { (text : List ℕ) × IsAcceptedOf text accepted × d.IsWeighedOf text fabrics.now line.now None }
    requires line { IsTenantAt (length fabrics.now) line.now }
    requires spelt { IsSpeltTenant line.now }
    ensures { IfOk result (λ v. (text : List ℕ) → IsAcceptedOf text accepted → d.IsVerdictOf text fabrics.now line.now files (bytes_in snapshot.now) v) }
{
    a_text_is_a_design_or_refused();
    let image = make(alloc, accepted)?;
    judge_image(alloc, fabrics, line, image, files, snapshot)
}

/// What a tenant is judged to be whose source is accepted: it is refused if its cost doesn't fit its fabric, before anything is
/// compiled; else for its snapshot's first fault; else it is to run.
fn judge_accepted(
    alloc: Global,
    fabrics: &[FabricLine],
    line: &TenantLine,
    accepted: Accepted,
    files: FileSet,
    snapshot: &Option<Vec<u8>>,
) -> Result<Verdict, AllocError>
    requires accepted { (text : List ℕ) × IsAcceptedOf text accepted }
    requires line { IsTenantAt (length fabrics.now) line.now }
    requires spelt { IsSpeltTenant line.now }
    ensures { IfOk result (λ v. (text : List ℕ) → IsAcceptedOf text accepted → d.IsVerdictOf text fabrics.now line.now files (bytes_in snapshot.now) v) }
{
    match weigh_accepted(alloc, fabrics, line, &accepted)? {
        Some(refusal) => Ok(Verdict::Refused(refusal)),
        None => judge_fitting(alloc, fabrics, line, accepted, files, snapshot),
    }
}

/// The verdict on a source that isn't accepted: it is refused at a place, for a fault of a kind.
fn refused_source(alloc: Global, error: BuildError) -> Result<Verdict, AllocError>
    ensures { IfOk result (d.IsSourceRefused error) }
{
    match error {
        BuildError::Refused(place, kind) => {
            let kind = source_text(alloc, kind)?;
            Ok(Verdict::Refused(Refusal { place, kind }))
        }
        BuildError::Memory => Err(AllocError),
    }
}

/// What a tenant is judged to be: it is refused for its source's first fault; else if its cost doesn't fit its fabric; else for its
/// snapshot's first fault, or if that one's tick is above the budget; else it is to run.
fn judge(
    alloc: Global,
    fabrics: &[FabricLine],
    line: &TenantLine,
    loaded: Loaded,
) -> Result<Verdict, AllocError>
    requires line { IsTenantAt (length fabrics.now) line.now }
    requires spelt { IsSpeltTenant line.now }
    ensures { IfOk result (λ v. (t : Tenant) × IsTenantOf line.now loaded t × d.IsVerdict fabrics.now t v) }
{
    let Loaded {
        source,
        files,
        snapshot,
    } = loaded;
    match front(alloc, &source) {
        Ok(accepted) => judge_accepted(alloc, fabrics, line, accepted, files, &snapshot),
        Err(error) => refused_source(alloc, error),
    }
}

/// Notes what a tenant is judged to be, behind those before it.
fn note(verdict: Verdict, judged: &mut Judged) -> Result<(), AllocError>
    ensures { OnOk result (d.IsNoted verdict judged.old judged.new) }
{
    match verdict {
        Verdict::Runs(ready) => {
            judged.refusals.push(None)?;
            judged.readies.push(ready)?;
            Ok(())
        }
        Verdict::Refused(refusal) => {
            judged.refusals.push(Some(refusal))?;
            Ok(())
        }
    }
}

/// Judges the tenant behind those that are judged, of which this was read.
fn judge_next(
    alloc: Global,
    script: &Script,
    loaded: Loaded,
    judged: &mut Judged,
) -> Result<(), AllocError>
    requires limits { IsWithinLimits script.now }
    requires spelt { IsSpelt script.now }
    requires more { length judged.old.refusals.items < length script.now.tenants }
    ensures { OnOk result ((seen : List Read) → d.AreSoFar script.now seen judged.old → d.AreSoFar script.now (seen ++ loaded ∷ []) judged.new) }
{
    let line = &script.tenants.as_slice()[judged.refusals.len()];
    let verdict = judge(alloc, script.fabrics.as_slice(), line, loaded)?;
    note(verdict, judged)
}

/// What all tenants of a script are judged to be, by what was read of each. An `Err` is want of memory alone.
pub fn judge_all(alloc: Global, script: &Script, loaded: Vec<Loaded>) -> Result<Judged, AllocError>
    requires limits { IsWithinLimits script.now }
    requires spelt { IsSpelt script.now }
    requires count { length loaded.items ≡ length script.now.tenants }
    ensures { IfOk result (λ j. (tenants : List Tenant) × AreTenants script.now.tenants loaded.items tenants
        × AreJudged script.now.fabrics tenants j.refusals.items j.readies.items) }
{
    let mut judged = Judged {
        refusals: Vec::new(alloc),
        readies: Vec::new(alloc),
    };
    for tenant in loaded {
        judge_next(alloc, script, tenant, &mut judged)?;
    }
    Ok(judged)
}
