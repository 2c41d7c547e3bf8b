//! The script that is being read.

ghost use Rattle.std.specs.Prelude.{◌≡◌, ◌≤◌, ◌++◌, ◌∷◌, Some, OnOk, IfOk, map};
ghost use Rattle.host_text.specs.Drafts.{tenant_line, drafted, IsKept};
ghost use Rattle.host_text.specs.Scripts as spec;

use crate::errands::put_errand;
use crate::script::{FabricLine, FileLine, Free, TenantLine};
use indexmap::IndexMap;
use std::alloc::{AllocError, Global};
use ten_plan::plan::Errand;
use ten_plan::{Items, Text};

/// A tenant that is being read.
#[derive(Drop)]
pub(crate) struct Draft {
    pub(crate) name: Text,
    pub(crate) source: Text,
    pub(crate) fabric: u32,
    pub(crate) budget: u64,
    pub(crate) files: Vec<FileLine>,
    pub(crate) resume: Option<Text>,
    pub(crate) errands: Vec<Errand>,
}

/// What is read of a script, and the numbers of its names.
#[derive(Drop)]
pub(crate) struct Reading<'a> {
    pub(crate) fabrics: Vec<FabricLine>,
    pub(crate) tenants: Vec<Draft>,
    pub(crate) free: Vec<Free>,
    pub(crate) fabric_numbers: IndexMap<&'a [u8], u32>,
    pub(crate) tenant_numbers: IndexMap<&'a [u8], u32>,
}

/// Nothing is read yet.
pub(crate) fn begin<'a>(alloc: Global) -> Reading<'a>
    ensures script { drafted result ≡ spec.nothing }
    ensures kept { IsKept result }
{
    Reading {
        fabrics: Vec::new(alloc),
        tenants: Vec::new(alloc),
        free: Vec::new(alloc),
        fabric_numbers: IndexMap::new(alloc),
        tenant_numbers: IndexMap::new(alloc),
    }
}

/// Adds a file to a tenant.
fn add_file(draft: &mut Draft, file: FileLine) -> Result<(), AllocError>
    ensures { OnOk result (tenant_line draft.new ≡ spec.with_file file (tenant_line draft.old)) }
{
    draft.files.push(file)?;
    Ok(())
}

/// Says from which snapshot a tenant starts.
fn add_resume(draft: &mut Draft, path: Text)
    ensures { tenant_line draft.new ≡ spec.resumed path (tenant_line draft.old) }
{
    draft.resume = Some(path);
}

/// Adds an errand to a tenant.
fn add_errand(draft: &mut Draft, errand: Errand) -> Result<(), AllocError>
    ensures { OnOk result (tenant_line draft.new ≡ spec.sent errand (tenant_line draft.old)) }
{
    put_errand(&mut draft.errands, errand)
}

/// Adds a file to the tenant of a number.
pub(crate) fn put_file(
    tenants: &mut Vec<Draft>,
    number: usize,
    file: FileLine,
) -> Result<(), AllocError>
    ensures { OnOk result (map tenant_line tenants.new.items ≡ spec.changed_at number (spec.with_file file) (map tenant_line tenants.old.items)) }
{
    if number >= tenants.len() {
        return Ok(());
    }
    let tenant = &mut tenants[number];
    add_file(tenant, file)?;
    Ok(())
}

/// Says from which snapshot the tenant of a number starts.
pub(crate) fn put_resume(tenants: &mut Vec<Draft>, number: usize, path: Text)
    ensures { map tenant_line tenants.new.items ≡ spec.changed_at number (spec.resumed path) (map tenant_line tenants.old.items) }
{
    if number >= tenants.len() {
        return;
    }
    let tenant = &mut tenants[number];
    add_resume(tenant, path);
}

/// Adds an errand to the tenant of a number.
pub(crate) fn put_sent(
    tenants: &mut Vec<Draft>,
    number: usize,
    errand: Errand,
) -> Result<(), AllocError>
    ensures { OnOk result (map tenant_line tenants.new.items ≡ spec.changed_at number (spec.sent errand) (map tenant_line tenants.old.items)) }
{
    if number >= tenants.len() {
        return Ok(());
    }
    let tenant = &mut tenants[number];
    add_errand(tenant, errand)?;
    Ok(())
}

/// The line of a tenant.
fn finished(draft: Draft) -> TenantLine
    ensures { result ≡ tenant_line draft }
{
    TenantLine {
        name: draft.name,
        source: draft.source,
        fabric: draft.fabric,
        budget: draft.budget,
        files: Items::from_vec(draft.files),
        resume: draft.resume,
        errands: Items::from_vec(draft.errands),
    }
}

/// The lines of tenants.
pub(crate) fn all_finished(alloc: Global, drafts: Vec<Draft>) -> Result<Vec<TenantLine>, AllocError>
    ensures { IfOk result (λ lines. lines.items ≡ map tenant_line drafts.items) }
{
    let mut drafts = drafts;
    let mut lines = Vec::new(alloc);
    'drafts: while !drafts.is_empty() {
        let line = finished(drafts.remove(0));
        lines.push(line)?;
    }
    Ok(lines)
}
