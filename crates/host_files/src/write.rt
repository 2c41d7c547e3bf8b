//! The snapshots of a script's tenants, written to a store.

ghost use Rattle.std.specs.Prelude.{◌≡◌, ◌≤◌, ◌++◌, true, length, IfOk, OnOk, OnErr, IsErrOf, option_map};
ghost use Rattle.std.specs.List.{AllByRecursion};
ghost use Rattle.std.specs.Str.{IsAscii};
ghost use Rattle.std.specs.String.{string_bytes};
ghost use Rattle.host_form.specs.fab_io.specs.Outside.{HasRisen, ChangesOnly, with_file};
ghost use Rattle.ten_core.specs.vl_design.specs.Trees.{flat_of};
ghost use Rattle.ten_core.specs.snap_form.specs.Spelling.{IsSnapshot};
ghost use Rattle.host_form.specs.host_text.specs.Words.{is_name};
ghost use Rattle.host_form.specs.host_text.specs.Laws.{IsSpeltTenant};
ghost use Rattle.ten_core.specs.Holding.{CanBeHeld};
ghost use Rattle.ten_core.specs.ten_plan.specs.Held.{snapshot_of};
ghost use Rattle.ten_core.specs.ten_plan.specs.Written.{bytes_of, written};
ghost use Rattle.host_form.specs.Saves.{path_of};
ghost use Rattle.elab_laws.specs.Names.{is_named};
ghost use Rattle.host_files.specs.Kept.{saved_in, IsKeptOf, CanBeKept};
ghost use Rattle.host_files.specs.Writes.{writes_in, saved_of_kept, writes_of, after_writes, LeavesFront, LosesOne};

use crate::kept::Kept;
use host_form::script::TenantLine;
use host_form::store::{Store, WriteError};
use std::alloc::{AllocError, Global};
use ten_core::Text;
use ten_core::design::Design;
use ten_core::held::Saved;
use ten_core::write::write;

/// Adds a text of ASCII at the end of a path.
fn push_text(path: &mut String, text: &[u8]) -> Result<(), AllocError>
    requires { IsAscii text.now }
    ensures { OnOk result (string_bytes path.new ≡ string_bytes path.old ++ text.now) }
{
    for byte in text {
        path.push(char::from(*byte))?;
    }
    Ok(())
}

/// The path of a snapshot: `TENANT.NAME`.
fn path(alloc: Global, tenant: &Text, name: &Text) -> Result<String, AllocError>
    requires tenant { is_name tenant.now ≡ true }
    requires name { is_named name.now ≡ true }
    ensures { IfOk result (λ path. string_bytes path ≡ path_of tenant.now name.now) }
{
    let mut path = String::new(alloc);
    push_text(&mut path, tenant.as_slice())?;
    path.push('.')?;
    push_text(&mut path, name.as_slice())?;
    Ok(path)
}

/// Writes a snapshot of a design under the tenant's name and its own.
fn write_one<S: Store>(
    alloc: Global,
    tenant: &Text,
    design: &Design,
    saved: Saved,
    store: &mut S,
) -> Result<(), WriteError>
    requires tenant { is_name tenant.now ≡ true }
    requires name { is_named saved.name ≡ true }
    requires design { CanBeHeld (flat_of design.now) }
    requires snapshot { IsSnapshot (written (snapshot_of (flat_of design.now).rows saved.held)) }
    ensures faults { S.faults store.old ≤ S.faults store.new }
    ensures absences { S.absences store.new ≡ S.absences store.old }
    ensures missed { S.missed store.new ≡ S.missed store.old }
    ensures written { OnOk result (S.told store.new ≡ option_map (with_file (path_of tenant.now saved.name) (bytes_of (snapshot_of (flat_of design.now).rows saved.held))) (S.told store.old)) }
    ensures failed { IsErrOf result WriteError.Failed → HasRisen (S.faults store.old) (S.faults store.new) }
    ensures others { IsErrOf result WriteError.Failed → ChangesOnly (S.told store.old) (S.told store.new) (path_of tenant.now saved.name) }
    ensures memory { IsErrOf result WriteError.Memory → S.told store.new ≡ S.told store.old }
{
    let Ok(path) = path(alloc, tenant, &saved.name) else {
        return Err(WriteError::Memory);
    };
    let Ok(bytes) = write(alloc, design, saved.held) else {
        return Err(WriteError::Memory);
    };
    store.write(path.as_str(), bytes.as_slice())
}

/// Writes the snapshots of a tenant of this name in order.
fn write_saved<S: Store>(
    alloc: Global,
    tenant: &Text,
    kept: Kept,
    store: &mut S,
) -> Result<(), WriteError>
    requires tenant { is_name tenant.now ≡ true }
    requires kept { IsKeptOf kept }
    ensures faults { S.faults store.old ≤ S.faults store.new }
    ensures absences { S.absences store.new ≡ S.absences store.old }
    ensures missed { S.missed store.new ≡ S.missed store.old }
    ensures all { OnOk result (S.told store.new ≡ option_map (after_writes (writes_in tenant.now (saved_in kept))) (S.told store.old)) }
    ensures front { OnErr result (LeavesFront (writes_in tenant.now (saved_in kept)) (S.told store.old) (S.told store.new)) }
    ensures lost { IsErrOf result WriteError.Failed → LosesOne (writes_in tenant.now (saved_in kept)) (S.told store.old) (S.told store.new) }
    ensures failed { IsErrOf result WriteError.Failed → HasRisen (S.faults store.old) (S.faults store.new) }
{
    let Kept { origin, saved } = kept;
    'saves: for next in saved {
        write_one(alloc, tenant, &origin.image.design, next, store)?;
    }
    Ok(())
}

/// Writes the snapshots of a tenant, if some are kept of it.
fn write_kept<S: Store>(
    alloc: Global,
    tenant: &TenantLine,
    kept: Option<Kept>,
    store: &mut S,
) -> Result<(), WriteError>
    requires tenant { is_name tenant.now.name ≡ true }
    requires kept { CanBeKept kept }
    ensures faults { S.faults store.old ≤ S.faults store.new }
    ensures absences { S.absences store.new ≡ S.absences store.old }
    ensures missed { S.missed store.new ≡ S.missed store.old }
    ensures all { OnOk result (S.told store.new ≡ option_map (after_writes (writes_in tenant.now.name (saved_of_kept kept))) (S.told store.old)) }
    ensures front { OnErr result (LeavesFront (writes_in tenant.now.name (saved_of_kept kept)) (S.told store.old) (S.told store.new)) }
    ensures lost { IsErrOf result WriteError.Failed → LosesOne (writes_in tenant.now.name (saved_of_kept kept)) (S.told store.old) (S.told store.new) }
    ensures failed { IsErrOf result WriteError.Failed → HasRisen (S.faults store.old) (S.faults store.new) }
{
    match kept {
        None => Ok(()),
        Some(kept) => write_saved(alloc, &tenant.name, kept, store),
    }
}

/// Writes the snapshots of the tenants of a script in order, each under its tenant's name, a dot and its own. After an `Err` a front of them is
/// written, and a write that failed may have changed the file of its name.
pub fn write_all<S: Store>(
    alloc: Global,
    tenants: &[TenantLine],
    kept: Vec<Option<Kept>>,
    store: &mut S,
) -> Result<(), WriteError>
    requires count { length kept.items ≡ length tenants.now }
    requires names { AllByRecursion IsSpeltTenant tenants.now }
    requires kept { AllByRecursion CanBeKept kept.items }
    ensures faults { S.faults store.old ≤ S.faults store.new }
    ensures absences { S.absences store.new ≡ S.absences store.old }
    ensures missed { S.missed store.new ≡ S.missed store.old }
    ensures all { OnOk result (S.told store.new ≡ option_map (after_writes (writes_of tenants.now kept.items)) (S.told store.old)) }
    ensures front { OnErr result (LeavesFront (writes_of tenants.now kept.items) (S.told store.old) (S.told store.new)) }
    ensures lost { IsErrOf result WriteError.Failed → LosesOne (writes_of tenants.now kept.items) (S.told store.old) (S.told store.new) }
    ensures failed { IsErrOf result WriteError.Failed → HasRisen (S.faults store.old) (S.faults store.new) }
{
    'tenants: for (tenant, kept) in tenants.iter().zip(kept) {
        write_kept(alloc, tenant, kept, store)?;
    }
    Ok(())
}
