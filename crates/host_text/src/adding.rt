//! A statement is added to what is read.

ghost use Rattle.std.specs.Prelude.{◌≡◌, ◌<◌, ℕ, List, [], Some, None, length, if◌then◌else◌, IfOk, OnOk};
ghost use Rattle.std.specs.Str.{bytes_eq};
ghost use Rattle.host_text.specs.Seen.{seen, order_seen};
ghost use Rattle.host_text.specs.Statements as s;
ghost use Rattle.host_text.specs.Causes as c;
ghost use Rattle.host_text.specs.Drafts.{tenant_line, drafted, value_at, IsKept};
ghost use Rattle.host_text.specs.Scripts as spec;

use crate::causes::number;
use crate::draft::{Draft, Reading, put_file, put_resume, put_sent};
use crate::script::{FabricLine, FileLine, Free};
use crate::statement::{Capacity, Order, Statement};
use indexmap::IndexMap;
use std::alloc::{AllocError, Global};
use ten_plan::Text;
use ten_plan::plan::{Due, Errand};

/// A text of bytes.
fn text_of(alloc: Global, bytes: &[u8]) -> Result<Text, AllocError>
    ensures { IfOk result (λ t. t ≡ bytes.now) }
{
    Ok(Text::from_vec(Vec::from_slice(alloc, bytes)?))
}

/// Gives a name a number.
fn put_number<'a>(
    numbers: &mut IndexMap<&'a [u8], u32>,
    name: &'a [u8],
    number: u32,
) -> Result<(), AllocError>
    ensures { OnOk result ((t : List ℕ) → value_at numbers.new t ≡ (if bytes_eq t name.entry.now then Some number else value_at numbers.old t)) }
{
    numbers.insert(name, number)?;
    Ok(())
}

/// Adds a fabric.
fn add_fabric<'a>(
    alloc: Global,
    reading: &mut Reading<'a>,
    name: &'a [u8],
    capacity: Capacity,
) -> Result<(), AllocError>
    requires kept { IsKept reading.old }
    requires new { spec.fabric_number (drafted reading.old) name.now ≡ None }
    requires room { length reading.old.fabrics.items < 8 }
    ensures with { OnOk result (drafted reading.new ≡ spec.with_statement (drafted reading.old) (s.Fabric name.entry.now capacity)) }
    ensures kept { OnOk result (IsKept reading.new) }
{
    let text = text_of(alloc, name)?;
    let number = reading.fabrics.len() as u32;
    put_number(&mut reading.fabric_numbers, name, number)?;
    reading.fabrics.push(FabricLine {
        name: text,
        capacity,
    })?;
    Ok(())
}

/// A tenant without files and errands.
fn new_tenant(
    alloc: Global,
    name: &[u8],
    source: &[u8],
    fabric: u32,
    budget: u64,
) -> Result<Draft, AllocError>
    ensures { IfOk result (λ d. tenant_line d ≡ record { name = name.now; source = source.now; fabric = fabric; budget = budget; files = []; resume = None; errands = [] }) }
{
    let name = text_of(alloc, name)?;
    let source = text_of(alloc, source)?;
    Ok(Draft {
        name,
        source,
        fabric,
        budget,
        files: Vec::new(alloc),
        resume: None,
        errands: Vec::new(alloc),
    })
}

/// Adds a tenant.
fn add_tenant<'a>(
    alloc: Global,
    reading: &mut Reading<'a>,
    name: &'a [u8],
    source: &[u8],
    fabric: &[u8],
    budget: u64,
) -> Result<(), AllocError>
    requires kept { IsKept reading.old }
    requires new { spec.tenant_number (drafted reading.old) name.now ≡ None }
    requires room { length reading.old.tenants.items < 64 }
    ensures with { OnOk result (drafted reading.new ≡ spec.with_statement (drafted reading.old) (s.Tenant name.entry.now source.now fabric.now budget)) }
    ensures kept { OnOk result (IsKept reading.new) }
{
    let fabric = number(&reading.fabric_numbers, fabric).unwrap_or(0);
    let tenant = new_tenant(alloc, name, source, fabric, budget)?;
    let number = reading.tenants.len() as u32;
    put_number(&mut reading.tenant_numbers, name, number)?;
    reading.tenants.push(tenant)?;
    Ok(())
}

/// Adds a file of a tenant.
fn add_file(
    alloc: Global,
    reading: &mut Reading<'_>,
    tenant: &[u8],
    name: &[u8],
    path: &[u8],
) -> Result<(), AllocError>
    requires kept { IsKept reading.old }
    ensures with { OnOk result (drafted reading.new ≡ spec.with_statement (drafted reading.old) (s.File tenant.now name.now path.now)) }
    ensures kept { OnOk result (IsKept reading.new) }
{
    let Some(tenant) = number(&reading.tenant_numbers, tenant) else {
        return Ok(());
    };
    let name = text_of(alloc, name)?;
    let path = text_of(alloc, path)?;
    put_file(
        &mut reading.tenants,
        tenant as usize,
        FileLine { name, path },
    )?;
    Ok(())
}

/// Adds the snapshot from which a tenant starts.
fn add_resume(
    alloc: Global,
    reading: &mut Reading<'_>,
    tenant: &[u8],
    path: &[u8],
) -> Result<(), AllocError>
    requires kept { IsKept reading.old }
    ensures with { OnOk result (drafted reading.new ≡ spec.with_statement (drafted reading.old) (s.Resume tenant.now path.now)) }
    ensures kept { OnOk result (IsKept reading.new) }
{
    let Some(tenant) = number(&reading.tenant_numbers, tenant) else {
        return Ok(());
    };
    let path = text_of(alloc, path)?;
    put_resume(&mut reading.tenants, tenant as usize, path);
    Ok(())
}

/// What an order is.
fn due_of(alloc: Global, reading: &Reading<'_>, order: Order<'_>) -> Result<Due, AllocError>
    requires { IsKept reading.now }
    ensures { IfOk result (λ due. due ≡ spec.due_of (drafted reading.now) (order_seen order.entry)) }
{
    match order {
        Order::Move(fabric) => Ok(Due::Move(number(&reading.fabric_numbers, fabric).unwrap_or(0))),
        Order::Save(name) => Ok(Due::Save(text_of(alloc, name)?)),
        Order::Stop => Ok(Due::Stop),
    }
}

/// Adds an errand of a tenant.
fn add_errand(
    alloc: Global,
    reading: &mut Reading<'_>,
    tenant: &[u8],
    tick: u64,
    order: Order<'_>,
) -> Result<(), AllocError>
    requires kept { IsKept reading.old }
    ensures with { OnOk result (drafted reading.new ≡ spec.with_statement (drafted reading.old) (s.At tenant.now tick (order_seen order.entry))) }
    ensures kept { OnOk result (IsKept reading.new) }
{
    let Some(tenant) = number(&reading.tenant_numbers, tenant) else {
        return Ok(());
    };
    let due = due_of(alloc, reading, order)?;
    put_sent(&mut reading.tenants, tenant as usize, Errand { tick, due })?;
    Ok(())
}

/// A free order.
fn free_of(tenant: u32, due: Due) -> Free
    ensures { result ≡ spec.free_of tenant due }
{
    match due {
        Due::Move(fabric) => Free::Move(tenant, fabric),
        Due::Save(name) => Free::Save(tenant, name),
        Due::Stop => Free::Stop(tenant),
    }
}

/// Adds a free order.
fn put_free(reading: &mut Reading<'_>, order: Free) -> Result<(), AllocError>
    requires kept { IsKept reading.old }
    ensures with { OnOk result (drafted reading.new ≡ spec.with_free (drafted reading.old) order) }
    ensures kept { OnOk result (IsKept reading.new) }
{
    reading.free.push(order)?;
    Ok(())
}

/// Adds an order that the operator is to do.
fn add_free(
    alloc: Global,
    reading: &mut Reading<'_>,
    tenant: &[u8],
    order: Order<'_>,
) -> Result<(), AllocError>
    requires kept { IsKept reading.old }
    ensures with { OnOk result (drafted reading.new ≡ spec.with_statement (drafted reading.old) (s.Free tenant.now (order_seen order.entry))) }
    ensures kept { OnOk result (IsKept reading.new) }
{
    let tenant = number(&reading.tenant_numbers, tenant).unwrap_or(0);
    let due = due_of(alloc, reading, order)?;
    put_free(reading, free_of(tenant, due))?;
    Ok(())
}

/// Adds a watch.
fn add_watch(reading: &mut Reading<'_>, tenant: &[u8]) -> Result<(), AllocError>
    requires kept { IsKept reading.old }
    ensures with { OnOk result (drafted reading.new ≡ spec.with_statement (drafted reading.old) (s.Watch tenant.now)) }
    ensures kept { OnOk result (IsKept reading.new) }
{
    let tenant = number(&reading.tenant_numbers, tenant).unwrap_or(0);
    put_free(reading, Free::Watch(tenant))?;
    Ok(())
}

/// Adds a statement that has no cause.
pub(crate) fn add<'a>(
    alloc: Global,
    reading: &mut Reading<'a>,
    statement: Statement<'a>,
) -> Result<(), AllocError>
    requires kept { IsKept reading.old }
    requires right { c.cause_of (drafted reading.old) (seen statement) ≡ None }
    ensures with { OnOk result (drafted reading.new ≡ spec.with_statement (drafted reading.old) (seen statement.entry)) }
    ensures kept { OnOk result (IsKept reading.new) }
{
    match statement {
        Statement::Fabric(name, capacity) => add_fabric(alloc, reading, name, capacity),
        Statement::Tenant(name, source, fabric, budget) => {
            add_tenant(alloc, reading, name, source, fabric, budget)
        }
        Statement::File(tenant, name, path) => add_file(alloc, reading, tenant, name, path),
        Statement::Resume(tenant, path) => add_resume(alloc, reading, tenant, path),
        Statement::At(tenant, tick, order) => add_errand(alloc, reading, tenant, tick, order),
        Statement::Free(tenant, order) => add_free(alloc, reading, tenant, order),
        Statement::Watch(tenant) => add_watch(reading, tenant),
    }
}
