//! The causes for which a statement is refused behind others.

ghost use Rattle.std.specs.Prelude.{◌≡◌, option_map};
ghost use Rattle.host_text.specs.Seen.{seen, order_seen};
ghost use Rattle.host_text.specs.Causes as c;
ghost use Rattle.host_text.specs.Drafts.{tenant_line, drafted, value_at, IsKept};
ghost use Rattle.host_text.specs.Scripts.{tenant_of};

use crate::draft::{Draft, Reading};
use crate::statement::{Order, Statement};
use indexmap::IndexMap;
use ten_plan::plan::Due;

/// The number of a name.
pub(crate) fn number(names: &IndexMap<&[u8], u32>, name: &[u8]) -> Option<u32>
    ensures { result ≡ value_at names.now name.now }
{
    names.get(name).copied()
}

/// Whether a fabric is declared.
fn has_fabric(reading: &Reading<'_>, name: &[u8]) -> bool
    requires { IsKept reading.now }
    ensures { result ≡ c.has_fabric (drafted reading.now) name.now }
{
    number(&reading.fabric_numbers, name).is_some()
}

/// Whether a tenant is declared.
fn has_tenant(reading: &Reading<'_>, name: &[u8]) -> bool
    requires { IsKept reading.now }
    ensures { result ≡ c.has_tenant (drafted reading.now) name.now }
{
    number(&reading.tenant_numbers, name).is_some()
}

/// The tenant of a name.
fn draft_of<'r>(reading: &'r Reading<'_>, name: &[u8]) -> Option<&'r Draft>
    requires { IsKept reading.now }
    ensures { option_map (λ d. tenant_line d.now) result ≡ tenant_of (drafted reading.now) name.now }
{
    match number(&reading.tenant_numbers, name) {
        None => None,
        Some(number) => reading.tenants.get(number as usize),
    }
}

/// Whether a tenant has a file of a name.
fn has_file(draft: &Draft, name: &[u8]) -> bool
    ensures { result ≡ c.has_file name.now (tenant_line draft.now) }
{
    for file in &draft.files {
        if file.name.as_slice() == name {
            return true;
        }
    }
    false
}

/// Whether a fabric, a tenant, a tenant's file name or its snapshot stands a second time.
fn is_repeated(reading: &Reading<'_>, statement: Statement<'_>) -> bool
    requires { IsKept reading.now }
    ensures { result ≡ c.is_repeated (drafted reading.now) (seen statement.entry) }
{
    match statement {
        Statement::Fabric(name, _) => has_fabric(reading, name),
        Statement::Tenant(name, _, _, _) => has_tenant(reading, name),
        Statement::File(tenant, name, _) => match draft_of(reading, tenant) {
            None => false,
            Some(draft) => has_file(draft, name),
        },
        Statement::Resume(tenant, _) => match draft_of(reading, tenant) {
            None => false,
            Some(draft) => draft.resume.is_some(),
        },
        _ => false,
    }
}

/// Whether an order names a fabric that isn't declared.
fn lacks_fabric(reading: &Reading<'_>, order: Order<'_>) -> bool
    requires { IsKept reading.now }
    ensures { result ≡ c.lacks_fabric (drafted reading.now) (order_seen order.entry) }
{
    match order {
        Order::Move(fabric) => !has_fabric(reading, fabric),
        _ => false,
    }
}

/// Whether a fabric or a tenant isn't declared above.
fn is_undeclared(reading: &Reading<'_>, statement: Statement<'_>) -> bool
    requires { IsKept reading.now }
    ensures { result ≡ c.is_undeclared (drafted reading.now) (seen statement.entry) }
{
    match statement {
        Statement::Fabric(_, _) => false,
        Statement::Tenant(_, _, fabric, _) => !has_fabric(reading, fabric),
        Statement::File(tenant, _, _) => !has_tenant(reading, tenant),
        Statement::Resume(tenant, _) => !has_tenant(reading, tenant),
        Statement::At(tenant, _, order) => {
            !has_tenant(reading, tenant) || lacks_fabric(reading, order)
        }
        Statement::Free(tenant, order) => {
            !has_tenant(reading, tenant) || lacks_fabric(reading, order)
        }
        Statement::Watch(tenant) => !has_tenant(reading, tenant),
    }
}

/// Whether an order is one that may not stand beside what is due at its tick.
fn is_doubled(order: Order<'_>, due: &Due) -> bool
    ensures { result ≡ c.is_doubled (order_seen order.entry) due.now }
{
    match order {
        Order::Save(name) => match due {
            Due::Save(other) => other.as_slice() == name,
            _ => false,
        },
        _ => !matches!(due, Due::Save(_)),
    }
}

/// Whether a tenant has an errand at a tick beside which an order may not stand.
fn has_errand(draft: &Draft, tick: u64, order: Order<'_>) -> bool
    ensures { result ≡ c.has_errand tick (order_seen order.entry) (tenant_line draft.now) }
{
    for errand in &draft.errands {
        if errand.tick == tick && is_doubled(order, &errand.due) {
            return true;
        }
    }
    false
}

/// Whether a second move or stop of a tenant stands at one tick, or the same save.
fn is_clashing(reading: &Reading<'_>, statement: Statement<'_>) -> bool
    requires { IsKept reading.now }
    ensures { result ≡ c.is_clashing (drafted reading.now) (seen statement.entry) }
{
    let Statement::At(tenant, tick, order) = statement else {
        return false;
    };
    match draft_of(reading, tenant) {
        None => false,
        Some(draft) => has_errand(draft, tick, order),
    }
}

/// Whether a limit is passed.
fn is_full(reading: &Reading<'_>, statement: Statement<'_>) -> bool
    requires { IsKept reading.now }
    ensures { result ≡ c.is_full (drafted reading.now) (seen statement.entry) }
{
    match statement {
        Statement::Fabric(_, _) => reading.fabrics.len() >= 8,
        Statement::Tenant(_, _, _, _) => reading.tenants.len() >= 64,
        Statement::File(tenant, _, _) => match draft_of(reading, tenant) {
            None => false,
            Some(draft) => draft.files.len() >= 16,
        },
        Statement::Resume(_, _) => false,
        Statement::At(tenant, _, _) => match draft_of(reading, tenant) {
            None => false,
            Some(draft) => draft.errands.len() >= 256,
        },
        Statement::Free(_, _) => reading.free.len() >= 256,
        Statement::Watch(_) => reading.free.len() >= 256,
    }
}

/// The least cause for which a statement is refused behind others, from 4 to 7.
pub(crate) fn cause_of(reading: &Reading<'_>, statement: Statement<'_>) -> Option<u8>
    requires { IsKept reading.now }
    ensures { result ≡ c.cause_of (drafted reading.now) (seen statement.entry) }
{
    if is_repeated(reading, statement) {
        Some(4)
    } else if is_undeclared(reading, statement) {
        Some(5)
    } else if is_clashing(reading, statement) {
        Some(6)
    } else if is_full(reading, statement) {
        Some(7)
    } else {
        None
    }
}
