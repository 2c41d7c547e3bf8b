//! A script in lines.

use host_text::Text;
use host_text::plan::{Due, Errand};
use host_text::script::{Free, Script, ScriptError, TenantLine};
use std::alloc::{AllocError, Global};

/// A text as it is printed.
fn shown(alloc: Global, text: &Text) -> Result<String, AllocError> {
    String::from_utf8_lossy(alloc, text.as_slice())
}

/// An errand in a line.
fn errand_line(alloc: Global, errand: &Errand) -> Result<String, AllocError> {
    let tick = errand.tick;
    match &errand.due {
        Due::Save(name) => {
            let name = shown(alloc, name)?;
            format!(in alloc; "{tick} save {name}\n")
        }
        Due::Move(fabric) => format!(in alloc; "{tick} move {fabric}\n"),
        Due::Stop => format!(in alloc; "{tick} stop\n"),
    }
}

/// A tenant in lines.
fn tenant(alloc: Global, tenant: &TenantLine) -> Result<String, AllocError> {
    let name = shown(alloc, &tenant.name)?;
    let source = shown(alloc, &tenant.source)?;
    let mut text = format!(in alloc;
        "tenant {name} {source} {} {}\n",
        tenant.fabric, tenant.budget
    )?;
    for file in tenant.files.as_slice() {
        let name = shown(alloc, &file.name)?;
        let path = shown(alloc, &file.path)?;
        let line = format!(in alloc; "file {name} {path}\n")?;
        text.push_str(line.as_str())?;
    }
    if let Some(path) = &tenant.resume {
        let path = shown(alloc, path)?;
        let line = format!(in alloc; "resume {path}\n")?;
        text.push_str(line.as_str())?;
    }
    for one in tenant.errands.as_slice() {
        let line = errand_line(alloc, one)?;
        text.push_str(line.as_str())?;
    }
    Ok(text)
}

/// A free order in a line.
fn free_line(alloc: Global, order: &Free) -> Result<String, AllocError> {
    match order {
        Free::Move(tenant, fabric) => format!(in alloc; "free move {tenant} {fabric}\n"),
        Free::Stop(tenant) => format!(in alloc; "free stop {tenant}\n"),
        Free::Save(tenant, name) => {
            let name = shown(alloc, name)?;
            format!(in alloc; "free save {tenant} {name}\n")
        }
        Free::Watch(tenant) => format!(in alloc; "free watch {tenant}\n"),
    }
}

/// A script in lines.
fn script_lines(alloc: Global, script: &Script) -> Result<String, AllocError> {
    let mut text = String::new(alloc);
    for fabric in script.fabrics.as_slice() {
        let name = shown(alloc, &fabric.name)?;
        let size = fabric.capacity;
        let line = format!(in alloc;
            "fabric {name} {} {} {}\n",
            size.registers, size.cells, size.memory
        )?;
        text.push_str(line.as_str())?;
    }
    for one in script.tenants.as_slice() {
        let lines = tenant(alloc, one)?;
        text.push_str(lines.as_str())?;
    }
    for order in script.free.as_slice() {
        let line = free_line(alloc, order)?;
        text.push_str(line.as_str())?;
    }
    Ok(text)
}

/// What a script was read as, in lines.
pub fn told(alloc: Global, read: Result<Script, ScriptError>) -> Result<String, AllocError> {
    match read {
        Ok(read) => script_lines(alloc, &read),
        Err(ScriptError::At(line, cause)) => format!(in alloc; "script {line} {cause}\n"),
        Err(ScriptError::Memory) => Err(AllocError),
    }
}
