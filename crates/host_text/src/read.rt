//! Scripts are read.

ghost use Rattle.std.specs.Prelude.{◌≡◌, ℕ, [], true, false, Some, None, Ok, Err, map, IfOk, OnOk, IsErrOf};
ghost use Rattle.host_text.specs.Seen.{seen};
ghost use Rattle.host_text.specs.Statements.{says};
ghost use Rattle.host_text.specs.Causes as c;
ghost use Rattle.host_text.specs.Drafts.{drafted, IsKept};
ghost use Rattle.host_text.specs.Reading as r;
ghost use Rattle.host_text.specs.Scripts as spec;

use crate::adding::add;
use crate::causes::cause_of;
use crate::draft::{Reading, all_finished, begin};
use crate::line::{LineFault, read_line};
use crate::lines::lines;
use crate::script::{Script, ScriptError};
use crate::statement::Statement;
use std::alloc::{AllocError, Global};
use ten_plan::Items;

/// Adds a statement, unless it has a cause.
fn add_statement<'a>(
    alloc: Global,
    reading: &mut Reading<'a>,
    statement: Statement<'a>,
) -> Result<(), LineFault>
    requires kept { IsKept reading.old }
    ensures none { OnOk result (c.cause_of (drafted reading.old) (seen statement.entry) ≡ None) }
    ensures with { OnOk result (drafted reading.new ≡ spec.with_statement (drafted reading.old) (seen statement.entry)) }
    ensures kept { OnOk result (IsKept reading.new) }
    ensures cause { (cause : ℕ) → IsErrOf result (LineFault.Cause cause) → c.cause_of (drafted reading.old) (seen statement.entry) ≡ Some cause }
{
    if let Some(cause) = cause_of(reading, statement) {
        return Err(LineFault::Cause(cause));
    }
    match add(alloc, reading, statement) {
        Ok(()) => Ok(()),
        Err(_) => Err(LineFault::Memory),
    }
}

/// Adds what a line says.
fn add_line<'a>(alloc: Global, reading: &mut Reading<'a>, line: &'a [u8]) -> Result<(), LineFault>
    requires kept { IsKept reading.old }
    ensures none { OnOk result (r.cause_behind (drafted reading.old) (says line.entry.now) ≡ None) }
    ensures with { OnOk result (drafted reading.new ≡ r.with_said (drafted reading.old) (says line.entry.now)) }
    ensures kept { OnOk result (IsKept reading.new) }
    ensures cause { (cause : ℕ) → IsErrOf result (LineFault.Cause cause) → r.cause_behind (drafted reading.old) (says line.entry.now) ≡ Some cause }
{
    match read_line(alloc, line) {
        Ok(None) => Ok(()),
        Ok(Some(statement)) => add_statement(alloc, reading, statement),
        Err(fault) => Err(fault),
    }
}

/// Adds what lines say, or gives the first that has a cause.
fn add_lines<'a>(
    alloc: Global,
    reading: &mut Reading<'a>,
    lines: &[&'a [u8]],
) -> Result<(), ScriptError>
    requires kept { IsKept reading.old }
    requires empty { drafted reading.old ≡ spec.nothing }
    ensures none { OnOk result (r.first_fault [] (map (λ l. l.now) lines.entry.now) ≡ None) }
    ensures script { OnOk result (drafted reading.new ≡ r.script_of (map (λ l. l.now) lines.entry.now)) }
    ensures fault { (line cause : ℕ) → IsErrOf result (ScriptError.At line cause) → r.first_fault [] (map (λ l. l.now) lines.entry.now) ≡ Some (line, cause) }
{
    for (i, line) in lines.iter().enumerate() {
        match add_line(alloc, reading, *line) {
            Ok(()) => {}
            Err(LineFault::Cause(cause)) => return Err(ScriptError::At(i as u64 + 1, cause)),
            Err(LineFault::Memory) => return Err(ScriptError::Memory),
        }
    }
    Ok(())
}

/// The script that was read.
fn finish(alloc: Global, reading: Reading<'_>) -> Result<Script, AllocError>
    ensures { IfOk result (λ s. s ≡ drafted reading.entry) }
{
    let tenants = all_finished(alloc, reading.tenants)?;
    Ok(Script {
        fabrics: Items::from_vec(reading.fabrics),
        tenants: Items::from_vec(tenants),
        free: Items::from_vec(reading.free),
    })
}

/// The script that was read to its end, behind which the line of a number is the first; unless it has
/// no fabric or no tenant.
fn close(alloc: Global, reading: Reading<'_>, line: u64) -> Result<Script, ScriptError>
    ensures whole { OnOk result (r.is_bare (drafted reading.entry) ≡ false) }
    ensures read { IfOk result (λ s. s ≡ drafted reading.entry) }
    ensures bare { (at cause : ℕ) → IsErrOf result (ScriptError.At at cause) → r.is_bare (drafted reading.entry) ≡ true }
    ensures fault { (at cause : ℕ) → IsErrOf result (ScriptError.At at cause) → (at ≡ line) × (cause ≡ 9) }
{
    if reading.fabrics.is_empty() || reading.tenants.is_empty() {
        return Err(ScriptError::At(line, 9));
    }
    match finish(alloc, reading) {
        Ok(script) => Ok(script),
        Err(_) => Err(ScriptError::Memory),
    }
}

/// Reads a script: what it declares, or its first line that has a cause, with the least of its causes.
pub fn read_script(alloc: Global, bytes: &[u8]) -> Result<Script, ScriptError>
    ensures read { IfOk result (λ s. r.reading bytes.now ≡ Ok s) }
    ensures fault { (line cause : ℕ) → IsErrOf result (ScriptError.At line cause) → r.reading bytes.now ≡ Err (line, cause) }
{
    let Ok(lines) = lines(alloc, bytes) else {
        return Err(ScriptError::Memory);
    };
    let mut reading = begin(alloc);
    match add_lines(alloc, &mut reading, &lines) {
        Ok(()) => close(alloc, reading, lines.len() as u64 + 1),
        Err(error) => Err(error),
    }
}
