//! What is due for a command.

ghost use Rattle.std.specs.Prelude.{◌≡◌, ◌≢◌, ◌≤◌, ℕ, List, [], length, IfOk, OnOk, if◌then◌else◌, Ok, Some};
ghost use Rattle.host_form.specs.fab_io.specs.Memory as m;
ghost use Rattle.host_form.specs.fab_io.specs.Outside.{IsTold};
ghost use Rattle.host_text.specs.Reading.{reading};
ghost use Rattle.host_files.specs.Reading.{counts_of, IsAvailable};
ghost use Rattle.host_check.specs.Checks.{IsCheck};
ghost use Rattle.host_demo.specs.Summary as s;
ghost use Rattle.host_run.specs.Demos.{IsSummed, IsShown};
ghost use Rattle.host_run.specs.Words.{command_of, Run, Check};
ghost use Rattle.host_run.specs.Said.{command_in, CanBeRun};
ghost use Rattle.host_run.specs.Lines as l;
ghost use Rattle.host_run.specs.Due.{most_script};
ghost use Rattle.host_run.specs.Dues.{IsDueBy, IsOnly, KeepsNothing, CanBeWritten};

use crate::lines;
use crate::reported::Reported;
use crate::run::run_script;
use crate::words::Command;
use fab_rounds::closed::Closed;
use host_check::check::{Checked, check};
use host_demo::laws::the_demonstration_can_be_run;
use host_demo::script::script_text;
use host_demo::store::store_of;
use host_demo::summary::summary;
use host_files::kept::Kept;
use host_files::load::load;
use host_files::loaded::LoadError;
use host_form::gate::Gate;
use host_form::steady_store::SteadyStore;
use host_form::store::{ReadError, Store};
use host_text::Items;
use host_text::read::read_script;
use host_text::script::{Script, ScriptError, TenantLine};
use host_text::text_laws::{a_script_keeps_to_its_limits, words_of_a_script_are_spelt};
use std::alloc::{AllocError, Global};
use std::sync::Wait;
use std::thread::Threads;

/// The most bytes that are read of a script.
const MOST_SCRIPT: u64 = 1_048_576;

/// The most bytes that are read of a source.
const MOST_SOURCE: u64 = 2_097_152;

/// What is due: a text, with a status; the snapshots of tenants; and the bays of fabrics.
#[derive(Drop)]
pub(crate) struct Due {
    /// The status.
    pub(crate) status: u8,
    /// The text.
    pub(crate) text: Vec<u8>,
    /// The tenants; none where nothing was run.
    pub(crate) tenants: Items<TenantLine>,
    /// What each keeps.
    pub(crate) kept: Vec<Option<Kept>>,
    /// The bays.
    pub(crate) bays: Vec<Closed>,
}

/// A text, of a call in which nothing was run.
fn only(alloc: Global, status: u8, text: Vec<u8>) -> Due
    ensures { IsOnly status text.items result }
{
    Due {
        status,
        text,
        tenants: Items::new(alloc),
        kept: Vec::new(alloc),
        bays: Vec::new(alloc),
    }
}

/// What is due for a script that was run.
fn due_of_run(script: Script, reported: Reported) -> Due
    ensures status { result.status ≡ (if reported.refused then 3 else 0) }
    ensures text { result.text ≡ reported.text }
    ensures tenants { result.tenants ≡ script.tenants }
    ensures kept { result.kept ≡ reported.kept }
    ensures bays { result.bays ≡ reported.bays }
{
    let Script { tenants, .. } = script;
    let Reported {
        refused,
        text,
        kept,
        bays,
        ..
    } = reported;
    Due {
        status: if refused { 3 } else { 0 },
        text,
        tenants,
        kept,
        bays,
    }
}

/// What is due for a script that has a reading.
fn due_of_script<R: Threads + Wait + Sync, S: Store, G: Gate + Sync>(
    rt: &R,
    alloc: Global,
    gate: &G,
    script: Script,
    store: &mut S,
) -> Result<Due, AllocError>
    requires { (bytes : List ℕ) × (reading bytes ≡ Ok script) }
    ensures told { S.told store.new ≡ S.told store.old }
    ensures faults { S.faults store.old ≤ S.faults store.new }
    ensures absences { S.absences store.old ≤ S.absences store.new }
    ensures due { IfOk result (λ d. (words : List (List ℕ)) (path bytes : List ℕ) → command_of words ≡ Some (Run path) → IsTold (S.told store.old) path bytes → length bytes ≤ most_script →
        reading bytes ≡ Ok script → IsDueBy (S.told store.old) (counts_of (S.faults store.old) (S.absences store.old)) (counts_of (S.faults store.new) (S.absences store.new)) (S.missed store.old) (S.missed store.new) words d) }
    ensures written { IfOk result CanBeWritten }
{
    a_script_keeps_to_its_limits();
    words_of_a_script_are_spelt();
    match load(alloc, &script, store) {
        Ok(loaded) => {
            let reported = run_script(rt, alloc, gate, &script, loaded)?;
            Ok(due_of_run(script, reported))
        }
        Err(LoadError::Unread(path, why)) => {
            let line = lines::unread(alloc, path.as_slice(), why)?;
            Ok(only(alloc, 5, line))
        }
        Err(LoadError::Memory) => Err(AllocError),
    }
}

/// What is due for the bytes of a script.
fn due_of_bytes<R: Threads + Wait + Sync, S: Store, G: Gate + Sync>(
    rt: &R,
    alloc: Global,
    gate: &G,
    bytes: &[u8],
    store: &mut S,
) -> Result<Due, AllocError>
    requires { length bytes.now ≤ most_script }
    ensures told { S.told store.new ≡ S.told store.old }
    ensures faults { S.faults store.old ≤ S.faults store.new }
    ensures absences { S.absences store.old ≤ S.absences store.new }
    ensures due { IfOk result (λ d. (words : List (List ℕ)) (path : List ℕ) → command_of words ≡ Some (Run path) → IsTold (S.told store.old) path bytes.now →
        IsDueBy (S.told store.old) (counts_of (S.faults store.old) (S.absences store.old)) (counts_of (S.faults store.new) (S.absences store.new)) (S.missed store.old) (S.missed store.new) words d) }
    ensures written { IfOk result CanBeWritten }
{
    match read_script(alloc, bytes) {
        Ok(script) => due_of_script(rt, alloc, gate, script, store),
        Err(ScriptError::At(line, cause)) => Ok(only(alloc, 4, lines::fault(alloc, line, cause)?)),
        Err(ScriptError::Memory) => Err(AllocError),
    }
}

/// What is due where the file at a path was not read, for this.
fn due_of_unread(alloc: Global, path: &[u8], why: ReadError) -> Result<Due, AllocError>
    ensures why { OnOk result (why ≢ ReadError.Memory) }
    ensures only { IfOk result (IsOnly 5 (l.unread path.now why)) }
    ensures written { IfOk result CanBeWritten }
{
    if why == ReadError::Memory {
        return Err(AllocError);
    }
    Ok(only(alloc, 5, lines::unread(alloc, path, why)?))
}

/// What is due for the script at a path.
fn due_of_path<R: Threads + Wait + Sync, S: Store, G: Gate + Sync>(
    rt: &R,
    alloc: Global,
    gate: &G,
    path: &str,
    store: &mut S,
) -> Result<Due, AllocError>
    ensures told { S.told store.new ≡ S.told store.old }
    ensures faults { S.faults store.old ≤ S.faults store.new }
    ensures absences { S.absences store.old ≤ S.absences store.new }
    ensures due { IfOk result (λ d. (words : List (List ℕ)) → command_of words ≡ Some (Run path.now) →
        IsDueBy (S.told store.old) (counts_of (S.faults store.old) (S.absences store.old)) (counts_of (S.faults store.new) (S.absences store.new)) (S.missed store.old) (S.missed store.new) words d) }
    ensures written { IfOk result CanBeWritten }
{
    match store.read(alloc, path, MOST_SCRIPT) {
        Ok(bytes) => due_of_bytes(rt, alloc, gate, &bytes, store),
        Err(why) => due_of_unread(alloc, path.as_bytes(), why),
    }
}

/// What is due for the bytes of a source.
fn due_of_source(alloc: Global, bytes: &[u8]) -> Result<Due, AllocError>
    ensures only { IfOk result (λ d. IsOnly d.status d.text.items d) }
    ensures check { IfOk result (λ d. IsCheck bytes.now d.status d.text.items) }
    ensures written { IfOk result CanBeWritten }
{
    let Checked { status, text } = check(alloc, bytes)?;
    Ok(only(alloc, status, text))
}

/// What is due for the source at a path.
fn due_of_source_path<S: Store>(alloc: Global, path: &str, store: &mut S) -> Result<Due, AllocError>
    ensures told { S.told store.new ≡ S.told store.old }
    ensures faults { S.faults store.old ≤ S.faults store.new }
    ensures absences { S.absences store.old ≤ S.absences store.new }
    ensures due { IfOk result (λ d. (words : List (List ℕ)) → command_of words ≡ Some (Check path.now) →
        IsDueBy (S.told store.old) (counts_of (S.faults store.old) (S.absences store.old)) (counts_of (S.faults store.new) (S.absences store.new)) (S.missed store.old) (S.missed store.new) words d) }
    ensures written { IfOk result CanBeWritten }
{
    match store.read(alloc, path, MOST_SOURCE) {
        Ok(bytes) => due_of_source(alloc, &bytes),
        Err(why) => due_of_unread(alloc, path.as_bytes(), why),
    }
}

/// What is due for the demonstration that was run.
fn due_of_summary(alloc: Global, reported: Reported) -> Result<Due, AllocError>
    ensures text { IfOk result (λ d. d.text.items ≡ s.summary reported.blocks.items) }
    ensures bays { IfOk result (λ d. d.bays.items ≡ reported.bays.items) }
    ensures nothing { IfOk result KeepsNothing }
{
    let Reported { blocks, bays, .. } = reported;
    let text = summary(alloc, &blocks)?;
    Ok(Due {
        status: 0,
        text,
        tenants: Items::new(alloc),
        kept: Vec::new(alloc),
        bays,
    })
}

/// What is due for the script of the demonstration.
fn due_of_demo_script<R: Threads + Wait + Sync, G: Gate + Sync>(
    rt: &R,
    alloc: Global,
    gate: &G,
    script: &Script,
    store: &mut SteadyStore,
) -> Result<Due, AllocError>
    requires read { (bytes : List ℕ) × (reading bytes ≡ Ok script.now) }
    requires available { IsAvailable (m.files_of store.old.files) script.now }
    ensures summed { IfOk result (λ d. (bytes : List ℕ) → reading bytes ≡ Ok script.now → IsSummed (m.files_of store.old.files) bytes d.text.items d.bays.items) }
    ensures nothing { IfOk result KeepsNothing }
{
    a_script_keeps_to_its_limits();
    words_of_a_script_are_spelt();
    match load(alloc, script, store) {
        Ok(loaded) => {
            let reported = run_script(rt, alloc, gate, script, loaded)?;
            due_of_summary(alloc, reported)
        }
        Err(LoadError::Unread(_, _)) => unreachable!(),
        Err(LoadError::Memory) => Err(AllocError),
    }
}

/// What is due for the bytes of the script of the demonstration.
fn due_of_demo_bytes<R: Threads + Wait + Sync, G: Gate + Sync>(
    rt: &R,
    alloc: Global,
    gate: &G,
    bytes: &[u8],
    store: &mut SteadyStore,
) -> Result<Due, AllocError>
    requires { (script : Script) × (reading bytes.now ≡ Ok script) × IsAvailable (m.files_of store.old.files) script }
    ensures summed { IfOk result (λ d. IsSummed (m.files_of store.old.files) bytes.now d.text.items d.bays.items) }
    ensures nothing { IfOk result KeepsNothing }
{
    match read_script(alloc, bytes) {
        Ok(script) => due_of_demo_script(rt, alloc, gate, &script, store),
        Err(ScriptError::At(_, _)) => unreachable!(),
        Err(ScriptError::Memory) => Err(AllocError),
    }
}

/// What is due for the demonstration with so many tenants.
fn due_of_demo<R: Threads + Wait + Sync, G: Gate + Sync>(
    rt: &R,
    alloc: Global,
    gate: &G,
    tenants: u32,
) -> Result<Due, AllocError>
    requires some { 1 ≤ tenants }
    requires few { tenants ≤ 32 }
    ensures shown { IfOk result (λ d. IsShown tenants d.text.items d.bays.items) }
    ensures nothing { IfOk result KeepsNothing }
{
    the_demonstration_can_be_run();
    let text = script_text(alloc, tenants)?;
    let mut store = store_of(alloc, tenants)?;
    due_of_demo_bytes(rt, alloc, gate, &text, &mut store)
}

/// What is due for a command.
pub(crate) fn due_for<R: Threads + Wait + Sync, S: Store, G: Gate + Sync>(
    rt: &R,
    alloc: Global,
    gate: &G,
    command: Command<'_>,
    store: &mut S,
) -> Result<Due, AllocError>
    requires { CanBeRun command }
    ensures told { S.told store.new ≡ S.told store.old }
    ensures faults { S.faults store.old ≤ S.faults store.new }
    ensures absences { S.absences store.old ≤ S.absences store.new }
    ensures due { IfOk result (λ d. (words : List (List ℕ)) → command_of words ≡ Some (command_in command.entry) →
        IsDueBy (S.told store.old) (counts_of (S.faults store.old) (S.absences store.old)) (counts_of (S.faults store.new) (S.absences store.new)) (S.missed store.old) (S.missed store.new) words d) }
    ensures written { IfOk result CanBeWritten }
{
    match command {
        Command::Run(path) => due_of_path(rt, alloc, gate, path, store),
        Command::Check(path) => due_of_source_path(alloc, path, store),
        Command::Demo(tenants) => due_of_demo(rt, alloc, gate, tenants),
    }
}
