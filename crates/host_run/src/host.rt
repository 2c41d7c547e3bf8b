//! The one public call of the program.

ghost use Rattle.std.specs.Prelude.{◌≡◌, ◌≤◌, ◌⊎◌, ℕ, List, [], map, None, Some};
ghost use Rattle.std.specs.String.{string_bytes};
ghost use Rattle.host_form.specs.fab_io.specs.Outside.{HasRisen};
ghost use Rattle.host_run.specs.Words.{command_of, Run, Check, Demo};
ghost use Rattle.host_run.specs.Due.{around, Outcome, Wrote};
ghost use Rattle.host_run.specs.Dues.{writes_due, CanBeWritten};
ghost use Rattle.host_run.specs.Statuses as w;
ghost use Rattle.host_run.specs.Claims.{HasReported, HasJudged, HasShown, IsMisused, HasMisread, HasMissed, HasFailed, IsServed, IsFaulty, IsCheckable, IsStarved};

use crate::bays::Bays;
use crate::due::{Due, due_for};
use crate::lines;
use crate::matches::command;
use crate::put::put;
use crate::words::is_command;
use host_files::write::write_all;
use host_form::gate::Gate;
use host_form::sink::Sink;
use host_form::store::{Store, WriteError};
use std::alloc::Global;
use std::sync::Wait;
use std::thread::Threads;

/// The status of a call behind a write.
fn status_of(written: Result<(), WriteError>, status: u8) -> u8
    ensures { result ≡ w.status_of written status }
{
    match written {
        Ok(()) => status,
        Err(WriteError::Failed) => 6,
        Err(WriteError::Memory) => 7,
    }
}

/// Hands out the bays, and writes what is due: the text, and then the snapshots.
fn write_due<S: Store, K: Sink>(
    alloc: Global,
    due: Due,
    store: &mut S,
    sink: &mut K,
    bays: &mut Bays,
) -> u8
    requires { CanBeWritten due }
    ensures faults { S.faults store.old ≤ S.faults store.new }
    ensures absences { S.absences store.new ≡ S.absences store.old }
    ensures missed { S.missed store.new ≡ S.missed store.old }
    ensures bays { bays.new ≡ due.bays.items }
    ensures wrote { Wrote due.text.items due.status (writes_due due) (around S.Store K.Sink store.old sink.old) (around S.Store K.Sink store.new sink.new) result }
{
    let Due {
        status,
        text,
        tenants,
        kept,
        bays: held,
    } = due;
    bays.hold(held);
    if let Err(error) = put(sink, &text) {
        return status_of(Err(error), status);
    }
    status_of(write_all(alloc, tenants.as_slice(), kept, store), status)
}

/// Serves the words.
fn serve<R: Threads + Wait + Sync, S: Store, K: Sink, G: Gate + Sync>(
    rt: &R,
    alloc: Global,
    words: &[String],
    store: &mut S,
    sink: &mut K,
    gate: &G,
    bays: &mut Bays,
) -> u8
    requires { bays.old ≡ [] }
    ensures { Outcome (map string_bytes words.now) (around S.Store K.Sink store.old sink.old) (around S.Store K.Sink store.new sink.new) bays.new result }
{
    if !is_command(words) {
        return status_of(put(sink, lines::usage()), 2);
    }
    let Ok(said) = command(alloc, words) else {
        return 7;
    };
    match due_for(rt, alloc, gate, said, store) {
        Ok(due) => write_due(alloc, due, store, sink, bays),
        Err(_) => 7,
    }
}

/// Runs the program: `run SCRIPT` runs the tenants of the script at that path on its fabrics, and reports. Each snapshot that a tenant's run
/// keeps is written to the store as `TENANT.NAME` behind the report. The bays of the fabrics, with their histories, are handed out in `bays`, which is
/// empty before. `check SOURCE` says what the design of the source at that path costs, or where and for what it is refused.
/// `demo N`, with N from 1 to 32 in one or two digits, runs the demonstration with N tenants over its own sources, hands out its bays too, and
/// prints a line for each tenant; it reads no file and writes none.
///
/// The answer is the exit status: 0 where the script or the demonstration was run or the source is accepted, 2 where the words are no command, 3 where the script was run and
/// a tenant is refused, or the source is refused, 4 where the script has a fault, 5 where a file was not read, 6 where the sink or the store failed in a
/// write, 7 for want of memory. It may wait.
pub fn host<R: Threads + Wait + Sync, S: Store, K: Sink, G: Gate + Sync>(
    rt: &R,
    alloc: Global,
    words: &[String],
    store: &mut S,
    sink: &mut K,
    gate: &G,
    bays: &mut Bays,
) -> u8
    requires { bays.old ≡ [] }
    // What the sink has taken, which files are told, and which bays are handed out, status by status.
    ensures ran { (path : List ℕ) → command_of (map string_bytes words.now) ≡ Some (Run path) → (result ≡ 0) ⊎ (result ≡ 3) →
        HasReported (map string_bytes words.now) (around S.Store K.Sink store.old sink.old) (around S.Store K.Sink store.new sink.new) bays.new result }
    ensures checked { (path : List ℕ) → command_of (map string_bytes words.now) ≡ Some (Check path) → (result ≡ 0) ⊎ (result ≡ 3) →
        HasJudged (map string_bytes words.now) (around S.Store K.Sink store.old sink.old) (around S.Store K.Sink store.new sink.new) bays.new result }
    ensures shown { (tenants : ℕ) → command_of (map string_bytes words.now) ≡ Some (Demo tenants) → result ≡ 0 →
        HasShown tenants (around S.Store K.Sink store.old sink.old) (around S.Store K.Sink store.new sink.new) bays.new }
    ensures misused { result ≡ 2 → IsMisused (map string_bytes words.now) (around S.Store K.Sink store.old sink.old) (around S.Store K.Sink store.new sink.new) bays.new }
    ensures misread { result ≡ 4 → HasMisread (map string_bytes words.now) (around S.Store K.Sink store.old sink.old) (around S.Store K.Sink store.new sink.new) bays.new }
    ensures missed { result ≡ 5 → HasMissed (map string_bytes words.now) (around S.Store K.Sink store.old sink.old) (around S.Store K.Sink store.new sink.new) bays.new }
    ensures failed { result ≡ 6 → HasFailed (map string_bytes words.now) (around S.Store K.Sink store.old sink.old) (around S.Store K.Sink store.new sink.new) bays.new }
    ensures starved { result ≡ 7 → IsStarved (map string_bytes words.now) (around S.Store K.Sink store.old sink.old) (around S.Store K.Sink store.new sink.new) bays.new }

    // Which status it is.
    ensures statuses { (result ≡ 0) ⊎ ((result ≡ 2) ⊎ ((result ≡ 3) ⊎ ((result ≡ 4) ⊎ ((result ≡ 5) ⊎ ((result ≡ 6) ⊎ (result ≡ 7)))))) }
    ensures usage { command_of (map string_bytes words.now) ≡ None → (result ≡ 2) ⊎ ((result ≡ 6) ⊎ (result ≡ 7)) }
    ensures demo { (tenants : ℕ) → command_of (map string_bytes words.now) ≡ Some (Demo tenants) → (result ≡ 0) ⊎ ((result ≡ 6) ⊎ (result ≡ 7)) }
    ensures faulty { IsFaulty (S.told store.old) (map string_bytes words.now) → (HasRisen (S.faults store.old) (S.faults store.new) → ⊥)
        → (HasRisen (S.absences store.old) (S.absences store.new) → ⊥) → (result ≡ 4) ⊎ ((result ≡ 6) ⊎ (result ≡ 7)) }
    ensures complete { IsServed (S.told store.old) (map string_bytes words.now) ⊎ IsCheckable (S.told store.old) (map string_bytes words.now) → (HasRisen (S.faults store.old) (S.faults store.new) → ⊥)
        → (HasRisen (S.absences store.old) (S.absences store.new) → ⊥) → (HasRisen (K.faults sink.old) (K.faults sink.new) → ⊥)
        → (result ≡ 0) ⊎ ((result ≡ 3) ⊎ (result ≡ 7)) }
{
    serve(rt, alloc, words, store, sink, gate, bays)
}
