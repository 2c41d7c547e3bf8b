//! The program over a store and a sink that never fail.

ghost use Rattle.std.specs.Prelude.{◌≡◌, ◌≢◌, ◌⊎◌, [], map};
ghost use Rattle.std.specs.String.{string_bytes};
ghost use Rattle.host_form.specs.fab_io.specs.Memory.{told_files};
ghost use Rattle.host_run.specs.Claims.{IsCheckable, IsFaulty, IsServed};

use crate::bays::Bays;
use crate::host::host;
use host_form::gate::Gate;
use host_form::steady_sink::SteadySink;
use host_form::steady_store::SteadyStore;
use std::alloc::Global;
use std::sync::Wait;
use std::thread::Threads;

/// `host` over a store and a sink in memory that never fail: whoever has told it all files that the words name is answered 0, 3 or 4, or 7 for
/// want of memory, and never 5 or 6.
pub fn host_in_memory<R: Threads + Wait + Sync, G: Gate + Sync>(
    rt: &R,
    alloc: Global,
    words: &[String],
    store: &mut SteadyStore,
    sink: &mut SteadySink,
    gate: &G,
    bays: &mut Bays,
) -> u8
    requires { bays.old ≡ [] }
    ensures complete { IsServed (told_files store.old.files) (map string_bytes words.now) ⊎ IsCheckable (told_files store.old.files) (map string_bytes words.now) →
        (result ≡ 0) ⊎ ((result ≡ 3) ⊎ (result ≡ 7)) }
    ensures faulty { IsFaulty (told_files store.old.files) (map string_bytes words.now) → (result ≡ 4) ⊎ (result ≡ 7) }
    ensures steady { result ≢ 6 }
{
    host(rt, alloc, words, store, sink, gate, bays)
}
