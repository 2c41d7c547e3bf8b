//! Workers: what a thread does at the desk of its fabric.

ghost use Rattle.std.specs.Prelude.{◌≡◌, ◌<◌, ℕ, [], All, IfOk, slice_index_or, vec_len};
ghost use Rattle.fab_rounds.specs.declared.workers.Worker.{Worker as AnyWorker};
ghost use Rattle.fab_rounds.specs.Ledgers.{IsAtDesk, IsTurned, IsWorker, Steps};

use fab_desk::desk::{Desk, DeskSeat};
use fab_desk::leaving::Leaving;
use fab_io::gate::Gate;
use std::alloc::{AllocError, Global};
use std::sync::Wait;
use std::thread::Threads;
use std::{mem, thread};

/// The cycles of a turn, at most.
const TURN: u64 = 4096;

/// A seat at the desk of a fabric, with the tenants that came out at it, turn by turn; how many turns it took; and whether memory ran out.
#[derive(Drop)]
pub(crate) struct Worker {
    pub(crate) fabric: u32,
    pub(crate) seat: DeskSeat,
    pub(crate) out: Vec<Vec<Leaving>>,
    pub(crate) turns: u64,
    pub(crate) failed: bool,
}

/// The workers, in the order of the fabrics.
#[derive(Drop)]
pub(crate) struct Crew {
    pub(crate) workers: Vec<Worker>,
}

impl Worker {
    /// One turn, once the gate is passed. False where the desk was idle, or memory ran out.
    fn step<R: Wait, G: Gate>(&mut self, rt: &R, alloc: Global, gate: &G, desk: &Desk) -> bool
        requires { IsWorker desk.now self.old }
        ensures { Steps desk.now self.old self.new }
    {
        self.turns = self.turns.saturating_add(1);
        gate.pass(self.fabric, self.turns);
        self.failed = true;
        let Worker {
            seat,
            out,
            failed,
            ..
        } = self;
        if out.reserve(1).is_err() {
            return false;
        }
        let Ok(turn) = desk.turn(rt, alloc, seat, TURN) else {
            return false;
        };
        out.push_reserved(turn.leaving);
        *failed = turn.short;
        !turn.short && !turn.idle
    }

    /// Hands over what came out.
    pub(crate) fn emptied(&mut self, alloc: Global) -> Vec<Vec<Leaving>>
        ensures out { result.items ≡ self.old.out.items }
        ensures empty { self.new.out.items ≡ [] }
        ensures seat { self.new.seat ≡ self.old.seat }
        ensures fabric { self.new.fabric ≡ self.old.fabric }
    {
        mem::replace(&mut self.out, Vec::new(alloc))
    }
}

/// Takes turns at the desk of its fabric until that is idle.
fn work<R: Wait, G: Gate>(rt: &R, alloc: Global, gate: &G, desks: &[Desk], worker: Worker) -> Worker
    requires { IsAtDesk desks.now worker }
    ensures { IsTurned desks.now worker result }
{
    let mut worker = worker;
    let place = worker.fabric as usize;
    for _ in rt.forever() {
        if !worker.step(rt, alloc, gate, &desks[place]) {
            break;
        }
    }
    worker
}

/// A thread for each worker. An `Err` is want of memory alone.
pub(crate) fn turned<R: Threads + Wait + Sync, G: Gate + Sync>(
    rt: &R,
    alloc: Global,
    gate: &G,
    desks: &[Desk],
    crew: Crew,
) -> Result<Crew, AllocError>
    requires { All (IsAtDesk desks.now) crew.workers.items }
    ensures count { IfOk result (λ v. vec_len v.workers ≡ vec_len crew.workers) }
    ensures each { IfOk result (λ v. (i : ℕ) (d : AnyWorker) → i < vec_len crew.workers → IsTurned desks.now (slice_index_or crew.workers.items i d) (slice_index_or v.workers.items i d)) }
{
    let workers = thread::map_vec(
        rt,
        crew.workers,
        &|worker| { work(rt, alloc, gate, desks, worker) },
    )?;
    Ok(Crew { workers })
}
