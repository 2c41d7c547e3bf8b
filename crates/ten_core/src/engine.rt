//! Engines.

ghost use Rattle.std.specs.Prelude.{IsTrue, ◌≡◌, ◌↔◌, ◌+◌, ◌<◌, ◌^◌, ℕ, suc, List, true, false, if◌then◌else◌, OnOk, OnErr, slice_get, slice_index, vec_len, vec_capacity, ◌++◌};
ghost use Rattle.std.specs.Arc.{arc_value};
ghost use Rattle.vl_design.specs.Alone.{Origin as Alone};
ghost use Rattle.trap_runtime.specs.cell_form.specs.Data.{BankData};
ghost use Rattle.trap_runtime.specs.cell_form.specs.Sound.{shape_of};
ghost use Rattle.trap_runtime.specs.cell_form.specs.States.{table_cycled};
ghost use Rattle.trap_runtime.specs.cell_form.specs.Views.{bank_of};
ghost use Rattle.trap_runtime.specs.Served.{takes_memory, way_of};
ghost use Rattle.ten_form.specs.sub_nodes.specs.Code.{table_of};
ghost use Rattle.ten_form.specs.sub_nodes.specs.Cycles.{Stage, rises};
ghost use Rattle.ten_form.specs.sub_nodes.specs.Stands.{at_trap};
ghost use Rattle.ten_form.specs.Registers.{state_register};
ghost use Rattle.ten_form.specs.Works.{saved};
ghost use Rattle.ten_core.specs.Memory.{serving_takes_memory};
ghost use Rattle.ten_core.specs.Tenants.{table_in, tenant_of};
ghost use Rattle.ten_core.specs.Runs.{after_cycle, after_call, IsAt, IsTame, Runs};

use crate::banks::go_to;
use crate::origin::Origin;
use crate::states::{has_call, next_call, step};
use std::alloc::{AllocError, Global};
use std::sync::Arc;
use ten_files::table::Table;
use ten_form::image_laws::a_cycle_of_states_is_one_of_nodes;
use trap_runtime::Bank;
use trap_runtime::serve::serve;
use trap_runtime::served::Served;
use trap_runtime::table::TrapCall;
use vl_design::Text;

/// An engine: a run of a design on the states of its image, behind time zero's wave, without the bank that it runs on.
#[derive(Drop)]
pub struct Engine {
    /// What the run starts from.
    pub origin: Arc<Origin, Global>,
    /// The files that it has open.
    pub open: Table,
    /// The bytes printed.
    pub printed: Vec<u8>,
    /// The names of the snapshots asked for in this tick, in order.
    pub asked: Vec<Text>,
    /// The ticks begun.
    pub ticks: u64,
    /// The acts done so far: cycles that came to no call, and calls served.
    pub cycles: u64,
    /// The number of the state that is next.
    pub next: u32,
    /// A call is next, which is to be served.
    pub waits: bool,
    /// A `$finish` was done.
    pub finished: bool,
}

/// The run ends with the call: `$finish`.
fn is_end(way: &Served) -> bool
    ensures { IsTrue result ↔ way.now ≡ Served.Finish }
{
    match way {
        Served::Finish => true,
        _ => false,
    }
}

/// Makes room for the name of a snapshot, where the call asks for one. No other call needs room.
fn make_room(asked: &mut Vec<Text>, call: &TrapCall) -> Result<(), AllocError>
    ensures room { OnOk result ((name : List ℕ) → way_of call.now ≡ Served.Save name → vec_len asked.new < vec_capacity asked.new) }
    ensures same { asked.new.items ≡ asked.old.items }
    ensures memory { OnErr result (takes_memory call.now ≡ true) }
{
    match call {
        TrapCall::Save(_) => asked.reserve(1),
        _ => Ok(()),
    }
}

/// Keeps the name of the snapshot that the call asked for. There is room for it.
fn ask(asked: &mut Vec<Text>, way: Served)
    requires { (name : List ℕ) → way ≡ Served.Save name → vec_len asked.old < vec_capacity asked.old }
    ensures { asked.new.items ≡ asked.old.items ++ saved way }
{
    if let Served::Save(name) = way {
        asked.push_reserved(name);
    }
}

impl Engine {
    /// One cycle of the bank: the number of the state that is next behind it. It takes no memory.
    pub fn drive(&self, bank: &mut Bank) -> u32
        requires runs { Runs (tenant_of self.now (bank_of bank.old)) }
        requires no_call { self.now.waits ≡ false }
        requires goes_on { self.now.finished ≡ false }
        requires ticks { self.now.ticks + 1 < 2 ^ 32 }
        ensures bank { bank_of bank.new ≡ table_cycled (table_in self.now) (bank_of bank.old) }
        ensures next { result ≡ slice_index bank.new.regs.items state_register }
    {
        a_cycle_of_states_is_one_of_nodes();
        let table = &self.origin.image.table;
        step(table, bank);
        bank.regs[table.state as usize] as u32
    }

    /// Behind a cycle of its bank, in which the state of this number is next: the next act of the run is done, unless that is a call,
    /// which then waits to be served. It takes no memory.
    pub fn stepped(&mut self, next: u32)
        requires runs { (b : BankData) × Runs (tenant_of self.old b) × (next ≡ slice_index (table_cycled (table_in self.old) b).regs state_register) }
        requires no_call { self.old.waits ≡ false }
        requires goes_on { self.old.finished ≡ false }
        requires ticks { self.old.ticks + 1 < 2 ^ 32 }
        requires cycles { self.old.cycles + 1 < 2 ^ 64 }
        ensures at { (b : BankData) (o : Alone) (order : List ℕ) (c : ℕ) (i : Stage) → next ≡ slice_index (table_cycled (table_in self.old) b).regs state_register →
            IsTame o order → IsAt o order (tenant_of self.old b) c i →
            IsAt o order (tenant_of self.new (table_cycled (table_in self.old) b)) (if self.new.waits then c else suc c) (after_cycle o order i) }
        ensures origin { self.new.origin ≡ self.old.origin }
    {
        a_cycle_of_states_is_one_of_nodes();
        if self.at_boundary() {
            self.asked.clear();
            self.ticks += 1;
        }
        self.next = next;
        self.waits = has_call(&self.origin.image.table, next);
        if !self.waits {
            self.cycles += 1;
        }
    }

    /// Serves the call that waits, which is the next act of the run. Want of memory leaves all as it was, and is the answer only of a call
    /// that takes memory.
    pub fn serve(&mut self, alloc: Global, bank: &mut Bank) -> Result<(), AllocError>
        requires runs { Runs (tenant_of self.old (bank_of bank.old)) }
        requires waits { self.old.waits ≡ true }
        requires cycles { self.old.cycles + 1 < 2 ^ 64 }
        ensures ok { OnOk result ((o : Alone) (order : List ℕ) (c : ℕ) (i : Stage) → IsTame o order → IsAt o order (tenant_of self.old (bank_of bank.old)) c i →
            IsAt o order (tenant_of self.new (bank_of bank.new)) (suc c) (after_call o i)) }
        ensures err { OnErr result (tenant_of self.new (bank_of bank.new) ≡ tenant_of self.old (bank_of bank.old)) }
        ensures memory { OnErr result ((o : Alone) (order : List ℕ) (c : ℕ) (i : Stage) → IsTame o order → IsAt o order (tenant_of self.old (bank_of bank.old)) c i →
            serving_takes_memory o.flat i ≡ true) }
        ensures origin { self.new.origin ≡ self.old.origin }
        ensures shape { shape_of (bank_of bank.new) ≡ shape_of (bank_of bank.old) }
    {
        let (trap, next) = next_call(&self.origin.image.table, bank);
        make_room(&mut self.asked, &trap.call)?;
        let way = serve(
            alloc,
            trap,
            bank,
            &self.origin.files,
            &mut self.open,
            &mut self.printed,
        )?;
        go_to(bank, self.origin.image.table.state, next);
        self.next = next;
        self.finished = is_end(&way);
        ask(&mut self.asked, way);
        self.waits = false;
        self.cycles += 1;
        Ok(())
    }

    /// A call waits to be served.
    pub fn at_trap(&self) -> bool
        ensures { (b : BankData) (o : Alone) (order : List ℕ) (c : ℕ) (i : Stage) → IsAt o order (tenant_of self.now b) c i →
            result ≡ at_trap (table_of o.flat) i }
    {
        self.waits
    }

    /// The run is at a boundary: the clock rises next.
    pub fn at_boundary(&self) -> bool
        ensures { (b : BankData) (o : Alone) (order : List ℕ) (c : ℕ) (i : Stage) → IsAt o order (tenant_of self.now b) c i →
            result ≡ rises (slice_get (table_of o.flat).nodes i.node) }
    {
        self.next == self.origin.image.rise
    }

    /// The ticks begun.
    pub fn ticks(&self) -> u64
        ensures { (b : BankData) (o : Alone) (order : List ℕ) (c : ℕ) (i : Stage) → IsAt o order (tenant_of self.now b) c i → result ≡ i.state.ticks }
    {
        self.ticks
    }

    /// The acts done so far.
    pub fn cycles(&self) -> u64
        ensures { (b : BankData) (o : Alone) (order : List ℕ) (c : ℕ) (i : Stage) → IsAt o order (tenant_of self.now b) c i → result ≡ c }
    {
        self.cycles
    }

    /// The bytes printed so far.
    pub fn printed(&self) -> &[u8]
        ensures { (b : BankData) (o : Alone) (order : List ℕ) (c : ℕ) (i : Stage) → IsAt o order (tenant_of self.now b) c i → result.now ≡ i.state.printed }
    {
        self.printed.as_slice()
    }

    /// The run has finished: a `$finish` was done.
    pub fn done(&self) -> bool
        ensures { (b : BankData) (o : Alone) (order : List ℕ) (c : ℕ) (i : Stage) → IsAt o order (tenant_of self.now b) c i → result ≡ i.state.finished }
    {
        self.finished
    }
}
