//! Shells.

ghost use Rattle.std.specs.Prelude.{◌≡◌, ℕ, suc, true, false, List, ◌++◌, ◌∷◌, [], OnOk, OnErr, IfOk, if◌then◌else◌, Some, None, not, ◌&&◌, ◌||◌, ◌-◌, slice_index};
ghost use Rattle.std.specs.Arc.{arc_value};
ghost use Rattle.vl_design.specs.Alone.{Boundary, first_tick, reason_at};
ghost use Rattle.vl_design.specs.declared.design.End.TheVariants.{Stopped};
ghost use Rattle.vl_design.specs.Queue.{Queue};
ghost use Rattle.ten_core.specs.cell_form.specs.Data.{BankData};
ghost use Rattle.ten_core.specs.cell_form.specs.Sound.{shape_of};
ghost use Rattle.ten_core.specs.cell_form.specs.States.{table_cycled};
ghost use Rattle.ten_core.specs.cell_form.specs.Views.{bank_of};
ghost use Rattle.ten_core.specs.sub_nodes.specs.Cycles.{Stage};
ghost use Rattle.ten_core.specs.ten_form.specs.Registers.{state_register};
ghost use Rattle.ten_core.specs.Memory.{serving_takes_memory};
ghost use Rattle.ten_core.specs.Runs.{after_cycle, after_call};
ghost use Rattle.ten_core.specs.Tenants.{table_in};
ghost use Rattle.ten_plan.specs.Plans.{move_at, AreBefore};
ghost use Rattle.ten_core.specs.Begins.{Begins};
ghost use Rattle.ten_shell.specs.Shells.{beat_of, flat_in, free_in, is_at_boundary, is_left, left_at, left_in, rests_in, run_of, waits_in, CanRunOn, IsBegunShell, IsSameTenant, IsUnchanged, MayCycle, Rests, StandsFor};
ghost use Rattle.ten_shell.specs.Leaving.{end_in, why_in, why_of};

use std::alloc::{AllocError, Global};
use ten_core::Bank;
use ten_core::engine::Engine;
use ten_core::run_laws::{
    a_run_at_rest_is_at_a_boundary, each_act_comes_nearer, ticks_and_acts_can_be_counted,
};
use ten_files::name::copy_text;
use ten_plan::held::{FreeSave, Saved};
use ten_plan::laws::errands_before_a_tick_are_done_at_it;
use ten_plan::saved::keep;
use vl_design::Text;
use vl_design::design::End;
use vl_design::laws::has_one_state_at_a_boundary;

/// What a cycle came to.
#[derive(Clone, Copy, Debug, PartialEq)]
pub enum Beat {
    /// The next act can be done.
    Ran,
    /// A call waits to be served.
    Trap,
    /// The tick has ended: the tenant is at a boundary.
    TickEnd,
}

/// Why a tenant is to leave.
#[derive(Clone, Copy, Debug, PartialEq)]
pub enum Why {
    /// Its run has ended.
    Ended(End),
    /// It moves to the fabric of this number.
    Move(u32),
}

/// A tenant without its bank.
#[derive(Drop)]
pub struct Shell {
    /// Its number, by which a script's orders name it.
    pub number: u32,
    /// Its run.
    pub engine: Engine,
    /// The snapshots that it keeps: the last of each name, in the order in which names were used first.
    pub saved: Vec<Saved>,
    /// How many of the snapshots that were asked for in the last tick are made.
    pub given: usize,
    /// How many of its errands are done.
    pub done: usize,
    /// The snapshots that were made besides, in the order in which they were made.
    pub free: Vec<FreeSave>,
    /// The move that stands at this boundary is done.
    pub moved: bool,
    /// It was stopped besides: its run has ended.
    pub stopped: bool,
}

impl Shell {
    /// The shell of an engine whose run has begun: no snapshot is made yet.
    pub fn begun(alloc: Global, number: u32, engine: Engine) -> Shell
        requires { (b : BankData) × Begins (arc_value engine.origin) engine b × CanRunOn (arc_value engine.origin) }
        ensures shell { IsBegunShell number engine result }
        ensures stands { (b : BankData) → Begins (arc_value engine.origin) engine b → CanRunOn (arc_value engine.origin) →
            (c : ℕ) × (i : Stage) × StandsFor result b c i × (is_at_boundary (flat_in result) i ≡ true) × (i.state.ticks ≡ first_tick (run_of result).resume) }
    {
        errands_before_a_tick_are_done_at_it();
        let done = engine.origin.plan.before(engine.ticks);
        Shell {
            number,
            engine,
            saved: Vec::new(alloc),
            given: 0,
            done,
            free: Vec::new(alloc),
            moved: false,
            stopped: false,
        }
    }

    /// Behind a cycle of its bank, in which the state of this number is next: the next act is done, unless that is a call, which then waits.
    /// It takes no memory.
    pub fn stepped(&mut self, next: u32) -> Beat
        requires { (b : BankData) × (c : ℕ) × (i : Stage) × StandsFor self.old b c i × MayCycle self.old i × (next ≡ slice_index (table_cycled (table_in self.old.engine) b).regs state_register) }
        ensures point { (b : BankData) (c : ℕ) (i : Stage) → (w : StandsFor self.old b c i) → MayCycle self.old i → next ≡ slice_index (table_cycled (table_in self.old.engine) b).regs state_register →
            StandsFor self.new (table_cycled (table_in self.old.engine) b) (if self.new.engine.waits then c else suc c) (after_cycle (run_of self.old) w.order i) }
        ensures beat { (b : BankData) (c : ℕ) (i : Stage) → StandsFor self.new b c i → result ≡ beat_of (flat_in self.new) i }
        ensures left { (b : BankData) (c : ℕ) (i : Stage) → (w : StandsFor self.old b c i) → MayCycle self.old i → next ≡ slice_index (table_cycled (table_in self.old.engine) b).regs state_register →
            is_at_boundary (flat_in self.old) (after_cycle (run_of self.old) w.order i) ≡ true → left_in self.new ≡ left_at (run_of self.old) (after_cycle (run_of self.old) w.order i) }
        ensures same { IsSameTenant self.old self.new }
        ensures moved { self.new.moved ≡ false }
        ensures saved { self.new.saved.items ≡ self.old.saved.items }
    {
        each_act_comes_nearer();
        ticks_and_acts_can_be_counted();
        errands_before_a_tick_are_done_at_it();
        a_run_at_rest_is_at_a_boundary();
        self.done = self.done_behind();
        self.given = 0;
        self.moved = false;
        self.engine.stepped(next);
        self.beat()
    }

    /// How many errands are done behind the next cycle: those of this tick too, where the next one begins with it.
    fn done_behind(&self) -> usize
        requires { (b : BankData) × (c : ℕ) × (i : Stage) × StandsFor self.now b c i × MayCycle self.now i }
        ensures { (b : BankData) (c : ℕ) (i : Stage) → (w : StandsFor self.now b c i) → MayCycle self.now i →
            AreBefore (run_of self.now).plan.errands (after_cycle (run_of self.now) w.order i).state.ticks result }
    {
        each_act_comes_nearer();
        if self.engine.at_boundary() {
            let plan = &self.engine.origin.plan;
            plan.past(self.done, self.engine.ticks)
        } else {
            self.done
        }
    }

    /// What a cycle came to.
    fn beat(&self) -> Beat
        ensures { (b : BankData) (c : ℕ) (i : Stage) → StandsFor self.now b c i → result ≡ beat_of (flat_in self.now) i }
    {
        if self.engine.at_trap() {
            Beat::Trap
        } else if self.engine.at_boundary() {
            Beat::TickEnd
        } else {
            Beat::Ran
        }
    }

    /// Serves the call that waits, which is the next act, or else makes the snapshot that is to be made next at this boundary. The answer is
    /// whether it was a snapshot. Want of memory leaves all as it was; of a call it is the answer only where serving it takes memory.
    pub fn serve(&mut self, alloc: Global, bank: &mut Bank) -> Result<bool, AllocError>
        requires { (c : ℕ) × (i : Stage) × StandsFor self.old (bank_of bank.old) c i × (waits_in self.old i ≡ true) }
        ensures call { OnOk result (self.old.engine.waits ≡ true → (c : ℕ) (i : Stage) → StandsFor self.old (bank_of bank.old) c i →
            StandsFor self.new (bank_of bank.new) (suc c) (after_call (run_of self.old) i)) }
        ensures save { OnOk result (self.old.engine.waits ≡ false → (c : ℕ) (i : Stage) → StandsFor self.old (bank_of bank.old) c i →
            StandsFor self.new (bank_of bank.new) c i) }
        ensures made { OnOk result (self.old.engine.waits ≡ false → (name : List ℕ) × (left_in self.old ≡ name ∷ left_in self.new)) }
        ensures bank { OnOk result (self.old.engine.waits ≡ false → bank_of bank.new ≡ bank_of bank.old) }
        ensures which { IfOk result (λ saved. saved ≡ not self.old.engine.waits) }
        ensures left { OnOk result (self.old.engine.waits ≡ true → (c : ℕ) (i : Stage) → StandsFor self.old (bank_of bank.old) c i →
            is_at_boundary (flat_in self.old) (after_call (run_of self.old) i) ≡ true → left_in self.new ≡ left_at (run_of self.old) (after_call (run_of self.old) i)) }
        ensures same { IsSameTenant self.old self.new }
        ensures moved { self.new.moved ≡ self.old.moved }
        ensures shape { shape_of (bank_of bank.new) ≡ shape_of (bank_of bank.old) }
        ensures err { OnErr result (IsUnchanged self.old self.new (bank_of bank.old) (bank_of bank.new)) }
        ensures memory { OnErr result (self.old.engine.waits ≡ true → (c : ℕ) (i : Stage) → StandsFor self.old (bank_of bank.old) c i →
            serving_takes_memory (flat_in self.old) i ≡ true) }
    {
        if self.engine.at_trap() {
            self.serve_call(alloc, bank)?;
            return Ok(false);
        }
        self.make_save(alloc, bank)?;
        Ok(true)
    }

    /// Serves the call that waits, which is the next act. Want of memory leaves all as it was, and is the answer only of a call that takes
    /// memory.
    fn serve_call(&mut self, alloc: Global, bank: &mut Bank) -> Result<(), AllocError>
        requires { (c : ℕ) × (i : Stage) × StandsFor self.old (bank_of bank.old) c i × (self.old.engine.waits ≡ true) }
        ensures point { OnOk result ((c : ℕ) (i : Stage) → StandsFor self.old (bank_of bank.old) c i →
            StandsFor self.new (bank_of bank.new) (suc c) (after_call (run_of self.old) i)) }
        ensures left { OnOk result ((c : ℕ) (i : Stage) → StandsFor self.old (bank_of bank.old) c i →
            is_at_boundary (flat_in self.old) (after_call (run_of self.old) i) ≡ true → left_in self.new ≡ left_at (run_of self.old) (after_call (run_of self.old) i)) }
        ensures same { IsSameTenant self.old self.new }
        ensures moved { self.new.moved ≡ self.old.moved }
        ensures shape { shape_of (bank_of bank.new) ≡ shape_of (bank_of bank.old) }
        ensures err { OnErr result (IsUnchanged self.old self.new (bank_of bank.old) (bank_of bank.new)) }
        ensures memory { OnErr result ((c : ℕ) (i : Stage) → StandsFor self.old (bank_of bank.old) c i → serving_takes_memory (flat_in self.old) i ≡ true) }
    {
        each_act_comes_nearer();
        ticks_and_acts_can_be_counted();
        errands_before_a_tick_are_done_at_it();
        self.engine.serve(alloc, bank)
    }

    /// A call waits to be served, or a snapshot is to be made.
    pub fn waits(&self) -> bool
        requires { (b : BankData) × (c : ℕ) × (i : Stage) × StandsFor self.now b c i }
        ensures { (b : BankData) (c : ℕ) (i : Stage) → StandsFor self.now b c i → result ≡ waits_in self.now i }
    {
        self.engine.at_trap() || self.save_due()
    }

    /// A snapshot is to be made at this boundary.
    pub fn save_due(&self) -> bool
        requires { (b : BankData) × (c : ℕ) × (i : Stage) × StandsFor self.now b c i }
        ensures { (b : BankData) (c : ℕ) (i : Stage) → StandsFor self.now b c i → result ≡ (is_at_boundary (flat_in self.now) i && is_left (left_in self.now)) }
    {
        self.at_boundary() && self.next_save().is_some()
    }

    /// The run goes on, and the clock rises next.
    pub fn at_boundary(&self) -> bool
        ensures { (b : BankData) (c : ℕ) (i : Stage) → StandsFor self.now b c i → result ≡ is_at_boundary (flat_in self.now) i }
    {
        !self.done() && self.engine.at_boundary()
    }

    /// A `$finish` was done.
    pub fn done(&self) -> bool
        ensures { (b : BankData) (c : ℕ) (i : Stage) → StandsFor self.now b c i → result ≡ i.state.finished }
    {
        self.engine.done()
    }

    /// The ticks begun.
    pub fn ticks(&self) -> u64
        ensures { (b : BankData) (c : ℕ) (i : Stage) → StandsFor self.now b c i → result ≡ i.state.ticks }
    {
        self.engine.ticks()
    }

    /// The tick of its last boundary; once finished, the ticks begun.
    pub fn last_tick(&self) -> u64
        ensures { (b : BankData) (c : ℕ) (i : Stage) → StandsFor self.now b c i →
            result ≡ (if i.state.finished || is_at_boundary (flat_in self.now) i then i.state.ticks else i.state.ticks - 1) }
    {
        let ticks = self.ticks();
        if self.done() {
            return ticks;
        }
        if self.at_boundary() {
            ticks
        } else {
            ticks.saturating_sub(1)
        }
    }

    /// Why its run has ended where it rests, if it has.
    pub fn end(&self) -> Option<End>
        requires { (b : BankData) × (c : ℕ) × (i : Stage) × StandsFor self.now b c i × Rests self.now i }
        ensures { (b : BankData) (c : ℕ) (i : Stage) (q : Queue) → StandsFor self.now b c i → Rests self.now i → Boundary (run_of self.now) i.state.ticks q →
            result ≡ (if self.now.stopped then Some Stopped else reason_at (run_of self.now).plan i.state.ticks q) }
    {
        if self.stopped {
            Some(End::Stopped)
        } else {
            self.reason()
        }
    }

    /// Why its run ends where it rests, if it does and wasn't stopped.
    fn reason(&self) -> Option<End>
        requires { (b : BankData) × (c : ℕ) × (i : Stage) × StandsFor self.now b c i × Rests self.now i }
        ensures { (b : BankData) (c : ℕ) (i : Stage) (q : Queue) → StandsFor self.now b c i → Rests self.now i → Boundary (run_of self.now) i.state.ticks q →
            result ≡ reason_at (run_of self.now).plan i.state.ticks q }
    {
        a_run_at_rest_is_at_a_boundary();
        has_one_state_at_a_boundary();
        let plan = &self.engine.origin.plan;
        if self.done() {
            Some(End::Finished)
        } else if self.ticks() >= plan.budget {
            Some(End::Budget)
        } else if plan.stops(self.done, self.ticks()) {
            Some(End::Stopped)
        } else {
            None
        }
    }

    /// It rests: at a boundary where no snapshot is left to be made, or after `$finish`.
    pub fn rests(&self) -> bool
        requires { (b : BankData) × (c : ℕ) × (i : Stage) × StandsFor self.now b c i }
        ensures { (b : BankData) (c : ℕ) (i : Stage) → StandsFor self.now b c i → result ≡ rests_in self.now i }
    {
        self.done() || (self.at_boundary() && !self.save_due())
    }

    /// Why it is to leave where it rests: its run has ended there, or a move stands there that isn't done. None where it may go on, and
    /// where it doesn't rest.
    pub fn due(&self) -> Option<Why>
        requires { (b : BankData) × (c : ℕ) × (i : Stage) × StandsFor self.now b c i }
        ensures { (b : BankData) (c : ℕ) (i : Stage) → StandsFor self.now b c i →
            result ≡ (if rests_in self.now i then why_in (run_of self.now).plan self.now.stopped self.now.moved i.state else None) }
    {
        a_run_at_rest_is_at_a_boundary();
        if !self.rests() {
            return None;
        }
        match self.end() {
            Some(end) => Some(Why::Ended(end)),
            None => self.move_due(),
        }
    }

    /// The move that stands where it rests and isn't done, where its run goes on.
    fn move_due(&self) -> Option<Why>
        requires { (b : BankData) × (c : ℕ) × (i : Stage) × StandsFor self.now b c i × Rests self.now i × (i.state.finished ≡ false) }
        ensures { (b : BankData) (c : ℕ) (i : Stage) → StandsFor self.now b c i → Rests self.now i → i.state.finished ≡ false →
            result ≡ why_of None (move_at i.state.ticks (run_of self.now).plan.errands) self.now.moved }
    {
        if self.moved {
            return None;
        }
        let plan = &self.engine.origin.plan;
        match plan.moves(self.done, self.engine.ticks) {
            Some(fabric) => Some(Why::Move(fabric)),
            None => None,
        }
    }

    /// The move that stands where it rests is done.
    pub fn set_moved(&mut self)
        ensures stands { (b : BankData) (c : ℕ) (i : Stage) → StandsFor self.old b c i → StandsFor self.new b c i }
        ensures moved { self.new ≡ record self.old { moved = true } }
    {
        self.moved = true;
    }

    /// Ends its run where it rests and hasn't ended.
    pub fn stop(&mut self)
        requires { (b : BankData) × (c : ℕ) × (i : Stage) × StandsFor self.old b c i × Rests self.old i × (end_in (run_of self.old).plan self.old.stopped i.state ≡ None) }
        ensures stands { (b : BankData) (c : ℕ) (i : Stage) → StandsFor self.old b c i → StandsFor self.new b c i }
        ensures stopped { self.new ≡ record self.old { stopped = true } }
    {
        self.stopped = true;
    }

    /// Makes a snapshot besides, at a boundary where no other is left to be made. Want of memory leaves all as it was.
    pub fn save(&mut self, alloc: Global, bank: &Bank, name: Text) -> Result<(), AllocError>
        requires { (c : ℕ) × (i : Stage) × StandsFor self.old (bank_of bank.now) c i × (is_at_boundary (flat_in self.old) i ≡ true) × (left_in self.old ≡ []) }
        ensures stands { OnOk result ((c : ℕ) (i : Stage) → StandsFor self.old (bank_of bank.now) c i → left_in self.old ≡ [] → is_at_boundary (flat_in self.old) i ≡ true →
            StandsFor self.new (bank_of bank.now) c i × (left_in self.new ≡ [])) }
        ensures free { OnOk result (free_in self.new ≡ free_in self.old ++ record { name = name; tick = self.old.engine.ticks } ∷ []) }
        ensures same { (self.new.number ≡ self.old.number) × (self.new.engine ≡ self.old.engine) × (self.new.moved ≡ self.old.moved) × (self.new.stopped ≡ self.old.stopped) }
        ensures err { OnErr result (IsUnchanged self.old self.new (bank_of bank.now) (bank_of bank.now)) }
    {
        let copy = copy_text(alloc, &name)?;
        let held = self.held(alloc, bank)?;
        if self.free.reserve(1).is_err() {
            return Err(AllocError);
        }
        keep(&mut self.saved, Saved { name: copy, held })?;
        let tick = self.engine.ticks;
        self.free.push_reserved(FreeSave { name, tick });
        Ok(())
    }
}
