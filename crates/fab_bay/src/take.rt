//! Tenants that are taken out.

ghost use Rattle.std.specs.Prelude.{◌≡◌, ◌<◌, ℕ, List, false, true, IfOk, OnErr};
ghost use Rattle.fab_core.specs.fab_model.specs.Fabrics.{held, Fabric};
ghost use Rattle.fab_core.specs.fab_model.specs.declared.transit.Transit.{Transit as Out};
ghost use Rattle.fab_bay.specs.Acts.{acts_to_come};
ghost use Rattle.fab_bay.specs.Refusals.{IsAway};
ghost use Rattle.fab_bay.specs.Nearness.{BeginsNone};
ghost use Rattle.fab_bay.specs.Rounds.{IsAtRest, IsFoundReady, IsReady};
ghost use Rattle.fab_bay.specs.Standing.{IsBay, IsNoted};
ghost use Rattle.fab_bay.specs.Taking.{IsTaken};
ghost use Rattle.fab_bay.specs.Ways.{Goes};

use crate::leaving::{Found, Taken};
use crate::noted::NotedCore;
use std::alloc::{AllocError, Global};
use ten_core::run_laws::each_act_comes_nearer;

impl NotedCore {
    /// It holds.
    fn hold_on(&mut self, number: u32)
        requires ready { IsReady self.old }
        ensures ready { IsReady self.new }
        ensures goes { (out : List Out) → Goes number 0 self.old self.new out out }
        ensures held { (f : Fabric) → IsNoted self.old f → IsNoted self.new (held f) }
        ensures holds { self.new.core.holding ≡ true }
        ensures near { BeginsNone self.old self.new }
    {
        if self.core.holding {
            return;
        }
        self.hold();
    }

    /// The next act on the way to rest: a call is served, or else the fabric holds, and residents that don't rest do a cycle. True where all
    /// rest instead.
    fn step_to_rest(&mut self, alloc: Global, number: u32) -> Result<bool, AllocError>
        requires ready { IsReady self.old }
        ensures ready { IsReady self.new }
        ensures goes { (cycles : ℕ) × ((out : List Out) → Goes number cycles self.old self.new out out) }
        ensures near { BeginsNone self.old self.new }
        ensures rest { IfOk result (λ rested. rested ≡ true → IsAtRest self.new) }
        ensures nearer { IfOk result (λ rested. rested ≡ false → acts_to_come self.new < acts_to_come self.old) }
    {
        each_act_comes_nearer();
        match self.serve_to_call(alloc, number) {
            Ok(true) => return Ok(false),
            Ok(false) => {}
            Err(_) => return Err(AllocError),
        }
        self.hold_on(number);
        if self.is_at_rest() {
            return Ok(true);
        }
        self.cycle();
        Ok(false)
    }

    /// The fabric holds, and residents run until all rest, each to a boundary. False where memory ended that.
    fn run_to_rest(&mut self, alloc: Global, number: u32) -> bool
        requires ready { IsReady self.old }
        ensures ready { IsReady self.new }
        ensures goes { (cycles : ℕ) × ((out : List Out) → Goes number cycles self.old self.new out out) }
        ensures near { BeginsNone self.old self.new }
        ensures rest { result ≡ true → IsAtRest self.new }
    {
        'acts: loop {
            match self.step_to_rest(alloc, number) {
                Ok(true) => return true,
                Ok(false) => {}
                Err(_) => return false,
            }
        }
    }

    /// Where all rest, the joined bank is made anew.
    fn rebuild_at_rest(&mut self, alloc: Global, number: u32) -> Result<(), AllocError>
        requires ready { IsReady self.old }
        ensures ready { IsReady self.new }
        ensures goes { (out : List Out) → Goes number 0 self.old self.new out out }
        ensures near { BeginsNone self.old self.new }
    {
        if !self.is_at_rest() {
            return Ok(());
        }
        self.rebuild(alloc, number)
    }

    /// Takes a tenant out where all rest; then the joined bank is made anew, if there is memory for it.
    fn take_at_rest(&mut self, alloc: Global, number: u32, tenant: u32) -> Found
        requires ready { IsReady self.old }
        requires rest { IsAtRest self.old }
        requires there { IsAway self.old.notes.items tenant → ⊥ }
        ensures ready { IsReady self.new }
        ensures found { IsFoundReady number tenant self.old self.new result }
        ensures near { BeginsNone self.old self.new }
    {
        match self.take_out(number, tenant) {
            Ok(out) => {
                let _rebuilt = self.rebuild_at_rest(alloc, number).is_ok();
                Found::Here(out)
            }
            Err(_) => Found::Short,
        }
    }

    /// The residents run to a boundary, and a tenant is taken out there.
    fn take_there(&mut self, alloc: Global, number: u32, tenant: u32) -> Found
        requires ready { IsReady self.old }
        requires there { IsAway self.old.notes.items tenant → ⊥ }
        ensures ready { IsReady self.new }
        ensures found { IsFoundReady number tenant self.old self.new result }
        ensures near { BeginsNone self.old self.new }
    {
        if !self.run_to_rest(alloc, number) {
            return Found::Short;
        }
        self.take_at_rest(alloc, number, tenant)
    }

    /// Takes a tenant out: it holds, runs the residents to a boundary, takes the tenant, and makes the joined bank anew. No tenant's tick rises
    /// by more than one over the whole call. An `Err` is want of memory before anything was done. Where memory fails to make the joined bank
    /// anew, the tenant is out all the same, and the fabric goes on to hold.
    pub(crate) fn take(
        &mut self,
        alloc: Global,
        number: u32,
        tenant: u32,
    ) -> Result<Taken, AllocError>
        requires bay { IsBay self.old }
        ensures taken { IfOk result (λ t. IsTaken number tenant self.old self.new t) }
        ensures bay { IsBay self.new }
        ensures label { self.new.label ≡ self.old.label }
        ensures err { OnErr result (self.new.notes.items ≡ self.old.notes.items) }
    {
        if !self.is_there(tenant) {
            return Ok(Taken {
                entries: Vec::new(alloc),
                found: Found::Absent,
            });
        }
        self.told = Vec::new(alloc);
        if self.prepare(0).is_err() {
            return Err(AllocError);
        }
        let found = self.take_there(alloc, number, tenant);
        self.settle(number);
        let entries = std::mem::replace(&mut self.told, Vec::new(alloc));
        Ok(Taken { entries, found })
    }
}
