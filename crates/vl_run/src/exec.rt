//! What statements do (IEEE 1364-2005, clause 9).

ghost use Rattle.std.specs.Prelude.{◌≡◌, ℕ, IfOk, OnOk};
ghost use Rattle.vl_design.specs.Exec as x;
ghost use Rattle.vl_design.specs.Sound.{AreSoundItems, IsSoundExp, IsSoundStm};
ghost use Rattle.vl_design.specs.Syntax as y;
ghost use Rattle.vl_design.specs.Trees.{exp_of, stm_of};
ghost use Rattle.vl_eval.specs.Rooms.{names_of};
ghost use Rattle.vl_run.specs.Cases.{items_of};
ghost use Rattle.vl_run.specs.Lists.{loop_turns, IsForNode};
ghost use Rattle.vl_run.specs.Machines.{state_of, IsMachine, Leads, Does};
ghost use Rattle.vl_run.specs.Scopes.{scope_of, Calls};

use crate::machine::{Machine, put, words_at};
use crate::scope::Scope;
use std::alloc::AllocError;
use vl_design::design::{CaseItem, Expr, Stmt, StmtNode};

/// At most this many turns of a loop are done.
const MOST_TURNS: u32 = 4096;

impl<F: Fn(u32, Vec<u128>) -> Result<u128, AllocError>> Scope<'_, F> {
    /// Whether a loop makes one more turn: its test holds, and the run has not finished.
    fn goes_on(&self, test: &Expr, m: &Machine) -> Result<bool, AllocError>
        requires test { IsSoundExp (names_of self.now.room) (exp_of test.now) }
        requires machine { IsMachine (names_of self.now.room) m.now }
        requires calls { Calls (scope_of self.now) (F.pre self.now.call) (F.post self.now.call) }
        ensures { IfOk result (λ b. (c : ℕ) → b ≡ x.goes_on (scope_of self.now) (exp_of test.now) (state_of m.now c)) }
    {
        if m.finished {
            return Ok(false);
        }
        let bits = self.own_value(&m.sample(), test)?;
        Ok(bits.value != 0)
    }

    /// Does the turns of a `for`, at most so many.
    #[cycle(exec)]
    #[tactic(auto, using(crate::proofs::Statements::loops))]
    fn turns(&self, path: &[u8], s: &Stmt, most: u32, m: &mut Machine) -> Result<(), AllocError>
        requires sound { IsSoundStm (names_of self.now.room) (stm_of path.now s.now) }
        requires node { IsForNode s.now.node }
        requires machine { IsMachine (names_of self.now.room) m.old }
        requires calls { Calls (scope_of self.now) (F.pre self.now.call) (F.post self.now.call) }
        ensures turns { OnOk result (Leads (loop_turns (scope_of self.now) most (stm_of path.now s.now)) m.old m.new) }
        ensures machine { OnOk result (IsMachine (names_of self.now.room) m.new) }
    {
        let StmtNode::For(_, _, test, step, body) = &s.node else {
            unreachable!();
        };
        for turn in 0..most {
            let more = self.goes_on(test, m)?;
            if !more {
                return Ok(());
            }
            self.exec(path, body, m)?;
            self.exec(path, step, m)?;
        }
        Ok(())
    }

    /// Does a `for`; behind it the loop's variable is as before.
    #[cycle(exec)]
    #[tactic(auto, using(crate::proofs::Statements::loops))]
    fn run_for(&self, path: &[u8], s: &Stmt, m: &mut Machine) -> Result<(), AllocError>
        requires sound { IsSoundStm (names_of self.now.room) (stm_of path.now s.now) }
        requires node { IsForNode s.now.node }
        requires machine { IsMachine (names_of self.now.room) m.old }
        requires calls { Calls (scope_of self.now) (F.pre self.now.call) (F.post self.now.call) }
        ensures does { OnOk result (Does (scope_of self.now) (stm_of path.now s.now) m.old m.new) }
        ensures machine { OnOk result (IsMachine (names_of self.now.room) m.new) }
    {
        let StmtNode::For(variable, start, _, _, _) = &s.node else {
            unreachable!();
        };
        let before = words_at(self.alloc, &m.values, *variable)?;
        self.exec(path, start, m)?;
        self.turns(path, s, MOST_TURNS, m)?;
        put(&mut m.values, *variable, before);
        Ok(())
    }

    /// Does a `repeat`.
    #[cycle(exec)]
    #[tactic(auto, using(crate::proofs::Statements::parts))]
    fn run_repeat(
        &self,
        path: &[u8],
        count: u32,
        body: &Stmt,
        m: &mut Machine,
    ) -> Result<(), AllocError>
        requires sound { IsSoundStm (names_of self.now.room) (stm_of path.now body.now) }
        requires machine { IsMachine (names_of self.now.room) m.old }
        requires calls { Calls (scope_of self.now) (F.pre self.now.call) (F.post self.now.call) }
        ensures does { OnOk result (Does (scope_of self.now) (y.Repeat count (stm_of path.now body.now)) m.old m.new) }
        ensures machine { OnOk result (IsMachine (names_of self.now.room) m.new) }
    {
        for time in 0..count {
            self.exec(path, body, m)?;
        }
        Ok(())
    }

    /// Does a case of these items.
    #[cycle(exec)]
    #[tactic(auto, using(crate::proofs::Casing::bodies))]
    fn run_case(
        &self,
        path: &[u8],
        items: &[CaseItem],
        subject: &Expr,
        m: &mut Machine,
    ) -> Result<(), AllocError>
        requires items { AreSoundItems (names_of self.now.room) (items_of path.now items.now) }
        requires subject { IsSoundExp (names_of self.now.room) (exp_of subject.now) }
        requires machine { IsMachine (names_of self.now.room) m.old }
        requires calls { Calls (scope_of self.now) (F.pre self.now.call) (F.post self.now.call) }
        ensures does { OnOk result (Does (scope_of self.now) (y.Case (exp_of subject.now) (items_of path.now items.now)) m.old m.new) }
        ensures machine { OnOk result (IsMachine (names_of self.now.room) m.new) }
    {
        match self.branch(&m.sample(), subject, items)? {
            None => Ok(()),
            Some(number) => self.exec(path, &items[number].body, m),
        }
    }

    /// Does one statement of an instance of a path. After an `Err`, which is want of memory, the machine may have done a
    /// part of it.
    #[cycle(exec)]
    #[tactic(auto, using(crate::proofs::Statements::parts, crate::proofs::Casing::branches))]
    pub fn exec(&self, path: &[u8], s: &Stmt, m: &mut Machine) -> Result<(), AllocError>
        requires sound { IsSoundStm (names_of self.now.room) (stm_of path.now s.now) }
        requires machine { IsMachine (names_of self.now.room) m.old }
        requires calls { Calls (scope_of self.now) (F.pre self.now.call) (F.post self.now.call) }
        ensures does { OnOk result (Does (scope_of self.now) (stm_of path.now s.now) m.old m.new) }
        ensures machine { OnOk result (IsMachine (names_of self.now.room) m.new) }
    {
        match &s.node {
            StmtNode::Nop => Ok(()),
            StmtNode::Seq(list) => {
                for item in list {
                    self.exec(path, item, m)?;
                }
                Ok(())
            }
            StmtNode::If(test, first, second) => {
                self.call_first(path, test, m)?;
                let bits = self.own_value(&m.sample(), test)?;
                if bits.value == 0 {
                    self.exec(path, second, m)
                } else {
                    self.exec(path, first, m)
                }
            }
            StmtNode::Repeat(count, body) => self.run_repeat(path, *count, body, m),
            StmtNode::Set(target, source) => self.set(path, target, source, m),
            StmtNode::Later(target, source) => self.set_later(path, target, source, m),
            StmtNode::Case(subject, items, _) => self.run_case(path, items, subject, m),
            StmtNode::For(_, _, _, _, _) => self.run_for(path, s, m),
            StmtNode::Sys(call) => self.task(path, call, m),
        }
    }
}
