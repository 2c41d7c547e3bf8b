//! Statements of blocks, with their acts (IEEE 1364-2005, clauses 9.4, 9.5 and 17).

ghost use Rattle.std.specs.Prelude.{◌≡◌, ◌+◌, ◌<◌, ℕ, List, false, length, IfOk, IfSome, OnOk};
ghost use Rattle.vl_design.specs.Acts.{branch_of};
ghost use Rattle.vl_design.specs.Exec.{exec, is_true};
ghost use Rattle.vl_design.specs.Laws.{can_act, IsUnrolledStm};
ghost use Rattle.vl_design.specs.Plainly.{called_first};
ghost use Rattle.vl_design.specs.Seen as seen;
ghost use Rattle.vl_design.specs.Sound.{IsSound, IsSoundExp, IsSoundStm};
ghost use Rattle.vl_design.specs.State.{counted, sample};
ghost use Rattle.vl_design.specs.Syntax as y;
ghost use Rattle.vl_design.specs.Trees.{exp_of, stm_of};
ghost use Rattle.vl_design.specs.Width.{names_of};
ghost use Rattle.vl_run.specs.Cases.{body_at, items_of, AreSoundLabels};
ghost use Rattle.vl_run.specs.Machines.{IsMachine};
ghost use Rattle.ten_zero.specs.Early.{flat_in, scope_in, state_in};

use crate::acts::{acts, calls};
use crate::early::Early;
use std::alloc::{AllocError, Global};
use vl_design::design::{CaseItem, Design, Expr, Stmt, StmtNode};
use vl_design::files::FileSet;
use vl_run::parts::{branch_in_process, call_in_process, holds_in_process};
use vl_run::process::exec_process;

/// A design, and the files that it may open.
#[derive(Drop)]
pub(crate) struct Setting<'a> {
    /// What allocates.
    pub(crate) alloc: Global,
    /// The design.
    pub(crate) design: &'a Design,
    /// The files.
    pub(crate) files: &'a FileSet,
}

impl Setting<'_> {
    /// Does a statement that does no act.
    fn quiet(&self, path: &[u8], s: &Stmt, e: &mut Early) -> Result<(), AllocError>
        requires design { IsSound (flat_in self.now) }
        requires sound { IsSoundStm (names_of (flat_in self.now)) (stm_of path.now s.now) }
        requires machine { IsMachine (names_of (flat_in self.now)) e.old.machine }
        requires quiet { can_act (stm_of path.now s.now) ≡ false }
        ensures does { OnOk result (exec (scope_in self.now) (stm_of path.now s.now) (state_in e.old) ≡ state_in e.new) }
        ensures machine { OnOk result (IsMachine (names_of (flat_in self.now)) e.new.machine) }
    {
        exec_process(self.alloc, self.design, self.files, path, s, &mut e.machine)
    }

    /// Does a statement that does one act.
    fn act(&self, path: &[u8], s: &Stmt, e: &mut Early) -> Result<(), AllocError>
        requires design { IsSound (flat_in self.now) }
        requires sound { IsSoundStm (names_of (flat_in self.now)) (stm_of path.now s.now) }
        requires machine { IsMachine (names_of (flat_in self.now)) e.old.machine }
        requires one { (exec (scope_in self.now) (stm_of path.now s.now) (state_in e.old)).count ≡ e.old.acts + 1 }
        ensures does { OnOk result (exec (scope_in self.now) (stm_of path.now s.now) (state_in e.old) ≡ state_in e.new) }
        ensures machine { OnOk result (IsMachine (names_of (flat_in self.now)) e.new.machine) }
    {
        exec_process(self.alloc, self.design, self.files, path, s, &mut e.machine)?;
        e.count()
    }

    /// Calls the system function that a condition is, also behind one `!`; nothing where it is none.
    fn ask(&self, path: &[u8], test: &Expr, e: &mut Early) -> Result<(), AllocError>
        requires design { IsSound (flat_in self.now) }
        requires sound { IsSoundStm (names_of (flat_in self.now)) (called_first path.now (seen.exp_of test.now) y.Nop) }
        requires machine { IsMachine (names_of (flat_in self.now)) e.old.machine }
        requires going { e.old.machine.finished ≡ false }
        ensures does { OnOk result (exec (scope_in self.now) (called_first path.now (seen.exp_of test.now) y.Nop) (state_in e.old) ≡ state_in e.new) }
        ensures machine { OnOk result (IsMachine (names_of (flat_in self.now)) e.new.machine) }
    {
        call_in_process(
            self.alloc,
            self.design,
            self.files,
            path,
            test,
            &mut e.machine,
        )?;
        if calls(test) { e.count() } else { Ok(()) }
    }

    /// Whether a condition holds, by which a branch is chosen: an act.
    fn decide(&self, test: &Expr, e: &mut Early) -> Result<bool, AllocError>
        requires design { IsSound (flat_in self.now) }
        requires test { IsSoundExp (names_of (flat_in self.now)) (exp_of test.now) }
        requires machine { IsMachine (names_of (flat_in self.now)) e.old.machine }
        ensures holds { IfOk result (λ b. b ≡ is_true (scope_in self.now) (exp_of test.now) (state_in e.old)) }
        ensures counted { OnOk result (state_in e.new ≡ counted (state_in e.old)) }
        ensures machine { OnOk result (IsMachine (names_of (flat_in self.now)) e.new.machine) }
    {
        let holds = holds_in_process(self.alloc, self.design, self.files, test, &e.machine)?;
        e.count()?;
        Ok(holds)
    }

    /// The place of the item whose body a case does, if it does one, by which that is chosen: an act.
    fn select(
        &self,
        subject: &Expr,
        items: &[CaseItem],
        e: &mut Early,
    ) -> Result<Option<usize>, AllocError>
        requires design { IsSound (flat_in self.now) }
        requires subject { IsSoundExp (names_of (flat_in self.now)) (exp_of subject.now) }
        requires items { AreSoundLabels (names_of (flat_in self.now)) items.now }
        requires machine { IsMachine (names_of (flat_in self.now)) e.old.machine }
        ensures there { IfOk result (λ r. IfSome r (λ i. i < length items.now)) }
        ensures body { IfOk result (λ r. (path : List ℕ) → body_at path items.now r
            ≡ branch_of (scope_in self.now) (sample (state_in e.old)) (y.Case (exp_of subject.now) (items_of path items.now))) }
        ensures counted { OnOk result (state_in e.new ≡ counted (state_in e.old)) }
        ensures machine { OnOk result (IsMachine (names_of (flat_in self.now)) e.new.machine) }
    {
        let taken = branch_in_process(
            self.alloc,
            self.design,
            self.files,
            subject,
            items,
            &e.machine,
        )?;
        e.count()?;
        Ok(taken)
    }

    /// Does a statement without loops of an instance of a path.
    pub(crate) fn walk(&self, path: &[u8], s: &Stmt, e: &mut Early) -> Result<(), AllocError>
        requires design { IsSound (flat_in self.now) }
        requires sound { IsSoundStm (names_of (flat_in self.now)) (stm_of path.now s.now) }
        requires unrolled { IsUnrolledStm (stm_of path.now s.now) }
        requires machine { IsMachine (names_of (flat_in self.now)) e.old.machine }
        ensures does { OnOk result (exec (scope_in self.now) (stm_of path.now s.now) (state_in e.old) ≡ state_in e.new) }
        ensures machine { OnOk result (IsMachine (names_of (flat_in self.now)) e.new.machine) }
    {
        if e.machine.finished {
            return Ok(());
        }
        if !acts(s) {
            return self.quiet(path, s, e);
        }
        match &s.node {
            StmtNode::Seq(list) => {
                for item in list {
                    self.walk(path, item, e)?;
                }
                Ok(())
            }
            StmtNode::If(test, first, second) => {
                self.ask(path, test, e)?;
                if e.machine.finished {
                    return Ok(());
                }
                if self.decide(test, e)? {
                    self.walk(path, first, e)
                } else {
                    self.walk(path, second, e)
                }
            }
            StmtNode::Case(subject, items, _) => {
                let taken = self.select(subject, items, e)?;
                match taken {
                    None => Ok(()),
                    Some(number) => self.walk(path, &items[number].body, e),
                }
            }
            StmtNode::Set(_, _) | StmtNode::Later(_, _) | StmtNode::Sys(_) => self.act(path, s, e),
            StmtNode::Nop | StmtNode::For(_, _, _, _, _) | StmtNode::Repeat(_, _) => unreachable!(),
        }
    }
}
