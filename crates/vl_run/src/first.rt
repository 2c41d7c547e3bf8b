//! System functions whose answers are read: they are called before (IEEE 1364-2005, clause 17).

ghost use Rattle.std.specs.Prelude.{◌≡◌, OnOk, option_map, option_copied};
ghost use Rattle.vl_design.specs.Plainly.{called_first};
ghost use Rattle.vl_design.specs.Seen as seen;
ghost use Rattle.vl_design.specs.Sound.{IsSoundStm};
ghost use Rattle.vl_design.specs.Syntax as y;
ghost use Rattle.vl_design.specs.Trees.{exp_of, target_of};
ghost use Rattle.vl_eval.specs.Rooms.{names_of};
ghost use Rattle.vl_run.specs.Called as spec;
ghost use Rattle.vl_run.specs.Machines.{IsMachine, Does};
ghost use Rattle.vl_run.specs.Scopes.{scope_of, Calls};

use crate::machine::Machine;
use crate::scope::Scope;
use std::alloc::AllocError;
use vl_base::bits::UnOp;
use vl_design::design::{Expr, ExprNode, SysCall, Target};

/// The call that an expression is; none where it is something else.
fn direct_call(e: &Expr) -> Option<&SysCall>
    ensures { option_map spec.call_of (option_copied result) ≡ spec.direct_call (seen.exp_of e.now) }
{
    match &e.node {
        ExprNode::Sys(call) => Some(call),
        ExprNode::Num(_, _) | ExprNode::Label(_) | ExprNode::Sig(_) | ExprNode::Time => None,
        ExprNode::Word(_, _) | ExprNode::Pick(_, _, _, _) | ExprNode::Slice(_, _, _) => None,
        ExprNode::Un(_, _) | ExprNode::Bin(_, _, _) | ExprNode::Cond(_, _, _) => None,
        ExprNode::Cat(_) | ExprNode::Rep(_, _) | ExprNode::Cast(_, _) => None,
        ExprNode::Call(_, _) => None,
    }
}

/// The call that an operand is, where its operator is `!`; none where it is something else.
fn negated_call(op: UnOp, e: &Expr) -> Option<&SysCall>
    ensures { option_map spec.call_of (option_copied result) ≡ spec.negated_call op (seen.exp_of e.now) }
{
    match op {
        UnOp::LogNot => direct_call(e),
        UnOp::Neg | UnOp::Not | UnOp::RedAnd | UnOp::RedOr => None,
        UnOp::RedXor | UnOp::RedNand | UnOp::RedNor | UnOp::RedXnor => None,
    }
}

/// The call that an expression is, also behind one `!`; none where it is something else.
fn call_in(e: &Expr) -> Option<&SysCall>
    ensures { option_map spec.call_of (option_copied result) ≡ spec.call_in (seen.exp_of e.now) }
{
    match &e.node {
        ExprNode::Sys(call) => Some(call),
        ExprNode::Un(op, operand) => negated_call(*op, operand),
        ExprNode::Num(_, _) | ExprNode::Label(_) | ExprNode::Sig(_) | ExprNode::Time => None,
        ExprNode::Word(_, _) | ExprNode::Pick(_, _, _, _) | ExprNode::Slice(_, _, _) => None,
        ExprNode::Bin(_, _, _) | ExprNode::Cond(_, _, _) | ExprNode::Cat(_) => None,
        ExprNode::Rep(_, _) | ExprNode::Cast(_, _) | ExprNode::Call(_, _) => None,
    }
}

impl<F: Fn(u32, Vec<u128>) -> Result<u128, AllocError>> Scope<'_, F> {
    /// Calls the system function that an expression is, also behind one `!`; nothing where it is none.
    pub fn call_first(&self, path: &[u8], e: &Expr, m: &mut Machine) -> Result<(), AllocError>
        requires sound { IsSoundStm (names_of self.now.room) (called_first path.now (seen.exp_of e.now) y.Nop) }
        requires machine { IsMachine (names_of self.now.room) m.old }
        requires calls { Calls (scope_of self.now) (F.pre self.now.call) (F.post self.now.call) }
        ensures does { OnOk result (Does (scope_of self.now) (called_first path.now (seen.exp_of e.now) y.Nop) m.old m.new) }
        ensures machine { OnOk result (IsMachine (names_of self.now.room) m.new) }
    {
        match call_in(e) {
            None => Ok(()),
            Some(call) => self.task(path, call, m),
        }
    }

    /// Does a blocking assignment, and before it the system function that its right side is.
    pub fn set(
        &self,
        path: &[u8],
        target: &Target,
        source: &Expr,
        m: &mut Machine,
    ) -> Result<(), AllocError>
        requires sound { IsSoundStm (names_of self.now.room) (called_first path.now (seen.exp_of source.now) (y.Set (target_of target.now) (exp_of source.now))) }
        requires machine { IsMachine (names_of self.now.room) m.old }
        requires calls { Calls (scope_of self.now) (F.pre self.now.call) (F.post self.now.call) }
        ensures does { OnOk result (Does (scope_of self.now) (called_first path.now (seen.exp_of source.now) (y.Set (target_of target.now) (exp_of source.now))) m.old m.new) }
        ensures machine { OnOk result (IsMachine (names_of self.now.room) m.new) }
    {
        self.call_first(path, source, m)?;
        self.assign(target, source, m)
    }

    /// Does a nonblocking assignment, and before it the system function that its right side is.
    pub fn set_later(
        &self,
        path: &[u8],
        target: &Target,
        source: &Expr,
        m: &mut Machine,
    ) -> Result<(), AllocError>
        requires sound { IsSoundStm (names_of self.now.room) (called_first path.now (seen.exp_of source.now) (y.Later (target_of target.now) (exp_of source.now))) }
        requires machine { IsMachine (names_of self.now.room) m.old }
        requires calls { Calls (scope_of self.now) (F.pre self.now.call) (F.post self.now.call) }
        ensures does { OnOk result (Does (scope_of self.now) (called_first path.now (seen.exp_of source.now) (y.Later (target_of target.now) (exp_of source.now))) m.old m.new) }
        ensures machine { OnOk result (IsMachine (names_of self.now.room) m.new) }
    {
        self.call_first(path, source, m)?;
        self.assign_later(target, source, m)
    }
}
