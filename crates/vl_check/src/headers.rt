//! Loops: refused construct 21.

ghost use Rattle.std.specs.Prelude.{◌≡◌, ◌++◌, ◌==◌, IfOk, map};
ghost use Rattle.std.specs.List.{list_any};
ghost use Rattle.vl_design.specs.Seen as seen;
ghost use Rattle.vl_sites.specs.Seen.{site_of, what_of};
ghost use Rattle.vl_sites.specs.Sites.{sites};
ghost use Rattle.vl_check.specs.Headers as h;
ghost use Rattle.vl_check.specs.Rules.{sets};
ghost use Rattle.vl_check.specs.Seen.{setting_of};

use crate::kinds::is_loop_in;
use crate::place::Setting;
use std::alloc::{AllocError, Global};
use vl_design::design::{Expr, ExprNode, Stmt, StmtNode, TargetNode};
use vl_sites::site::{Site, What};
use vl_sites::statements::statement;

/// It is one of them.
fn is_one_of(around: &[u32], number: u32) -> bool
    ensures { result ≡ h.is_one_of around.now number }
{
    for k in around {
        if *k == number {
            return true;
        }
    }
    false
}

/// The expression has numbers, names of these variables, and operators alone.
fn is_constant(around: &[u32], e: &Expr) -> bool
    ensures { result ≡ h.is_constant (h.is_one_of around.now) (seen.exp_of e.now) }
{
    match &e.node {
        ExprNode::Num(_, _) | ExprNode::Label(_) => true,
        ExprNode::Sig(k) => is_one_of(around, *k),
        ExprNode::Un(_, a) => is_constant(around, a),
        ExprNode::Bin(_, a, b) => is_constant(around, a) && is_constant(around, b),
        ExprNode::Cond(test, a, b) => {
            is_constant(around, test) && (is_constant(around, a) && is_constant(around, b))
        }
        ExprNode::Word(_, _) | ExprNode::Pick(_, _, _, _) | ExprNode::Slice(_, _, _) => false,
        ExprNode::Cat(_) | ExprNode::Rep(_, _) | ExprNode::Cast(_, _) => false,
        ExprNode::Call(_, _) | ExprNode::Time | ExprNode::Sys(_) => false,
    }
}

/// It assigns such an expression to a variable whole.
fn gives(variable: u32, around: &[u32], a: &Stmt) -> bool
    ensures { result ≡ h.gives variable (h.is_one_of around.now) (seen.stm_of a.now) }
{
    match &a.node {
        StmtNode::Set(target, source) => match &target.node {
            TargetNode::Sig(k) => *k == variable && is_constant(around, source),
            _ => false,
        },
        _ => false,
    }
}

/// The variable is assigned in a statement elsewhere than in the header of a loop over it.
fn is_assigned(alloc: Global, variable: u32, a: &Stmt) -> Result<bool, AllocError>
    ensures { IfOk result (λ b. b ≡ list_any (λ s. sets (λ j. j == variable) s.what) (sites (seen.stm_of a.now))) }
{
    let mut all = Vec::new(alloc);
    statement(&mut all, a)?;
    Ok(sets_in(variable, &all))
}

/// It is an assignment to a variable.
fn is_set(variable: u32, what: What<'_>) -> bool
    ensures { result ≡ sets (λ j. j == variable) (what_of what.entry) }
{
    match what {
        What::Sets(k, _, _) => k == variable,
        _ => false,
    }
}

/// One of the sites is an assignment to a variable.
fn sets_in(variable: u32, all: &[Site<'_>]) -> bool
    ensures { result ≡ list_any (λ s. sets (λ j. j == variable) s.what) (map site_of all.now) }
{
    for site in all {
        if is_set(variable, site.what) {
            return true;
        }
    }
    false
}

/// A loop over a variable, within loops over these, isn't as it has to be.
pub(crate) fn is_wrong(
    alloc: Global,
    s: &Setting<'_>,
    around: &[u32],
    within: &[u32],
    a: &Stmt,
) -> Result<bool, AllocError>
    requires { within.now ≡ around.now ++ h.variable_of (seen.stm_of a.now) }
    ensures { IfOk result (λ b. b ≡ h.is_wrong (setting_of s.now) around.now (seen.stm_of a.now)) }
{
    let StmtNode::For(variable, start, test, step, body) = &a.node else {
        return Ok(false);
    };
    let well = is_loop_in(s.shared, s.own, *variable)
        && (!is_one_of(around, *variable)
            && (gives(*variable, around, start)
                && (is_constant(within, test) && gives(*variable, within, step))));
    if !well {
        return Ok(true);
    }
    is_assigned(alloc, *variable, body)
}
