//! Sites in statements (IEEE 1364-2005, clause 9).

ghost use Rattle.std.specs.Prelude.{◌≡◌, ◌++◌, map, OnOk};
ghost use Rattle.vl_design.specs.Seen as seen;
ghost use Rattle.vl_sites.specs.Lists.{items_of};
ghost use Rattle.vl_sites.specs.Seen.{site_of};
ghost use Rattle.vl_sites.specs.Sites as x;

use crate::expressions::{expression, expressions, system_call};
use crate::site::{Site, What, add};
use crate::targets::target;
use std::alloc::AllocError;
use vl_design::design::{CaseItem, Expr, Stmt, StmtNode, Target, TargetNode};

/// Adds the sites in an assignment.
fn assignment<'a>(
    sites: &mut Vec<Site<'a>>,
    later: bool,
    t: &'a Target,
    source: &'a Expr,
) -> Result<(), AllocError>
    ensures { OnOk result (map site_of sites.new.items ≡ map site_of sites.old.items ++ (x.target_sites later (seen.target_of t.now) ++ x.exp_sites (seen.exp_of source.now))) }
{
    target(sites, later, t)?;
    expression(sites, source)
}

/// It is an assignment to this variable whole.
fn is_head(variable: u32, a: &Stmt) -> bool
    ensures { result ≡ x.is_head variable (seen.stm_of a.now) }
{
    match &a.node {
        StmtNode::Set(target, _) => match &target.node {
            TargetNode::Sig(number) => *number == variable,
            _ => false,
        },
        _ => false,
    }
}

/// Adds the sites in an assignment to a loop's variable in its header.
fn header<'a>(sites: &mut Vec<Site<'a>>, a: &'a Stmt) -> Result<(), AllocError>
    ensures { OnOk result (map site_of sites.new.items ≡ map site_of sites.old.items ++ x.header_sites (seen.stm_of a.now)) }
{
    match &a.node {
        StmtNode::Set(target, source) => match &target.node {
            TargetNode::Sig(number) => {
                add(sites, target.place, What::Heads(*number))?;
                expression(sites, source)
            }
            _ => Ok(()),
        },
        _ => Ok(()),
    }
}

/// Adds the sites in a statement.
#[cycle(statements)]
#[tactic(auto, using(crate::proofs::Rows::lists))]
pub fn statement<'a>(sites: &mut Vec<Site<'a>>, a: &'a Stmt) -> Result<(), AllocError>
    ensures { OnOk result (map site_of sites.new.items ≡ map site_of sites.old.items ++ x.sites (seen.stm_of a.now)) }
{
    match &a.node {
        StmtNode::Nop => Ok(()),
        StmtNode::Seq(parts) => statements(sites, parts.as_slice()),
        StmtNode::If(test, chosen, other) => {
            expression(sites, test)?;
            statement(sites, chosen)?;
            statement(sites, other)
        }
        StmtNode::Case(subject, items, _) => {
            expression(sites, subject)?;
            cases(sites, items.as_slice())
        }
        StmtNode::For(variable, start, test, step, body) => {
            if is_head(*variable, start) {
                header(sites, start)?;
            } else {
                statement(sites, start)?;
            }
            expression(sites, test)?;
            if is_head(*variable, step) {
                header(sites, step)?;
            } else {
                statement(sites, step)?;
            }
            statement(sites, body)
        }
        StmtNode::Repeat(_, body) => statement(sites, body),
        StmtNode::Set(t, source) => assignment(sites, false, t, source),
        StmtNode::Later(t, source) => {
            add(sites, a.place, What::Delays)?;
            assignment(sites, true, t, source)
        }
        StmtNode::Sys(call) => {
            add(sites, a.place, What::Tasks(call))?;
            system_call(sites, call)
        }
    }
}

/// Adds the sites in statements one after another.
#[cycle(statements)]
#[tactic(auto, using(crate::proofs::Rows::lists))]
fn statements<'a>(sites: &mut Vec<Site<'a>>, list: &'a [Stmt]) -> Result<(), AllocError>
    ensures { OnOk result (map site_of sites.new.items ≡ map site_of sites.old.items ++ x.all_sites (seen.stms_of list.now)) }
{
    for a in list {
        statement(sites, a)?;
    }
    Ok(())
}

/// Adds the sites in the items of a case.
#[cycle(statements)]
#[tactic(auto, using(crate::proofs::Rows::lists))]
fn cases<'a>(sites: &mut Vec<Site<'a>>, items: &'a [CaseItem]) -> Result<(), AllocError>
    ensures { OnOk result (map site_of sites.new.items ≡ map site_of sites.old.items ++ x.items_sites (items_of items.now)) }
{
    for item in items {
        expressions(sites, item.labels.as_slice())?;
        statement(sites, &item.body)?;
    }
    Ok(())
}
