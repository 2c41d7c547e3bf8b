//! Sites in expressions (IEEE 1364-2005, clause 5).

ghost use Rattle.std.specs.Prelude.{◌≡◌, ◌++◌, ◌∷◌, map, OnOk};
ghost use Rattle.vl_design.specs.Placed as p;
ghost use Rattle.vl_design.specs.Seen as seen;
ghost use Rattle.vl_sites.specs.Seen.{site_of};
ghost use Rattle.vl_sites.specs.Sites as x;

use crate::site::{Site, What, add};
use std::alloc::AllocError;
use vl_base::place::Place;
use vl_base::text::is_word;
use vl_design::design::{Expr, ExprNode, SysArg, SysCall};

/// Adds the assignment to a bare name.
fn bare<'a>(sites: &mut Vec<Site<'a>>, word: bool, e: &'a Expr) -> Result<(), AllocError>
    ensures { OnOk result (map site_of sites.new.items ≡ map site_of sites.old.items ++ x.bare word (seen.exp_of e.now)) }
{
    match &e.node {
        ExprNode::Sig(number) => add(sites, e.place, What::Sets(*number, word, false)),
        _ => Ok(()),
    }
}

/// Adds the assignment to the first argument of a call.
fn first_bare<'a>(
    sites: &mut Vec<Site<'a>>,
    word: bool,
    given: &'a [SysArg],
) -> Result<(), AllocError>
    ensures { OnOk result (map site_of sites.new.items ≡ map site_of sites.old.items ++ x.first_bare word (seen.args_of given.now)) }
{
    match given {
        [SysArg::Value(e), ..] => bare(sites, word, e),
        _ => Ok(()),
    }
}

/// Adds the memory that a call loads.
fn loaded<'a>(sites: &mut Vec<Site<'a>>, given: &'a [SysArg]) -> Result<(), AllocError>
    ensures { OnOk result (map site_of sites.new.items ≡ map site_of sites.old.items ++ x.loaded (seen.args_of given.now)) }
{
    match given {
        [SysArg::Str(_), others @ ..] => first_bare(sites, true, others),
        _ => Ok(()),
    }
}

/// Adds the sites in an expression.
#[cycle(expressions)]
#[tactic(auto, using(crate::proofs::Rows::rows))]
pub(crate) fn expression<'a>(sites: &mut Vec<Site<'a>>, e: &'a Expr) -> Result<(), AllocError>
    ensures { OnOk result (map site_of sites.new.items ≡ map site_of sites.old.items ++ x.exp_sites (seen.exp_of e.now)) }
{
    match &e.node {
        ExprNode::Num(_, _) | ExprNode::Label(_) | ExprNode::Time => Ok(()),
        ExprNode::Sig(number) => add(sites, e.place, What::Reads(*number)),
        ExprNode::Word(memory, address) => {
            add(sites, e.place, What::Reads(*memory))?;
            expression(sites, address)
        }
        ExprNode::Slice(a, _, _) | ExprNode::Un(_, a) | ExprNode::Cast(_, a) => {
            expression(sites, a)
        }
        ExprNode::Pick(a, b, _, _) | ExprNode::Bin(_, a, b) => {
            expression(sites, a)?;
            expression(sites, b)
        }
        ExprNode::Cond(test, a, b) => {
            expression(sites, test)?;
            expression(sites, a)?;
            expression(sites, b)
        }
        ExprNode::Cat(parts) => expressions(sites, parts.as_slice()),
        ExprNode::Rep(_, parts) => expressions(sites, parts.as_slice()),
        ExprNode::Call(function, given) => {
            function_call(sites, e.place, *function, given.as_slice())
        }
        ExprNode::Sys(call) => system_call(sites, call),
    }
}

/// Adds a call of a function, and the sites in its arguments.
#[cycle(expressions)]
#[tactic(auto, using(crate::proofs::Rows::rows))]
fn function_call<'a>(
    sites: &mut Vec<Site<'a>>,
    place: Place,
    function: u32,
    given: &'a [Expr],
) -> Result<(), AllocError>
    ensures { OnOk result (map site_of sites.new.items ≡ map site_of sites.old.items ++ (x.site place (x.Calls function) ∷ x.exps_sites (seen.exps_of given.now))) }
{
    add(sites, place, What::Calls(function))?;
    expressions(sites, given)
}

/// Adds the sites in expressions.
#[cycle(expressions)]
#[tactic(auto, using(crate::proofs::Rows::rows))]
pub(crate) fn expressions<'a>(sites: &mut Vec<Site<'a>>, es: &'a [Expr]) -> Result<(), AllocError>
    ensures { OnOk result (map site_of sites.new.items ≡ map site_of sites.old.items ++ x.exps_sites (seen.exps_of es.now)) }
{
    for e in es {
        expression(sites, e)?;
    }
    Ok(())
}

/// Adds the sites in an argument of a system call.
#[cycle(expressions)]
#[tactic(auto, using(crate::proofs::Rows::rows))]
fn argument<'a>(sites: &mut Vec<Site<'a>>, given: &'a SysArg) -> Result<(), AllocError>
    ensures { OnOk result ((others : p.Args) → map site_of sites.new.items ++ x.args_sites others ≡ map site_of sites.old.items ++ x.args_sites (seen.arg given.now others)) }
{
    match given {
        SysArg::Null | SysArg::Str(_) => Ok(()),
        SysArg::Value(e) => expression(sites, e),
    }
}

/// Adds the sites in the arguments of a system call.
#[cycle(expressions)]
#[tactic(auto, using(crate::proofs::Rows::rows))]
fn arguments<'a>(sites: &mut Vec<Site<'a>>, given: &'a [SysArg]) -> Result<(), AllocError>
    ensures { OnOk result (map site_of sites.new.items ≡ map site_of sites.old.items ++ x.args_sites (seen.args_of given.now)) }
{
    for a in given {
        argument(sites, a)?;
    }
    Ok(())
}

/// Adds what a system call writes, and the sites in its arguments.
#[cycle(expressions)]
#[tactic(auto, using(crate::proofs::Rows::rows))]
pub(crate) fn system_call<'a>(
    sites: &mut Vec<Site<'a>>,
    call: &'a SysCall,
) -> Result<(), AllocError>
    ensures { OnOk result (map site_of sites.new.items ≡ map site_of sites.old.items ++ x.call_sites call.now.name (seen.args_of call.now.args.items) (x.args_sites (seen.args_of call.now.args.items))) }
{
    let given = call.args.as_slice();
    if is_word(call.name.as_slice(), b"$readmemh".as_slice()) {
        return loaded(sites, given);
    }
    if is_word(call.name.as_slice(), b"$fread".as_slice()) {
        first_bare(sites, false, given)?;
    }
    arguments(sites, given)
}
