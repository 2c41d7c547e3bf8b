//! The calls between functions (IEEE 1364-2005, clause 10.4.3).

ghost use Rattle.std.specs.Prelude.{◌≡◌, length, IfOk, OnOk};

use std::alloc::{AllocError, Global};
use vl_design::design::Func;
use vl_sites::site::What;
use vl_sites::statements::statement;

/// The calls between functions.
#[derive(Drop)]
pub(crate) struct Calls {
    /// For each function those that call it, once for each call.
    pub(crate) callers: Vec<Vec<usize>>,
    /// For each function how many calls of functions stand in its body.
    pub(crate) counts: Vec<usize>,
}

/// No calls of so many functions.
fn no_calls(alloc: Global, functions: usize) -> Result<Calls, AllocError>
    ensures callers { IfOk result (λ c. length c.callers.items ≡ functions) }
    ensures counts { IfOk result (λ c. length c.counts.items ≡ functions) }
{
    let mut calls = Calls {
        callers: Vec::new(alloc),
        counts: Vec::new(alloc),
    };
    for _function in 0..functions {
        calls.callers.push(Vec::new(alloc))?;
        calls.counts.push(0)?;
    }
    Ok(calls)
}

/// Adds a call, if it is one of these functions that is called.
fn add_call(calls: &mut Calls, caller: usize, callee: u32) -> Result<(), AllocError>
    ensures callers { OnOk result (length calls.new.callers.items ≡ length calls.old.callers.items) }
    ensures counts { OnOk result (length calls.new.counts.items ≡ length calls.old.counts.items) }
{
    let callee = callee as usize;
    if callee < calls.callers.len() && caller < calls.counts.len() {
        calls.callers[callee].push(caller)?;
        calls.counts[caller] = calls.counts[caller].saturating_add(1);
    }
    Ok(())
}

/// Adds what stands at a place, if it is a call.
fn add_what(calls: &mut Calls, caller: usize, what: What<'_>) -> Result<(), AllocError>
    ensures callers { OnOk result (length calls.new.callers.items ≡ length calls.old.callers.items) }
    ensures counts { OnOk result (length calls.new.counts.items ≡ length calls.old.counts.items) }
{
    match what {
        What::Calls(callee) => add_call(calls, caller, callee),
        _ => Ok(()),
    }
}

/// Adds the calls in the body of a function.
fn add_calls(alloc: Global, calls: &mut Calls, caller: usize, func: &Func) -> Result<(), AllocError>
    ensures callers { OnOk result (length calls.new.callers.items ≡ length calls.old.callers.items) }
    ensures counts { OnOk result (length calls.new.counts.items ≡ length calls.old.counts.items) }
{
    let mut sites = Vec::new(alloc);
    statement(&mut sites, &func.body)?;
    for site in sites.as_slice() {
        add_what(calls, caller, site.what)?;
    }
    Ok(())
}

/// The calls between these functions.
pub(crate) fn calls_of(alloc: Global, funcs: &[Func]) -> Result<Calls, AllocError>
    ensures callers { IfOk result (λ c. length c.callers.items ≡ length funcs.now) }
    ensures counts { IfOk result (λ c. length c.counts.items ≡ length funcs.now) }
{
    let mut calls = no_calls(alloc, funcs.len())?;
    for (caller, func) in funcs.iter().enumerate() {
        add_calls(alloc, &mut calls, caller, func)?;
    }
    Ok(calls)
}
