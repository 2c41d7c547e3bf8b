//! Which functions a function calls (IEEE 1364-2005, clause 10.4.3).

ghost use Rattle.std.specs.Prelude.{◌≡◌, ◌++◌, ◌∷◌, [], map, length, nat_lt, if◌then◌else◌, OnOk, IfOk};
ghost use Rattle.vl_design.specs.Seen.{stm_of, func_of};
ghost use Rattle.vl_sites.specs.Seen.{site_of, what_of};
ghost use Rattle.vl_sites.specs.Sites.{sites};
ghost use Rattle.vl_check.specs.Tables as x;

use std::alloc::{AllocError, Global};
use vl_design::Place;
use vl_design::design::Func;
use vl_sites::site::What;
use vl_sites::statements::statement;

/// A call of a function.
#[derive(Clone, Copy, Drop)]
pub(crate) struct Call {
    /// Its place.
    pub(crate) place: Place,
    /// The number of the function that it calls.
    pub(crate) callee: u32,
}

/// Adds a call of one of so many functions.
fn add_call(all: &mut Vec<Call>, count: usize, place: Place, callee: u32) -> Result<(), AllocError>
    ensures { OnOk result (all.new.items ≡ all.old.items ++ (if nat_lt callee count then x.call place callee ∷ [] else [])) }
{
    if (callee as usize) < count {
        all.push(Call { place, callee })?;
    }
    Ok(())
}

/// Adds what stands at a place, if it is a call of one of so many functions.
fn add_what(
    all: &mut Vec<Call>,
    count: usize,
    place: Place,
    what: What<'_>,
) -> Result<(), AllocError>
    ensures { OnOk result (all.new.items ≡ all.old.items ++ x.calls_at count place (what_of what.entry)) }
{
    match what {
        What::Calls(callee) => add_call(all, count, place, callee),
        _ => Ok(()),
    }
}

/// The calls of functions, of which there are so many, in the body of one.
fn calls_of(alloc: Global, count: usize, f: &Func) -> Result<Vec<Call>, AllocError>
    ensures { IfOk result (λ v. v.items ≡ x.calls_in count (sites (stm_of f.now.body))) }
{
    let mut all = Vec::new(alloc);
    statement(&mut all, &f.body)?;
    let mut calls = Vec::new(alloc);
    for site in all.as_slice() {
        add_what(&mut calls, count, site.place, site.what)?;
    }
    Ok(calls)
}

/// For each function the calls in its body.
pub(crate) fn table(alloc: Global, funcs: &[Func]) -> Result<Vec<Vec<Call>>, AllocError>
    ensures { IfOk result (λ v. x.rows_of v.items ≡ map (λ f. x.calls_in (length funcs.now) (sites f.body)) (map func_of funcs.now)) }
{
    let mut table = Vec::new(alloc);
    for f in funcs {
        let calls = calls_of(alloc, funcs.len(), f)?;
        table.push(calls)?;
    }
    Ok(table)
}
