//! Calls of `$save`.

ghost use Rattle.std.specs.Prelude.{◌≡◌, ◌++◌, map, flat_map, OnOk, IfOk};
ghost use Rattle.vl_design.specs.Seen.{process_of, args_of};
ghost use Rattle.vl_sites.specs.Seen.{site_of, what_of};
ghost use Rattle.vl_sites.specs.Sites.{sites};
ghost use Rattle.vl_check.specs.Saves as x;
ghost use Rattle.vl_check.specs.SeenOfSaves.{save_of};

use std::alloc::{AllocError, Global};
use vl_design::Place;
use vl_design::design::{Process, SysArg, SysCall};
use vl_sites::site::{Site, What};
use vl_sites::statements::statement;

/// A call of `$save`.
#[derive(Clone, Copy, Drop)]
pub(crate) struct Save<'a> {
    /// Its place.
    pub(crate) place: Place,
    /// The name that it gives.
    pub(crate) name: &'a [u8],
}

/// What stands in the bodies of the processes, in order.
pub(crate) fn all_sites(alloc: Global, processes: &[Process]) -> Result<Vec<Site<'_>>, AllocError>
    ensures { IfOk result (λ v. map site_of v.items ≡ flat_map (λ a. sites a.body) (map process_of processes.now)) }
{
    let mut all = Vec::new(alloc);
    for a in processes {
        statement(&mut all, &a.body)?;
    }
    Ok(all)
}

/// Adds a call with the name that it gives, if it gives one.
fn add_named<'a>(
    all: &mut Vec<Save<'a>>,
    place: Place,
    given: &'a [SysArg],
) -> Result<(), AllocError>
    ensures { OnOk result (map save_of all.new.items ≡ map save_of all.old.items ++ x.named place (args_of given.now)) }
{
    match given {
        [SysArg::Str(name), ..] => {
            let name = name.as_slice();
            all.push(Save { place, name })?;
            Ok(())
        }
        _ => Ok(()),
    }
}

/// The call is one of `$save`.
fn is_save(call: &SysCall) -> bool
    ensures { result ≡ x.is_save call.now.name }
{
    call.name.as_slice() == b"$save".as_slice()
}

/// Adds what stands at a place, if it is a call of `$save`.
fn add_save<'a>(all: &mut Vec<Save<'a>>, place: Place, what: What<'a>) -> Result<(), AllocError>
    ensures { OnOk result (map save_of all.new.items ≡ map save_of all.old.items ++ x.save_at place (what_of what.entry)) }
{
    match what {
        What::Tasks(call) => {
            if is_save(call) {
                add_named(all, place, call.args.as_slice())
            } else {
                Ok(())
            }
        }
        _ => Ok(()),
    }
}

/// The calls of `$save` at these sites, in order.
pub(crate) fn saves<'a>(alloc: Global, all: &[Site<'a>]) -> Result<Vec<Save<'a>>, AllocError>
    ensures { IfOk result (λ v. map save_of v.items ≡ flat_map (λ s. x.save_at s.at s.what) (map site_of all.now)) }
{
    let mut calls = Vec::new(alloc);
    for site in all {
        add_save(&mut calls, site.place, site.what)?;
    }
    Ok(calls)
}
