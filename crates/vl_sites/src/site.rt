//! Sites.

ghost use Rattle.std.specs.Prelude.{◌≡◌, ◌++◌, ◌∷◌, [], map, OnOk};
ghost use Rattle.vl_sites.specs.Seen.{site_of, what_of};
ghost use Rattle.vl_sites.specs.Sites as x;

use std::alloc::AllocError;
use vl_base::place::Place;
use vl_design::design::SysCall;

/// What stands at a place in a statement.
#[derive(Clone, Copy, Drop)]
pub enum What<'a> {
    /// The value of a signal is read, or that of a word of a memory.
    Reads(u32),
    /// An assignment to a signal, or, where the first is true, to a word of a memory; nonblocking where the second is true.
    Sets(u32, bool, bool),
    /// An assignment to a variable in the header of a loop that it controls.
    Heads(u32),
    /// A call of a function.
    Calls(u32),
    /// A nonblocking assignment.
    Delays,
    /// A system call.
    Tasks(&'a SysCall),
}

/// Something in a statement, and where it stands.
#[derive(Clone, Copy, Drop)]
pub struct Site<'a> {
    /// Its first token.
    pub place: Place,
    /// What it is.
    pub what: What<'a>,
}

/// Adds a site.
pub(crate) fn add<'a>(
    sites: &mut Vec<Site<'a>>,
    place: Place,
    what: What<'a>,
) -> Result<(), AllocError>
    ensures { OnOk result (map site_of sites.new.items ≡ map site_of sites.old.items ++ (x.site place (what_of what.entry) ∷ [])) }
{
    sites.push(Site { place, what })?;
    Ok(())
}
