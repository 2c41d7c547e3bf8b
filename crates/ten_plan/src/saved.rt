//! The snapshots that a tenant keeps.

ghost use Rattle.std.specs.Prelude.{◌≡◌, List, map, OnOk, OnErr};
ghost use Rattle.std.specs.List.{position};
ghost use Rattle.std.specs.Str.{bytes_eq};
ghost use Rattle.vl_design.specs.Snapshots as run;
ghost use Rattle.vl_design.specs.Syntax.{Row};
ghost use Rattle.ten_plan.specs.Held.{saved_of};

use crate::held::Saved;
use std::alloc::AllocError;

/// Keeps one more snapshot: in the place of the one of its name, or else behind all. Want of memory leaves them as they were.
pub fn keep(saved: &mut Vec<Saved>, new: Saved) -> Result<(), AllocError>
    ensures kept { OnOk result ((rows : List Row) → map (saved_of rows) saved.new.items ≡ run.saved_over (map (saved_of rows) saved.old.items) (saved_of rows new)) }
    ensures err { OnErr result (saved.new.items ≡ saved.old.items) }
{
    match place_of(saved.as_slice(), new.name.as_slice()) {
        Some(place) => saved[place] = new,
        None => saved.push(new)?,
    }
    Ok(())
}

/// The place of the snapshot of a name. None exactly where none is kept under it.
fn place_of(saved: &[Saved], name: &[u8]) -> Option<usize>
    ensures { result ≡ position (λ s. bytes_eq s.name name.now) saved.now }
{
    saved.iter().position(|s| s.name.as_slice() == name)
}
