//! The signals that declarations stand for.

ghost use Rattle.std.specs.Prelude.{◌≡◌, ◌++◌, map, option_map, IfOk, OnOk};
ghost use Rattle.elab_plain.specs.vl_flat.specs.Items as x;
ghost use Rattle.elab_plain.specs.vl_flat.specs.Processes as p;
ghost use Rattle.elab_plain.specs.SeenItems.{seen_declared};
ghost use Rattle.elab_constant.specs.Seen.{binding_of};
ghost use Rattle.vl_elab.specs.Standing.{seen_here};

use crate::here::Here;
use elab_constant::scope::{Known, found_in};
use elab_constant::selects::number_of;
use elab_instance::functions::signal;
use elab_kinds::counts::next_number;
use elab_plain::items::Declared;
use elab_plain::tree::Identifier;
use std::alloc::{AllocError, Global};
use vl_design::design::Signal;

/// Adds the signal that a name stands for, if it stands for one.
fn add_known(
    alloc: Global,
    all: &mut Vec<Signal>,
    path: &[u8],
    name: &Identifier,
    known: Option<Known>,
) -> Result<(), AllocError>
    ensures { OnOk result (all.new.items ≡ all.old.items ++ p.signal_of path.now name.now (option_map binding_of known)) }
{
    if let Some(Known::Signal(_, shape)) = known {
        all.push(signal(alloc, path, name, shape)?)?;
    }
    Ok(())
}

/// The signals of declarations, where the first has the number `next`.
pub fn signals_of(
    alloc: Global,
    here: Here<'_, '_, '_>,
    next: u32,
    ds: &[Declared],
) -> Result<Vec<Signal>, AllocError>
    ensures { IfOk result (λ all. (type : x.DataType) → all.items ≡ p.signals (seen_here here.entry) next (map (seen_declared type) ds.now)) }
{
    let mut all = Vec::new(alloc);
    let mut number = next;
    for d in ds {
        let known = found_in(here.names, d.name.name.as_slice());
        if number_of(known) == number {
            add_known(alloc, &mut all, here.path, &d.name, known)?;
            number = next_number(number)?;
        }
    }
    Ok(all)
}
