//! What runs are resumed with.

ghost use Rattle.std.specs.Prelude.{◌≡◌, ◌≤◌, IfOk};
ghost use Rattle.vl_eval.specs.vl_design.specs.Laws.{IsFine, IsUnrolled};
ghost use Rattle.vl_eval.specs.vl_design.specs.Trees.{flat_of};
ghost use Rattle.vl_eval.specs.vl_design.specs.Width.{names_of};
ghost use Rattle.vl_run.specs.Machines.{state_of, IsMachine};
ghost use Rattle.ten_core.specs.cell_form.specs.Views.{bank_of};
ghost use Rattle.ten_core.specs.reg_ports.specs.Refusals.{AreFit};
ghost use Rattle.ten_core.specs.Tenants.{IsImage};
ghost use Rattle.ten_core.specs.Holding.{CanBeHeld};
ghost use Rattle.ten_core.specs.Ports.{ports_of};
ghost use Rattle.ten_parcel.specs.Banks.{state_before, HoldsResumed};

use crate::bank::boundary_bank;
use std::alloc::{AllocError, Global};
use ten_core::Bank;
use ten_core::held::Held;
use ten_core::hold_laws::{a_stage_is_captured, words_are_restored};
use ten_core::image::Image;
use ten_core::restore::put_back;
use vl_eval::design::Design;
use vl_run::machine::Machine;
use vl_run::process::begin_run;

/// The machine of a run that is resumed from what is held, before its words are put back: nothing has happened, but for the ticks.
pub(crate) fn machine_before(
    alloc: Global,
    design: &Design,
    held: &Held,
) -> Result<Machine, AllocError>
    ensures state { IfOk result (λ m. state_of m 0 ≡ state_before (flat_of design.now) held.now) }
    ensures machine { IfOk result (IsMachine (names_of (flat_of design.now))) }
{
    let mut machine = begin_run(alloc, design)?;
    machine.ticks = held.tick;
    Ok(machine)
}

/// The bank of a run that is resumed from what is held: its words are put back into that machine's bank.
pub(crate) fn resumed_bank(
    alloc: Global,
    image: &Image,
    machine: &Machine,
    held: &Held,
) -> Result<Bank, AllocError>
    requires unrolled { IsUnrolled (flat_of image.now.design) }
    requires image { IsImage (flat_of image.now.design) image.now.order.items image.now }
    requires held { CanBeHeld (flat_of image.now.design) }
    requires words { AreFit (ports_of (flat_of image.now.design).rows) held.now.words }
    requires tick { held.now.tick ≤ 1000000000 }
    requires state { state_of machine.now 0 ≡ state_before (flat_of image.now.design) held.now }
    requires fine { IsFine (flat_of image.now.design).rows machine.now.values.items }
    ensures { IfOk result (λ bank. HoldsResumed (flat_of image.now.design) held.now image.now.slots image.now.rise (bank_of bank)) }
{
    a_stage_is_captured();
    words_are_restored();
    let mut bank = boundary_bank(alloc, image, machine)?;
    put_back(&mut bank, &image.ports, held.words.as_slice());
    Ok(bank)
}
