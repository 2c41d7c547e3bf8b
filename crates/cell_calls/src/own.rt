//! Expressions read for themselves as cells (IEEE 1364-2005, clause 5.5).

ghost use Rattle.std.specs.Prelude.{◌≡◌, IfOk, false};
ghost use Rattle.vl_design.specs.Sound.{IsSoundExp};
ghost use Rattle.vl_design.specs.Syntax.{Num};
ghost use Rattle.vl_design.specs.Trees.{exp_of, flat_of};
ghost use Rattle.vl_design.specs.Width.{names_of};
ghost use Rattle.cell_emit.specs.cell_form.specs.Views.{list_of};
ghost use Rattle.cell_emit.specs.Slots.{Grows};
ghost use Rattle.cell_emit.specs.Envs.{env_of};
ghost use Rattle.cell_calls.specs.Calls.{AsksFile};
ghost use Rattle.cell_calls.specs.Displays.{IsReady, IsOwn};

use cell_emit::at::At;
use cell_emit::cell::CellList;
use cell_emit::reads::{number, read};
use cell_expr::compile::compile;
use std::alloc::{AllocError, Global};
use vl_base::bits::Bits;
use vl_design::design::{Design, Expr};
use vl_eval::form::form_of;
use vl_run::outer::room_of;

/// Where a call stands: the design, the slots that its expressions read, and the path of its instance.
#[derive(Clone, Copy)]
pub(crate) struct Site<'a> {
    /// The design.
    pub design: &'a Design,
    /// The slots that expressions read.
    pub at: &'a At,
    /// The names from the top module's on, joined by dots.
    pub path: &'a [u8],
}

/// The slot of a value, its width in bits, and whether it is signed.
#[derive(Clone, Copy)]
pub(crate) struct Own {
    /// The slot.
    pub slot: u32,
    /// The width.
    pub width: u8,
    /// The value is signed.
    pub signed: bool,
}

/// The value of an expression read for itself.
#[tactic(auto, using(crate::proofs::Owning::walking))]
pub(crate) fn own_value(
    alloc: Global,
    cells: &mut CellList,
    site: Site<'_>,
    e: &Expr,
) -> Result<Own, AllocError>
    requires ready { IsReady (flat_of site.design.now) (env_of site.at.now) (list_of cells.old) }
    requires expression { IsSoundExp (names_of (flat_of site.design.now)) (exp_of e.now) }
    ensures grows { Grows (list_of cells.old) (list_of cells.new) }
    ensures gives { IfOk result (λ r. IsOwn (flat_of site.entry.design.now) (exp_of e.now) (env_of site.entry.at.now) (list_of cells.old) (list_of cells.new) r) }
{
    let form = form_of(&room_of(site.design), e);
    let slot = compile(alloc, cells, site.design, site.at, e, form)?;
    Ok(Own {
        slot,
        width: form.width as u8,
        signed: form.signed,
    })
}

/// A value that is not signed.
pub(crate) fn constant(
    alloc: Global,
    cells: &mut CellList,
    site: Site<'_>,
    bits: Bits,
) -> Result<Own, AllocError>
    requires ready { IsReady (flat_of site.design.now) (env_of site.at.now) (list_of cells.old) }
    ensures grows { Grows (list_of cells.old) (list_of cells.new) }
    ensures gives { IfOk result (λ r. IsOwn (flat_of site.entry.design.now) (Num bits.value bits.width false) (env_of site.entry.at.now) (list_of cells.old) (list_of cells.new) r) }
{
    let slot = number(alloc, cells, bits.value, bits.width, false, bits.width)?;
    Ok(Own {
        slot,
        width: bits.width,
        signed: false,
    })
}

/// The slot of a descriptor, which is assigned to 32 bits (clause 17.2.1).
#[tactic(auto, using(crate::proofs::Owning::walking))]
pub(crate) fn descriptor(
    alloc: Global,
    cells: &mut CellList,
    site: Site<'_>,
    fd: &Expr,
) -> Result<u32, AllocError>
    requires ready { IsReady (flat_of site.design.now) (env_of site.at.now) (list_of cells.old) }
    requires expression { IsSoundExp (names_of (flat_of site.design.now)) (exp_of fd.now) }
    ensures grows { Grows (list_of cells.old) (list_of cells.new) }
    ensures gives { IfOk result (λ r. AsksFile (flat_of site.entry.design.now) (exp_of fd.now) (env_of site.entry.at.now) (list_of cells.old) (list_of cells.new) r) }
{
    let own = own_value(alloc, cells, site, fd)?;
    read(alloc, cells, own.slot, own.signed, 32)
}
