//! What the states of a design begin with (IEEE 1364-2005, clauses 6.1 and 11.3).

ghost use Rattle.std.specs.Prelude.{◌≡◌, [], length, IfOk};
ghost use Rattle.vl_design.specs.Trees.{flat_of};
ghost use Rattle.cell_emit.specs.cell_form.specs.Data.{ListData};
ghost use Rattle.cell_emit.specs.cell_form.specs.Views.{list_of};
ghost use Rattle.cell_emit.specs.Slots.{Grows};
ghost use Rattle.cell_emit.specs.Envs.{env_of};
ghost use Rattle.cell_emit.specs.Pendings.{slots_of};
ghost use Rattle.cell_waves.specs.Begins.{Begins};
ghost use Rattle.cell_states.specs.Designs.{IsCellDesign};

use cell_emit::at::At;
use cell_emit::cell::CellList;
use cell_emit::pending::Pending;
use cell_waves::begin::begun;
use cell_waves::begun::Begun;
use std::alloc::{AllocError, Global};
use vl_design::Items;
use vl_design::design::Design;

/// What each segment's state begins with.
#[derive(Drop)]
pub struct Base<'a> {
    /// The order in which nets and combinational variables are computed.
    pub order: &'a [u32],
    /// The slots of its cells.
    pub begun: Begun,
}

/// A list without cells, from this slot on.
pub fn no_cells(alloc: Global, first: u32) -> CellList
    ensures { list_of result ≡ record { first = first; cells = []; sets = [] } }
{
    CellList {
        first,
        cells: Items::new(alloc),
        sets: Items::new(alloc),
    }
}

/// What a state begins with.
pub fn begin_in(
    alloc: Global,
    cells: &mut CellList,
    design: &Design,
    order: &[u32],
) -> Result<Begun, AllocError>
    requires design { IsCellDesign (flat_of design.now) order.now }
    ensures grows { Grows (list_of cells.old) (list_of cells.new) }
    ensures begins { IfOk result (λ x. Begins (flat_of design.now) order.now (list_of cells.old) (list_of cells.new) (env_of x.at) (slots_of x.pending)) }
{
    begun(alloc, cells, design, order)
}

/// A copy of what a state begins with.
pub fn copied(alloc: Global, from: &Begun) -> Result<Begun, AllocError>
    requires { from.now.pending.sites.items ≡ [] }
    ensures at { IfOk result (λ x. env_of x.at ≡ env_of from.now.at) }
    ensures pending { IfOk result (λ x. slots_of x.pending ≡ slots_of from.now.pending) }
{
    let slots = Vec::from_slice(alloc, from.at.slots.as_slice())?;
    let update = Vec::from_slice(alloc, from.pending.update.as_slice())?;
    let mask = Vec::from_slice(alloc, from.pending.mask.as_slice())?;
    let sites = Vec::new(alloc);
    let at = At {
        first: from.at.first,
        slots,
        time: from.at.time,
        answer: from.at.answer,
        here: from.at.here,
        away: from.at.away,
    };
    let pending = Pending {
        update,
        mask,
        sites,
    };
    Ok(Begun { at, pending })
}

/// Drops the cells that a list has behind its first ones.
pub fn cut(cells: &mut CellList, count: usize)
    ensures { (l : ListData) → length l.cells ≡ count → Grows l (list_of cells.old) → list_of cells.new ≡ l }
{
    cells.cells.truncate(count);
}
