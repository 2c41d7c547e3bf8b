//! States of updates (IEEE 1364-2005, clause 11.4).

ghost use Rattle.std.specs.Prelude.{◌≡◌, ◌<◌, ◌≤◌, ◌^◌, ℕ, List, All, IfOk, length};
ghost use Rattle.vl_design.specs.Sound.{IsMemory};
ghost use Rattle.vl_design.specs.Trees.{flat_of};
ghost use Rattle.vl_design.specs.Width.{names_of};
ghost use Rattle.cell_emit.specs.cell_form.specs.Views.{list_of};
ghost use Rattle.ten_form.specs.sub_nodes.specs.Nodes as n;
ghost use Rattle.ten_form.specs.Banks.{stores_in};
ghost use Rattle.ten_form.specs.Holding.{mask_register};
ghost use Rattle.cell_states.specs.Cells.{update_count};
ghost use Rattle.cell_states.specs.Designs.{ComputesAlone};
ghost use Rattle.cell_states.specs.Mades.{IsMade};
ghost use Rattle.cell_states.specs.Marks.{AreDelayed};

use crate::base::no_cells;
use crate::made::Made;
use cell_calls::next::number;
use cell_emit::cell::Write;
use cell_emit::steps;
use cell_waves::apply::apply;
use cell_waves::read::read;
use cell_waves::update::applied;
use std::alloc::{AllocError, Global};
use ten_form::places::STATE;
use ten_form::store::Store;
use vl_design::design::Design;

/// The cells and writes of an update's state, behind which the state `to` is next: the variables take the bits of their pending updates,
/// and the stores, which are those of all nodes, write their words. Of which signals updates can be pending is `delayed`.
pub fn made_update(
    alloc: Global,
    design: &Design,
    stores: &[Store],
    delayed: &[bool],
    to: u32,
) -> Result<Made, AllocError>
    requires alone { ComputesAlone (flat_of design.now) }
    requires signals { length (flat_of design.now).rows ≤ 268435456 }
    requires stores { stores.now ≡ stores_in (flat_of design.now) }
    requires memories { All (λ x. IsMemory (names_of (flat_of design.now)) x.memory) stores.now }
    requires few { All (λ x. mask_register x < 2 ^ 32) stores.now }
    requires delayed { AreDelayed (flat_of design.now) delayed.now }
    ensures made { IfOk result (λ m. (order : List ℕ) (number : ℕ) → IsMade (flat_of design.now) order number (n.Apply to) (list_of m.cells) m.sets.items) }
    ensures few { IfOk result (λ m. length (list_of m.cells).cells ≤ update_count (flat_of design.now)) }
{
    let mut cells = no_cells(alloc, 0);
    let here = steps::constant(alloc, &mut cells, 0, 1)?;
    let mut sites = Vec::new(alloc);
    read(
        alloc,
        &mut cells,
        stores,
        design.signals.as_slice(),
        &mut sites,
    )?;
    let mut sets = Vec::new(alloc);
    applied(alloc, &mut cells, design, here, delayed, &mut sets)?;
    let next = number(alloc, &mut cells, to)?;
    sets.push(Write::Reg(STATE, next))?;
    apply(stores, sites.as_slice(), here, &mut sets)?;
    Ok(Made { cells, sets })
}
