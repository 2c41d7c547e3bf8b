//! The image of a design.

ghost use Rattle.std.specs.Prelude.{◌≡◌, ◌≤◌, ◌^◌, ℕ, List, IfOk, OnOk, length, map};
ghost use Rattle.ten_core.specs.vl_design.specs.Trees.{flat_of};
ghost use Rattle.sub_split.specs.sub_nodes.specs.Code.{table_of};
ghost use Rattle.sub_split.specs.sub_nodes.specs.Early.{early_from};
ghost use Rattle.sub_split.specs.Views.{node_view};
ghost use Rattle.ten_core.specs.Tenants.{IsImage};
ghost use Rattle.ten_core.specs.declared.image.Image.{Image as ImageData};
ghost use Rattle.ten_make.specs.Designs.{IsTenantDesign};
ghost use Rattle.ten_core.specs.Holding.{CanBeHeld};
ghost use Rattle.ten_core.specs.Ports.{ports_of};
ghost use Rattle.ten_make.specs.Within.{IsWithinCost};

use crate::design_laws::{
    a_tenants_design_delays_variables, calls_of_a_table_stand_apart,
    nodes_of_a_tenants_design_are_compiled, tenants_designs_are_compiled,
};
use crate::laws::{nodes_are_within_cost, registers_are_within_cost};
use cell_states::table::states;
use std::alloc::{AllocError, Global};
use sub_split::split::split;
use sub_split::table::Table;
use ten_core::design::Design;
use ten_core::image::Image;
use ten_core::ports::ports;
use ten_core::sizes::are_sized;
use ten_core::table::StateTable;
use ten_core::{Cost, PortMap};
use vl_cost::cost::cost;

/// The most nodes of a table, so that acts can be counted: 2 ^ 31.
const MOST_NODES: usize = 2_147_483_648;

/// What an image has beside its design and its order.
#[derive(Drop)]
struct Parts {
    /// The states.
    table: StateTable,
    /// The state that a tick begins with.
    rise: u32,
    /// How many slots the states have together.
    slots: u32,
    /// How many stores keep pending writes to words of memories.
    stores: u32,
    /// Where its banks have what snapshots keep.
    ports: PortMap,
    /// What it takes of a fabric.
    cost: Cost,
}

/// The table of a design's nodes. An `Err` is want of memory, also where there would be more than 2 ^ 31 nodes.
fn few_nodes(alloc: Global, design: &Design) -> Result<Table<'_>, AllocError>
    ensures nodes { IfOk result (λ t. map node_view t.nodes.items ≡ (table_of (flat_of design.now)).nodes) }
    ensures rise { IfOk result (λ t. t.rise.first ≡ (table_of (flat_of design.now)).rise.first) }
    ensures early { IfOk result (λ t. t.early ≡ early_from (flat_of design.now)) }
    ensures few { IfOk result (λ t. length t.nodes.items ≤ 2 ^ 31) }
{
    let table = split(alloc, design)?;
    if table.nodes.as_slice().len() > MOST_NODES {
        return Err(AllocError);
    }
    Ok(table)
}

/// The ports of a design that can be held. An `Err` is want of memory, also where a signal has more than 128 bits, or 2 ^ 32 words.
fn sized_ports(alloc: Global, design: &Design) -> Result<PortMap, AllocError>
    requires { (order : List ℕ) × IsTenantDesign (flat_of design.now) order }
    ensures ports { IfOk result (λ map. map.ports ≡ ports_of (flat_of design.now).rows) }
    ensures held { OnOk result (CanBeHeld (flat_of design.now)) }
{
    if !are_sized(design) {
        return Err(AllocError);
    }
    ports(alloc, design)
}

/// The states of a design, and where its ticks begin.
fn made(alloc: Global, design: &Design, order: &[u32]) -> Result<Parts, AllocError>
    requires { IsTenantDesign (flat_of design.now) order.now }
    ensures image { IfOk result (λ m. (image : ImageData) → flat_of design.now ≡ flat_of image.design → image.order.items ≡ order.now → image.table ≡ m.table → image.rise ≡ m.rise →
        image.slots ≡ m.slots → image.stores ≡ m.stores → image.ports ≡ m.ports → image.cost ≡ m.cost → IsImage (flat_of design.now) order.now image) }
    ensures within { IfOk result (λ m. (image : ImageData) → image.table ≡ m.table → image.ports ≡ m.ports → IsWithinCost (flat_of design.now) image) }
{
    tenants_designs_are_compiled();
    nodes_of_a_tenants_design_are_compiled();
    calls_of_a_table_stand_apart();
    a_tenants_design_delays_variables();
    nodes_are_within_cost();
    registers_are_within_cost();
    let nodes = few_nodes(alloc, design)?;
    let states = states(alloc, design, order, &nodes)?;
    let ports = sized_ports(alloc, design)?;
    let cost = cost(alloc, design)?;
    Ok(Parts {
        table: states.table,
        rise: nodes.rise.first,
        slots: states.slots,
        stores: states.stores,
        ports,
        cost,
    })
}

/// The image of a design with its order: its states do what the nodes of its table behind time zero's wave do, where nets settle in
/// this order; and it keeps within the design's cost. An `Err` is want of memory, also where there would be more than 2 ^ 31 nodes, or 2 ^ 32 slots.
pub fn image(alloc: Global, design: Design, order: Vec<u32>) -> Result<Image, AllocError>
    requires { IsTenantDesign (flat_of design) order.items }
    ensures image { IfOk result (λ image. IsImage (flat_of design) order.items image) }
    ensures within { IfOk result (λ image. IsWithinCost (flat_of design) image) }
{
    let made = made(alloc, &design, &order)?;
    Ok(Image {
        design,
        order,
        table: made.table,
        rise: made.rise,
        slots: made.slots,
        stores: made.stores,
        ports: made.ports,
        cost: made.cost,
    })
}
