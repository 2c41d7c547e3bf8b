//! The states of a design's table of nodes.

ghost use Rattle.std.specs.Prelude.{◌≡◌, ◌<◌, ◌≤◌, ◌+◌, ◌-◌, ◌^◌, ◌++◌, ◌∷◌, [], ℕ, List, All, length, map, take, slice_get, Some, IfOk, OnOk};
ghost use Rattle.vl_design.specs.Sound.{IsMemory, IsSoundTask};
ghost use Rattle.vl_design.specs.Trees.{flat_of};
ghost use Rattle.vl_design.specs.Width.{names_of};
ghost use Rattle.cell_emit.specs.cell_form.specs.Views.{list_of, state_of};
ghost use Rattle.cell_emit.specs.Pendings.{slots_of};
ghost use Rattle.cell_emit.specs.Envs.{env_of};
ghost use Rattle.ten_form.specs.sub_nodes.specs.Early.{early_from};
ghost use Rattle.ten_form.specs.sub_nodes.specs.Pairs.{ArePaired};
ghost use Rattle.ten_form.specs.sub_nodes.specs.Code.{table_of};
ghost use Rattle.ten_form.specs.sub_nodes.specs.Nodes as n;
ghost use Rattle.ten_form.specs.sub_split.specs.Views.{call_view, node_view, segment_view, way_on_view};
ghost use Rattle.ten_form.specs.Banks.{cell_nodes, stores_in, stores_after};
ghost use Rattle.ten_form.specs.Registers.{state_register};
ghost use Rattle.ten_form.specs.States.{slots_in, AreStates};
ghost use Rattle.ten_form.specs.Holding.{mask_register};
ghost use Rattle.ten_form.specs.Stores.{node_words};
ghost use Rattle.cell_calls.specs.Counts.{asked_count};
ghost use Rattle.cell_expr.specs.Counts.{body_cells};
ghost use Rattle.cell_calls.specs.Next.{next_count};
ghost use Rattle.cell_states.specs.Cells.{segment_count, update_count, AreCounted};
ghost use Rattle.cell_states.specs.Designs.{ComputesAlone, IsCellDesign};
ghost use Rattle.cell_states.specs.Mades.{IsBase, IsKept};
ghost use Rattle.cell_states.specs.Marks.{AreDelayed};
ghost use Rattle.cell_states.specs.Pieces.{IsCellNode, IsCellPiece, IsCellWay};
ghost use Rattle.cell_states.specs.Tables as s;
ghost use Rattle.cell_states.specs.Widths.{AreNarrow};

use crate::base::{Base, begin_in, cut, no_cells};
use crate::delays::delayed;
use crate::made::States;
use crate::run::{Kept, made, made_call};
use crate::state::{call_states, one, plain_state, slots_behind};
use crate::update::made_update;
use cell_emit::cell::CellList;
use cell_emit::table::{State, StateTable};
use std::alloc::{AllocError, Global};
use ten_form::places::{STATE, VALUE};
use ten_form::store::Store;
use ten_form::stores;
use ten_form::table::{Node, Segment, Table, WayOn};
use vl_design::design::{Design, SysCall};
use vl_design::{Items, Nums, Text};

/// The states of the first nodes of a table.
#[derive(Drop)]
struct Built {
    /// The states.
    states: Items<State>,
    /// How many slots they have together.
    slots: u32,
    /// How many stores the other nodes have.
    left: usize,
}

impl Built {
    /// Adds a state, whose slots stand behind all others; so many stores have the nodes that have no state then.
    fn add(&mut self, state: State, left: usize) -> Result<(), AllocError>
        ensures states { OnOk result (self.new.states ≡ self.old.states ++ state ∷ []) }
        ensures slots { OnOk result (self.new.slots ≡ slots_in (state_of state).cells) }
        ensures left { OnOk result (self.new.left ≡ left) }
    {
        let slots = slots_behind(&state.cells)?;
        match self.states.push(state) {
            Ok(()) => {
                self.slots = slots;
                self.left = left;
                Ok(())
            }
            Err(_) => Err(AllocError),
        }
    }
}

/// The node to which a segment goes whatever is read, if it is a call's.
fn go_of(on: &WayOn<'_>) -> Option<u32>
    ensures { result ≡ s.go_of (way_on_view on.now) }
{
    match on {
        WayOn::Go(to) => Some(*to),
        WayOn::Branch(_, _, _) => None,
        WayOn::Switch(_, _, _) => None,
        WayOn::Commit(_) => None,
    }
}

/// The nodes that a way leads to.
fn nexts_of(alloc: Global, on: &WayOn<'_>) -> Result<Nums, AllocError> {
    let mut nexts = Vec::new(alloc);
    match on {
        WayOn::Go(to) => nexts.push(*to)?,
        WayOn::Branch(_, first, second) => {
            nexts.push(*first)?;
            nexts.push(*second)?;
        }
        WayOn::Switch(_, ways, otherwise) => {
            for way in ways {
                nexts.push(way.to)?;
            }
            nexts.push(*otherwise)?;
        }
        WayOn::Commit(to) => nexts.push(*to)?,
    }
    Ok(Nums::from_vec(nexts))
}

/// How many stores the node of a number has.
fn own_stores(alloc: Global, nodes: &[Node<'_>], number: usize) -> Result<usize, AllocError>
    requires there { number < length nodes.now }
    ensures { IfOk result (λ own. (x : n.Node) → slice_get (map node_view nodes.now) number ≡ Some x → own ≡ length (node_words x)) }
{
    let own = stores::stores(alloc, 0, &nodes[number..number + 1])?;
    Ok(own.as_slice().len())
}

/// The stores that a node's state reads and keeps, where so many are its own, and with these so many are left of all nodes' stores: those
/// of the nodes behind it stand first.
fn kept_of(stores: &[Store], left: usize, own: usize) -> Kept<'_>
    requires own { own ≤ left }
    requires left { left ≤ length stores.now }
    ensures above { result.above.now ≡ take (left - own) stores.now }
    ensures all { result.all.now ≡ take left stores.now }
{
    Kept {
        above: &stores[..left - own],
        all: &stores[..left],
    }
}

/// Adds the state of a segment that comes to no call.
fn add_run(
    alloc: Global,
    cells: &mut CellList,
    base: &Base<'_>,
    design: &Design,
    kept: Kept<'_>,
    delayed: &[bool],
    segment: &Segment<'_>,
    on: &WayOn<'_>,
    built: &mut Built,
) -> Result<(), AllocError>
    requires design { IsCellDesign (flat_of design.now) base.now.order.now }
    requires stores { (number : ℕ) × IsKept (flat_of design.now) number kept (n.Run (segment_view segment.now) (way_on_view on.now)) }
    requires memories { All (λ x. IsMemory (names_of (flat_of design.now)) x.memory) kept.above.now }
    requires few { All (λ x. mask_register x < 2 ^ 32) kept.all.now }
    requires delayed { AreDelayed (flat_of design.now) delayed.now }
    requires pieces { All (IsCellPiece (names_of (flat_of design.now))) segment.now.statements.items }
    requires way { IsCellWay (names_of (flat_of design.now)) on.now }
    requires base { IsBase (flat_of design.now) base.now.order.now (list_of cells.old) (env_of base.now.begun.at) (slots_of base.now.begun.pending) }
    ensures more { OnOk result ((number : ℕ) → IsKept (flat_of design.now) number kept.entry (n.Run (segment_view segment.now) (way_on_view on.now)) →
        s.HasOneMore (flat_of design.now) base.now.order.now number (n.Run (segment_view segment.now) (way_on_view on.now))
        (segment_count (flat_of design.now) base.now.order.now (length kept.entry.above.now) (segment_view segment.now) + next_count (body_cells (flat_of design.now)) (way_on_view on.now)) (map state_of built.old.states) built.old.slots (map state_of built.new.states) built.new.slots) }
    ensures left { OnOk result (built.new.left ≡ length kept.entry.above.now) }
    ensures cells { OnOk result (list_of cells.new ≡ list_of cells.old) }
{
    let count = cells.cells.as_slice().len();
    let sets = made(alloc, cells, base, design, kept, delayed, segment, on)?;
    let nexts = nexts_of(alloc, on)?;
    let state = plain_state(alloc, cells, &sets, nexts, built.slots)?;
    cut(cells, count);
    built.add(state, kept.above.len())
}

/// Adds the state of an update.
fn add_update(
    alloc: Global,
    design: &Design,
    stores: &[Store],
    delayed: &[bool],
    to: u32,
    built: &mut Built,
) -> Result<(), AllocError>
    requires alone { ComputesAlone (flat_of design.now) }
    requires signals { length (flat_of design.now).rows ≤ 268435456 }
    requires stores { stores.now ≡ stores_in (flat_of design.now) }
    requires memories { All (λ x. IsMemory (names_of (flat_of design.now)) x.memory) stores.now }
    requires few { All (λ x. mask_register x < 2 ^ 32) stores.now }
    requires delayed { AreDelayed (flat_of design.now) delayed.now }
    ensures more { OnOk result ((order : List ℕ) (number : ℕ) → s.HasOneMore (flat_of design.now) order number (n.Apply to) (update_count (flat_of design.now)) (map state_of built.old.states) built.old.slots (map state_of built.new.states) built.new.slots) }
    ensures left { OnOk result (built.new.left ≡ built.old.left) }
{
    let made = made_update(alloc, design, stores, delayed, to)?;
    let nexts = one(alloc, to)?;
    let state = plain_state(alloc, &made.cells, &made.sets, nexts, built.slots)?;
    let left = built.left;
    built.add(state, left)
}

/// Adds the state of a segment that comes to a call, whose trap has this number, and that of the call, behind which the state `to` is
/// next.
fn add_call(
    alloc: Global,
    cells: &mut CellList,
    base: &Base<'_>,
    design: &Design,
    kept: Kept<'_>,
    delayed: &[bool],
    segment: &Segment<'_>,
    trap: u32,
    path: &Text,
    call: &SysCall,
    to: u32,
    built: &mut Built,
) -> Result<(), AllocError>
    requires design { IsCellDesign (flat_of design.now) base.now.order.now }
    requires stores { (number : ℕ) × IsKept (flat_of design.now) number kept (n.Run (segment_view segment.now) (n.Go trap)) }
    requires memories { All (λ x. IsMemory (names_of (flat_of design.now)) x.memory) kept.above.now }
    requires few { All (λ x. mask_register x < 2 ^ 32) kept.all.now }
    requires delayed { AreDelayed (flat_of design.now) delayed.now }
    requires pieces { All (IsCellPiece (names_of (flat_of design.now))) segment.now.statements.items }
    requires task { IsSoundTask (names_of (flat_of design.now)) (call_view path.now call.now) }
    requires base { IsBase (flat_of design.now) base.now.order.now (list_of cells.old) (env_of base.now.begun.at) (slots_of base.now.begun.pending) }
    ensures more { OnOk result ((number : ℕ) → IsKept (flat_of design.now) number kept.entry (n.Run (segment_view segment.now) (n.Go trap)) →
        s.HasTwoMore (flat_of design.now) base.now.order.now number (segment_view segment.now) trap (call_view path.now call.now) to
        (segment_count (flat_of design.now) base.now.order.now (length kept.entry.above.now) (segment_view segment.now) + (1 + asked_count (body_cells (flat_of design.now)) (call_view path.now call.now))) (map state_of built.old.states) built.old.slots (map state_of built.new.states) built.new.slots) }
    ensures left { OnOk result (built.new.left ≡ length kept.entry.above.now) }
    ensures cells { OnOk result (list_of cells.new ≡ list_of cells.old) }
{
    let count = cells.cells.as_slice().len();
    let (sets, asked) = made_call(
        alloc, cells, base, design, kept, delayed, segment, trap, path, call,
    )?;
    let (run, wait) = call_states(alloc, cells, &sets, asked, trap, to, built.slots)?;
    cut(cells, count);
    let left = kept.above.len();
    built.add(run, left)?;
    built.add(wait, left)
}

/// Adds the state of the next node, and where that comes to a call, the call's too. The stores are those of all nodes.
fn add_node(
    alloc: Global,
    cells: &mut CellList,
    base: &Base<'_>,
    design: &Design,
    nodes: &[Node<'_>],
    stores: &[Store],
    delayed: &[bool],
    built: &mut Built,
) -> Result<(), AllocError>
    requires design { IsCellDesign (flat_of design.now) base.now.order.now }
    requires nodes { All (IsCellNode (names_of (flat_of design.now))) nodes.now }
    requires table { map node_view nodes.now ≡ cell_nodes (flat_of design.now) }
    requires stores { stores.now ≡ stores_in (flat_of design.now) }
    requires few { All (λ x. mask_register x < 2 ^ 32) stores.now }
    requires delayed { AreDelayed (flat_of design.now) delayed.now }
    requires first { s.AreFirst (flat_of design.now) base.now.order.now (cell_nodes (flat_of design.now)) (map state_of built.old.states) built.old.slots built.old.left }
    requires more { length built.old.states < length nodes.now }
    requires base { IsBase (flat_of design.now) base.now.order.now (list_of cells.old) (env_of base.now.begun.at) (slots_of base.now.begun.pending) }
    ensures first { OnOk result (s.AreFirst (flat_of design.now) base.now.order.now (cell_nodes (flat_of design.now)) (map state_of built.new.states) built.new.slots built.new.left) }
    ensures more { OnOk result (length built.old.states < length built.new.states) }
    ensures cells { OnOk result (list_of cells.new ≡ list_of cells.old) }
{
    let number = built.states.as_slice().len();
    match &nodes[number] {
        Node::Run(segment, on) => {
            let own = own_stores(alloc, nodes, number)?;
            let kept = kept_of(stores, built.left, own);
            match go_of(on) {
                None => add_run(
                    alloc, cells, base, design, kept, delayed, segment, on, built,
                ),
                Some(trap) => match &nodes[number + 1] {
                    Node::Trap(path, call, to) => add_call(
                        alloc, cells, base, design, kept, delayed, segment, trap, path, call, *to,
                        built,
                    ),
                    Node::Run(_, _) => unreachable!(),
                    Node::Apply(_) => unreachable!(),
                },
            }
        }
        Node::Apply(to) => add_update(alloc, design, stores, delayed, *to, built),
        Node::Trap(_, _, _) => unreachable!(),
    }
}

/// The states of nodes. The stores are those of all of them. What each begins with is made once.
fn all_built(
    alloc: Global,
    design: &Design,
    order: &[u32],
    nodes: &[Node<'_>],
    stores: &[Store],
) -> Result<Built, AllocError>
    requires design { IsCellDesign (flat_of design.now) order.now }
    requires nodes { All (IsCellNode (names_of (flat_of design.now))) nodes.now }
    requires table { map node_view nodes.now ≡ cell_nodes (flat_of design.now) }
    requires stores { stores.now ≡ stores_in (flat_of design.now) }
    requires few { All (λ x. mask_register x < 2 ^ 32) stores.now }
    requires paired { ArePaired 0 (cell_nodes (flat_of design.now)) }
    ensures states { IfOk result (λ r. AreStates (flat_of design.now) order.now r.slots (cell_nodes (flat_of design.now)) (map state_of r.states)) }
    ensures few { IfOk result (λ r. AreCounted (flat_of design.now) order.now (cell_nodes (flat_of design.now)) (map state_of r.states)) }
    ensures narrow { IfOk result (λ r. AreNarrow (flat_of design.now) (map state_of r.states)) }
{
    let delayed = delayed(alloc, design)?;
    let mut cells = no_cells(alloc, 0);
    let begun = begin_in(alloc, &mut cells, design, order)?;
    let base = Base { order, begun };
    let mut built = Built {
        states: Items::new(alloc),
        slots: 0,
        left: stores.len(),
    };
    while built.states.as_slice().len() < nodes.len() {
        add_node(
            alloc,
            &mut cells,
            &base,
            design,
            nodes,
            stores,
            delayed.as_slice(),
            &mut built,
        )?;
    }
    Ok(built)
}

/// The stores of nodes, whose registers stand behind those of the signals.
fn stores_of(alloc: Global, design: &Design, nodes: &[Node<'_>]) -> Result<Vec<Store>, AllocError>
    requires few { length (flat_of design.now).rows ≤ 268435456 }
    requires table { map node_view nodes.now ≡ cell_nodes (flat_of design.now) }
    ensures stores { IfOk result (λ xs. xs.items ≡ stores_in (flat_of design.now)) }
    ensures few { IfOk result (λ xs. All (λ x. mask_register x < 2 ^ 32) xs.items) }
{
    let signals = design.signals.as_slice().len();
    stores::stores(alloc, 4 * signals as u32 + VALUE, nodes)
}

/// The states of the nodes of a design's table behind time zero's wave, and how many slots and stores they have together: each does what
/// its node does, or has its call. An `Err` is want of memory, also where the number of a slot or of a register would be 2 ^ 32.
pub fn states(
    alloc: Global,
    design: &Design,
    order: &[u32],
    table: &Table<'_>,
) -> Result<States, AllocError>
    requires design { IsCellDesign (flat_of design.now) order.now }
    requires nodes { All (IsCellNode (names_of (flat_of design.now))) (take table.now.early table.now.nodes.items) }
    requires table { map node_view table.now.nodes.items ≡ (table_of (flat_of design.now)).nodes }
    requires early { table.now.early ≡ early_from (flat_of design.now) }
    requires paired { ArePaired 0 (cell_nodes (flat_of design.now)) }
    ensures state { IfOk result (λ r. r.table.state ≡ state_register) }
    ensures states { IfOk result (λ r. AreStates (flat_of design.now) order.now r.slots (cell_nodes (flat_of design.now)) (map state_of r.table.states)) }
    ensures few { IfOk result (λ r. AreCounted (flat_of design.now) order.now (cell_nodes (flat_of design.now)) (map state_of r.table.states)) }
    ensures narrow { IfOk result (λ r. AreNarrow (flat_of design.now) (map state_of r.table.states)) }
    ensures stores { IfOk result (λ r. r.stores ≡ length (stores_in (flat_of design.now))) }
{
    let nodes = table.nodes.as_slice();
    let nodes = &nodes[..table.early as usize];
    let all = stores_of(alloc, design, nodes)?;
    let Ok(stores) = u32::try_from(all.as_slice().len()) else {
        return Err(AllocError);
    };
    let Built { states, slots, .. } = all_built(alloc, design, order, nodes, all.as_slice())?;
    let table = StateTable {
        state: STATE,
        states,
    };
    Ok(States {
        table,
        slots,
        stores,
    })
}
