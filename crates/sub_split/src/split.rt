//! The table of a design.

ghost use Rattle.std.specs.Prelude.{◌≡◌, ◌++◌, IfOk, length, map};
ghost use Rattle.vl_design.specs.Trees.{flat_of};
ghost use Rattle.sub_nodes.specs.Code.{table_of};
ghost use Rattle.sub_split.specs.Makes.{nodes_view};
ghost use Rattle.sub_split.specs.Views.{node_view, table_view};
ghost use Rattle.sub_split.specs.Waves.{first_early, update_nodes};

use crate::table::{Node, Table, Wave};
use crate::waves::{Part, fall_wave, has_fall, wave};
use std::alloc::{AllocError, Global};
use vl_design::design::{Design, ProcKind};

/// How many updates there are: of time zero and of a rise, and of a fall, where a block waits for it.
fn update_count(falls: bool) -> u32
    ensures { result ≡ length (update_nodes falls 0 0) }
{
    if falls { 3 } else { 2 }
}

/// The updates of time zero and of a rise, and of a fall, where a block waits for it; then the nodes of the waves.
fn joined<'a>(
    alloc: Global,
    falls: bool,
    mut up: Part<'a>,
    mut down: Part<'a>,
    mut first: Part<'a>,
) -> Result<Vec<Node<'a>>, AllocError>
    ensures { IfOk result (λ v. map node_view v.items ≡ update_nodes falls up.entry.first down.entry.first ++ (nodes_view up.entry.nodes ++ (nodes_view down.entry.nodes ++ nodes_view first.entry.nodes))) }
{
    let mut nodes = Vec::new(alloc);
    nodes.push(Node::Apply(up.first))?;
    if falls {
        nodes.push(Node::Apply(down.first))?;
    }
    nodes.push(Node::Apply(up.first))?;
    nodes.append(&mut up.nodes.all)?;
    nodes.append(&mut down.nodes.all)?;
    nodes.append(&mut first.nodes.all)?;
    Ok(nodes)
}

/// The table of the nodes of a design's blocks, whose statements are the design's own. It takes as long as the blocks and the
/// table are large. More than `u32::MAX` nodes are too many for memory.
pub fn split<'a>(alloc: Global, design: &'a Design) -> Result<Table<'a>, AllocError>
    ensures table { IfOk result (λ t. table_view t ≡ table_of (flat_of design.now)) }
    ensures early { IfOk result (λ t. t.early ≡ first_early (flat_of design.now)) }
{
    let processes = design.processes.as_slice();
    let falls = has_fall(processes);
    let from = update_count(falls);
    let up = wave(alloc, from, 1, true, ProcKind::Rise, processes)?;
    let behind_up = up.nodes.number()?;
    let down = fall_wave(alloc, behind_up, falls, processes)?;
    let behind_down = down.nodes.number()?;
    let start = wave(alloc, behind_down, 0, false, ProcKind::Init, processes)?;
    let zero = Wave {
        first: start.first,
        update: 0,
    };
    let rise = Wave {
        first: up.first,
        update: 1,
    };
    let fall = Wave {
        first: down.first,
        update: 2,
    };
    let nodes = joined(alloc, falls, up, down, start)?;
    Ok(Table {
        nodes,
        zero,
        rise,
        fall,
        early: behind_down,
    })
}
