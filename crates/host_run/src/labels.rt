//! The labels of the fabrics.

ghost use Rattle.std.specs.Prelude.{◌≡◌, ◌≤◌, length, IfOk, vec_len};
ghost use Rattle.host_run.specs.Rooms.{room_of, HaveRoom};
ghost use Rattle.host_run.specs.Made.{AreLabelsOf, IsLabelOf};

use fab_rounds::noted::Label;
use host_judge::origin::Origin;
use host_text::Cost;
use host_text::script::FabricLine;
use std::alloc::{AllocError, Global};
use std::snapshot::Snapshot;

/// How many tenants a label is for: a label is for one at least.
fn tenants_of(count: usize) -> u32
    requires { count ≤ 64 }
    ensures all { count ≤ result }
    ensures some { 1 ≤ result }
{
    if count == 0 { 1 } else { count as u32 }
}

/// The label of the fabric of this number and line.
fn label_of(number: u32, line: &FabricLine, tenants: u32, origins: &Vec<Origin>) -> Label
    requires all { vec_len origins.now ≤ tenants }
    requires some { 1 ≤ tenants }
    ensures is { IsLabelOf origins.now.items number result }
    ensures room { result.capacity ≡ room_of line.now.capacity }
{
    let room = line.capacity;
    Label {
        fabric: number,
        capacity: Cost {
            regs: room.registers,
            cells: room.cells,
            mem: room.memory,
        },
        tenants,
        any_puts: false,
        origins: Some(Snapshot::of(origins)),
    }
}

/// The labels of fabrics, where tenants start from these origins. An `Err` is want of memory alone.
pub(crate) fn labels_of(
    alloc: Global,
    lines: &[FabricLine],
    origins: &Vec<Origin>,
) -> Result<Vec<Label>, AllocError>
    requires few { vec_len origins.now ≤ 64 }
    requires some { length lines.now ≤ 8 }
    ensures labels { IfOk result (λ ls. AreLabelsOf origins.now.items ls.items) }
    ensures room { IfOk result (λ ls. HaveRoom lines.now ls.items) }
{
    let tenants = tenants_of(origins.len());
    let mut labels = Vec::new(alloc);
    for i in 0..lines.len() {
        labels.push(label_of(i as u32, &lines[i], tenants, origins))?;
    }
    Ok(labels)
}
