//! Designs without recursion, told by an order of their functions.

ghost use Rattle.std.specs.Prelude.{◌≡◌, ◌<◌, ◌^◌, ℕ, true, length, map, IfOk};
ghost use Rattle.cell_level.specs.Cycles.{IsOnCycle};
ghost use Rattle.vl_check.specs.Nets as y;
ghost use Rattle.vl_check.specs.Tables as x;

use crate::calls_calls::Call;
use cell_level::levels::levels;
use cell_level::nets::{Levels, Net};
use std::alloc::{AllocError, Global};
use vl_bits::parts::Part;

/// A bit for each function that is called.
fn called(alloc: Global, calls: &[Call]) -> Result<Vec<Part>, AllocError>
    ensures { IfOk result (λ v. v.items ≡ map (λ c. y.part c.callee) calls.now) }
{
    let mut parts = Vec::new(alloc);
    for call in calls {
        parts.push(Part {
            signal: call.callee,
            bits: 1,
        })?;
    }
    Ok(parts)
}

/// A function as a net that drives a bit of each function that it calls, and reads its own.
fn net_of(alloc: Global, f: u32, calls: &[Call]) -> Result<Net, AllocError>
    ensures { IfOk result (y.IsNetOf f calls.now) }
{
    let mut reads = Vec::new(alloc);
    reads.push(Part { signal: f, bits: 1 })?;
    let drives = called(alloc, calls)?;
    Ok(Net { reads, drives })
}

/// Each function as a net.
fn nets(alloc: Global, table: &[Vec<Call>]) -> Result<Vec<Net>, AllocError>
    requires few { length table.now < 2 ^ 32 }
    ensures long { IfOk result (λ v. length v.items ≡ length table.now) }
    ensures nets { IfOk result (λ v. y.AreNetsOf (x.rows_of table.now) (length table.now) v.items) }
{
    let mut nets = Vec::new(alloc);
    for f in 0..table.len() {
        let net = net_of(alloc, f as u32, table[f].as_slice())?;
        nets.push(net)?;
    }
    Ok(nets)
}

/// The functions have an order in which each stands before those that it calls: none is on a cycle of calls.
pub(crate) fn is_free(alloc: Global, table: &[Vec<Call>]) -> Result<bool, AllocError>
    requires few { length table.now < 2 ^ 32 }
    requires within { x.IsClosed (x.rows_of table.now) }
    ensures { IfOk result (λ r. r ≡ true → (p : ℕ) → IsOnCycle (x.Step (x.rows_of table.now)) p → ⊥) }
{
    let nets = nets(alloc, table)?;
    match levels(alloc, table.len(), nets.as_slice())? {
        Levels::Ordered(_) => Ok(true),
        Levels::Loop(_) => Ok(false),
    }
}
