//! Paths of tests and cases.

ghost use Rattle.std.specs.Prelude.{◌≡◌, ◌≤◌, ◌==◌, if◌then◌else◌, IfOk, Option, bit_and, bit_xor};
ghost use Rattle.cell_form.specs.Views.{list_of};
ghost use Rattle.cell_emit.specs.Slots.{held, width_at, IsIn, Grows, Gives, Nothing};
ghost use Rattle.cell_emit.specs.Envs.{IsSlot, Always};
ghost use Rattle.cell_emit.specs.Differs.{differing, differing_count};

use crate::at::At;
use crate::steps;
use cell_form::cell::CellList;
use std::alloc::{AllocError, Global};
use vl_base::bits::BinOp;

/// The path of what is executed on another one where a slot isn't 0: one cell, of 1 bit.
fn where_set(
    alloc: Global,
    cells: &mut CellList,
    at: &At,
    test: u32,
    off: u32,
) -> Result<u32, AllocError>
    requires test { IsIn (list_of cells.old) test }
    requires off { IsSlot (list_of cells.old) off 1 }
    requires away { IsSlot (list_of cells.old) at.now.away 1 }
    requires never { Always (list_of cells.old) at.now.away 1 }
    ensures grows { Grows (list_of cells.old) (list_of cells.new) }
    ensures gives { IfOk result (λ r. Gives Nothing 1 (list_of cells.old) (list_of cells.new) r 1
        (λ b. if held b (list_of cells.old) test == 0 then 1 else held b (list_of cells.old) off)) }
{
    steps::mux(alloc, cells, test, off, at.away)
}

/// The path of what is executed on another one where a slot is 0: one cell, of 1 bit.
fn where_clear(
    alloc: Global,
    cells: &mut CellList,
    at: &At,
    test: u32,
    off: u32,
) -> Result<u32, AllocError>
    requires test { IsIn (list_of cells.old) test }
    requires off { IsSlot (list_of cells.old) off 1 }
    requires away { IsSlot (list_of cells.old) at.now.away 1 }
    requires never { Always (list_of cells.old) at.now.away 1 }
    ensures grows { Grows (list_of cells.old) (list_of cells.new) }
    ensures gives { IfOk result (λ r. Gives Nothing 1 (list_of cells.old) (list_of cells.new) r 1
        (λ b. if held b (list_of cells.old) test == 0 then held b (list_of cells.old) off else 1)) }
{
    steps::mux(alloc, cells, test, at.away, off)
}

/// The paths of the two branches of a test (IEEE 1364-2005, clause 9.4): two cells, of 1 bit each. The first branch is
/// executed where the test isn't 0 and the test's own path is taken, the second where the test is 0 and it is taken.
pub fn branches(
    alloc: Global,
    cells: &mut CellList,
    at: &At,
    test: u32,
    off: u32,
) -> Result<(u32, u32), AllocError>
    requires test { IsIn (list_of cells.old) test }
    requires off { IsSlot (list_of cells.old) off 1 }
    requires away { IsSlot (list_of cells.old) at.now.away 1 }
    requires never { Always (list_of cells.old) at.now.away 1 }
    ensures grows { Grows (list_of cells.old) (list_of cells.new) }
    ensures first { IfOk result (λ r. Gives Nothing 2 (list_of cells.old) (list_of cells.new) r.0 1
        (λ b. if held b (list_of cells.old) test == 0 then 1 else held b (list_of cells.old) off)) }
    ensures second { IfOk result (λ r. Gives Nothing 2 (list_of cells.old) (list_of cells.new) r.1 1
        (λ b. if held b (list_of cells.old) test == 0 then held b (list_of cells.old) off else 1)) }
{
    let first = where_set(alloc, cells, at, test, off)?;
    let second = where_clear(alloc, cells, at, test, off)?;
    Ok((first, second))
}

/// In which bits the subject of a case differs from a label of its width: one cell, or three. Where a label compares only some
/// bits, as a label of a `casez` with `?`, these are given as a mask (clause 9.5.1).
pub fn differs(
    alloc: Global,
    cells: &mut CellList,
    subject: u32,
    label: u32,
    care: Option<u128>,
) -> Result<u32, AllocError>
    requires subject { IsIn (list_of cells.old) subject }
    requires label { IsIn (list_of cells.old) label }
    requires one_width { width_at (list_of cells.old) subject ≡ width_at (list_of cells.old) label }
    requires wide { 1 ≤ width_at (list_of cells.old) subject }
    requires narrow { width_at (list_of cells.old) subject ≤ 128 }
    ensures grows { Grows (list_of cells.old) (list_of cells.new) }
    ensures gives { IfOk result (λ r. Gives Nothing (differing_count care) (list_of cells.old) (list_of cells.new) r (width_at (list_of cells.old) subject)
        (λ b. differing care (held b (list_of cells.old) subject) (held b (list_of cells.old) label))) }
{
    let width = steps::width_of(&*cells, subject);
    let all = steps::binary(alloc, cells, BinOp::Xor, false, subject, label)?;
    match care {
        None => Ok(all),
        Some(bits) => cared(alloc, cells, all, bits, width),
    }
}

/// The bits of a slot that are given: two cells.
fn cared(
    alloc: Global,
    cells: &mut CellList,
    all: u32,
    bits: u128,
    width: u8,
) -> Result<u32, AllocError>
    requires all { IsSlot (list_of cells.old) all width }
    requires wide { 1 ≤ width }
    requires narrow { width ≤ 128 }
    ensures grows { Grows (list_of cells.old) (list_of cells.new) }
    ensures gives { IfOk result (λ r. Gives Nothing 2 (list_of cells.old) (list_of cells.new) r width (λ b. bit_and (held b (list_of cells.old) all) bits)) }
{
    let mask = steps::constant(alloc, cells, bits, width)?;
    steps::binary(alloc, cells, BinOp::And, false, all, mask)
}

/// The path on which still no label of a case has matched, behind one more label (clause 9.5): one cell, of 1 bit.
pub fn open_behind(
    alloc: Global,
    cells: &mut CellList,
    at: &At,
    differs: u32,
    rest: u32,
) -> Result<u32, AllocError>
    requires differs { IsIn (list_of cells.old) differs }
    requires rest { IsSlot (list_of cells.old) rest 1 }
    requires away { IsSlot (list_of cells.old) at.now.away 1 }
    requires never { Always (list_of cells.old) at.now.away 1 }
    ensures grows { Grows (list_of cells.old) (list_of cells.new) }
    ensures gives { IfOk result (λ r. Gives Nothing 1 (list_of cells.old) (list_of cells.new) r 1
        (λ b. if held b (list_of cells.old) differs == 0 then 1 else held b (list_of cells.old) rest)) }
{
    where_set(alloc, cells, at, differs, rest)
}

/// The path of an item of a case (clause 9.5): it is executed where no label before its own matched, and one of its own does. One
/// cell, of 1 bit.
pub fn taken(
    alloc: Global,
    cells: &mut CellList,
    at: &At,
    rest_before: u32,
    rest_behind: u32,
) -> Result<u32, AllocError>
    requires before { IsSlot (list_of cells.old) rest_before 1 }
    requires behind { IsIn (list_of cells.old) rest_behind }
    requires away { IsSlot (list_of cells.old) at.now.away 1 }
    requires never { Always (list_of cells.old) at.now.away 1 }
    ensures grows { Grows (list_of cells.old) (list_of cells.new) }
    ensures gives { IfOk result (λ r. Gives Nothing 1 (list_of cells.old) (list_of cells.new) r 1
        (λ b. if held b (list_of cells.old) rest_behind == 0 then 1 else held b (list_of cells.old) rest_before)) }
{
    where_set(alloc, cells, at, rest_behind, rest_before)
}
