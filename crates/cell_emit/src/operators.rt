//! Operators (IEEE 1364-2005, clause 5.1).

ghost use Rattle.std.specs.Prelude.{◌≡◌, ◌+◌, ◌≤◌, ◌==◌, if◌then◌else◌, true, IfOk};
ghost use Rattle.vl_base.specs.Value.{resized, unary_value, unary_width, binary_value, binary_width, needs_one_width};
ghost use Rattle.cell_form.specs.Views.{list_of};
ghost use Rattle.cell_emit.specs.Slots.{held, width_at, IsIn, Grows, Gives, Nothing};
ghost use Rattle.cell_emit.specs.Counts.{resizes};

use crate::steps;
use cell_form::cell::CellList;
use std::alloc::{AllocError, Global};
use vl_base::bits::{BinOp, UnOp};

/// An operator on one value.
pub fn operate(
    alloc: Global,
    cells: &mut CellList,
    op: UnOp,
    a: u32,
    signed: bool,
    width: u8,
) -> Result<u32, AllocError>
    requires there { IsIn (list_of cells.old) a }
    requires own { 1 ≤ width_at (list_of cells.old) a }
    requires own_narrow { width_at (list_of cells.old) a ≤ 128 }
    requires wide { 1 ≤ width }
    requires narrow { width ≤ 128 }
    ensures grows { Grows (list_of cells.old) (list_of cells.new) }
    ensures gives { IfOk result (λ r. Gives Nothing (1 + resizes (unary_width op (width_at (list_of cells.old) a)) width) (list_of cells.old) (list_of cells.new) r width
        (λ b. resized signed (unary_width op (width_at (list_of cells.old) a)) width
        (unary_value op (width_at (list_of cells.old) a) (held b (list_of cells.old) a)))) }
{
    let value = steps::unary(alloc, cells, op, a)?;
    steps::resize(alloc, cells, value, signed, width)
}

/// An operator on two values, read as signed where `op_signed` is true.
pub fn combine(
    alloc: Global,
    cells: &mut CellList,
    op: BinOp,
    op_signed: bool,
    a: u32,
    b: u32,
    signed: bool,
    width: u8,
) -> Result<u32, AllocError>
    requires first { IsIn (list_of cells.old) a }
    requires second { IsIn (list_of cells.old) b }
    requires own { 1 ≤ width_at (list_of cells.old) a }
    requires own_narrow { width_at (list_of cells.old) a ≤ 128 }
    requires one_width { needs_one_width op ≡ true → width_at (list_of cells.old) a ≡ width_at (list_of cells.old) b }
    requires wide { 1 ≤ width }
    requires narrow { width ≤ 128 }
    ensures grows { Grows (list_of cells.old) (list_of cells.new) }
    ensures gives { IfOk result (λ r. Gives Nothing (1 + resizes (binary_width op (width_at (list_of cells.old) a)) width) (list_of cells.old) (list_of cells.new) r width
        (λ x. resized signed (binary_width op (width_at (list_of cells.old) a)) width
        (binary_value op op_signed (width_at (list_of cells.old) a) (held x (list_of cells.old) a) (held x (list_of cells.old) b)))) }
{
    let value = steps::binary(alloc, cells, op, op_signed, a, b)?;
    steps::resize(alloc, cells, value, signed, width)
}

/// The first of two values of one width where the condition isn't 0, else the second (clause 5.1.13).
pub fn choose(
    alloc: Global,
    cells: &mut CellList,
    test: u32,
    a: u32,
    b: u32,
    signed: bool,
    width: u8,
) -> Result<u32, AllocError>
    requires test { IsIn (list_of cells.old) test }
    requires first { IsIn (list_of cells.old) a }
    requires second { IsIn (list_of cells.old) b }
    requires own { 1 ≤ width_at (list_of cells.old) a }
    requires own_narrow { width_at (list_of cells.old) a ≤ 128 }
    requires one_width { width_at (list_of cells.old) b ≡ width_at (list_of cells.old) a }
    requires wide { 1 ≤ width }
    requires narrow { width ≤ 128 }
    ensures grows { Grows (list_of cells.old) (list_of cells.new) }
    ensures gives { IfOk result (λ r. Gives Nothing (1 + resizes (width_at (list_of cells.old) a) width) (list_of cells.old) (list_of cells.new) r width
        (λ x. resized signed (width_at (list_of cells.old) a) width
        (if held x (list_of cells.old) test == 0 then held x (list_of cells.old) b else held x (list_of cells.old) a))) }
{
    let value = steps::mux(alloc, cells, test, a, b)?;
    steps::resize(alloc, cells, value, signed, width)
}
