//! Steps.
//!
//! Each takes the allocator that a cell's operands are held on; up to four of them need no memory. Its only error is
//! want of memory, also where a slot's number would reach 2^32. Then slots that were there stay too.

ghost use Rattle.std.specs.Prelude.{◌≡◌, ◌+◌, ◌<◌, ◌≤◌, ◌%◌, ◌^◌, ◌==◌, ◌-ℤ◌, if◌then◌else◌, true, [], slice_index, slice_index_or, IfOk};
ghost use Rattle.vl_base.specs.Value.{unary_value, unary_width, binary_value, binary_width, needs_one_width, resized};
ghost use Rattle.vl_base.specs.Selects.{picked, placed, appended};
ghost use Rattle.cell_form.specs.Views.{list_of};
ghost use Rattle.cell_form.specs.Values.{whole, lowest_bit, word_at};
ghost use Rattle.cell_emit.specs.Slots.{slot, held, width_at, IsIn, Grows, Gives, Nothing};
ghost use Rattle.cell_emit.specs.Pushes.{Pushed};

use cell_form::cell::{Cell, CellList, CellOp, Index};
use smallvec::SmallVec;
use std::alloc::{AllocError, Global};
use vl_base::bits::{BinOp, UnOp};

/// One cell more, and its slot.
fn push(
    alloc: Global,
    cells: &mut CellList,
    op: CellOp,
    args: &[u32],
    width: u8,
    low: i64,
) -> Result<u32, AllocError>
    ensures pushed { IfOk result (λ r. Pushed (list_of cells.old) (list_of cells.new) r (record { op = op; args = args.now; width = width; low = low })) }
    ensures grows { Grows (list_of cells.old) (list_of cells.new) }
{
    let count = cells.cells.as_slice().len();
    if count > (u32::MAX - cells.first) as usize {
        return Err(AllocError);
    }
    let slot = cells.first + count as u32;
    let args = SmallVec::from_slice(alloc, args)?;
    let cell = Cell {
        op,
        args,
        width,
        low,
    };
    match cells.cells.push(cell) {
        Ok(()) => Ok(slot),
        Err(_) => Err(AllocError),
    }
}

/// The width of a slot in bits.
pub fn width_of(cells: &CellList, slot: u32) -> u8
    requires { IsIn (list_of cells.now) slot }
    ensures { result ≡ width_at (list_of cells.now) slot }
{
    cells.cells.as_slice()[(slot - cells.first) as usize].width
}

/// A number, cut to a width.
pub fn constant(
    alloc: Global,
    cells: &mut CellList,
    value: u128,
    width: u8,
) -> Result<u32, AllocError>
    requires wide { 1 ≤ width }
    requires narrow { width ≤ 128 }
    ensures grows { Grows (list_of cells.old) (list_of cells.new) }
    ensures gives { IfOk result (λ r. Gives Nothing 1 (list_of cells.old) (list_of cells.new) r width (λ b. value % 2 ^ width)) }
{
    push(alloc, cells, CellOp::Const(value), &[], width, 0)
}

/// What a register holds, cut to a width.
pub fn register(
    alloc: Global,
    cells: &mut CellList,
    register: u32,
    width: u8,
) -> Result<u32, AllocError>
    requires wide { 1 ≤ width }
    requires narrow { width ≤ 128 }
    ensures grows { Grows (list_of cells.old) (list_of cells.new) }
    ensures gives { IfOk result (λ r. Gives (λ s. register < s.regs) 1 (list_of cells.old) (list_of cells.new) r width (λ b. slice_index b.regs register % 2 ^ width)) }
{
    push(alloc, cells, CellOp::Reg(register), &[], width, 0)
}

/// The width of the value of an operator on one value.
fn unary_result(op: UnOp, width: u8) -> u8
    ensures { result ≡ unary_width op width }
{
    match op {
        UnOp::Neg | UnOp::Not => width,
        _ => 1,
    }
}

/// An operator on a slot (IEEE 1364-2005, clause 5.1).
pub fn unary(alloc: Global, cells: &mut CellList, op: UnOp, a: u32) -> Result<u32, AllocError>
    requires there { IsIn (list_of cells.old) a }
    requires wide { 1 ≤ width_at (list_of cells.old) a }
    requires narrow { width_at (list_of cells.old) a ≤ 128 }
    ensures grows { Grows (list_of cells.old) (list_of cells.new) }
    ensures gives { IfOk result (λ r. Gives Nothing 1 (list_of cells.old) (list_of cells.new) r
        (unary_width op (width_at (list_of cells.old) a))
        (λ b. unary_value op (width_at (list_of cells.old) a) (held b (list_of cells.old) a))) }
{
    let width = unary_result(op, width_of(&*cells, a));
    push(alloc, cells, CellOp::Un(op), &[a], width, 0)
}

/// The width of the value of an operator on two values, the first of which has this width.
fn binary_result(op: BinOp, width: u8) -> u8
    ensures { result ≡ binary_width op width }
{
    match op {
        BinOp::Lt | BinOp::Le | BinOp::Gt | BinOp::Ge => 1,
        BinOp::Eq | BinOp::Ne | BinOp::LogAnd | BinOp::LogOr => 1,
        _ => width,
    }
}

/// An operator on two slots (clause 5.1), of one width but for the amount of a shift and operands of `&&` and `||`.
pub fn binary(
    alloc: Global,
    cells: &mut CellList,
    op: BinOp,
    signed: bool,
    a: u32,
    b: u32,
) -> Result<u32, AllocError>
    requires first { IsIn (list_of cells.old) a }
    requires second { IsIn (list_of cells.old) b }
    requires wide { 1 ≤ width_at (list_of cells.old) a }
    requires narrow { width_at (list_of cells.old) a ≤ 128 }
    requires one_width { needs_one_width op ≡ true → width_at (list_of cells.old) a ≡ width_at (list_of cells.old) b }
    ensures grows { Grows (list_of cells.old) (list_of cells.new) }
    ensures gives { IfOk result (λ r. Gives Nothing 1 (list_of cells.old) (list_of cells.new) r
        (binary_width op (width_at (list_of cells.old) a))
        (λ x. binary_value op signed (width_at (list_of cells.old) a) (held x (list_of cells.old) a) (held x (list_of cells.old) b))) }
{
    let width = binary_result(op, width_of(&*cells, a));
    push(alloc, cells, CellOp::Bin(op, signed), &[a, b], width, 0)
}

/// The first of two slots of one width where the test isn't 0, else the second (clause 5.1.13).
pub fn mux(
    alloc: Global,
    cells: &mut CellList,
    test: u32,
    a: u32,
    b: u32,
) -> Result<u32, AllocError>
    requires test { IsIn (list_of cells.old) test }
    requires first { IsIn (list_of cells.old) a }
    requires second { IsIn (list_of cells.old) b }
    requires wide { 1 ≤ width_at (list_of cells.old) a }
    requires narrow { width_at (list_of cells.old) a ≤ 128 }
    requires one_width { width_at (list_of cells.old) b ≡ width_at (list_of cells.old) a }
    ensures grows { Grows (list_of cells.old) (list_of cells.new) }
    ensures gives { IfOk result (λ r. Gives Nothing 1 (list_of cells.old) (list_of cells.new) r
        (width_at (list_of cells.old) a)
        (λ x. if held x (list_of cells.old) test == 0 then held x (list_of cells.old) b else held x (list_of cells.old) a)) }
{
    let width = width_of(&*cells, a);
    push(alloc, cells, CellOp::Mux, &[test, a, b], width, 0)
}

/// So many bits of a slot as the width says, from the one on that an index names (clause 5.2.1). A bit that isn't
/// there is 0.
pub fn pick(
    alloc: Global,
    cells: &mut CellList,
    base: u32,
    index: u32,
    from: Index,
    low: i64,
    width: u8,
) -> Result<u32, AllocError>
    requires base { IsIn (list_of cells.old) base }
    requires index { IsIn (list_of cells.old) index }
    requires wide { 1 ≤ width }
    requires narrow { width ≤ 128 }
    ensures grows { Grows (list_of cells.old) (list_of cells.new) }
    ensures gives { IfOk result (λ r. Gives Nothing 1 (list_of cells.old) (list_of cells.new) r width
        (λ b. picked (width_at (list_of cells.old) base) (held b (list_of cells.old) base) (lowest_bit from low (slot b (list_of cells.old) index)) width)) }
{
    push(alloc, cells, CellOp::Pick(from), &[base, index], width, low)
}

/// A slot with a part written to it, from the bit on that an index names (clause 5.2.1). Bits of the part that fall
/// outside have no effect.
pub fn place_in(
    alloc: Global,
    cells: &mut CellList,
    old_value: u32,
    index: u32,
    part: u32,
    from: Index,
    low: i64,
) -> Result<u32, AllocError>
    requires old_value { IsIn (list_of cells.old) old_value }
    requires index { IsIn (list_of cells.old) index }
    requires part { IsIn (list_of cells.old) part }
    requires wide { 1 ≤ width_at (list_of cells.old) old_value }
    requires narrow { width_at (list_of cells.old) old_value ≤ 128 }
    ensures grows { Grows (list_of cells.old) (list_of cells.new) }
    ensures gives { IfOk result (λ r. Gives Nothing 1 (list_of cells.old) (list_of cells.new) r
        (width_at (list_of cells.old) old_value)
        (λ b. placed (width_at (list_of cells.old) old_value) (held b (list_of cells.old) old_value) (lowest_bit from low (slot b (list_of cells.old) index))
        (width_at (list_of cells.old) part) (held b (list_of cells.old) part))) }
{
    let width = width_of(&*cells, old_value);
    push(
        alloc,
        cells,
        CellOp::PlaceIn(from),
        &[old_value, index, part],
        width,
        low,
    )
}

/// Two slots side by side, the first at the top (clause 5.1.14).
pub fn append(alloc: Global, cells: &mut CellList, high: u32, low: u32) -> Result<u32, AllocError>
    requires high { IsIn (list_of cells.old) high }
    requires low { IsIn (list_of cells.old) low }
    requires narrow { width_at (list_of cells.old) high + width_at (list_of cells.old) low ≤ 128 }
    ensures grows { Grows (list_of cells.old) (list_of cells.new) }
    ensures gives { IfOk result (λ r. Gives Nothing 1 (list_of cells.old) (list_of cells.new) r
        (width_at (list_of cells.old) high + width_at (list_of cells.old) low)
        (λ b. appended (held b (list_of cells.old) high) (width_at (list_of cells.old) low) (held b (list_of cells.old) low))) }
{
    let width = width_of(&*cells, high) + width_of(&*cells, low);
    push(alloc, cells, CellOp::Append, &[high, low], width, 0)
}

/// A slot cut or extended to a width, by its sign where it is signed (clause 5.5). No cell where it has the width.
pub fn resize(
    alloc: Global,
    cells: &mut CellList,
    a: u32,
    signed: bool,
    width: u8,
) -> Result<u32, AllocError>
    requires there { IsIn (list_of cells.old) a }
    requires wide { 1 ≤ width }
    requires narrow { width ≤ 128 }
    ensures grows { Grows (list_of cells.old) (list_of cells.new) }
    ensures gives { IfOk result (λ r. Gives Nothing (if width_at (list_of cells.old) a == width then 0 else 1) (list_of cells.old) (list_of cells.new) r width
        (λ b. resized signed (width_at (list_of cells.old) a) width (held b (list_of cells.old) a))) }
{
    if width_of(&*cells, a) == width {
        return Ok(a);
    }
    push(alloc, cells, CellOp::Resize(signed), &[a], width, 0)
}

/// The word of a memory at an address, cut to a width (clause 5.2.2); 0 where there is none. The address is read as
/// signed where that is true, and the memory's lowest address is given.
pub fn word(
    alloc: Global,
    cells: &mut CellList,
    memory: u32,
    address: u32,
    signed: bool,
    lowest: i64,
    width: u8,
) -> Result<u32, AllocError>
    requires there { IsIn (list_of cells.old) address }
    requires wide { 1 ≤ width }
    requires narrow { width ≤ 128 }
    ensures grows { Grows (list_of cells.old) (list_of cells.new) }
    ensures gives { IfOk result (λ r. Gives (λ s. memory < s.mems) 1 (list_of cells.old) (list_of cells.new) r width
        (λ b. word_at (slice_index_or b.mems memory []) (whole signed (slot b (list_of cells.old) address) -ℤ lowest) % 2 ^ width)) }
{
    push(
        alloc,
        cells,
        CellOp::MemRead(memory, signed),
        &[address],
        width,
        lowest,
    )
}
