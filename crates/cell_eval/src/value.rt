//! The value of one cell.

ghost use Rattle.std.specs.Prelude.{◌≡◌, ◌+◌, ◌*◌, ◌<◌, ◌≤◌, ◌%◌, ◌^◌, ◌==◌, if◌then◌else◌, map, length, pos, ◌-ℤ◌, true};
ghost use Rattle.vl_base.specs.Value as v;
ghost use Rattle.vl_base.specs.Value.{wrapped, inverted};
ghost use Rattle.cell_form.specs.declared.cell.CellOp.TheVariants.{Un, Bin};
ghost use Rattle.vl_base.specs.Selects.{appended};
ghost use Rattle.cell_form.specs.Views.{cell_of, bank_of};
ghost use Rattle.cell_form.specs.Sound.{IsCell, shape_of};
ghost use Rattle.cell_form.specs.Values.{slot_at, slots_of, cell_slot, operands};
ghost use Rattle.cell_eval.specs.Holds.{Holds, widths_of};

use crate::masks::{cut, half, mask};
use crate::selects::{lowest_bit, picked, placed, whole_number, word_at};
use crate::shifts::{moved_left, moved_right};
use cell_form::bank::Bank;
use cell_form::cell::{Cell, CellOp};
use vl_base::bits::{BinOp, Bits, UnOp, binary, unary};
use vl_base::select::append;

/// An operand of a cell, by its place among them.
fn operand(earlier: &[Cell], cell: &Cell, place: usize, first: u32, bank: &Bank) -> Bits
    requires holds { Holds first (bank_of bank.now) (map cell_of earlier.now) }
    requires cell { IsCell (shape_of (bank_of bank.now)) first (widths_of (map cell_of earlier.now)) (cell_of cell.now) }
    requires place { place < length cell.now.args.items }
    ensures value { result.value ≡ (slot_at (operands first (slots_of first bank.now.regs.items (bank_of bank.now).mems (map cell_of earlier.now)) cell.now.args.items) place).value }
    ensures width { result.width ≡ (slot_at (operands first (slots_of first bank.now.regs.items (bank_of bank.now).mems (map cell_of earlier.now)) cell.now.args.items) place).width }
{
    let slot = cell.args.as_slice()[place];
    Bits {
        value: bank.slots[slot as usize],
        width: earlier[(slot - first) as usize].width,
    }
}

/// The value that a condition chooses of two. Both are at hand, so that no branch of the program hangs on values.
fn chosen(test: u128, first: u128, second: u128) -> u128
    ensures { result ≡ (if test == 0 then second else first) }
{
    if test == 0 { second } else { first }
}

/// The sum modulo 2^width.
fn sum(left: u128, right: u128, width: u8) -> u128
    requires { width ≤ 128 }
    ensures { result ≡ (left + right) % 2 ^ width }
{
    cut(left.wrapping_add(right), width)
}

/// The difference modulo 2^width.
fn difference(left: u128, right: u128, width: u8) -> u128
    requires { width ≤ 128 }
    ensures { result ≡ wrapped width (pos left -ℤ pos right) }
{
    cut(left.wrapping_sub(right), width)
}

/// The product modulo 2^width.
fn product(left: u128, right: u128, width: u8) -> u128
    requires { width ≤ 128 }
    ensures { result ≡ left * right % 2 ^ width }
{
    cut(left.wrapping_mul(right), width)
}

/// Each bit turned.
fn inverse(value: u128, width: u8) -> u128
    requires narrow { width ≤ 128 }
    requires fits { value < 2 ^ width }
    ensures { result ≡ inverted width value }
{
    cut(!value, width)
}

/// The value of an operator on one operand.
#[inline(always)]
fn of_one(earlier: &[Cell], cell: &Cell, op: UnOp, first: u32, bank: &Bank) -> u128
    requires holds { Holds first (bank_of bank.now) (map cell_of earlier.now) }
    requires cell { IsCell (shape_of (bank_of bank.now)) first (widths_of (map cell_of earlier.now)) (cell_of cell.now) }
    requires is { cell.now.op ≡ Un op }
    ensures { result ≡ (cell_slot first bank.now.regs.items (bank_of bank.now).mems (slots_of first bank.now.regs.items (bank_of bank.now).mems (map cell_of earlier.now)) (cell_of cell.now)).value }
{
    let only = operand(earlier, cell, 0, first, bank);
    match op {
        UnOp::Neg => difference(0, only.value, cell.width),
        UnOp::Not => inverse(only.value, cell.width),
        UnOp::RedOr => u128::from(only.value != 0),
        UnOp::LogNot | UnOp::RedNor => u128::from(only.value == 0),
        _ => unary(op, only).value,
    }
}

/// The value of an operator on two operands, where that hangs on their widths.
#[inline(always)]
fn by_widths(
    earlier: &[Cell],
    cell: &Cell,
    op: BinOp,
    signed: bool,
    first: u32,
    bank: &Bank,
) -> u128
    requires holds { Holds first (bank_of bank.now) (map cell_of earlier.now) }
    requires cell { IsCell (shape_of (bank_of bank.now)) first (widths_of (map cell_of earlier.now)) (cell_of cell.now) }
    requires is { cell.now.op ≡ Bin op signed }
    ensures { result ≡ (cell_slot first bank.now.regs.items (bank_of bank.now).mems (slots_of first bank.now.regs.items (bank_of bank.now).mems (map cell_of earlier.now)) (cell_of cell.now)).value }
{
    let left = operand(earlier, cell, 0, first, bank);
    let right = operand(earlier, cell, 1, first, bank);
    binary(op, signed, left, right).value
}

/// The value of an operator on two operands. A width is read only where it counts: that of a result is the cell's.
#[inline(always)]
fn of_two(earlier: &[Cell], cell: &Cell, op: BinOp, signed: bool, first: u32, bank: &Bank) -> u128
    requires holds { Holds first (bank_of bank.now) (map cell_of earlier.now) }
    requires cell { IsCell (shape_of (bank_of bank.now)) first (widths_of (map cell_of earlier.now)) (cell_of cell.now) }
    requires is { cell.now.op ≡ Bin op signed }
    ensures { result ≡ (cell_slot first bank.now.regs.items (bank_of bank.now).mems (slots_of first bank.now.regs.items (bank_of bank.now).mems (map cell_of earlier.now)) (cell_of cell.now)).value }
{
    let left = operand(earlier, cell, 0, first, bank).value;
    let right = operand(earlier, cell, 1, first, bank).value;
    match op {
        BinOp::Add => sum(left, right, cell.width),
        BinOp::Sub => difference(left, right, cell.width),
        BinOp::Mul => product(left, right, cell.width),
        BinOp::And => left & right,
        BinOp::Or => left | right,
        BinOp::Xor => left ^ right,
        BinOp::Shl => moved_left(left, right, cell.width),
        BinOp::Shr => moved_right(left, right, cell.width),
        BinOp::Eq => u128::from(left == right),
        BinOp::Ne => u128::from(left != right),
        BinOp::LogAnd => u128::from(left != 0 && right != 0),
        BinOp::LogOr => u128::from(left != 0 || right != 0),
        _ => by_widths(earlier, cell, op, signed, first, bank),
    }
}

/// A signed value extended to 128 bits.
fn extended(bits: Bits) -> u128
    ensures { result ≡ v.resized true bits.width 128 bits.value }
{
    if bits.value >= half(bits.width) {
        bits.value + (u128::MAX - mask(bits.width))
    } else {
        bits.value
    }
}

/// A value in another width: cut at the left, or extended, by its sign where it is signed (IEEE 1364-2005, clause 5.5).
fn resized(bits: Bits, signed: bool, width: u8) -> u128
    requires { width ≤ 128 }
    ensures { result ≡ v.resized signed bits.width width bits.value }
{
    if signed {
        cut(extended(bits), width)
    } else {
        cut(bits.value, width)
    }
}

/// The value of a cell behind earlier ones, whose slots have theirs.
#[inline(always)]
fn operated(earlier: &[Cell], cell: &Cell, first: u32, bank: &Bank) -> u128
    requires holds { Holds first (bank_of bank.now) (map cell_of earlier.now) }
    requires cell { IsCell (shape_of (bank_of bank.now)) first (widths_of (map cell_of earlier.now)) (cell_of cell.now) }
    ensures { result ≡ (cell_slot first bank.now.regs.items (bank_of bank.now).mems (slots_of first bank.now.regs.items (bank_of bank.now).mems (map cell_of earlier.now)) (cell_of cell.now)).value }
{
    match cell.op {
        CellOp::Const(n) => cut(n, cell.width),
        CellOp::Reg(register) => cut(bank.regs[register as usize], cell.width),
        CellOp::Un(op) => of_one(earlier, cell, op, first, bank),
        CellOp::Bin(op, signed) => of_two(earlier, cell, op, signed, first, bank),
        CellOp::Mux => {
            let test = operand(earlier, cell, 0, first, bank).value;
            let yes = operand(earlier, cell, 1, first, bank).value;
            let no = operand(earlier, cell, 2, first, bank).value;
            chosen(test, yes, no)
        }
        CellOp::Pick(from) => {
            let base = operand(earlier, cell, 0, first, bank);
            let index = operand(earlier, cell, 1, first, bank);
            picked(base, lowest_bit(from, cell.low, index), cell.width).value
        }
        CellOp::PlaceIn(from) => {
            let base = operand(earlier, cell, 0, first, bank);
            let index = operand(earlier, cell, 1, first, bank);
            let part = operand(earlier, cell, 2, first, bank);
            placed(base, lowest_bit(from, cell.low, index), part).value
        }
        CellOp::Append => {
            let high = operand(earlier, cell, 0, first, bank);
            let low = operand(earlier, cell, 1, first, bank);
            side_by_side(high, low)
        }
        CellOp::Resize(signed) => {
            resized(operand(earlier, cell, 0, first, bank), signed, cell.width)
        }
        CellOp::MemRead(memory, signed) => {
            let address = whole_number(operand(earlier, cell, 0, first, bank), signed);
            let words = &bank.mems[memory as usize];
            cut(word_at(words, cell.low, address), cell.width)
        }
    }
}

/// Two values side by side, the first at the top.
fn side_by_side(high: Bits, low: Bits) -> u128
    requires { high.width + low.width ≤ 128 }
    ensures { result ≡ appended high.value low.width low.value }
{
    match append(high, low) {
        Some(both) => both.value,
        None => unreachable!(),
    }
}

/// The value of a cell whose operands lie in an allocation of their own. No operation has as many, so it stands apart.
#[cold]
#[inline(never)]
fn far_operated(earlier: &[Cell], cell: &Cell, first: u32, bank: &Bank) -> u128
    requires holds { Holds first (bank_of bank.now) (map cell_of earlier.now) }
    requires cell { IsCell (shape_of (bank_of bank.now)) first (widths_of (map cell_of earlier.now)) (cell_of cell.now) }
    ensures { result ≡ (cell_slot first bank.now.regs.items (bank_of bank.now).mems (slots_of first bank.now.regs.items (bank_of bank.now).mems (map cell_of earlier.now)) (cell_of cell.now)).value }
{
    operated(earlier, cell, first, bank)
}

/// The value of a cell behind earlier ones, whose slots have theirs.
pub(crate) fn value_of(earlier: &[Cell], cell: &Cell, first: u32, bank: &Bank) -> u128
    requires holds { Holds first (bank_of bank.now) (map cell_of earlier.now) }
    requires cell { IsCell (shape_of (bank_of bank.now)) first (widths_of (map cell_of earlier.now)) (cell_of cell.now) }
    ensures { result ≡ (cell_slot first bank.now.regs.items (bank_of bank.now).mems (slots_of first bank.now.regs.items (bank_of bank.now).mems (map cell_of earlier.now)) (cell_of cell.now)).value }
{
    if cell.args.spilled() {
        return far_operated(earlier, cell, first, bank);
    }
    operated(earlier, cell, first, bank)
}
