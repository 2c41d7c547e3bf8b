//! The value of an expression in a header (IEEE 1364-2005, clause 5).

ghost use Rattle.std.specs.Prelude.{◌≡◌, ◌≤◌, IsTrue};
ghost use Rattle.vl_base.specs.Value as v;
ghost use Rattle.vl_base.specs.Selects as s;
ghost use Rattle.vl_design.specs.Syntax.{Un};
ghost use Rattle.vl_design.specs.Trees.{exp_of};
ghost use Rattle.vl_design.specs.Sound.{IsSoundExp, IsWidth};
ghost use Rattle.vl_design.specs.Width as w;
ghost use Rattle.vl_design.specs.Value as d;
ghost use Rattle.vl_loops.specs.Fits.{IsHeader};
ghost use Rattle.vl_loops.specs.Rooms.{names_of, rows_of, scope_of, sample_of, AreNumbers};

use crate::forms::form_of;
use crate::room::{Room, number_of};
use crate::selects::lowest;
use vl_base::bits::{BinOp, Bits, UnOp, binary, resize, unary};
use vl_base::select::pick;
use vl_design::design::{Expr, ExprNode, Form, LowestBit};
use vl_eval::form_form::{left_form, operand_form, right_form};

/// A value in a longer width.
#[tactic(auto, using(crate::proofs::Widen::longer))]
fn widened(a: Bits, width: u32) -> Bits
    requires wide { a.width ≤ width }
    requires narrow { width ≤ 128 }
    ensures value { result.value ≡ a.value }
    ensures width { result.width ≡ width }
{
    Bits {
        value: a.value,
        width: width as u8,
    }
}

/// A value in a context.
fn sized(a: Bits, c: Form) -> Bits
    requires wide { 1 ≤ c.width }
    requires narrow { c.width ≤ 128 }
    ensures value { result.value ≡ v.resized c.signed a.width c.width a.value }
    ensures width { result.width ≡ c.width }
{
    resize(a, c.signed, c.width as u8)
}

/// A select of bits from the one on that an index names.
#[tactic(auto, using(crate::proofs::Widen::picks))]
fn picked(base: Bits, index: Bits, signed: bool, from: LowestBit, width: u8) -> Bits
    requires { IsWidth width }
    ensures value { result.value ≡ s.picked base.width base.value (d.lowest_bit from (v.reading signed index.width index.value)) width }
    ensures width { result.width ≡ width }
{
    pick(base, lowest(from, index, signed), width)
}

/// The contexts of a binary operator's operands.
#[derive(Clone, Copy)]
struct Contexts {
    /// The left one's.
    left: Form,
    /// The right one's.
    right: Form,
}

/// The contexts of a binary operator's operands.
fn contexts_of(room: &Room<'_>, op: BinOp, a: &Expr, b: &Expr, c: Form) -> Contexts
    requires left { IsSoundExp (names_of room.now) (exp_of a.now) }
    requires right { IsSoundExp (names_of room.now) (exp_of b.now) }
    requires left_constant { IsHeader (rows_of room.now) (exp_of a.now) }
    requires right_constant { IsHeader (rows_of room.now) (exp_of b.now) }
    requires wide { (w.binary_form op (w.form (names_of room.now) (exp_of a.now)) (w.form (names_of room.now) (exp_of b.now))).width ≤ c.width }
    requires positive { 1 ≤ c.width }
    requires narrow { c.width ≤ 128 }
    ensures left { result.left ≡ w.left_form op (w.form (names_of room.now) (exp_of a.now)) (w.form (names_of room.now) (exp_of b.now)) c }
    ensures right { result.right ≡ w.right_form op (w.form (names_of room.now) (exp_of a.now)) (w.form (names_of room.now) (exp_of b.now)) c }
    ensures left_wide { (w.form (names_of room.now) (exp_of a.now)).width ≤ result.left.width }
    ensures right_wide { (w.form (names_of room.now) (exp_of b.now)).width ≤ result.right.width }
    ensures left_positive { 1 ≤ result.left.width }
    ensures right_positive { 1 ≤ result.right.width }
    ensures left_narrow { result.left.width ≤ 128 }
    ensures right_narrow { result.right.width ≤ 128 }
    ensures same { IsTrue (v.needs_one_width op) → result.left.width ≡ result.right.width }
    ensures within { v.binary_width op result.left.width ≤ c.width }
{
    let first = form_of(room, a);
    let second = form_of(room, b);
    Contexts {
        left: left_form(op, first, second, c),
        right: right_form(op, first, second, c),
    }
}

/// The value of a binary operator, in a longer width.
fn combined(op: BinOp, signed: bool, x: Bits, y: Bits, width: u32) -> Bits
    requires same { IsTrue (v.needs_one_width op) → x.width ≡ y.width }
    requires wide { v.binary_width op x.width ≤ width }
    requires narrow { width ≤ 128 }
    ensures value { result.value ≡ v.binary_value op signed x.width x.value y.value }
    ensures width { result.width ≡ width }
{
    widened(binary(op, signed, x, y), width)
}

/// The value of an expression read for itself.
#[cycle(value)]
#[tactic(auto, using(crate::proofs::Widen::contexts))]
fn own(room: &Room<'_>, numbers: &[u128], e: &Expr) -> Bits
    requires sound { IsSoundExp (names_of room.now) (exp_of e.now) }
    requires constant { IsHeader (rows_of room.now) (exp_of e.now) }
    requires numbers { AreNumbers (rows_of room.now) numbers.now }
    ensures value { result.value ≡ d.own_value (scope_of room.now) (sample_of numbers.now) (exp_of e.now) }
    ensures width { result.width ≡ (w.form (names_of room.now) (exp_of e.now)).width }
{
    value(room, numbers, e, form_of(room, e))
}

/// The value of a unary operator in a context.
#[cycle(value)]
#[tactic(auto, using(crate::proofs::Widen::contexts))]
fn unary_value(room: &Room<'_>, numbers: &[u128], op: UnOp, a: &Expr, c: Form) -> Bits
    requires sound { IsSoundExp (names_of room.now) (exp_of a.now) }
    requires constant { IsHeader (rows_of room.now) (exp_of a.now) }
    requires numbers { AreNumbers (rows_of room.now) numbers.now }
    requires wide { (w.unary_form op (w.form (names_of room.now) (exp_of a.now))).width ≤ c.width }
    requires positive { 1 ≤ c.width }
    requires narrow { c.width ≤ 128 }
    ensures value { result.value ≡ d.value (scope_of room.now) (sample_of numbers.now) (Un op (exp_of a.now)) c }
    ensures width { result.width ≡ c.width }
{
    let context = operand_form(op, form_of(room, a), c);
    widened(unary(op, value(room, numbers, a, context)), c.width)
}

/// The value of an expression in a context that is as wide as it, or wider.
#[cycle(value)]
#[tactic(auto, using(crate::proofs::Widen::contexts))]
pub(crate) fn value(room: &Room<'_>, numbers: &[u128], e: &Expr, c: Form) -> Bits
    requires sound { IsSoundExp (names_of room.now) (exp_of e.now) }
    requires constant { IsHeader (rows_of room.now) (exp_of e.now) }
    requires numbers { AreNumbers (rows_of room.now) numbers.now }
    requires wide { (w.form (names_of room.now) (exp_of e.now)).width ≤ c.width }
    requires positive { 1 ≤ c.width }
    requires narrow { c.width ≤ 128 }
    ensures value { result.value ≡ d.value (scope_of room.now) (sample_of numbers.now) (exp_of e.now) c }
    ensures width { result.width ≡ c.width }
{
    match &e.node {
        ExprNode::Num(bits, _) => sized(*bits, c),
        ExprNode::Label(number) => sized(
            Bits {
                value: number.value,
                width: number.width,
            },
            c,
        ),
        ExprNode::Sig(number) => sized(number_of(room, numbers, *number), c),
        ExprNode::Pick(base, index, from, width) => {
            let bits = own(room, numbers, base);
            let place = own(room, numbers, index);
            let signed = form_of(room, index).signed;
            widened(picked(bits, place, signed, *from, *width), c.width)
        }
        ExprNode::Slice(base, low, width) => widened(
            pick(own(room, numbers, base), i64::from(*low), *width),
            c.width,
        ),
        ExprNode::Un(op, a) => unary_value(room, numbers, *op, a, c),
        ExprNode::Bin(op, a, b) => {
            let two = contexts_of(room, *op, a, b, c);
            let x = value(room, numbers, a, two.left);
            let y = value(room, numbers, b, two.right);
            combined(*op, two.left.signed, x, y, c.width)
        }
        ExprNode::Cond(test, a, b) => {
            if own(room, numbers, test).value == 0 {
                value(room, numbers, b, c)
            } else {
                value(room, numbers, a, c)
            }
        }
        ExprNode::Cast(_, a) => sized(own(room, numbers, a), c),
        _ => widened(Bits { value: 0, width: 1 }, c.width),
    }
}
