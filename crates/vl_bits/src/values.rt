//! The values of constants (IEEE 1364-2005, clause 5).

ghost use Rattle.std.specs.Prelude.{◌≡◌, ◌≤◌, ◌+◌, ◌*◌, false, option_map};
ghost use Rattle.vl_base.specs.Selects as s;
ghost use Rattle.vl_base.specs.Value as a;
ghost use Rattle.vl_design.specs.Nodes as nodes;
ghost use Rattle.vl_design.specs.Width as w;
ghost use Rattle.vl_design.specs.Value as v;
ghost use Rattle.vl_design.specs.Sound.{IsWidth};
ghost use Rattle.vl_design.specs.Trees.{exp_of, exps_of};
ghost use Rattle.vl_paths.specs.Bits as b;
ghost use Rattle.vl_bits.specs.Seen.{names_seen};
ghost use Rattle.vl_bits.specs.Constants.{IsConstant, AreParts, IsReadable, near};

use crate::meanings::Meanings;
use crate::wholes::{lowest_place, whole_number};
use vl_base::bits::{Bits, binary, resize, unary};
use vl_base::select::{append, pick};
use vl_design::design::{Expr, ExprNode, Form, LowestBit};
use vl_eval::form_form::{
    binary_form, joined, left_form, operand_form, right_form, unary_form, unsigned,
};

/// The expression reads something.
#[cycle(varies)]
pub fn varies(e: &Expr) -> bool
    ensures { result ≡ nodes.has b.varies (exp_of e.now) }
{
    match &e.node {
        ExprNode::Num(_, _) | ExprNode::Label(_) => false,
        ExprNode::Sig(_)
        | ExprNode::Word(_, _)
        | ExprNode::Call(_, _)
        | ExprNode::Time
        | ExprNode::Sys(_) => true,
        ExprNode::Slice(a, _, _) | ExprNode::Un(_, a) | ExprNode::Cast(_, a) => varies(a),
        ExprNode::Pick(x, y, _, _) | ExprNode::Bin(_, x, y) => varies(x) || varies(y),
        ExprNode::Cond(t, x, y) => varies(t) || (varies(x) || varies(y)),
        ExprNode::Cat(parts) => some_vary(parts.as_slice()),
        ExprNode::Rep(_, parts) => some_vary(parts.as_slice()),
    }
}

/// One of the expressions reads something.
#[cycle(varies)]
fn some_vary(es: &[Expr]) -> bool
    ensures { result ≡ nodes.some_have b.varies (exps_of es.now) }
{
    for e in es {
        if varies(e) {
            return true;
        }
    }
    false
}

/// The width and the sign of a constant read for itself.
#[cycle(form)]
#[tactic(auto, using(crate::proofs::Rows::parts))]
pub fn form(m: &Meanings<'_>, e: &Expr) -> Form
    requires { IsConstant (names_seen m.now) (exp_of e.now) }
    ensures same { result ≡ w.form (names_seen m.now) (exp_of e.now) }
    ensures width { IsWidth result.width }
{
    match &e.node {
        ExprNode::Num(bits, signed) => Form {
            width: u32::from(bits.width),
            signed: *signed,
        },
        ExprNode::Label(n) => Form {
            width: u32::from(n.width),
            signed: n.signed,
        },
        ExprNode::Pick(_, _, _, width) | ExprNode::Slice(_, _, width) => {
            unsigned(u32::from(*width))
        }
        ExprNode::Un(op, a) => unary_form(*op, form(m, a)),
        ExprNode::Bin(op, x, y) => binary_form(*op, form(m, x), form(m, y)),
        ExprNode::Cond(_, x, y) => joined(form(m, x), form(m, y)),
        ExprNode::Cat(parts) => unsigned(total_width(m, parts.as_slice())),
        ExprNode::Rep(n, parts) => unsigned(u32::from(*n) * total_width(m, parts.as_slice())),
        ExprNode::Cast(signed, a) => Form {
            width: form(m, a).width,
            signed: *signed,
        },
        _ => unreachable!(),
    }
}

/// The widths of constants together.
#[cycle(form)]
#[tactic(auto, using(crate::proofs::Rows::parts))]
fn total_width(m: &Meanings<'_>, es: &[Expr]) -> u32
    requires { AreParts (names_seen m.now) (exps_of es.now) }
    ensures { result ≡ w.total_width (names_seen m.now) (exps_of es.now) }
{
    let mut total = 0;
    for e in es {
        total += form(m, e).width;
    }
    total
}

/// A value in a context that is at least as wide as it, with zeros before it.
#[tactic(auto, using(crate::proofs::WidthsOfIndex::paddings))]
fn padded(a: Bits, width: u8) -> Bits
    requires fits { a.width ≤ width }
    requires narrow { width ≤ 128 }
    ensures value { result.value ≡ a.value }
    ensures width { result.width ≡ width }
{
    Bits {
        value: a.value,
        width,
    }
}

/// So many bits from the one on that an index with this value names.
#[tactic(auto, using(crate::proofs::Places::selected))]
fn picked(base: Bits, index: Bits, signed: bool, from: LowestBit, width: u8) -> Bits
    requires { IsWidth width }
    ensures value { result.value ≡ s.picked base.width base.value (v.lowest_bit from (a.reading signed index.width index.value)) width }
    ensures width { result.width ≡ width }
{
    let low = lowest_place(from, whole_number(index, signed));
    pick(base, low, width)
}

/// Two values side by side, the first at the top.
fn beside(high: Bits, low: Bits) -> Bits
    requires { high.width + low.width ≤ 128 }
    ensures value { result.value ≡ s.appended high.value low.width low.value }
    ensures width { result.width ≡ high.width + low.width }
{
    match append(high, low) {
        Some(all) => all,
        None => unreachable!(),
    }
}

/// A value so many times side by side.
#[tactic(auto, using(crate::proofs::Rows::repeats))]
fn repeated(count: u8, part: Bits) -> Bits
    requires some { 1 ≤ count }
    requires narrow { count * part.width ≤ 128 }
    ensures value { result.value ≡ v.repeated count part.width part.value }
    ensures width { result.width ≡ count * part.width }
{
    let mut all = part;
    for _i in 1..count {
        all = beside(all, part);
    }
    all
}

/// The value of a constant in a context.
#[cycle(value)]
#[tactic(auto, using(crate::proofs::Rows::parts))]
pub fn value(m: &Meanings<'_>, e: &Expr, c: Form) -> Bits
    requires { IsReadable (names_seen m.now) (exp_of e.now) c }
    ensures value { result.value ≡ v.value (b.closed (names_seen m.now)) b.nothing (exp_of e.now) c }
    ensures width { result.width ≡ c.width }
{
    let width = c.width as u8;
    match &e.node {
        ExprNode::Num(bits, _) => resize(*bits, c.signed, width),
        ExprNode::Label(n) => resize(
            Bits {
                value: n.value,
                width: n.width,
            },
            c.signed,
            width,
        ),
        ExprNode::Pick(base, index, from, bits) => {
            let f = form(m, index);
            let x = value(m, base, form(m, base));
            let y = value(m, index, f);
            padded(picked(x, y, f.signed, *from, *bits), width)
        }
        ExprNode::Slice(base, low, bits) => {
            let x = value(m, base, form(m, base));
            padded(pick(x, i64::from(*low), *bits), width)
        }
        ExprNode::Un(op, a) => {
            let f = operand_form(*op, form(m, a), c);
            padded(unary(*op, value(m, a, f)), width)
        }
        ExprNode::Bin(op, x, y) => {
            let f = form(m, x);
            let g = form(m, y);
            let l = left_form(*op, f, g, c);
            let r = right_form(*op, f, g, c);
            padded(binary(*op, l.signed, value(m, x, l), value(m, y, r)), width)
        }
        ExprNode::Cond(t, x, y) => {
            if value(m, t, form(m, t)).value == 0 {
                value(m, y, c)
            } else {
                value(m, x, c)
            }
        }
        ExprNode::Cat(parts) => padded(side_by_side(m, parts.as_slice()), width),
        ExprNode::Rep(n, parts) => padded(repeated(*n, side_by_side(m, parts.as_slice())), width),
        ExprNode::Cast(_, a) => resize(value(m, a, form(m, a)), c.signed, width),
        _ => unreachable!(),
    }
}

/// The values of constants side by side, the first at the top.
#[cycle(value)]
#[tactic(auto, using(crate::proofs::Rows::parts))]
fn side_by_side(m: &Meanings<'_>, es: &[Expr]) -> Bits
    requires { AreParts (names_seen m.now) (exps_of es.now) }
    ensures value { result.value ≡ v.side_by_side (b.closed (names_seen m.now)) b.nothing (exps_of es.now) }
    ensures width { result.width ≡ w.total_width (names_seen m.now) (exps_of es.now) }
{
    let [first, rest @ ..] = es else {
        unreachable!();
    };
    let mut all = value(m, first, form(m, first));
    for e in rest {
        all = beside(all, value(m, e, form(m, e)));
    }
    all
}
