//! The width and the sign of an expression read for itself (IEEE 1364-2005, clauses 5.4 and 5.5).

ghost use Rattle.std.specs.Prelude.{◌≡◌, ◌≤◌, ◌<◌, ◌++◌, ℕ, map, length, slice_get, Some};
ghost use Rattle.vl_design.specs.Trees.{exp_of, exps_of, row_of, fun_of};
ghost use Rattle.vl_design.specs.Sound.{IsSoundExp, AreSound, IsSignal, IsNamed, IsWidth};
ghost use Rattle.vl_design.specs.Width as w;
ghost use Rattle.vl_eval.specs.Rooms.{names_of};
ghost use Rattle.vl_eval.specs.Shapes.{shape};
ghost use Rattle.vl_eval.specs.Answers.{parts_of};

use crate::form_form::{joined, unary_form, unsigned};
use crate::room::Room;
use vl_base::bits::{BinOp, UnOp};
use vl_design::design::{Expr, ExprNode, Form, Signal};

/// The width and the sign of a signal's words.
fn form_of_signal(signal: &Signal) -> Form
    requires { IsWidth (row_of signal.now).width }
    ensures { result ≡ w.row_form (Some (row_of signal.now)) }
{
    Form {
        width: signal.left.abs_diff(signal.right) + 1,
        signed: signal.signed,
    }
}

/// The width and the sign of the words of a net, a variable, a local or a memory.
#[tactic(auto, using(crate::proofs::Names::lookups))]
pub fn signal_form(room: &Room<'_>, number: u32) -> Form
    requires { IsNamed (names_of room.now) number }
    ensures value { result ≡ w.signal_form (names_of room.now).rows number }
    ensures width { IsWidth result.width }
{
    let number = number as usize;
    let inner = room.signals.len();
    if number < inner {
        form_of_signal(&room.signals[number])
    } else {
        form_of_signal(&room.locals[number - inner])
    }
}

/// The width and the sign of a function's result.
#[tactic(auto, using(crate::proofs::Names::results))]
pub fn result_form(room: &Room<'_>, function: u32) -> Form
    requires there { function < length room.now.funcs.now }
    requires width { IsWidth (w.result_form (names_of room.now) function).width }
    ensures { result ≡ w.result_form (names_of room.now) function }
{
    let func = &room.funcs[function as usize];
    let number = func.result as usize;
    let inner = room.signals.len();
    if number < inner {
        return form_of_signal(&room.signals[number]);
    }
    if number - inner < func.locals.as_slice().len() {
        return form_of_signal(&func.locals.as_slice()[number - inner]);
    }
    unsigned(1)
}

/// How a binary operator's width and context come from its operands.
#[derive(Clone, Copy)]
pub enum Shape {
    /// Both operands are read in the context.
    Both,
    /// The left one is, and the right one for itself.
    Left,
    /// Each is read for itself, and one bit comes out.
    Neither,
    /// Both are read at the longer of their widths, and one bit comes out.
    Joined,
}

/// The shape of a binary operator (table 5-22).
pub fn shape_of(op: BinOp) -> Shape
    ensures { result ≡ shape op }
{
    match op {
        BinOp::Add | BinOp::Sub | BinOp::Mul | BinOp::Div => Shape::Both,
        BinOp::Rem | BinOp::And | BinOp::Or | BinOp::Xor | BinOp::Xnor => Shape::Both,
        BinOp::Shl | BinOp::Shr | BinOp::Sshr => Shape::Left,
        BinOp::LogAnd | BinOp::LogOr => Shape::Neither,
        _ => Shape::Joined,
    }
}

/// The widths of the parts of a concatenation together.
#[cycle(form)]
#[tactic(auto, using(crate::proofs::Rows::list_rules))]
fn total_width(room: &Room<'_>, e: &Expr) -> u32
    requires { IsSoundExp (names_of room.now) (exp_of e.now) }
    ensures { result ≡ w.total_width (names_of room.now) (parts_of (exp_of e.now)) }
{
    match &e.node {
        ExprNode::Cat(parts) | ExprNode::Rep(_, parts) => {
            let mut total = 0;
            for part in parts {
                total += form_of(room, part).width;
            }
            total
        }
        _ => 0,
    }
}

/// The width and the sign of an expression read for itself.
#[cycle(form)]
#[tactic(auto, using(crate::proofs::Rows::list_rules))]
pub fn form_of(room: &Room<'_>, e: &Expr) -> Form
    requires { IsSoundExp (names_of room.now) (exp_of e.now) }
    ensures value { result ≡ w.form (names_of room.now) (exp_of e.now) }
    ensures width { IsWidth result.width }
{
    match &e.node {
        ExprNode::Num(bits, signed) => Form {
            width: u32::from(bits.width),
            signed: *signed,
        },
        ExprNode::Label(number) => Form {
            width: u32::from(number.width),
            signed: number.signed,
        },
        ExprNode::Sig(number) | ExprNode::Word(number, _) => signal_form(room, *number),
        ExprNode::Pick(_, _, _, width) | ExprNode::Slice(_, _, width) => unsigned(u32::from(
            *width,
        )),
        ExprNode::Un(op, a) => unary_form(*op, form_of(room, a)),
        ExprNode::Bin(op, a, b) => match shape_of(*op) {
            Shape::Both => joined(form_of(room, a), form_of(room, b)),
            Shape::Left => form_of(room, a),
            Shape::Neither | Shape::Joined => unsigned(1),
        },
        ExprNode::Cond(_, a, b) => joined(form_of(room, a), form_of(room, b)),
        ExprNode::Cat(_) => unsigned(total_width(room, e)),
        ExprNode::Rep(count, _) => unsigned(u32::from(*count) * total_width(room, e)),
        ExprNode::Cast(signed, a) => Form {
            width: form_of(room, a).width,
            signed: *signed,
        },
        ExprNode::Call(function, _) => result_form(room, *function),
        ExprNode::Time => unsigned(64),
        ExprNode::Sys(_) => Form {
            width: 32,
            signed: true,
        },
    }
}
