//! The width and sign of an expression (IEEE 1364-2005, clauses 5.4.1 and 5.5.1).

ghost use Rattle.std.specs.Prelude.{◌≡◌, ◌≤◌};
ghost use Rattle.vl_design.specs.Trees.{exp_of, exps_of};
ghost use Rattle.vl_design.specs.Width as w;
ghost use Rattle.vl_design.specs.Sound.{IsSoundExp};
ghost use Rattle.vl_width.specs.Room.{names_of};
ghost use Rattle.vl_width.specs.Read.{AreAllSound};

use crate::room::{Room, result_form, signal_form};
use vl_design::design::{Expr, ExprNode, Form};
use vl_eval::form_form::{binary_form, joined, unary_form, unsigned};

/// The widths of parts together.
#[cycle(form)]
fn total_width(room: &Room<'_>, es: &[Expr]) -> u32
    requires sound { AreAllSound (names_of room.now) es.now }
    requires narrow { w.total_width (names_of room.now) (exps_of es.now) ≤ 128 }
    ensures { result ≡ w.total_width (names_of room.now) (exps_of es.now) }
{
    let mut total = 0;
    for e in es {
        total += own_form(room, e).width;
    }
    total
}

/// The width and sign of an expression read for itself.
#[cycle(form)]
fn own_form(room: &Room<'_>, e: &Expr) -> Form
    requires { IsSoundExp (names_of room.now) (exp_of e.now) }
    ensures { result ≡ w.form (names_of room.now) (exp_of e.now) }
{
    match &e.node {
        ExprNode::Num(bits, signed) => Form {
            width: u32::from(bits.width),
            signed: *signed,
        },
        ExprNode::Label(number) => Form {
            width: u32::from(number.width),
            signed: number.signed,
        },
        ExprNode::Sig(number) => signal_form(room.signals, room.locals, *number),
        ExprNode::Word(memory, _) => signal_form(room.signals, room.locals, *memory),
        ExprNode::Pick(_, _, _, width) => unsigned(u32::from(*width)),
        ExprNode::Slice(_, _, width) => unsigned(u32::from(*width)),
        ExprNode::Un(op, a) => unary_form(*op, own_form(room, a)),
        ExprNode::Bin(op, a, b) => binary_form(*op, own_form(room, a), own_form(room, b)),
        ExprNode::Cond(_, a, b) => joined(own_form(room, a), own_form(room, b)),
        ExprNode::Cat(es) => unsigned(total_width(room, es.as_slice())),
        ExprNode::Rep(count, es) => {
            unsigned(u32::from(*count) * total_width(room, es.as_slice()))
        }
        ExprNode::Cast(signed, a) => Form {
            width: own_form(room, a).width,
            signed: *signed,
        },
        ExprNode::Call(function, _) => result_form(room, *function),
        ExprNode::Time => unsigned(64),
        ExprNode::Sys(_) => Form {
            width: 32,
            signed: true,
        },
    }
}
