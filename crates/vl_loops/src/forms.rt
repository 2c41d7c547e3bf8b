//! The width and the sign of an expression in a header, read for itself (IEEE 1364-2005, clauses 5.4 and 5.5).

ghost use Rattle.std.specs.Prelude.{◌≡◌};
ghost use Rattle.vl_design.specs.Trees.{exp_of};
ghost use Rattle.vl_design.specs.Sound.{IsSoundExp, IsWidth};
ghost use Rattle.vl_design.specs.Width as w;
ghost use Rattle.vl_loops.specs.Fits.{IsHeader};
ghost use Rattle.vl_loops.specs.Rooms.{names_of, rows_of};

use crate::room::{Room, signal_form};
use vl_design::design::{Expr, ExprNode, Form};
use vl_eval::form_form::{binary_form, joined, unary_form, unsigned};

/// The width and the sign of an expression in a header, read for itself.
#[tactic(auto, using(crate::proofs::Names::form_rules))]
pub(crate) fn form_of(room: &Room<'_>, e: &Expr) -> Form
    requires sound { IsSoundExp (names_of room.now) (exp_of e.now) }
    requires constant { IsHeader (rows_of room.now) (exp_of e.now) }
    ensures value { result ≡ w.form (names_of room.now) (exp_of e.now) }
    ensures width { IsWidth result.width }
{
    match &e.node {
        ExprNode::Num(bits, signed) => Form {
            width: u32::from(bits.width),
            signed: *signed,
        },
        ExprNode::Label(number) => Form {
            width: u32::from(number.width),
            signed: number.signed,
        },
        ExprNode::Sig(number) => signal_form(room, *number),
        ExprNode::Pick(_, _, _, width) | ExprNode::Slice(_, _, width) => {
            unsigned(u32::from(*width))
        }
        ExprNode::Un(op, a) => unary_form(*op, form_of(room, a)),
        ExprNode::Bin(op, a, b) => binary_form(*op, form_of(room, a), form_of(room, b)),
        ExprNode::Cond(_, a, b) => joined(form_of(room, a), form_of(room, b)),
        ExprNode::Cast(signed, a) => Form {
            width: form_of(room, a).width,
            signed: *signed,
        },
        _ => unsigned(1),
    }
}
