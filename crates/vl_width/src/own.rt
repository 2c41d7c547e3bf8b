//! Each node at its own width and sign (IEEE 1364-2005, clauses 5.4.1 and 5.5.1).

ghost use Rattle.std.specs.Prelude.{◌≡◌, ◌<◌, ◌≤◌, map, length, IfOk};
ghost use Rattle.vl_design.specs.Sized.{At, sized_of, node_of};
ghost use Rattle.vl_design.specs.Trees.{exp_of};
ghost use Rattle.vl_design.specs.Width as w;
ghost use Rattle.vl_design.specs.Sound.{IsSoundExp};
ghost use Rattle.vl_width.specs.Sizing as z;
ghost use Rattle.vl_width.specs.Room.{names_of, HaveInputs};
ghost use Rattle.vl_width.specs.Read.{own_of, at_input, at_inputs, widths_together, AreAllSound};

use crate::reading::form_of;
use crate::room::{Room, input_width, result_form, signal_form};
use std::alloc::{AllocError, Global};
use vl_design::Items;
use vl_design::design::{Expr, ExprNode, Form, SysCall};
use vl_design::sized::{SizedExpr, SizedNode};
use vl_eval::form_form::{binary_form, joined, unary_form, unsigned};

/// A node at a width and sign.
fn at(form: Form, node: SizedNode) -> SizedExpr
    requires { form.width < 256 }
    ensures { sized_of result ≡ At form.width form.signed (node_of node) }
{
    SizedExpr {
        width: form.width as u8,
        signed: form.signed,
        node,
    }
}

/// The widths of parts together.
fn total_width(parts: &[SizedExpr]) -> u32
    requires { widths_together (map sized_of parts.now) ≤ 128 }
    ensures { result ≡ widths_together (map sized_of parts.now) }
{
    let mut total = 0;
    for part in parts {
        total += u32::from(part.width);
    }
    total
}

/// An argument as assigned to an input of a width.
fn assigned(mut argument: SizedExpr, width: u32) -> SizedExpr
    requires { width < 256 }
    ensures { sized_of result ≡ at_input (sized_of argument) width }
{
    if width > u32::from(argument.width) {
        argument.width = width as u8;
    }
    argument
}

/// Expressions one by one.
#[cycle(own)]
fn parts(alloc: Global, room: &Room<'_>, es: &[Expr]) -> Result<Vec<SizedExpr>, AllocError>
    requires inputs { HaveInputs (names_of room.now) }
    requires sound { AreAllSound (names_of room.now) es.now }
    ensures { IfOk result (λ v. map sized_of v.items ≡ map (own_of (names_of room.now)) es.now) }
{
    let mut all = Vec::new(alloc);
    for e in es {
        all.push(own(alloc, room, e)?)?;
    }
    Ok(all)
}

/// The arguments of a function, each as assigned to its input.
#[cycle(own)]
fn arguments(
    alloc: Global,
    room: &Room<'_>,
    function: u32,
    es: &[Expr],
) -> Result<Vec<SizedExpr>, AllocError>
    requires inputs { HaveInputs (names_of room.now) }
    requires sound { AreAllSound (names_of room.now) es.now }
    requires many { length es.now ≡ length (w.input_widths (names_of room.now) function) }
    ensures { IfOk result (λ v. map sized_of v.items
        ≡ at_inputs (map (own_of (names_of room.now)) es.now) (w.input_widths (names_of room.now) function)) }
{
    let mut all = Vec::new(alloc);
    for (i, e) in es.iter().enumerate() {
        let width = input_width(room, function, i);
        let argument = own(alloc, room, e)?;
        all.push(assigned(argument, width))?;
    }
    Ok(all)
}

/// An expression, boxed.
#[cycle(own)]
fn operand(alloc: Global, room: &Room<'_>, e: &Expr) -> Result<Box<SizedExpr>, AllocError>
    requires inputs { HaveInputs (names_of room.now) }
    requires sound { IsSoundExp (names_of room.now) (exp_of e.now) }
    ensures { IfOk result (λ x. sized_of x.value ≡ own_of (names_of room.now) e.now) }
{
    let x = own(alloc, room, e)?;
    Ok(Box::new(alloc, x)?)
}

/// An expression whose nodes stand at their own widths and signs, and each argument as assigned to its input. Of a system
/// function only its answer is left.
#[cycle(own)]
pub(crate) fn own(alloc: Global, room: &Room<'_>, e: &Expr) -> Result<SizedExpr, AllocError>
    requires inputs { HaveInputs (names_of room.now) }
    requires sound { IsSoundExp (names_of room.now) (exp_of e.now) }
    ensures { IfOk result (λ x. sized_of x ≡ own_of (names_of room.now) e.now) }
{
    match &e.node {
        ExprNode::Num(bits, signed) => Ok(SizedExpr {
            width: bits.width,
            signed: *signed,
            node: SizedNode::Num(*bits, *signed),
        }),
        ExprNode::Label(number) => Ok(SizedExpr {
            width: number.width,
            signed: number.signed,
            node: SizedNode::Label(*number),
        }),
        ExprNode::Sig(number) => {
            let form = signal_form(room.signals, room.locals, *number);
            Ok(at(form, SizedNode::Sig(*number)))
        }
        ExprNode::Word(memory, a) => {
            let a = operand(alloc, room, a)?;
            let form = signal_form(room.signals, room.locals, *memory);
            Ok(at(form, SizedNode::Word(*memory, a)))
        }
        ExprNode::Pick(base, index, from, width) => {
            let base = operand(alloc, room, base)?;
            let index = operand(alloc, room, index)?;
            Ok(at(
                unsigned(u32::from(*width)),
                SizedNode::Pick(base, index, *from, *width),
            ))
        }
        ExprNode::Slice(base, low, width) => {
            let base = operand(alloc, room, base)?;
            Ok(at(
                unsigned(u32::from(*width)),
                SizedNode::Slice(base, *low, *width),
            ))
        }
        ExprNode::Un(op, a) => {
            let a = operand(alloc, room, a)?;
            let form = unary_form(*op, form_of(&a));
            Ok(at(form, SizedNode::Un(*op, a)))
        }
        ExprNode::Bin(op, a, b) => {
            let a = operand(alloc, room, a)?;
            let b = operand(alloc, room, b)?;
            let form = binary_form(*op, form_of(&a), form_of(&b));
            Ok(at(form, SizedNode::Bin(*op, a, b)))
        }
        ExprNode::Cond(test, a, b) => {
            let test = operand(alloc, room, test)?;
            let a = operand(alloc, room, a)?;
            let b = operand(alloc, room, b)?;
            let form = joined(form_of(&a), form_of(&b));
            Ok(at(form, SizedNode::Cond(test, a, b)))
        }
        ExprNode::Cat(es) => {
            let all = parts(alloc, room, es.as_slice())?;
            let width = total_width(all.as_slice());
            Ok(at(unsigned(width), SizedNode::Cat(all)))
        }
        ExprNode::Rep(count, es) => {
            let all = parts(alloc, room, es.as_slice())?;
            let width = u32::from(*count) * total_width(all.as_slice());
            Ok(at(unsigned(width), SizedNode::Rep(*count, all)))
        }
        ExprNode::Cast(signed, a) => {
            let a = operand(alloc, room, a)?;
            Ok(SizedExpr {
                width: a.width,
                signed: *signed,
                node: SizedNode::Cast(*signed, a),
            })
        }
        ExprNode::Call(number, es) => {
            let all = arguments(alloc, room, *number, es.as_slice())?;
            let form = result_form(room, *number);
            Ok(at(form, SizedNode::Call(*number, all)))
        }
        ExprNode::Time => Ok(SizedExpr {
            width: 64,
            signed: false,
            node: SizedNode::Time,
        }),
        ExprNode::Sys(_) => Ok(SizedExpr {
            width: 32,
            signed: true,
            node: SizedNode::Sys(SysCall {
                name: Items::new(alloc),
                args: Vec::new(alloc),
            }),
        }),
    }
}
