//! Contexts handed down to operands (IEEE 1364-2005, clause 5.5.2).

ghost use Rattle.std.specs.Prelude.{◌≡◌, ◌<◌, map};
ghost use Rattle.vl_design.specs.Sized.{sized_of, node_of};
ghost use Rattle.vl_width.specs.Widths as v;
ghost use Rattle.vl_width.specs.Sizing as z;
ghost use Rattle.vl_width.specs.Read.{each_at};

use std::mem::replace;
use vl_design::design::Form;
use vl_design::sized::{SizedExpr, SizedNode};
use vl_eval::form_form::{left_form, operand_form, right_form};

/// The width and sign at which an expression stands.
pub(crate) fn form_of(x: &SizedExpr) -> Form
    ensures value { result ≡ v.form_of (sized_of x.now) }
    ensures small { result.width < 256 }
{
    Form {
        width: u32::from(x.width),
        signed: x.signed,
    }
}

/// An expression whose nodes stand at their own widths and signs, read for itself.
#[cycle(read)]
fn read_own(x: &mut SizedExpr)
    ensures { sized_of x.new ≡ z.read_at (sized_of x.old) (v.form_of (sized_of x.old)) }
{
    let form = form_of(x);
    read_at(x, form);
}

/// Each of several, read for itself.
#[cycle(read)]
fn read_each(xs: &mut Vec<SizedExpr>)
    ensures { map sized_of xs.new.items ≡ map each_at (map sized_of xs.old.items) }
{
    for i in 0..xs.len() {
        read_own(&mut xs[i]);
    }
}

/// A node's operands, where the node stands in a context.
#[cycle(read)]
fn operands_at(node: SizedNode, context: Form) -> SizedNode
    requires { context.width < 256 }
    ensures { node_of result ≡ z.operands_at (node_of node) context }
{
    match node {
        SizedNode::Word(memory, mut a) => {
            read_own(&mut a);
            SizedNode::Word(memory, a)
        }
        SizedNode::Pick(mut b, mut i, from, width) => {
            read_own(&mut b);
            read_own(&mut i);
            SizedNode::Pick(b, i, from, width)
        }
        SizedNode::Slice(mut b, low, width) => {
            read_own(&mut b);
            SizedNode::Slice(b, low, width)
        }
        SizedNode::Un(op, mut a) => {
            let form = operand_form(op, form_of(&a), context);
            read_at(&mut a, form);
            SizedNode::Un(op, a)
        }
        SizedNode::Bin(op, mut a, mut b) => {
            let left = left_form(op, form_of(&a), form_of(&b), context);
            let right = right_form(op, form_of(&a), form_of(&b), context);
            read_at(&mut a, left);
            read_at(&mut b, right);
            SizedNode::Bin(op, a, b)
        }
        SizedNode::Cond(mut test, mut a, mut b) => {
            read_own(&mut test);
            read_at(&mut a, context);
            read_at(&mut b, context);
            SizedNode::Cond(test, a, b)
        }
        SizedNode::Cat(mut parts) => {
            read_each(&mut parts);
            SizedNode::Cat(parts)
        }
        SizedNode::Rep(count, mut parts) => {
            read_each(&mut parts);
            SizedNode::Rep(count, parts)
        }
        SizedNode::Cast(signed, mut a) => {
            read_own(&mut a);
            SizedNode::Cast(signed, a)
        }
        SizedNode::Call(function, mut arguments) => {
            read_each(&mut arguments);
            SizedNode::Call(function, arguments)
        }
        leaf => leaf,
    }
}

/// An expression whose nodes stand at their own widths and signs, read in a context.
#[cycle(read)]
pub(crate) fn read_at(x: &mut SizedExpr, context: Form)
    requires { context.width < 256 }
    ensures { sized_of x.new ≡ z.read_at (sized_of x.old) context }
{
    let node = replace(&mut x.node, SizedNode::Time);
    x.node = operands_at(node, context);
    x.width = context.width as u8;
    x.signed = context.signed;
}
