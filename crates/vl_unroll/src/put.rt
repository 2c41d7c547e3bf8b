//! Numbers of loop variables put into expressions.

ghost use Rattle.std.specs.Prelude.{◌≡◌, map, IfOk};
ghost use Rattle.vl_design.specs.Placed as p;
ghost use Rattle.vl_design.specs.Seen.{exp_of, arg};
ghost use Rattle.vl_loops.specs.Placed.{exp_put, args_put, number_at};
ghost use Rattle.vl_loops.specs.Unroll.{is_loop as spec_is_loop};
ghost use Rattle.vl_loops.specs.Rooms.{rows_of, values_of};
ghost use Rattle.vl_unroll.specs.Heads.{AreReady};
ghost use Rattle.vl_unroll.specs.Listed.{put_of, args_with};

use crate::copies::copied;
use std::alloc::{AllocError, Global};
use vl_design::Place;
use vl_design::design::{Expr, ExprNode, SysArg, SysCall};
use vl_loops::room::{Room, is_loop, number_of, signal_form};

/// A signal, or the number of a loop variable.
#[tactic(auto, using(crate::proofs::Names::names))]
fn named(room: &Room<'_>, numbers: &[u128], place: Place, number: u32) -> Expr
    requires { AreReady (rows_of room.now) numbers.now }
    ensures { exp_of result ≡ number_at (rows_of room.now) (values_of numbers.now) (spec_is_loop (rows_of room.now) number) place number }
{
    if is_loop(room, number) {
        let bits = number_of(room, numbers, number);
        let signed = signal_form(room, number).signed;
        return Expr {
            place,
            node: ExprNode::Num(bits, signed),
        };
    }
    Expr {
        place,
        node: ExprNode::Sig(number),
    }
}

/// Expressions one by one.
#[cycle(put)]
pub(crate) fn puts(
    alloc: Global,
    room: &Room<'_>,
    numbers: &[u128],
    es: &[Expr],
) -> Result<Vec<Expr>, AllocError>
    requires { AreReady (rows_of room.now) numbers.now }
    ensures { IfOk result (λ v. map exp_of v.items ≡ map (put_of (rows_of room.now) (values_of numbers.now)) es.now) }
{
    let mut all = Vec::new(alloc);
    for e in es {
        all.push(put(alloc, room, numbers, e)?)?;
    }
    Ok(all)
}

/// An argument of a system call.
#[cycle(put)]
fn put_arg(
    alloc: Global,
    room: &Room<'_>,
    numbers: &[u128],
    one: &SysArg,
) -> Result<SysArg, AllocError>
    requires { AreReady (rows_of room.now) numbers.now }
    ensures { IfOk result (λ x. (others : p.Args) → arg x (args_put (rows_of room.now) (values_of numbers.now) others) ≡ args_put (rows_of room.now) (values_of numbers.now) (arg one.now others)) }
{
    match one {
        SysArg::Null => Ok(SysArg::Null),
        SysArg::Str(text) => Ok(SysArg::Str(copied(alloc, text)?)),
        SysArg::Value(e) => Ok(SysArg::Value(put(alloc, room, numbers, e)?)),
    }
}

/// Arguments of a system call one by one.
#[cycle(put)]
pub(crate) fn put_args(
    alloc: Global,
    room: &Room<'_>,
    numbers: &[u128],
    given: &[SysArg],
) -> Result<Vec<SysArg>, AllocError>
    requires { AreReady (rows_of room.now) numbers.now }
    ensures { IfOk result (λ v. (others : p.Args) → args_with v.items (args_put (rows_of room.now) (values_of numbers.now) others) ≡ args_put (rows_of room.now) (values_of numbers.now) (args_with given.now others)) }
{
    let mut all = Vec::new(alloc);
    for one in given {
        all.push(put_arg(alloc, room, numbers, one)?)?;
    }
    Ok(all)
}

/// The expression with the numbers of the loop variables put in, its places kept.
#[cycle(put)]
pub(crate) fn put(
    alloc: Global,
    room: &Room<'_>,
    numbers: &[u128],
    e: &Expr,
) -> Result<Expr, AllocError>
    requires { AreReady (rows_of room.now) numbers.now }
    ensures { IfOk result (λ x. exp_of x ≡ exp_put (rows_of room.now) (values_of numbers.now) (exp_of e.now)) }
{
    let place = e.place;
    match &e.node {
        ExprNode::Num(bits, signed) => Ok(Expr {
            place,
            node: ExprNode::Num(*bits, *signed),
        }),
        ExprNode::Label(number) => Ok(Expr {
            place,
            node: ExprNode::Label(*number),
        }),
        ExprNode::Sig(number) => Ok(named(room, numbers, place, *number)),
        ExprNode::Word(memory, a) => {
            let a = Box::new(alloc, put(alloc, room, numbers, a)?)?;
            Ok(Expr {
                place,
                node: ExprNode::Word(*memory, a),
            })
        }
        ExprNode::Pick(base, index, from, width) => {
            let base = Box::new(alloc, put(alloc, room, numbers, base)?)?;
            let index = Box::new(alloc, put(alloc, room, numbers, index)?)?;
            Ok(Expr {
                place,
                node: ExprNode::Pick(base, index, *from, *width),
            })
        }
        ExprNode::Slice(base, low, width) => {
            let base = Box::new(alloc, put(alloc, room, numbers, base)?)?;
            Ok(Expr {
                place,
                node: ExprNode::Slice(base, *low, *width),
            })
        }
        ExprNode::Un(op, a) => {
            let a = Box::new(alloc, put(alloc, room, numbers, a)?)?;
            Ok(Expr {
                place,
                node: ExprNode::Un(*op, a),
            })
        }
        ExprNode::Bin(op, a, b) => {
            let a = Box::new(alloc, put(alloc, room, numbers, a)?)?;
            let b = Box::new(alloc, put(alloc, room, numbers, b)?)?;
            Ok(Expr {
                place,
                node: ExprNode::Bin(*op, a, b),
            })
        }
        ExprNode::Cond(test, a, b) => {
            let test = Box::new(alloc, put(alloc, room, numbers, test)?)?;
            let a = Box::new(alloc, put(alloc, room, numbers, a)?)?;
            let b = Box::new(alloc, put(alloc, room, numbers, b)?)?;
            Ok(Expr {
                place,
                node: ExprNode::Cond(test, a, b),
            })
        }
        ExprNode::Cat(parts) => {
            let parts = puts(alloc, room, numbers, parts.as_slice())?;
            Ok(Expr {
                place,
                node: ExprNode::Cat(parts),
            })
        }
        ExprNode::Rep(count, parts) => {
            let parts = puts(alloc, room, numbers, parts.as_slice())?;
            Ok(Expr {
                place,
                node: ExprNode::Rep(*count, parts),
            })
        }
        ExprNode::Cast(signed, a) => {
            let a = Box::new(alloc, put(alloc, room, numbers, a)?)?;
            Ok(Expr {
                place,
                node: ExprNode::Cast(*signed, a),
            })
        }
        ExprNode::Call(function, arguments) => {
            let arguments = puts(alloc, room, numbers, arguments.as_slice())?;
            Ok(Expr {
                place,
                node: ExprNode::Call(*function, arguments),
            })
        }
        ExprNode::Time => Ok(Expr {
            place,
            node: ExprNode::Time,
        }),
        ExprNode::Sys(call) => {
            let args = put_args(alloc, room, numbers, call.args.as_slice())?;
            let name = copied(alloc, &call.name)?;
            Ok(Expr {
                place,
                node: ExprNode::Sys(SysCall { name, args }),
            })
        }
    }
}
