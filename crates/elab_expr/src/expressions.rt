//! Expressions in the design (IEEE 1364-2005, clause 5).

ghost use Rattle.std.specs.Prelude.{◌≡◌, map, option_map, IfOk, true};
ghost use Rattle.elab_plain.specs.vl_flat.specs.Surface as x;
ghost use Rattle.vl_design.specs.Placed as p;
ghost use Rattle.elab_plain.specs.vl_flat.specs.Expressions as flat;
ghost use Rattle.vl_design.specs.Seen.{exp_of, arg};
ghost use Rattle.elab_plain.specs.Seen.{seen, select, argument, selects_before, args_before};
ghost use Rattle.elab_constant.specs.Seen.{seen_scope, binding_of};
ghost use Rattle.elab_constant.specs.Types.{numbers};
ghost use Rattle.elab_expr.specs.Listed as n;

use crate::leaves::{operand, whole};
use elab_constant::form::{is_memory, keeps_texts, taken};
use elab_constant::forms::{mark, operated};
use elab_constant::ranges::Range;
use elab_constant::scope::{Known, Scope, found_in, meaning};
use elab_constant::selects::{bits_of, from_highest, from_lowest, number_of, part_low, range_of};
use elab_constant::whole::{bound, count};
use elab_plain::surface::{Argument, Ex, Select};
use std::alloc::{AllocError, Global};
use vl_base::bits::{BinOp, Bits, UnOp};
use vl_base::items::{Items, Text};
use vl_base::place::Place;
use vl_base::text::is_word;
use vl_design::design::{Expr, ExprNode, LowestBit, SysArg, SysCall};
use vl_tree::tree::SelectMark;

/// A copy of a text.
pub fn copied(alloc: Global, text: &Text) -> Result<Text, AllocError>
    ensures { IfOk result (λ t. t ≡ text.now) }
{
    Ok(Items::from_vec(Vec::from_slice(alloc, text.as_slice())?))
}

/// So many bits of a value from the one on that an index names.
fn picked(at: Place, base: Box<Expr>, index: Box<Expr>, from: LowestBit, width: u8) -> Expr
    ensures { exp_of result ≡ p.Pick at (exp_of base.value) (exp_of index.value) from width }
{
    Expr {
        place: at,
        node: ExprNode::Pick(base, index, from, width),
    }
}

/// So many bits of a value from a constant one on.
fn sliced(at: Place, base: Box<Expr>, low: i32, width: u8) -> Expr
    ensures { exp_of result ≡ p.Slice at (exp_of base.value) low width }
{
    Expr {
        place: at,
        node: ExprNode::Slice(base, low, width),
    }
}

/// The word of a memory.
fn word(at: Place, memory: u32, address: Box<Expr>) -> Expr
    ensures { exp_of result ≡ p.Word at memory (exp_of address.value) }
{
    Expr {
        place: at,
        node: ExprNode::Word(memory, address),
    }
}

/// An operand behind a mark.
fn marked(alloc: Global, at: Place, op: Option<UnOp>, a: Expr) -> Result<Expr, AllocError>
    ensures { IfOk result (λ e. exp_of e ≡ flat.marked at op (exp_of a)) }
{
    match op {
        None => Ok(a),
        Some(op) => {
            let a = Box::new(alloc, a)?;
            Ok(Expr {
                place: at,
                node: ExprNode::Un(op, a),
            })
        }
    }
}

/// An operator on two operands.
fn joined(at: Place, op: BinOp, a: Box<Expr>, b: Box<Expr>) -> Expr
    ensures { exp_of result ≡ p.Bin at op (exp_of a.value) (exp_of b.value) }
{
    Expr {
        place: at,
        node: ExprNode::Bin(op, a, b),
    }
}

/// A condition with its two branches.
fn chosen(at: Place, test: Box<Expr>, a: Box<Expr>, b: Box<Expr>) -> Expr
    ensures { exp_of result ≡ p.Cond at (exp_of test.value) (exp_of a.value) (exp_of b.value) }
{
    Expr {
        place: at,
        node: ExprNode::Cond(test, a, b),
    }
}

/// `$signed` or `$unsigned`.
fn cast(alloc: Global, at: Place, signed: bool, a: Expr) -> Result<Expr, AllocError>
    ensures { IfOk result (λ e. exp_of e ≡ p.Cast at signed (exp_of a)) }
{
    let a = Box::new(alloc, a)?;
    Ok(Expr {
        place: at,
        node: ExprNode::Cast(signed, a),
    })
}

/// A value whose bits are numbered.
#[derive(Drop)]
pub struct Based {
    /// The value.
    pub base: Expr,
    /// The numbers of its bits.
    pub range: Range,
}

/// So many bits of a value by a select with a mark.
#[cycle(exp)]
fn parted(
    alloc: Global,
    scope: &Scope<'_, '_>,
    at: Place,
    from: Based,
    mark: SelectMark,
    left: &Ex,
    right: &Ex,
    width: u8,
) -> Result<Expr, AllocError>
    ensures { IfOk result (λ e. exp_of e ≡ flat.stepped at (exp_of from.base) (flat.part (numbers from.range) mark (flat.exp (seen_scope scope.now) (seen left.now)) (flat.constant (seen_scope scope.now) (seen left.now)) (flat.constant (seen_scope scope.now) (seen right.now)) width)) }
{
    let Based { base, range } = from;
    let base = Box::new(alloc, base)?;
    match mark {
        SelectMark::Range => {
            let low = part_low(range, bound(scope, right));
            Ok(sliced(at, base, low, width))
        }
        SelectMark::Up => {
            let index = boxed(alloc, scope, left)?;
            Ok(picked(at, base, index, from_lowest(range, width), width))
        }
        SelectMark::Down => {
            let index = boxed(alloc, scope, left)?;
            Ok(picked(at, base, index, from_highest(range, width), width))
        }
    }
}

/// One select on a value.
#[cycle(exp)]
fn one_selected(
    alloc: Global,
    scope: &Scope<'_, '_>,
    at: Place,
    from: Based,
    one: &Select,
) -> Result<Based, AllocError>
    ensures { IfOk result (λ b. (others : x.Selects) → n.selected (seen_scope scope.now) at (numbers b.range) (exp_of b.base) others ≡ n.selected (seen_scope scope.now) at (numbers from.range) (exp_of from.base) (select one.now others)) }
{
    match one {
        Select::Index(_, i) => {
            let Based { base, range } = from;
            let base = Box::new(alloc, base)?;
            let index = boxed(alloc, scope, i)?;
            let base = picked(at, base, index, from_lowest(range, 1), 1);
            let range = bits_of(1);
            Ok(Based { base, range })
        }
        Select::Range(_, mark, left, right) => {
            let width = taken(scope, *mark, left, right) as u8;
            let base = parted(alloc, scope, at, from, *mark, left, right, width)?;
            let range = bits_of(width);
            Ok(Based { base, range })
        }
    }
}

/// Selects on a value.
#[cycle(exp)]
fn selected(
    alloc: Global,
    scope: &Scope<'_, '_>,
    at: Place,
    from: Based,
    selects: &[Select],
) -> Result<Expr, AllocError>
    ensures { IfOk result (λ e. exp_of e ≡ n.selected (seen_scope scope.now) at (numbers from.range) (exp_of from.base) (selects_before selects.now x.NoSelects)) }
{
    let mut all = from;
    for one in selects {
        all = one_selected(alloc, scope, at, all, one)?;
    }
    Ok(all.base)
}

/// A word of a memory with the selects behind it.
#[cycle(exp)]
fn worded(
    alloc: Global,
    scope: &Scope<'_, '_>,
    at: Place,
    known: Option<Known>,
    selects: &[Select],
) -> Result<Expr, AllocError>
    requires { flat.is_memory (option_map binding_of known) ≡ true }
    ensures { IfOk result (λ e. exp_of e ≡ n.named (seen_scope scope.now) at (option_map binding_of known) (selects_before selects.now x.NoSelects)) }
{
    let range = range_of(known);
    match selects {
        [] => Ok(whole(at, known)),
        [first, rest @ ..] => match first {
            Select::Index(_, i) => {
                let address = boxed(alloc, scope, i)?;
                let base = word(at, number_of(known), address);
                selected(alloc, scope, at, Based { base, range }, rest)
            }
            Select::Range(_, _, _, _) => {
                let base = whole(at, known);
                selected(alloc, scope, at, Based { base, range }, selects)
            }
        },
    }
}

/// A name with its selects.
#[cycle(exp)]
fn named(
    alloc: Global,
    scope: &Scope<'_, '_>,
    at: Place,
    known: Option<Known>,
    selects: &[Select],
) -> Result<Expr, AllocError>
    ensures { IfOk result (λ e. exp_of e ≡ n.named (seen_scope scope.now) at (option_map binding_of known) (selects_before selects.now x.NoSelects)) }
{
    if is_memory(known) {
        return worded(alloc, scope, at, known, selects);
    }
    let base = whole(at, known);
    let range = range_of(known);
    selected(alloc, scope, at, Based { base, range }, selects)
}

/// Expressions one by one.
#[cycle(exp)]
fn exps(alloc: Global, scope: &Scope<'_, '_>, es: &[Ex]) -> Result<Vec<Expr>, AllocError>
    ensures { IfOk result (λ v. map exp_of v.items ≡ map (n.seen_exp (seen_scope scope.now)) es.now) }
{
    let mut all = Vec::new(alloc);
    for e in es {
        all.push(exp(alloc, scope, e)?)?;
    }
    Ok(all)
}

/// An expression.
#[cycle(exp)]
#[tactic(auto, using(crate::proofs::Lists::lists))]
pub fn exp(alloc: Global, scope: &Scope<'_, '_>, e: &Ex) -> Result<Expr, AllocError>
    ensures { IfOk result (λ a. exp_of a ≡ flat.exp (seen_scope scope.now) (seen e.now)) }
{
    match e {
        Ex::Number(at, n) => Ok(Expr {
            place: *at,
            node: ExprNode::Num(n.bits, n.signed),
        }),
        Ex::Text(at, text) => Ok(operand(*at, text.as_slice())),
        Ex::Named(at, name, selects) => {
            let known = meaning(scope, name.as_slice());
            named(alloc, scope, *at, known, selects.as_slice())
        }
        Ex::Paren(_, a) => exp(alloc, scope, a),
        Ex::Unary(at, operator, a) => {
            let a = exp(alloc, scope, a)?;
            marked(alloc, *at, mark(*operator), a)
        }
        Ex::Binary(at, operator, a, b) => {
            let a = boxed(alloc, scope, a)?;
            let b = boxed(alloc, scope, b)?;
            Ok(joined(*at, operated(*operator), a, b))
        }
        Ex::Choice(at, t, a, b) => {
            let t = boxed(alloc, scope, t)?;
            let a = boxed(alloc, scope, a)?;
            let b = boxed(alloc, scope, b)?;
            Ok(chosen(*at, t, a, b))
        }
        Ex::Joined(at, parts) => {
            let parts = exps(alloc, scope, parts.as_slice())?;
            Ok(Expr {
                place: *at,
                node: ExprNode::Cat(parts),
            })
        }
        Ex::Repeated(at, n, parts) => {
            let parts = exps(alloc, scope, parts.as_slice())?;
            Ok(Expr {
                place: *at,
                node: ExprNode::Rep(count(scope, n), parts),
            })
        }
        Ex::Called(at, name, arguments) => {
            let number = number_of(found_in(scope.module, name.as_slice()));
            let arguments = exps(alloc, scope, arguments.as_slice())?;
            Ok(Expr {
                place: *at,
                node: ExprNode::Call(number, arguments),
            })
        }
        Ex::System(at, name, given) => system(alloc, scope, *at, name, given.as_slice()),
    }
}

/// An expression in a place of its own.
#[cycle(exp)]
pub(crate) fn boxed(alloc: Global, scope: &Scope<'_, '_>, e: &Ex) -> Result<Box<Expr>, AllocError>
    ensures { IfOk result (λ a. exp_of a.value ≡ flat.exp (seen_scope scope.now) (seen e.now)) }
{
    Ok(Box::new(alloc, exp(alloc, scope, e)?)?)
}

/// An argument of a system call; a string stays one where the call keeps strings.
#[cycle(exp)]
fn one_argument(
    alloc: Global,
    scope: &Scope<'_, '_>,
    keeps: bool,
    a: &Argument,
) -> Result<SysArg, AllocError>
    ensures { IfOk result (λ b. (others : x.Args) → arg b (flat.args (seen_scope scope.now) keeps others) ≡ flat.args (seen_scope scope.now) keeps (argument a.now others)) }
{
    match a {
        Argument::Null => Ok(SysArg::Null),
        Argument::Value(e) => match e {
            Ex::Text(at, text) => {
                if keeps {
                    Ok(SysArg::Str(copied(alloc, text)?))
                } else {
                    Ok(SysArg::Value(operand(*at, text.as_slice())))
                }
            }
            _ => Ok(SysArg::Value(exp(alloc, scope, e)?)),
        },
    }
}

/// Arguments of a system call.
#[cycle(exp)]
pub fn arguments(
    alloc: Global,
    scope: &Scope<'_, '_>,
    keeps: bool,
    given: &[Argument],
) -> Result<Vec<SysArg>, AllocError>
    ensures { IfOk result (λ v. (others : x.Args) → n.args_with v.items (flat.args (seen_scope scope.now) keeps others) ≡ flat.args (seen_scope scope.now) keeps (args_before given.now others)) }
{
    let mut all = Vec::new(alloc);
    for a in given {
        all.push(one_argument(alloc, scope, keeps, a)?)?;
    }
    Ok(all)
}

/// The value of the first argument; one zero bit where there is none.
#[cycle(exp)]
fn first_argument(
    alloc: Global,
    scope: &Scope<'_, '_>,
    at: Place,
    given: &[Argument],
) -> Result<Expr, AllocError>
    ensures { IfOk result (λ e. exp_of e ≡ flat.first_of (seen_scope scope.now) at (args_before given.now x.NoArgs)) }
{
    match given {
        [Argument::Value(e), ..] => exp(alloc, scope, e),
        _ => Ok(Expr {
            place: at,
            node: ExprNode::Num(Bits { value: 0, width: 1 }, false),
        }),
    }
}

/// A system call.
#[cycle(exp)]
#[tactic(auto, using(crate::proofs::Lists::lists))]
fn system(
    alloc: Global,
    scope: &Scope<'_, '_>,
    at: Place,
    name: &Text,
    given: &[Argument],
) -> Result<Expr, AllocError>
    ensures { IfOk result (λ e. exp_of e ≡ flat.exp (seen_scope scope.now) (x.System at name.now (args_before given.now x.NoArgs))) }
{
    if is_word(name.as_slice(), b"$signed".as_slice()) {
        let first = first_argument(alloc, scope, at, given)?;
        return cast(alloc, at, true, first);
    }
    if is_word(name.as_slice(), b"$unsigned".as_slice()) {
        let first = first_argument(alloc, scope, at, given)?;
        return cast(alloc, at, false, first);
    }
    if is_word(name.as_slice(), b"$time".as_slice()) {
        return Ok(Expr {
            place: at,
            node: ExprNode::Time,
        });
    }
    let args = arguments(alloc, scope, keeps_texts(name.as_slice()), given)?;
    let name = copied(alloc, name)?;
    Ok(Expr {
        place: at,
        node: ExprNode::Sys(SysCall { name, args }),
    })
}
