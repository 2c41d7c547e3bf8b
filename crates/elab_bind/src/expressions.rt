//! Expressions with their operators bound.

ghost use Rattle.std.specs.Prelude.{◌≡◌, map, IfOk};
ghost use Rattle.elab_plain.specs.vl_flat.specs.Surface as x;
ghost use Rattle.elab_plain.specs.vl_flat.specs.Binding as f;
ghost use Rattle.vl_tree.specs.Binding.{row_of};
ghost use Rattle.elab_plain.specs.Seen.{seen, select, argument};
ghost use Rattle.elab_plain.specs.Seen as s;
ghost use Rattle.elab_plain.specs.Listed.{unary};
ghost use Rattle.elab_plain.specs.Listed as g;

use elab_plain::places::place_of;
use elab_plain::surface::{Argument, Ex, Numeral, Select};
use std::alloc::{AllocError, Global};
use vl_tree::number::Number;
use vl_tree::tree::{
    Binary, BinaryOperator, Expression, Name, Primary, Select as SelectTree, SystemArgument,
    SystemCall, Unary, UnaryMark,
};
use vl_tree::{Bits, Items, Text};

/// The row of the table of precedence in which an operator stands, from the one that binds tightest.
fn row(operator: BinaryOperator) -> u8
    ensures { result ≡ row_of operator }
{
    match operator {
        BinaryOperator::Multiply | BinaryOperator::Divide | BinaryOperator::Modulus => 1,
        BinaryOperator::Add | BinaryOperator::Subtract => 2,
        BinaryOperator::ShiftLeft
        | BinaryOperator::ShiftRight
        | BinaryOperator::ArithmeticShiftLeft
        | BinaryOperator::ArithmeticShiftRight => 3,
        BinaryOperator::Less
        | BinaryOperator::LessOrEqual
        | BinaryOperator::Greater
        | BinaryOperator::GreaterOrEqual => 4,
        BinaryOperator::Equal
        | BinaryOperator::NotEqual
        | BinaryOperator::CaseEqual
        | BinaryOperator::CaseNotEqual => 5,
        BinaryOperator::And => 6,
        BinaryOperator::Xor | BinaryOperator::Xnor => 7,
        BinaryOperator::Or => 8,
        BinaryOperator::LogicalAnd => 9,
        BinaryOperator::LogicalOr => 10,
    }
}

/// An operator behind what is bound so far, with the operand on its right.
fn whole(alloc: Global, a: Ex, operator: BinaryOperator, b: Ex) -> Result<Ex, AllocError>
    ensures { IfOk result (λ e. seen e ≡ x.Binary (x.place_of (seen a)) operator (seen a) (seen b)) }
{
    let at = place_of(&a);
    Ok(Ex::Binary(at, operator, Box::new(alloc, a)?, Box::new(alloc, b)?))
}

/// An operator with the operand on its right, bound to what stands before it.
fn bound_with(alloc: Global, a: Ex, operator: BinaryOperator, b: Ex) -> Result<Ex, AllocError>
    ensures { IfOk result (λ e. seen e ≡ x.bound_with (seen a) operator (seen b)) }
{
    match a {
        Ex::Binary(at, looser, left, right) => {
            if row(operator) < row(looser) {
                let right = bound_with(alloc, Box::into_inner(right), operator, b)?;
                Ok(Ex::Binary(at, looser, left, Box::new(alloc, right)?))
            } else {
                whole(alloc, Ex::Binary(at, looser, left, right), operator, b)
            }
        }
        a => whole(alloc, a, operator, b),
    }
}

/// A copy of a text.
pub fn copied(alloc: Global, text: &Text) -> Result<Text, AllocError>
    ensures { IfOk result (λ t. t ≡ text.now) }
{
    Ok(Items::from_vec(Vec::from_slice(alloc, text.as_slice())?))
}

/// A number with its invariants.
fn numeral(n: Number) -> Numeral
    ensures { s.number_of result ≡ f.proper n }
{
    let zero = Numeral {
        bits: Bits { value: 0, width: 1 },
        care: 1,
        sized: true,
        signed: false,
    };
    match Bits::new(n.value, n.width) {
        None => zero,
        Some(bits) => match Bits::new(n.care, n.width) {
            None => zero,
            Some(_) => Numeral {
                bits,
                care: n.care,
                sized: n.sized,
                signed: n.signed,
            },
        },
    }
}

/// An expression behind marks, the innermost last.
fn marked(alloc: Global, marks: &[UnaryMark], operand: Ex) -> Result<Ex, AllocError>
    ensures { IfOk result (λ e. seen e ≡ f.marked marks.now (seen operand)) }
{
    match marks {
        [] => Ok(operand),
        [first, rest @ ..] => {
            let inner = marked(alloc, rest, operand)?;
            Ok(Ex::Unary(first.place, first.operator, Box::new(alloc, inner)?))
        }
    }
}

/// An expression with its operators bound.
#[cycle(bind)]
#[tactic(auto, using(elab_plain::proofs::Walks::opens))]
pub fn bind(alloc: Global, e: &Expression) -> Result<Ex, AllocError>
    ensures { IfOk result (λ a. seen a ≡ f.ex e.now) }
{
    let first = bind_binary(alloc, e.binary.get())?;
    match &e.choice {
        None => Ok(first),
        Some(two) => {
            let two = two.get();
            let first = Box::new(alloc, first)?;
            let chosen = Box::new(alloc, bind(alloc, &two.chosen)?)?;
            let otherwise = Box::new(alloc, bind(alloc, &two.otherwise)?)?;
            Ok(Ex::Choice(e.place, first, chosen, otherwise))
        }
    }
}

/// Operands with their operators bound.
#[cycle(bind)]
#[tactic(auto, using(elab_plain::proofs::Walks::opens))]
fn bind_binary(alloc: Global, b: &Binary) -> Result<Ex, AllocError>
    ensures { IfOk result (λ a. seen a ≡ f.binary b.now) }
{
    let mut all = bind_unary(alloc, &b.first)?;
    for link in b.links.as_slice() {
        let operand = bind_unary(alloc, &link.operand)?;
        all = bound_with(alloc, all, link.operator, operand)?;
    }
    Ok(all)
}

/// An operand with its marks.
#[cycle(bind)]
#[tactic(auto, using(elab_plain::proofs::Walks::opens))]
fn bind_unary(alloc: Global, u: &Unary) -> Result<Ex, AllocError>
    ensures { IfOk result (λ a. seen a ≡ unary u.now) }
{
    let operand = bind_primary(alloc, u.primary.get())?;
    marked(alloc, u.operators.as_slice(), operand)
}

/// Expressions one by one.
#[cycle(bind)]
#[tactic(auto, using(elab_plain::proofs::Walks::opens))]
pub(crate) fn bind_all(alloc: Global, es: &[Expression]) -> Result<Vec<Ex>, AllocError>
    ensures { IfOk result (λ v. map seen v.items ≡ map f.ex es.now) }
{
    let mut all = Vec::new(alloc);
    for e in es {
        all.push(bind(alloc, e)?)?;
    }
    Ok(all)
}

/// An operand without marks.
#[cycle(bind)]
#[tactic(auto, using(elab_plain::proofs::Walks::opens))]
fn bind_primary(alloc: Global, p: &Primary) -> Result<Ex, AllocError>
    ensures { IfOk result (λ a. seen a ≡ f.primary p.now) }
{
    match p {
        Primary::Number(at, n) => Ok(Ex::Number(*at, numeral(*n))),
        Primary::Str(at, text) => Ok(Ex::Text(*at, copied(alloc, text)?)),
        Primary::Name(name) => bind_name(alloc, name),
        Primary::Parenthesized(at, e) => {
            let inner = bind(alloc, e.get())?;
            Ok(Ex::Paren(*at, Box::new(alloc, inner)?))
        }
        Primary::Concatenation(at, es) => Ok(Ex::Joined(*at, bind_all(alloc, es.as_slice())?)),
        Primary::Replication(at, count, es) => {
            let count = Box::new(alloc, bind(alloc, count.get())?)?;
            let parts = bind_all(alloc, es.as_slice())?;
            Ok(Ex::Repeated(*at, count, parts))
        }
        Primary::Call(name, es) => {
            let arguments = bind_all(alloc, es.as_slice())?;
            Ok(Ex::Called(name.place, copied(alloc, &name.name)?, arguments))
        }
        Primary::System(call) => bind_system(alloc, call),
    }
}

/// A select.
#[cycle(bind)]
#[tactic(auto, using(elab_plain::proofs::Walks::opens))]
fn bind_select(alloc: Global, s: &SelectTree) -> Result<Select, AllocError>
    ensures { IfOk result (λ a. (others : x.Selects) → select a others ≡ f.select s.now others) }
{
    let first = bind(alloc, &s.first)?;
    match &s.second {
        None => Ok(Select::Index(s.place, first)),
        Some(two) => {
            let second = bind(alloc, &two.bound)?;
            Ok(Select::Range(s.place, two.mark, first, second))
        }
    }
}

/// Selects one by one.
#[cycle(bind)]
#[tactic(auto, using(elab_plain::proofs::Walks::opens))]
pub(crate) fn bind_selects(alloc: Global, ss: &[SelectTree]) -> Result<Vec<Select>, AllocError>
    ensures { IfOk result (λ v. (others : x.Selects) → s.selects_before v.items others ≡ g.selects_before ss.now others) }
{
    let mut all = Vec::new(alloc);
    for one in ss {
        all.push(bind_select(alloc, one)?)?;
    }
    Ok(all)
}

/// A name with its selects.
#[cycle(bind)]
#[tactic(auto, using(elab_plain::proofs::Walks::opens))]
fn bind_name(alloc: Global, n: &Name) -> Result<Ex, AllocError>
    ensures { IfOk result (λ a. seen a ≡ f.named n.now) }
{
    let selects = bind_selects(alloc, n.selects.as_slice())?;
    Ok(Ex::Named(n.place, copied(alloc, &n.identifier.name)?, selects))
}

/// An argument of a system call.
#[cycle(bind)]
#[tactic(auto, using(elab_plain::proofs::Walks::opens))]
fn bind_argument(alloc: Global, a: &SystemArgument) -> Result<Argument, AllocError>
    ensures { IfOk result (λ b. (others : x.Args) → argument b others ≡ f.argument a.now others) }
{
    match &a.argument {
        None => Ok(Argument::Null),
        Some(e) => Ok(Argument::Value(bind(alloc, e)?)),
    }
}

/// Arguments one by one.
#[cycle(bind)]
#[tactic(auto, using(elab_plain::proofs::Walks::opens))]
pub(crate) fn bind_arguments(
    alloc: Global,
    given: &[SystemArgument],
) -> Result<Vec<Argument>, AllocError>
    ensures { IfOk result (λ v. (others : x.Args) → s.args_before v.items others ≡ g.args_before given.now others) }
{
    let mut all = Vec::new(alloc);
    for a in given {
        all.push(bind_argument(alloc, a)?)?;
    }
    Ok(all)
}

/// A system call.
#[cycle(bind)]
#[tactic(auto, using(elab_plain::proofs::Walks::opens))]
fn bind_system(alloc: Global, c: &SystemCall) -> Result<Ex, AllocError>
    ensures { IfOk result (λ a. seen a ≡ f.system c.now) }
{
    let name = copied(alloc, &c.name)?;
    match &c.arguments {
        None => Ok(Ex::System(c.place, name, Vec::new(alloc))),
        Some(given) => {
            let arguments = bind_arguments(alloc, given.as_slice())?;
            Ok(Ex::System(c.place, name, arguments))
        }
    }
}
