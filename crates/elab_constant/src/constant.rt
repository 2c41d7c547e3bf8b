//! Constants: the values of expressions over no signals (IEEE 1364-2005, clauses 4.10 and 5).

ghost use Rattle.std.specs.Prelude.{◌≡◌, ◌≤◌, ◌<◌, ◌*◌, ◌^◌, length, option_map};
ghost use Rattle.std.specs.Int.Digits.{number_from_digits};
ghost use Rattle.elab_plain.specs.vl_flat.specs.Expressions.{text_form, text_value};
ghost use Rattle.elab_plain.specs.vl_flat.specs.Expressions as flat;
ghost use Rattle.elab_plain.specs.vl_flat.specs.Constants as constants;
ghost use Rattle.elab_plain.specs.Seen.{seen};
ghost use Rattle.elab_constant.specs.Seen.{seen_scope, binding_of};
ghost use Rattle.elab_constant.specs.Folded as spec;

use crate::forms::{mark, operated};
use crate::scope::{Known, Scope, meaning};
use elab_plain::surface::Ex;
use vl_base::bits::{Bits, binary, resize, unary};
use vl_design::design::Form;
use vl_eval::form_form::{
    binary_form, joined, left_form, operand_form, right_form, unary_form, unsigned,
};

/// The number of at most 16 bytes, the first at the top.
#[tactic(auto, using(crate::proofs::Bytes::bytes))]
fn number(text: &[u8]) -> u128
    requires { length text.now ≤ 16 }
    ensures value { result ≡ number_from_digits 256 text.now }
    ensures below { result < 2 ^ (8 * length text.now) }
{
    let mut value = 0;
    for b in text {
        value = value * 256 + u128::from(*b);
    }
    value
}

/// A string as an operand: 8 bits for each byte, and one zero byte where there is none. One that is too long counts as one
/// zero bit.
pub fn text_bits(text: &[u8]) -> Bits
    ensures value { result.value ≡ text_value text.now }
    ensures width { result.width ≡ (text_form text.now).width }
{
    if text.len() > 16 {
        return Bits { value: 0, width: 1 };
    }
    if text.is_empty() {
        return Bits { value: 0, width: 8 };
    }
    Bits {
        value: number(text),
        width: 8 * text.len() as u8,
    }
}

/// The form of a value.
fn form_of(bits: Bits, signed: bool) -> Form
    ensures width { result.width ≡ bits.width }
    ensures signed { result.signed ≡ signed }
{
    Form {
        width: u32::from(bits.width),
        signed,
    }
}

/// The width and the sign of a constant read for itself.
#[tactic(auto, using(vl_design::proofs::Widths::widths))]
pub(crate) fn constant_form(scope: &Scope<'_, '_>, e: &Ex) -> Form
    ensures same { result ≡ spec.folded_form (seen_scope scope.now).names (seen e.now) }
    ensures wide { 1 ≤ result.width }
    ensures narrow { result.width ≤ 128 }
{
    match e {
        Ex::Number(_, n) => form_of(n.bits, n.signed),
        Ex::Text(_, text) => form_of(text_bits(text.as_slice()), false),
        Ex::Named(_, name, _) => match meaning(scope, name.as_slice()) {
            Some(Known::Constant(v)) => form_of(v.bits, v.signed),
            _ => unsigned(1),
        },
        Ex::Paren(_, a) => constant_form(scope, a),
        Ex::Unary(_, operator, a) => {
            let f = constant_form(scope, a);
            match mark(*operator) {
                None => f,
                Some(op) => unary_form(op, f),
            }
        }
        Ex::Binary(_, operator, a, b) => {
            let f = constant_form(scope, a);
            let g = constant_form(scope, b);
            binary_form(operated(*operator), f, g)
        }
        Ex::Choice(_, _, a, b) => {
            let f = constant_form(scope, a);
            let g = constant_form(scope, b);
            joined(f, g)
        }
        _ => unsigned(1),
    }
}

/// A value in a context that is at least as wide as it, with zeros before it.
#[tactic(auto, using(vl_design::proofs::Widths::widths))]
fn padded(a: Bits, width: u8) -> Bits
    requires fits { a.width ≤ width }
    requires narrow { width ≤ 128 }
    ensures value { result.value ≡ a.value }
    ensures width { result.width ≡ width }
{
    Bits {
        value: a.value,
        width,
    }
}

/// The value of a constant in a context.
#[tactic(auto, using(vl_design::proofs::Widths::widths))]
pub(crate) fn evaluate(scope: &Scope<'_, '_>, e: &Ex, c: Form) -> Bits
    requires wide { 1 ≤ c.width }
    requires narrow { c.width ≤ 128 }
    ensures value { result.value ≡ spec.folded (seen_scope scope.now).names (seen e.now) c }
    ensures width { result.width ≡ c.width }
{
    let width = c.width as u8;
    match e {
        Ex::Number(_, n) => resize(n.bits, c.signed, width),
        Ex::Text(_, text) => resize(text_bits(text.as_slice()), c.signed, width),
        Ex::Named(_, name, _) => match meaning(scope, name.as_slice()) {
            Some(Known::Constant(v)) => resize(v.bits, c.signed, width),
            _ => resize(Bits { value: 0, width: 1 }, c.signed, width),
        },
        Ex::Paren(_, a) => evaluate(scope, a, c),
        Ex::Unary(_, operator, a) => match mark(*operator) {
            None => evaluate(scope, a, c),
            Some(op) => {
                let f = operand_form(op, constant_form(scope, a), c);
                padded(unary(op, evaluate(scope, a, f)), width)
            }
        },
        Ex::Binary(_, operator, a, b) => {
            let op = operated(*operator);
            let f = constant_form(scope, a);
            let g = constant_form(scope, b);
            let l = left_form(op, f, g, c);
            let r = right_form(op, f, g, c);
            let x = evaluate(scope, a, l);
            let y = evaluate(scope, b, r);
            padded(binary(op, l.signed, x, y), width)
        }
        Ex::Choice(_, t, a, b) => {
            let test = evaluate(scope, t, constant_form(scope, t));
            if test.value == 0 {
                evaluate(scope, b, c)
            } else {
                evaluate(scope, a, c)
            }
        }
        _ => Bits { value: 0, width },
    }
}

/// The name is a parameter's.
fn is_parameter(known: Option<Known>) -> bool
    ensures { result ≡ flat.is_parameter (option_map binding_of known) }
{
    match known {
        Some(Known::Constant(_)) => true,
        _ => false,
    }
}

/// The expression is a constant: of numbers, strings that aren't too long, parameters, operators and parentheses.
#[tactic(auto, using(crate::proofs::Named::constants))]
pub fn is_constant(scope: &Scope<'_, '_>, e: &Ex) -> bool
    ensures { result ≡ flat.is_constant (seen_scope scope.now).names (seen e.now) }
{
    match e {
        Ex::Number(_, _) => true,
        Ex::Text(_, text) => text.as_slice().len() <= 16,
        Ex::Named(_, name, selects) => match selects.as_slice() {
            [] => is_parameter(meaning(scope, name.as_slice())),
            _ => false,
        },
        Ex::Paren(_, a) | Ex::Unary(_, _, a) => is_constant(scope, a),
        Ex::Binary(_, _, a, b) => is_constant(scope, a) && is_constant(scope, b),
        Ex::Choice(_, t, a, b) => {
            is_constant(scope, t) && is_constant(scope, a) && is_constant(scope, b)
        }
        _ => false,
    }
}
