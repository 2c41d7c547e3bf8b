//! Numbers.

ghost use Rattle.std.specs.Prelude.{◌≡◌, ◌≤◌, ◌<◌, ◌%◌, ◌^◌, ◌-◌, IfSome};
ghost use Rattle.vl_tree.specs.Numbers.{number_in as number_in_lem, sized_number as sized_number_lem, unsized_number as unsized_number_lem, number_of as number_of_lem};
ghost use Rattle.vl_lex.specs.Reading.{sign_at as sign_at_lem, digits_from as digits_from_lem, base_at as base_at_lem, digits_at as digits_at_lem, based_by, plain_at as plain_at_lem, behind_size as behind_size_lem, number_at as number_at_lem};
ghost use Rattle.vl_lex.specs.View.{seen, parts_seen};

use crate::digits::{
    capped_value, has_x, has_z, is_first_digit, is_sign, radix_of, wrapped_value, wrapped_z,
};
use crate::runs::{Run, past_run, run_length, split_run};
use crate::step::Step;
use vl_tree::number::Number;
use vl_tree::token::TokenKind;

/// What stands behind an apostrophe.
#[derive(Clone, Copy)]
pub struct Behind<'a> {
    /// The number is marked as signed.
    pub signed: bool,
    /// Its base.
    pub radix: u8,
    /// Its digits.
    pub digits: &'a [u8],
    /// What follows them.
    pub rest: &'a [u8],
}

/// The low bits of a value.
fn cut(value: u128, width: u8) -> u128
    requires { width ≤ 128 }
    ensures { result ≡ value % 2 ^ width }
{
    if width == 128 {
        value
    } else {
        value % (1 << width)
    }
}

/// So many bits that are all 1.
fn all_ones(width: u8) -> u128
    requires { width ≤ 128 }
    ensures { result ≡ 2 ^ width - 1 }
{
    if width == 128 {
        u128::MAX
    } else {
        (1 << width) - 1
    }
}

fn number_in(width: u8, sized: bool, signed: bool, radix: u8, digits: &[u8]) -> Number
    requires narrow { width ≤ 128 }
    requires positive { 1 ≤ radix }
    ensures { result ≡ number_in_lem width sized signed radix digits.now }
{
    Number {
        value: cut(wrapped_value(radix, digits), width),
        care: all_ones(width) - cut(wrapped_z(radix, digits), width),
        width,
        sized,
        signed,
    }
}

/// A number with a size, or the cause why it is none.
fn sized_number(size: &[u8], signed: bool, radix: u8, digits: &[u8]) -> Result<Number, u8>
    requires { 1 ≤ radix }
    ensures { result ≡ sized_number_lem size.now signed radix digits.now }
{
    let width = capped_value(10, size);
    if width == 0 {
        return Err(4);
    }
    if 128 < width {
        return Err(5);
    }
    if has_x(digits) || has_z(digits) && radix == 10 {
        return Err(6);
    }
    Ok(number_in(width as u8, true, signed, radix, digits))
}

/// A number without a size, or the cause why it is none.
fn unsized_number(signed: bool, radix: u8, digits: &[u8]) -> Result<Number, u8>
    requires { 1 ≤ radix }
    ensures { result ≡ unsized_number_lem signed radix digits.now }
{
    if 1 << 32 <= capped_value(radix, digits) {
        return Err(5);
    }
    if has_x(digits) || has_z(digits) {
        return Err(6);
    }
    Ok(number_in(32, false, signed, radix, digits))
}

#[tactic(auto, unfolding(vl_tree::specs::Numbers::number_of))]
fn number_of(size: &[u8], signed: bool, radix: u8, digits: &[u8]) -> Result<Number, u8>
    requires { 1 ≤ radix }
    ensures { result ≡ number_of_lem size.now signed radix digits.now }
{
    match size {
        [] => unsized_number(signed, radix, digits),
        [_, ..] => sized_number(size, signed, radix, digits),
    }
}

/// Whether a sign stands at the front, and what follows it.
fn sign_at(text: &[u8]) -> (bool, &[u8])
    ensures signed { result.0 ≡ (sign_at_lem text.now).0 }
    ensures rest { result.1.now ≡ (sign_at_lem text.now).1 }
{
    match text.split_first() {
        None => (false, text),
        Some((byte, rest)) => {
            if is_sign(*byte) {
                (true, rest)
            } else {
                (false, text)
            }
        }
    }
}

/// The digits of a base.
fn digits_from(signed: bool, radix: u8, text: &[u8]) -> Option<Behind<'_>>
    ensures parts { parts_seen result ≡ digits_from_lem signed radix text.now }
    ensures base { IfSome result (λ d. d.radix ≡ radix) }
{
    let (first, more) = text.split_first()?;
    if !is_first_digit(radix, *first) {
        return None;
    }
    let (digits, rest) = text.split_at(1 + run_length(Run::Digits(radix, *first), more));
    Some(Behind {
        signed,
        radix,
        digits,
        rest,
    })
}

/// A base and its digits.
fn base_at(signed: bool, text: &[u8]) -> Option<Behind<'_>>
    ensures parts { parts_seen result ≡ base_at_lem signed text.now }
    ensures positive { IfSome result (λ d. 1 ≤ d.radix) }
{
    let (letter, rest) = text.split_first()?;
    let radix = radix_of(*letter)?;
    digits_from(signed, radix, past_run(Run::White, rest))
}

/// What stands behind an apostrophe.
#[tactic(auto, unfolding(crate::specs::Reading::digits_at))]
fn digits_at(tail: &[u8]) -> Option<Behind<'_>>
    ensures parts { parts_seen result ≡ digits_at_lem tail.now }
    ensures positive { IfSome result (λ d. 1 ≤ d.radix) }
{
    let (signed, rest) = sign_at(tail);
    base_at(signed, rest)
}

/// A based number, behind its apostrophe.
fn based_at<'a>(size: &[u8], tail: &'a [u8]) -> Step<'a>
    ensures { seen result ≡ based_by size.now (digits_at_lem tail.now) }
{
    let Some(behind) = digits_at(tail) else {
        return Step::Fault(4);
    };
    match number_of(size, behind.signed, behind.radix, behind.digits) {
        Ok(number) => Step::Token(TokenKind::Number(number), behind.rest),
        Err(cause) => Step::Fault(cause),
    }
}

/// A plain number.
#[tactic(auto, unfolding(crate::specs::Reading::plain_at))]
fn plain_at<'a>(digits: &[u8], rest: &'a [u8]) -> Step<'a>
    ensures { seen result ≡ plain_at_lem digits.now rest.now }
{
    let value = capped_value(10, digits);
    if 1 << 32 <= value {
        return Step::Fault(5);
    }
    let number = Number {
        value: u128::from(value),
        care: all_ones(32),
        width: 32,
        sized: false,
        signed: true,
    };
    Step::Token(TokenKind::Number(number), rest)
}

/// A number, behind the digits of its size and the white space that follows.
fn behind_size<'a>(size: &[u8], after: &'a [u8], behind: &'a [u8]) -> Step<'a>
    ensures { seen result ≡ behind_size_lem size.now after.now behind.now }
{
    match behind.split_first() {
        None => plain_at(size, after),
        Some((byte, tail)) => {
            if *byte == 39 {
                based_at(size, tail)
            } else {
                plain_at(size, after)
            }
        }
    }
}

/// A number.
#[tactic(auto, unfolding(crate::specs::Reading::number_at))]
pub fn number_at(text: &[u8]) -> Step<'_>
    ensures { seen result ≡ number_at_lem text.now }
{
    let (size, after) = split_run(Run::Decimal, text);
    behind_size(size, after, past_run(Run::White, after))
}
