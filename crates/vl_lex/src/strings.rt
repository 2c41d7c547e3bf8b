//! Strings.

ghost use Rattle.std.specs.Prelude.{◌≡◌, ◌<◌, option_map, IfOk, length};
ghost use Rattle.vl_tree.specs.Strings.{is_plain as is_plain_lem, escape_of as escape_of_lem};
ghost use Rattle.vl_lex.specs.Reading.{last_octal as last_octal_lem, further_octal as further_octal_lem, escape_at as escape_at_lem, item_at as item_at_lem, items_at, string_at as string_at_lem, closed};
ghost use Rattle.vl_lex.specs.View.{seen};

use crate::bytes::is_octal;
use crate::step::Step;
use std::alloc::{AllocError, Global};
use vl_tree::Items;
use vl_tree::token::TokenKind;

#[tactic(auto, unfolding(vl_tree::specs::Strings::is_plain))]
fn is_plain(byte: u8) -> bool
    ensures { result ≡ is_plain_lem byte }
{
    byte != 34 && byte != 92 && byte != 10
}

#[tactic(auto, unfolding(vl_tree::specs::Strings::escape_of))]
fn escape_of(byte: u8) -> u8
    ensures { result ≡ escape_of_lem byte }
{
    if byte == 110 {
        10
    } else if byte == 116 {
        9
    } else {
        byte
    }
}

/// A third octal digit, if it is there.
#[tactic(auto, unfolding(vl_tree::specs::Bytes::is_octal))]
fn last_octal(value: u8, text: &[u8]) -> (u8, &[u8])
    requires { value < 64 }
    ensures value { result.0 ≡ (last_octal_lem value text.now).0 }
    ensures rest { result.1.now ≡ (last_octal_lem value text.now).1 }
{
    match text.split_first() {
        None => (value, text),
        Some((byte, rest)) => {
            if is_octal(*byte) {
                let whole = u16::from(value) * 8 + u16::from(*byte - 48);
                ((whole % 256) as u8, rest)
            } else {
                (value, text)
            }
        }
    }
}

/// A second octal digit, and a third, if they are there.
#[tactic(auto, unfolding(vl_tree::specs::Bytes::is_octal))]
fn further_octal(value: u8, text: &[u8]) -> (u8, &[u8])
    requires { value < 8 }
    ensures value { result.0 ≡ (further_octal_lem value text.now).0 }
    ensures rest { result.1.now ≡ (further_octal_lem value text.now).1 }
{
    match text.split_first() {
        None => (value, text),
        Some((byte, rest)) => {
            if is_octal(*byte) {
                last_octal(value * 8 + (*byte - 48), rest)
            } else {
                (value, text)
            }
        }
    }
}

/// What stands behind a backslash.
#[tactic(auto, unfolding(crate::specs::Reading::escape_at, vl_tree::specs::Bytes::is_octal))]
fn escape_at(text: &[u8]) -> Option<(u8, &[u8])>
    ensures { option_map (λ x. (x.0, x.1.now)) result ≡ escape_at_lem text.now }
{
    let (byte, rest) = text.split_first()?;
    if is_octal(*byte) {
        return Some(further_octal(*byte - 48, rest));
    }
    if *byte == 10 {
        return None;
    }
    Some((escape_of(*byte), rest))
}

/// One byte of a string.
#[tactic(auto, unfolding(crate::specs::Reading::item_at))]
fn item_at(text: &[u8]) -> Option<(u8, &[u8])>
    ensures { option_map (λ x. (x.0, x.1.now)) result ≡ item_at_lem text.now }
{
    let (byte, rest) = text.split_first()?;
    if *byte == 92 {
        return escape_at(rest);
    }
    if is_plain(*byte) {
        Some((*byte, rest))
    } else {
        None
    }
}

/// The bytes of a string, and what follows them.
fn items_of<'a>(alloc: Global, inside: &'a [u8]) -> Result<(Vec<u8>, &'a [u8]), AllocError>
    ensures bytes { IfOk result (λ x. x.0.items ≡ (items_at (length inside.now) inside.now).0) }
    ensures rest { IfOk result (λ x. x.1.now ≡ (items_at (length inside.now) inside.now).1) }
{
    let mut bytes = Vec::new(alloc);
    let mut rest = inside;
    while let Some((byte, after)) = item_at(rest) {
        bytes.push(byte)?;
        rest = after;
    }
    Ok((bytes, rest))
}

/// A string, behind its first quote.
#[tactic(auto, unfolding(crate::specs::Reading::string_at))]
pub fn string_at<'a>(alloc: Global, inside: &'a [u8]) -> Result<Step<'a>, AllocError>
    ensures { IfOk result (λ s. seen s ≡ string_at_lem inside.now) }
{
    let (bytes, rest) = items_of(alloc, inside)?;
    match rest.split_first() {
        None => Ok(Step::Fault(3)),
        Some((byte, rest)) => {
            if *byte == 34 {
                Ok(Step::Token(TokenKind::Str(Items::from_vec(bytes)), rest))
            } else {
                Ok(Step::Fault(3))
            }
        }
    }
}
