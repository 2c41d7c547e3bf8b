//! Marks.

ghost use Rattle.std.specs.Prelude.{◌≡◌, take, drop, option_map, IfOk};
ghost use Rattle.vl_tree.specs.Marks.{is_among as is_among_lem, marks_of_one, marks_of_two, marks_of_three};
ghost use Rattle.vl_lex.specs.Reading.{mark_at as mark_at_lem, other_at as other_at_lem, over_or as over_or_lem};
ghost use Rattle.vl_lex.specs.View.{seen};

use crate::gaps::{opens_attribute, opens_block, opens_line};
use crate::names::is_among;
use crate::runs::{Run, behind, past_pair, past_run, text_of};
use crate::step::Step;
use std::alloc::{AllocError, Global};
use vl_tree::token::TokenKind;

const THREE: [&[u8]; 4] = [b"<<<", b">>>", b"===", b"!=="];

const TWO: [&[u8]; 14] = [
    b"<<", b">>", b"<=", b">=", b"==", b"!=", b"&&", b"||", b"~&", b"~|", b"~^", b"^~", b"+:",
    b"-:",
];

const ONE: [&[u8]; 26] = [
    b"(", b")", b"[", b"]", b"{", b"}", b",", b";", b":", b".", b"#", b"@", b"=", b"?", b"+", b"-",
    b"*", b"/", b"%", b"<", b">", b"!", b"~", b"&", b"|", b"^",
];

fn is_three(bytes: &[u8]) -> bool
    ensures { result ≡ is_among_lem marks_of_three bytes.now }
{
    is_among(&THREE, bytes)
}

fn is_two(bytes: &[u8]) -> bool
    ensures { result ≡ is_among_lem marks_of_two bytes.now }
{
    is_among(&TWO, bytes)
}

fn is_one(bytes: &[u8]) -> bool
    ensures { result ≡ is_among_lem marks_of_one bytes.now }
{
    is_among(&ONE, bytes)
}

/// So many bytes, or all where there are fewer.
fn front(text: &[u8], count: usize) -> &[u8]
    ensures { result.now ≡ take count text.now }
{
    let (front, _) = text.split_at(text.len().min(count));
    front
}

/// A mark.
#[tactic(auto, unfolding(crate::specs::Reading::mark_at))]
fn mark_at<'a>(alloc: Global, text: &'a [u8]) -> Result<Step<'a>, AllocError>
    ensures { IfOk result (λ s. seen s ≡ mark_at_lem text.now) }
{
    let three = front(text, 3);
    if is_three(three) {
        return Ok(Step::Token(TokenKind::Mark(text_of(alloc, three)?), behind(text, 3)));
    }
    let two = front(text, 2);
    if is_two(two) {
        return Ok(Step::Token(TokenKind::Mark(text_of(alloc, two)?), behind(text, 2)));
    }
    let one = front(text, 1);
    if is_one(one) {
        return Ok(Step::Token(TokenKind::Mark(text_of(alloc, one)?), behind(text, 1)));
    }
    Ok(Step::Fault(1))
}

/// A gap up to here, or a fault where it has no end.
fn over_or<'a>(cause: u8, rest: Option<&'a [u8]>) -> Step<'a>
    ensures { seen result ≡ over_or_lem cause (option_map (λ r. r.now) rest.entry) }
{
    match rest {
        None => Step::Fault(cause),
        Some(rest) => Step::Gap(rest),
    }
}

/// A comment, an attribute or a mark.
#[tactic(auto, unfolding(crate::specs::Reading::other_at))]
pub fn other_at<'a>(alloc: Global, text: &'a [u8]) -> Result<Step<'a>, AllocError>
    ensures { IfOk result (λ s. seen s ≡ other_at_lem text.now) }
{
    if opens_line(text) {
        return Ok(Step::Gap(past_run(Run::Line, behind(text, 2))));
    }
    if opens_block(text) {
        return Ok(over_or(2, past_pair(42, 47, behind(text, 2))));
    }
    if opens_attribute(text) {
        return Ok(over_or(2, past_pair(42, 41, behind(text, 2))));
    }
    mark_at(alloc, text)
}
