//! Runs of bytes at the front of a text.

ghost use Rattle.std.specs.Prelude.{◌≡◌, ◌≤◌, length, drop, nat_eq, option_map, IfOk};
ghost use Rattle.std.specs.List.{starts_with};
ghost use Rattle.vl_tree.specs.Bytes.{begins as begins_lem, past};
ghost use Rattle.vl_lex.specs.Reading.{test_of, run, past_pair as past_pair_lem};

use crate::bytes::{is_figure, is_letter, is_white};
use crate::digits::is_further_digit;
use std::alloc::{AllocError, Global};
use vl_tree::{Items, Text};

/// A kind of byte, of which a run is taken.
#[derive(Clone, Copy)]
pub enum Run {
    /// White space.
    White,
    /// The bytes of names.
    Name,
    /// The bytes of escaped names.
    Printed,
    /// Figures and `_`.
    Decimal,
    /// The bytes of a line.
    Line,
    /// The digits of a base behind a first one.
    Digits(u8, u8),
}

/// A byte belongs to such a run.
#[tactic(auto, unfolding(vl_tree::specs::Bytes::is_name_byte, vl_tree::specs::Bytes::is_printed, vl_tree::specs::Bytes::is_decimal, vl_tree::specs::Bytes::is_in_line))]
fn passes(kind: Run, byte: u8) -> bool
    ensures { result ≡ test_of kind byte }
{
    match kind {
        Run::White => is_white(byte),
        Run::Name => is_letter(byte) || is_figure(byte) || byte == 36,
        Run::Printed => 33 <= byte && byte <= 126,
        Run::Decimal => is_figure(byte) || byte == 95,
        Run::Line => byte != 10,
        Run::Digits(radix, first) => is_further_digit(radix, first, byte),
    }
}

/// The length of the run at the front.
#[tactic(auto, using(crate::proofs::RunLaws::run_goes, crate::proofs::RunLaws::run_stops, crate::proofs::RunLaws::run_ends))]
pub fn run_length(kind: Run, text: &[u8]) -> usize
    ensures exact { result ≡ length (run (test_of kind) text.now) }
    ensures within { result ≤ length text.now }
{
    for (i, byte) in text.iter().enumerate() {
        if !passes(kind, *byte) {
            return i;
        }
    }
    text.len()
}

/// The run at the front, and what follows it.
#[tactic(auto, using(crate::proofs::RunLaws::take_run, crate::proofs::RunLaws::drop_run, crate::proofs::RunLaws::length_run))]
pub fn split_run(kind: Run, text: &[u8]) -> (&[u8], &[u8])
    ensures front { result.0.now ≡ run (test_of kind) text.now }
    ensures rest { result.1.now ≡ past (test_of kind) text.now }
{
    let length = run_length(kind, text);
    text.split_at(length)
}

/// What follows the run at the front.
pub fn past_run(kind: Run, text: &[u8]) -> &[u8]
    ensures { result.now ≡ past (test_of kind) text.now }
{
    let (_, rest) = split_run(kind, text);
    rest
}

/// The text begins with this byte.
pub fn begins(byte: u8, text: &[u8]) -> bool
    ensures { result ≡ begins_lem byte text.now }
{
    match text.split_first() {
        None => false,
        Some((first, _)) => *first == byte,
    }
}

/// The text begins with these bytes.
pub fn begins_with(text: &[u8], word: &[u8]) -> bool
    ensures { result ≡ starts_with nat_eq text.now word.now }
{
    text.starts_with(word)
}

/// What follows so many bytes, if there are as many.
pub fn behind(text: &[u8], count: usize) -> &[u8]
    ensures { result.now ≡ drop count text.now }
{
    let (_, rest) = text.split_at(text.len().min(count));
    rest
}

/// What follows the first place where these two bytes stand.
#[tactic(auto, using(crate::proofs::RunLaws::pair_goes, crate::proofs::RunLaws::pair_goes_2, crate::proofs::RunLaws::pair_found, crate::proofs::RunLaws::pair_none))]
pub fn past_pair(a: u8, b: u8, text: &[u8]) -> Option<&[u8]>
    ensures { option_map (λ r. r.now) result ≡ past_pair_lem a b text.now }
{
    let mut rest = text;
    while let Some((byte, after)) = rest.split_first() {
        if *byte == a && begins(b, after) {
            return Some(behind(after, 1));
        }
        rest = after;
    }
    None
}

/// The bytes as a text.
pub fn text_of(alloc: Global, bytes: &[u8]) -> Result<Text, AllocError>
    ensures { IfOk result (λ t. t ≡ bytes.now) }
{
    Ok(Items::from_vec(Vec::from_slice(alloc, bytes)?))
}
