//! Texts of values (IEEE 1364-2005, clause 17.1.1).

ghost use Rattle.std.specs.Prelude.{◌≡◌, ◌<◌, ◌≤◌, ◌++◌, ◌+◌, ◌-◌, ◌^◌, All, IfOk, OnOk, length, replicate, is_some, if◌then◌else◌, false};
ghost use Rattle.std.specs.Fmt.{digit_glyph, signed_decimal};
ghost use Rattle.vl_design.specs.vl_base.specs.Display as d;
ghost use Rattle.vl_design.specs.vl_base.specs.Value.{reading};

use std::alloc::{AllocError, Global};
use vl_design::Bits;

/// 2^width less a value above 0.
fn negated(bits: Bits) -> u128
    requires { 0 < bits.value }
    ensures { result + bits.value ≡ 2 ^ bits.width }
{
    if bits.width < 128 {
        (1 << bits.width) - bits.value
    } else {
        u128::MAX - bits.value + 1
    }
}

/// A value in decimal, in as few digits as serve.
fn decimal_text(alloc: Global, bits: Bits, signed: bool) -> Result<Vec<u8>, AllocError>
    ensures { IfOk result (λ t. t.items ≡ signed_decimal (reading signed bits.width bits.value)) }
{
    let mut text = Vec::new(alloc);
    let mut magnitude = bits.value;
    if signed && bits.value >= 1 << (bits.width - 1) {
        text.push(b'-')?;
        magnitude = negated(bits);
    }
    let digits = magnitude.to_string(alloc)?;
    text.extend_from_slice(digits.as_bytes())?;
    Ok(text)
}

/// The greatest number of a width.
fn greatest(width: u8) -> u128
    requires { width ≤ 128 }
    ensures { result ≡ 2 ^ width - 1 }
{
    if width < 128 {
        (1 << width) - 1
    } else {
        u128::MAX
    }
}

/// How many characters a value of a width has at most in decimal, with the sign where it is signed.
fn decimal_width(alloc: Global, width: u8, signed: bool) -> Result<usize, AllocError>
    requires wide { 1 ≤ width }
    requires narrow { width ≤ 128 }
    ensures { IfOk result (λ n. n ≡ d.decimal_width signed width) }
{
    if signed {
        let lowest: u128 = 1 << (width - 1);
        Ok(lowest.to_string(alloc)?.len() + 1)
    } else {
        Ok(greatest(width).to_string(alloc)?.len())
    }
}

/// Adds so many spaces.
fn push_spaces(count: usize, printed: &mut Vec<u8>) -> Result<(), AllocError>
    ensures { OnOk result (printed.new.items ≡ printed.old.items ++ replicate count 32) }
{
    for time in 0..count {
        printed.push(b' ')?;
    }
    Ok(())
}

/// Adds a value in decimal, in as few digits as serve or at the right of the greatest value's width.
fn push_decimal(
    alloc: Global,
    least: bool,
    bits: Bits,
    signed: bool,
    printed: &mut Vec<u8>,
) -> Result<(), AllocError>
    ensures { OnOk result (printed.new.items ≡ printed.old.items
        ++ d.item_text (if least then d.LeastDecimal else d.Decimal) signed bits.width bits.value) }
{
    let text = decimal_text(alloc, bits, signed)?;
    if !least {
        let width = decimal_width(alloc, bits.width, signed)?;
        push_spaces(width.saturating_sub(text.len()), printed)?;
    }
    printed.extend_from_slice(&text)?;
    Ok(())
}

/// Adds the lowest digits of a number in a base, the highest first.
#[tactic(auto, using(crate::proofs::Places::digits))]
fn push_places(base: u128, count: u32, value: u128, digits: &mut Vec<u8>) -> Result<(), AllocError>
    requires low { 0 < base }
    requires high { base ≤ 256 }
    ensures digits { OnOk result (digits.new.items ≡ digits.old.items ++ d.places base count value) }
{
    if count == 0 {
        return Ok(());
    }
    push_places(base, count - 1, value / base, digits)?;
    digits.push((value % base) as u8)?;
    Ok(())
}

/// The digits of so many bits each of a value.
#[tactic(auto, using(crate::proofs::Places::digits))]
fn digits_by(alloc: Global, size: u32, bits: Bits) -> Result<Vec<u8>, AllocError>
    requires low { 1 ≤ size }
    requires high { size ≤ 8 }
    ensures digits { IfOk result (λ v. v.items ≡ d.digits_by size bits.width bits.value) }
{
    let mut digits = Vec::new(alloc);
    let count = (u32::from(bits.width) + (size - 1)) / size;
    push_places(1 << size, count, bits.value, &mut digits)?;
    Ok(digits)
}

/// Digits without leading zeros; the last digit stays.
#[tactic(auto, using(crate::proofs::Places::leading))]
fn least_digits(digits: &[u8]) -> &[u8]
    ensures { result.now ≡ d.least digits.now }
{
    match digits {
        [] | [_] => digits,
        [first, rest @ ..] => {
            if *first == 0 {
                least_digits(rest)
            } else {
                digits
            }
        }
    }
}

/// Bytes without leading zeros.
#[tactic(auto, using(crate::proofs::Places::leading))]
fn without_zeros(bytes: &[u8]) -> &[u8]
    ensures { result.now ≡ d.without_zeros bytes.now }
{
    match bytes {
        [] => bytes,
        [first, rest @ ..] => {
            if *first == 0 {
                without_zeros(rest)
            } else {
                bytes
            }
        }
    }
}

/// A digit as text, in lower case.
fn glyph(digit: u8) -> u8
    requires { digit < 16 }
    ensures { result ≡ digit_glyph false digit }
{
    if digit < 10 {
        b'0' + digit
    } else {
        b'a' + (digit - 10)
    }
}

/// Adds digits as text.
fn push_glyphs(digits: &[u8], printed: &mut Vec<u8>) -> Result<(), AllocError>
    requires { All (λ g. g < 16) digits.now }
    ensures { OnOk result (printed.new.items ≡ printed.old.items ++ d.glyphs digits.now) }
{
    for digit in digits {
        printed.push(glyph(*digit))?;
    }
    Ok(())
}

/// Adds a value in digits of so many bits each, in as few as serve or in as many as its width has.
#[tactic(auto, using(crate::proofs::Places::small))]
fn push_digits(
    alloc: Global,
    size: u32,
    least: bool,
    bits: Bits,
    printed: &mut Vec<u8>,
) -> Result<(), AllocError>
    requires low { 1 ≤ size }
    requires high { size ≤ 4 }
    ensures { OnOk result (printed.new.items ≡ printed.old.items
        ++ d.glyphs (if least then d.least (d.digits_by size bits.width bits.value) else d.digits_by size bits.width bits.value)) }
{
    let digits = digits_by(alloc, size, bits)?;
    if least {
        push_glyphs(least_digits(&digits), printed)
    } else {
        push_glyphs(&digits, printed)
    }
}

/// Adds the bytes of a value from the top, without leading zero bytes.
fn push_characters(alloc: Global, bits: Bits, printed: &mut Vec<u8>) -> Result<(), AllocError>
    ensures { OnOk result (printed.new.items ≡ printed.old.items ++ d.without_zeros (d.digits_by 8 bits.width bits.value)) }
{
    let bytes = digits_by(alloc, 8, bits)?;
    printed.extend_from_slice(without_zeros(&bytes))?;
    Ok(())
}

/// An item has this letter, with a 0 before it or without.
pub fn is_item(letter: u8, least: bool) -> bool
    ensures { result ≡ is_some (d.format_of letter least) }
{
    match letter.to_ascii_lowercase() {
        b'd' | b'h' | b'x' | b'o' | b'b' | b's' => true,
        b'c' => !least,
        _ => false,
    }
}

/// Adds what an item of this letter, with a 0 before it or without, shows of a value.
pub fn push_item(
    alloc: Global,
    letter: u8,
    least: bool,
    bits: Bits,
    signed: bool,
    printed: &mut Vec<u8>,
) -> Result<(), AllocError>
    ensures { OnOk result (printed.new.items ≡ printed.old.items ++ d.letter_text letter least signed bits.width bits.value) }
{
    match letter.to_ascii_lowercase() {
        b'd' => push_decimal(alloc, least, bits, signed, printed),
        b'h' | b'x' => push_digits(alloc, 4, least, bits, printed),
        b'o' => push_digits(alloc, 3, least, bits, printed),
        b'b' => push_digits(alloc, 1, least, bits, printed),
        b's' => push_characters(alloc, bits, printed),
        b'c' if !least => {
            printed.push((bits.value % 256) as u8)?;
            Ok(())
        }
        _ => Ok(()),
    }
}
