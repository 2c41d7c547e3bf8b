//! Rows of what items print of a value: their letters, and a width and a value in hexadecimal.

ghost use Rattle.std.specs.Prelude.{All, IfOk, IsSome, OnOk};
ghost use Rattle.vl_base.specs.Display.{format_of};
ghost use Rattle.fmt_text.specs.Pieces.{IsPiece};

use fmt_text::item::is_item;
use fmt_text::piece::Piece;
use fmt_text::text::text;
use std::alloc::{AllocError, Global};
use std::str::SplitWhitespace;
use vl_base::bits::Bits;
use vl_base::items::Items;

/// The next number of a row, or 0.
fn number(words: &mut SplitWhitespace) -> u128 {
    let Some(word) = words.next() else {
        return 0;
    };
    u128::from_str_radix(word, 16).unwrap_or(0)
}

/// The next width and value of a row. None where they are none.
fn bits(words: &mut SplitWhitespace) -> Option<Bits> {
    let width = u8::try_from(number(words)).unwrap_or(0);
    Bits::new(number(words), width)
}

/// Adds a text.
fn add_text(alloc: Global, bytes: &[u8], pieces: &mut Vec<Piece>) -> Result<(), AllocError>
    requires { All IsPiece pieces.old.items }
    ensures { OnOk result (All IsPiece pieces.new.items) }
{
    let bytes = Vec::from_slice(alloc, bytes)?;
    pieces.push(Piece::Lit(Items::from_vec(bytes)))?;
    Ok(())
}

/// Adds a value whose letter is that of an item.
fn add_value(
    letter: u8,
    least: bool,
    value: Bits,
    signed: bool,
    pieces: &mut Vec<Piece>,
) -> Result<(), AllocError>
    requires item { IsSome (format_of letter least) }
    requires pieces { All IsPiece pieces.old.items }
    ensures { OnOk result (All IsPiece pieces.new.items) }
{
    pieces.push(Piece::Val(letter, least, value, signed))?;
    Ok(())
}

/// Adds an item in brackets; nothing where the letter has none.
fn add_item(
    alloc: Global,
    letter: u8,
    least: bool,
    value: Bits,
    signed: bool,
    pieces: &mut Vec<Piece>,
) -> Result<(), AllocError>
    requires { All IsPiece pieces.old.items }
    ensures { OnOk result (All IsPiece pieces.new.items) }
{
    if !is_item(letter, least) {
        return Ok(());
    }
    add_text(alloc, b"[", pieces)?;
    add_value(letter, least, value, signed, pieces)?;
    add_text(alloc, b"]", pieces)
}

/// Adds the items of a letter: without and with a 0, unsigned and signed.
fn add_items(
    alloc: Global,
    letter: u8,
    value: Bits,
    pieces: &mut Vec<Piece>,
) -> Result<(), AllocError>
    requires { All IsPiece pieces.old.items }
    ensures { OnOk result (All IsPiece pieces.new.items) }
{
    add_item(alloc, letter, false, value, false, pieces)?;
    add_item(alloc, letter, false, value, true, pieces)?;
    add_item(alloc, letter, true, value, false, pieces)?;
    add_item(alloc, letter, true, value, true, pieces)
}

/// The items of letters.
fn items(alloc: Global, letters: &[u8], value: Bits) -> Result<Vec<Piece>, AllocError>
    ensures { IfOk result (λ p. All IsPiece p.items) }
{
    let mut pieces = Vec::new(alloc);
    for letter in letters {
        add_items(alloc, *letter, value, &mut pieces)?;
    }
    Ok(pieces)
}

/// Adds a byte: itself where it is printable, else a backslash and two hexadecimal digits.
fn add_byte(byte: u8, out: &mut String) -> Result<(), AllocError> {
    if byte >= b' ' && byte <= b'~' && byte != b'\\' {
        out.push(char::from(byte))
    } else {
        write!(out, "\\{byte:02x}")
    }
}

/// Adds bytes.
fn add_bytes(bytes: &[u8], out: &mut String) -> Result<(), AllocError> {
    for byte in bytes {
        add_byte(*byte, out)?;
    }
    Ok(())
}

/// What the items of a row print.
fn printed(alloc: Global, words: &mut SplitWhitespace) -> Result<Vec<u8>, AllocError> {
    let letters = words.next().unwrap_or("");
    let mut out = Vec::new(alloc);
    if let Some(value) = bits(words) {
        let pieces = items(alloc, letters.as_bytes(), value)?;
        text(alloc, &pieces, &mut out)?;
    }
    Ok(out)
}

/// The row and what its items print.
pub fn answer(alloc: Global, row: &str) -> Result<String, AllocError> {
    let mut out = String::new(alloc);
    out.push_str(row)?;
    out.push_str(" = ")?;
    let bytes = printed(alloc, &mut row.split_whitespace())?;
    add_bytes(&bytes, &mut out)?;
    Ok(out)
}
