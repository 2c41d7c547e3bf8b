//! The text of a display (IEEE 1364-2005, clause 17.1.1).

ghost use Rattle.std.specs.Prelude.{◌≡◌, ◌++◌, All, OnOk, OnErr, flat_map};
ghost use Rattle.fmt_text.specs.Pieces.{IsPiece, piece_text};

use crate::item::push_item;
use crate::piece::Piece;
use std::alloc::{AllocError, Global};

/// Adds the text of a piece.
fn push_piece(alloc: Global, piece: &Piece, printed: &mut Vec<u8>) -> Result<(), AllocError>
    ensures { OnOk result (printed.new.items ≡ printed.old.items ++ piece_text piece.now) }
{
    match piece {
        Piece::Lit(bytes) => printed.extend_from_slice(bytes.as_slice()),
        Piece::Val(letter, least, value, signed) => {
            push_item(alloc, *letter, *least, *value, *signed, printed)
        }
    }
}

/// Adds the texts of pieces, in their order.
fn push_pieces(alloc: Global, pieces: &[Piece], printed: &mut Vec<u8>) -> Result<(), AllocError>
    ensures { OnOk result (printed.new.items ≡ printed.old.items ++ flat_map piece_text pieces.now) }
{
    for piece in pieces {
        push_piece(alloc, piece, printed)?;
    }
    Ok(())
}

/// Adds what pieces print, in their order. Each letter is that of an item. Want of memory leaves the bytes as they were.
pub fn text(alloc: Global, pieces: &[Piece], out: &mut Vec<u8>) -> Result<(), AllocError>
    requires { All IsPiece pieces.now }
    ensures ok { OnOk result (out.new.items ≡ out.old.items ++ flat_map piece_text pieces.now) }
    ensures err { OnErr result (out.new.items ≡ out.old.items) }
{
    let mut printed = Vec::new(alloc);
    push_pieces(alloc, pieces, &mut printed)?;
    out.extend_from_slice(&printed)
}
