//! Where a text ends.

ghost use Rattle.std.specs.Prelude.{◌≡◌, ◌+◌, ◌<◌, ◌≤◌, ◌^◌, length};
ghost use Rattle.vl_lex.specs.vl_tree.specs.Faults.{most_bytes};
ghost use Rattle.vl_lex.specs.vl_tree.specs.Tokens.{next_place as next_place_lem};
ghost use Rattle.vl_front.specs.Sources.{end_of as end_of_lem};

use vl_elab::Place;

/// The place after one more byte; a newline ends a line.
fn next_place(place: Place, byte: u8) -> Place
    requires line { place.line + 1 < 2 ^ 32 }
    requires column { place.column + 1 < 2 ^ 32 }
    ensures { result ≡ next_place_lem place byte }
{
    if byte == b'\n' {
        Place {
            line: place.line + 1,
            column: 1,
        }
    } else {
        Place {
            line: place.line,
            column: place.column + 1,
        }
    }
}

/// The place after the last byte of a text: line and column from 1, the column in bytes.
pub fn end_of(text: &[u8]) -> Place
    requires { length text.now ≤ most_bytes }
    ensures { result ≡ end_of_lem text.now }
{
    let mut place = Place { line: 1, column: 1 };
    for byte in text {
        place = next_place(place, *byte);
    }
    place
}
