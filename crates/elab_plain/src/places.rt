//! Places of plain trees.

ghost use Rattle.std.specs.Prelude.{◌≡◌};
ghost use Rattle.elab_plain.specs.Seen.{seen};
ghost use Rattle.vl_flat.specs.Surface as x;

use crate::surface::Ex;
use vl_tree::Place;

/// The place of an expression's first token.
pub fn place_of(e: &Ex) -> Place
    ensures { result ≡ x.place_of (seen e.now) }
{
    match e {
        Ex::Number(at, _)
        | Ex::Text(at, _)
        | Ex::Named(at, _, _)
        | Ex::Paren(at, _)
        | Ex::Unary(at, _, _)
        | Ex::Binary(at, _, _, _)
        | Ex::Choice(at, _, _, _)
        | Ex::Joined(at, _)
        | Ex::Repeated(at, _, _)
        | Ex::Called(at, _, _)
        | Ex::System(at, _, _) => *at,
    }
}
