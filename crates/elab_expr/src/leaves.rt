//! Names and strings in the design.

ghost use Rattle.std.specs.Prelude.{◌≡◌, option_map};
ghost use Rattle.elab_plain.specs.vl_flat.specs.Expressions as flat;
ghost use Rattle.vl_design.specs.Seen.{exp_of};
ghost use Rattle.elab_constant.specs.Seen.{binding_of};

use elab_constant::constant::text_bits;
use elab_constant::scope::Known;
use vl_base::bits::Bits;
use vl_base::place::Place;
use vl_design::design::{Expr, ExprNode};

/// What a name stands for, whole; one that stands for no value counts as one zero bit.
pub fn whole(at: Place, known: Option<Known>) -> Expr
    ensures { exp_of result ≡ flat.whole at (option_map binding_of known) }
{
    let node = match known {
        Some(Known::Constant(v)) => ExprNode::Num(v.bits, v.signed),
        Some(Known::Signal(number, _)) => ExprNode::Sig(number),
        _ => ExprNode::Num(Bits { value: 0, width: 1 }, false),
    };
    Expr { place: at, node }
}

/// A string as an operand.
pub fn operand(at: Place, text: &[u8]) -> Expr
    ensures { exp_of result ≡ flat.operand at text.now }
{
    Expr {
        place: at,
        node: ExprNode::Num(text_bits(text), false),
    }
}
