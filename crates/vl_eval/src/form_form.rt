//! Widths and signs: of values, and of the contexts in which operands are read (IEEE 1364-2005, clauses 5.4 and 5.5).

ghost use Rattle.std.specs.Prelude.{◌≡◌, ◌≤◌, ◌<◌, IsTrue};
ghost use Rattle.vl_base.specs.Value.{needs_one_width, binary_width, unary_width};
ghost use Rattle.vl_design.specs.Sound.{IsWidth};
ghost use Rattle.vl_design.specs.Width as w;

use vl_base::bits::{BinOp, UnOp};
use vl_design::design::Form;

/// So many bits, unsigned.
pub fn unsigned(width: u32) -> Form
    ensures { result ≡ w.unsigned width }
{
    Form {
        width,
        signed: false,
    }
}

/// The longer of two widths, signed where both are.
pub fn joined(a: Form, b: Form) -> Form
    ensures value { result ≡ w.joined a b }
    ensures small { a.width < 256 → b.width < 256 → result.width < 256 }
{
    Form {
        width: a.width.max(b.width),
        signed: a.signed && b.signed,
    }
}

/// The context of the right side of an assignment to so many bits.
pub fn assigned(width: u32, own: Form) -> Form
    ensures { result ≡ w.assigned width own }
{
    Form {
        width: width.max(own.width),
        signed: own.signed,
    }
}

/// The form of a unary operator's value.
pub fn unary_form(op: UnOp, a: Form) -> Form
    ensures value { result ≡ w.unary_form op a }
    ensures width { IsWidth a.width → IsWidth result.width }
    ensures small { a.width < 256 → result.width < 256 }
{
    match op {
        UnOp::Neg | UnOp::Not => a,
        _ => unsigned(1),
    }
}

/// The form of a binary operator's value.
pub fn binary_form(op: BinOp, a: Form, b: Form) -> Form
    ensures value { result ≡ w.binary_form op a b }
    ensures width { IsWidth a.width → IsWidth b.width → IsWidth result.width }
    ensures small { a.width < 256 → b.width < 256 → result.width < 256 }
{
    match op {
        BinOp::Add | BinOp::Sub | BinOp::Mul | BinOp::Div | BinOp::Rem => joined(a, b),
        BinOp::And | BinOp::Or | BinOp::Xor | BinOp::Xnor => joined(a, b),
        BinOp::Shl | BinOp::Shr | BinOp::Sshr => a,
        _ => unsigned(1),
    }
}

/// The context of a unary operator's operand.
pub fn operand_form(op: UnOp, a: Form, c: Form) -> Form
    ensures value { result ≡ w.operand_form op a c }
    ensures wide { (w.unary_form op a).width ≤ c.width → a.width ≤ result.width }
    ensures narrow { a.width ≤ 128 → c.width ≤ 128 → result.width ≤ 128 }
    ensures within { 1 ≤ c.width → unary_width op result.width ≤ c.width }
{
    match op {
        UnOp::Neg | UnOp::Not => c,
        _ => a,
    }
}

/// The context of a binary operator's left operand.
pub fn left_form(op: BinOp, a: Form, b: Form, c: Form) -> Form
    ensures value { result ≡ w.left_form op a b c }
    ensures wide { (w.binary_form op a b).width ≤ c.width → a.width ≤ result.width }
    ensures narrow { a.width ≤ 128 → b.width ≤ 128 → c.width ≤ 128 → result.width ≤ 128 }
    ensures within { 1 ≤ c.width → binary_width op result.width ≤ c.width }
{
    match op {
        BinOp::Add | BinOp::Sub | BinOp::Mul | BinOp::Div | BinOp::Rem => c,
        BinOp::And | BinOp::Or | BinOp::Xor | BinOp::Xnor => c,
        BinOp::Shl | BinOp::Shr | BinOp::Sshr => c,
        BinOp::LogAnd | BinOp::LogOr => a,
        _ => joined(a, b),
    }
}

/// The context of its right operand.
pub fn right_form(op: BinOp, a: Form, b: Form, c: Form) -> Form
    ensures value { result ≡ w.right_form op a b c }
    ensures wide { (w.binary_form op a b).width ≤ c.width → b.width ≤ result.width }
    ensures narrow { a.width ≤ 128 → b.width ≤ 128 → c.width ≤ 128 → result.width ≤ 128 }
    ensures same { IsTrue (needs_one_width op) → (w.left_form op a b c).width ≡ result.width }
{
    match op {
        BinOp::Shl | BinOp::Shr | BinOp::Sshr | BinOp::LogAnd | BinOp::LogOr => b,
        BinOp::Add | BinOp::Sub | BinOp::Mul | BinOp::Div | BinOp::Rem => c,
        BinOp::And | BinOp::Or | BinOp::Xor | BinOp::Xnor => c,
        _ => joined(a, b),
    }
}
