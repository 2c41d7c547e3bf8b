//! The operations of operators (IEEE 1364-2005, table 5-1).

ghost use Rattle.std.specs.Prelude.{◌≡◌};
ghost use Rattle.elab_plain.specs.vl_flat.specs.Expressions.{unary_of, operation};

use vl_base::bits::{BinOp, UnOp};
use vl_tree::tree::{BinaryOperator, UnaryOperator};

/// The operator of a mark; `+` has none.
pub fn mark(operator: UnaryOperator) -> Option<UnOp>
    ensures { result ≡ unary_of operator }
{
    match operator {
        UnaryOperator::Plus => None,
        UnaryOperator::Minus => Some(UnOp::Neg),
        UnaryOperator::LogicalNot => Some(UnOp::LogNot),
        UnaryOperator::Not => Some(UnOp::Not),
        UnaryOperator::And => Some(UnOp::RedAnd),
        UnaryOperator::Nand => Some(UnOp::RedNand),
        UnaryOperator::Or => Some(UnOp::RedOr),
        UnaryOperator::Nor => Some(UnOp::RedNor),
        UnaryOperator::Xor => Some(UnOp::RedXor),
        UnaryOperator::Xnor => Some(UnOp::RedXnor),
    }
}

/// The operation of an operator on two operands.
pub fn operated(operator: BinaryOperator) -> BinOp
    ensures { result ≡ operation operator }
{
    match operator {
        BinaryOperator::Multiply => BinOp::Mul,
        BinaryOperator::Divide => BinOp::Div,
        BinaryOperator::Modulus => BinOp::Rem,
        BinaryOperator::Add => BinOp::Add,
        BinaryOperator::Subtract => BinOp::Sub,
        BinaryOperator::ShiftLeft | BinaryOperator::ArithmeticShiftLeft => BinOp::Shl,
        BinaryOperator::ShiftRight => BinOp::Shr,
        BinaryOperator::ArithmeticShiftRight => BinOp::Sshr,
        BinaryOperator::Less => BinOp::Lt,
        BinaryOperator::LessOrEqual => BinOp::Le,
        BinaryOperator::Greater => BinOp::Gt,
        BinaryOperator::GreaterOrEqual => BinOp::Ge,
        BinaryOperator::Equal | BinaryOperator::CaseEqual => BinOp::Eq,
        BinaryOperator::NotEqual | BinaryOperator::CaseNotEqual => BinOp::Ne,
        BinaryOperator::And => BinOp::And,
        BinaryOperator::Xor => BinOp::Xor,
        BinaryOperator::Xnor => BinOp::Xnor,
        BinaryOperator::Or => BinOp::Or,
        BinaryOperator::LogicalAnd => BinOp::LogAnd,
        BinaryOperator::LogicalOr => BinOp::LogOr,
    }
}
