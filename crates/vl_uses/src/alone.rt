//! What an expression is, apart from parentheses.

ghost use Rattle.std.specs.Prelude.{◌≡◌};
ghost use Rattle.vl_uses.specs.Alone as spec;
ghost use Rattle.vl_uses.specs.Walks.{pointed};

use vl_tree::tree::{Expression, Identifier, Primary, Unary, UnaryOperator};

/// The operand of an expression that has no binary operator and no `?`.
fn operand_of(expression: &Expression) -> Option<&Unary>
    ensures { pointed result ≡ spec.operand_of expression.now }
{
    let binary = expression.binary.get();
    if expression.choice.is_some() || !binary.links.as_slice().is_empty() {
        return None;
    }
    Some(&binary.first)
}

/// The primary that an expression is, where it is nothing else.
pub fn sole(expression: &Expression) -> Option<&Primary>
    ensures { pointed result ≡ spec.sole expression.now }
{
    let unary = operand_of(expression)?;
    if !unary.operators.as_slice().is_empty() {
        return None;
    }
    Some(unary.primary.get())
}

/// An expression without the parentheses that stand round the whole.
fn stripped(expression: &Expression) -> &Expression
    ensures { result.now ≡ spec.stripped expression.now }
{
    let Some(primary) = sole(expression) else {
        return expression;
    };
    match primary {
        Primary::Parenthesized(_, inner) => stripped(inner.get()),
        _ => expression,
    }
}

/// The primary that an expression is, apart from parentheses.
pub fn apart(expression: &Expression) -> Option<&Primary>
    ensures { pointed result ≡ spec.apart expression.now }
{
    sole(stripped(expression))
}

/// What a primary is, apart from parentheses.
fn primary_apart(primary: &Primary) -> Option<&Primary>
    ensures { pointed result ≡ spec.primary_apart primary.now }
{
    match primary {
        Primary::Parenthesized(_, inner) => apart(inner.get()),
        other => Some(other),
    }
}

/// The primary of which an expression is the `!`, both apart from parentheses.
pub fn negated(expression: &Expression) -> Option<&Primary>
    ensures { pointed result ≡ spec.negated expression.now }
{
    let unary = operand_of(stripped(expression))?;
    let [mark] = unary.operators.as_slice() else {
        return None;
    };
    if mark.operator != UnaryOperator::LogicalNot {
        return None;
    }
    primary_apart(unary.primary.get())
}

/// The name that an expression is, if it is one without selects.
pub fn bare(expression: &Expression) -> Option<&Identifier>
    ensures { pointed result ≡ spec.bare expression.now }
{
    match sole(expression)? {
        Primary::Name(name) if name.selects.as_slice().is_empty() => Some(&name.identifier),
        _ => None,
    }
}
