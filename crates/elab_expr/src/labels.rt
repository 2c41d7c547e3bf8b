//! Labels of cases in the design (IEEE 1364-2005, clause 9.5).

ghost use Rattle.std.specs.Prelude.{◌≡◌, map, IfOk, true};
ghost use Rattle.elab_plain.specs.vl_flat.specs.Expressions as flat;
ghost use Rattle.vl_design.specs.Seen.{exp_of};
ghost use Rattle.elab_plain.specs.Seen.{seen, number_of};
ghost use Rattle.elab_constant.specs.Seen.{seen_scope};
ghost use Rattle.elab_expr.specs.Walked as n;

use crate::expressions::exp;
use elab_constant::scope::Scope;
use elab_plain::surface::{Ex, Numeral};
use std::alloc::{AllocError, Global};
use vl_base::number::Number;
use vl_design::design::{Expr, ExprNode};

/// A number with its digits that count.
fn digits(n: Numeral) -> Number
    ensures { result ≡ number_of n }
{
    Number {
        value: n.bits.value,
        care: n.care,
        width: n.bits.width,
        sized: n.sized,
        signed: n.signed,
    }
}

/// A label of a `casez`: a number is compared in the bits of its digits, parentheses passed over.
fn wild_label(alloc: Global, scope: &Scope<'_, '_>, e: &Ex) -> Result<Expr, AllocError>
    ensures { IfOk result (λ a. exp_of a ≡ flat.label (seen_scope scope.now) true (seen e.now)) }
{
    match e {
        Ex::Number(at, n) => Ok(Expr {
            place: *at,
            node: ExprNode::Label(digits(*n)),
        }),
        Ex::Paren(_, a) => wild_label(alloc, scope, a),
        _ => exp(alloc, scope, e),
    }
}

/// A label of a case, or of a `casez` where `wild`.
fn label(alloc: Global, scope: &Scope<'_, '_>, wild: bool, e: &Ex) -> Result<Expr, AllocError>
    ensures { IfOk result (λ a. exp_of a ≡ flat.label (seen_scope scope.now) wild (seen e.now)) }
{
    if wild {
        wild_label(alloc, scope, e)
    } else {
        exp(alloc, scope, e)
    }
}

/// Labels one by one.
pub fn labels(
    alloc: Global,
    scope: &Scope<'_, '_>,
    wild: bool,
    es: &[Ex],
) -> Result<Vec<Expr>, AllocError>
    ensures { IfOk result (λ v. map exp_of v.items ≡ map (n.seen_label (seen_scope scope.now) wild) es.now) }
{
    let mut all = Vec::new(alloc);
    for e in es {
        all.push(label(alloc, scope, wild, e)?)?;
    }
    Ok(all)
}
