//! Sized expressions.

ghost use Rattle.std.specs.Prelude.{◌≡◌, ◌≤◌, IfOk, IsTrue};
ghost use Rattle.vl_design.specs.Sized.{sized_of};
ghost use Rattle.vl_design.specs.Trees.{exp_of};
ghost use Rattle.vl_design.specs.Width as w;
ghost use Rattle.vl_design.specs.Value.{Sample, value, own_value};
ghost use Rattle.vl_design.specs.Sound.{IsSoundExp};
ghost use Rattle.vl_width.specs.Widths as v;
ghost use Rattle.vl_width.specs.Value.{sized_value};
ghost use Rattle.vl_width.specs.IsSized.{IsSized};
ghost use Rattle.vl_width.specs.Room.{names_of, HaveInputs};

use crate::own::own;
use crate::reading::{form_of, read_at};
use crate::room::Room;
use std::alloc::{AllocError, Global};
use vl_design::design::{Expr, Form};
use vl_design::sized::SizedExpr;

/// An expression read in a context of a width and a sign: the width is from the expression's own to 128, and the sign is signed
/// only where the expression is (IEEE 1364-2005, clauses 5.4 and 5.5). Of a system function only its answer is left. Linear
/// in the expression.
pub fn size(
    alloc: Global,
    room: &Room<'_>,
    e: &Expr,
    width: u8,
    signed: bool,
) -> Result<SizedExpr, AllocError>
    requires inputs { HaveInputs (names_of room.now) }
    requires sound { IsSoundExp (names_of room.now) (exp_of e.now) }
    requires wide { (w.form (names_of room.now) (exp_of e.now)).width ≤ width }
    requires narrow { width ≤ 128 }
    requires signed { IsTrue signed → IsTrue (w.form (names_of room.now) (exp_of e.now)).signed }
    ensures width { IfOk result (λ x. x.width ≡ width) }
    ensures signed { IfOk result (λ x. x.signed ≡ signed) }
    ensures value { IfOk result (λ x. (scope : w.Scope) (s : Sample) → scope.names ≡ names_of room.now →
        sized_value scope s (sized_of x) ≡ value scope s (exp_of e.now) (record { width = width; signed = signed })) }
    ensures sized { IfOk result (λ x. IsSized (names_of room.now) (sized_of x)) }
{
    let mut x = own(alloc, room, e)?;
    let context = Form {
        width: u32::from(width),
        signed,
    };
    read_at(&mut x, context);
    Ok(x)
}

/// An expression read for itself, at its own width and sign (clauses 5.4.1 and 5.5.1).
pub fn size_own(alloc: Global, room: &Room<'_>, e: &Expr) -> Result<SizedExpr, AllocError>
    requires inputs { HaveInputs (names_of room.now) }
    requires sound { IsSoundExp (names_of room.now) (exp_of e.now) }
    ensures form { IfOk result (λ x. v.form_of (sized_of x) ≡ w.form (names_of room.now) (exp_of e.now)) }
    ensures value { IfOk result (λ x. (scope : w.Scope) (s : Sample) → scope.names ≡ names_of room.now →
        sized_value scope s (sized_of x) ≡ own_value scope s (exp_of e.now)) }
    ensures sized { IfOk result (λ x. IsSized (names_of room.now) (sized_of x)) }
{
    let mut x = own(alloc, room, e)?;
    let form = form_of(&x);
    read_at(&mut x, form);
    Ok(x)
}

/// The right side of an assignment to so many bits, from 1 to 128 (clause 5.4.1).
pub fn size_assigned(
    alloc: Global,
    room: &Room<'_>,
    e: &Expr,
    width: u8,
) -> Result<SizedExpr, AllocError>
    requires inputs { HaveInputs (names_of room.now) }
    requires sound { IsSoundExp (names_of room.now) (exp_of e.now) }
    requires narrow { width ≤ 128 }
    ensures form { IfOk result (λ x. v.form_of (sized_of x) ≡ w.assigned width (w.form (names_of room.now) (exp_of e.now))) }
    ensures value { IfOk result (λ x. (scope : w.Scope) (s : Sample) → scope.names ≡ names_of room.now →
        sized_value scope s (sized_of x)
        ≡ value scope s (exp_of e.now) (w.assigned width (w.form (names_of room.now) (exp_of e.now)))) }
    ensures sized { IfOk result (λ x. IsSized (names_of room.now) (sized_of x)) }
{
    let mut x = own(alloc, room, e)?;
    let form = form_of(&x);
    let context = Form {
        width: u32::from(width).max(form.width),
        signed: form.signed,
    };
    read_at(&mut x, context);
    Ok(x)
}
