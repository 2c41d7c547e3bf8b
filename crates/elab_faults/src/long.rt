//! Strings that are too long as operands.

ghost use Rattle.std.specs.Prelude.{◌≡◌, ◌||◌, map, [], ◌∷◌, true};
ghost use Rattle.elab_plain.specs.vl_flat.specs.Surface as x;
ghost use Rattle.elab_plain.specs.vl_flat.specs.ExpressionFaults as f;
ghost use Rattle.elab_plain.specs.Seen.{seen, selects_before, args_before};
ghost use Rattle.elab_plain.specs.Listed.{of_list};

use elab_plain::surface::{Argument, Ex, Select};

/// One of two tests holds.
fn either(a: bool, b: bool) -> bool
    ensures { result ≡ (a || b) }
{
    a || b
}

/// A string operand of more than 16 bytes stands in the expression.
#[cycle(long)]
#[tactic(auto, using(crate::proofs::LongTexts::longs))]
pub fn holds_long(e: &Ex) -> bool
    ensures { result ≡ f.holds_long (seen e.now) }
{
    match e {
        Ex::Number(_, _) => false,
        Ex::Text(_, text) => text.as_slice().len() > 16,
        Ex::Named(_, _, selects) => selects_hold_long(selects.as_slice()),
        Ex::Paren(_, a) | Ex::Unary(_, _, a) => holds_long(a),
        Ex::Binary(_, _, a, b) => holds_long(a) || holds_long(b),
        Ex::Choice(_, t, a, b) => holds_long(t) || holds_long(a) || holds_long(b),
        Ex::Joined(_, parts) => some_hold_long(parts.as_slice()),
        Ex::Repeated(_, n, parts) => holds_long(n) || some_hold_long(parts.as_slice()),
        Ex::Called(_, _, given) => some_hold_long(given.as_slice()),
        Ex::System(_, _, given) => args_hold_long(given.as_slice()),
    }
}

/// One of these expressions holds one.
#[cycle(long)]
#[tactic(auto, using(crate::proofs::LongTexts::longs))]
fn some_hold_long(es: &[Ex]) -> bool
    ensures { result ≡ f.some_hold_long (of_list (map seen es.now)) }
{
    let mut all = false;
    for e in es {
        let found = holds_long(e);
        let next = either(all, found);
        all = next;
    }
    all
}

/// A select holds one.
#[cycle(long)]
#[tactic(auto, using(crate::proofs::LongTexts::longs))]
fn select_holds_long(one: &Select) -> bool
    ensures { result ≡ f.selects_hold_long (selects_before (one.now ∷ []) x.NoSelects) }
{
    match one {
        Select::Index(_, i) => holds_long(i),
        Select::Range(_, _, left, right) => holds_long(left) || holds_long(right),
    }
}

/// One of these selects holds one.
#[cycle(long)]
#[tactic(auto, using(crate::proofs::LongTexts::longs))]
fn selects_hold_long(selects: &[Select]) -> bool
    ensures { result ≡ f.selects_hold_long (selects_before selects.now x.NoSelects) }
{
    let mut all = false;
    for one in selects {
        let found = select_holds_long(one);
        let next = either(all, found);
        all = next;
    }
    all
}

/// An argument holds one.
#[cycle(long)]
#[tactic(auto, using(crate::proofs::LongTexts::longs))]
fn argument_holds_long(a: &Argument) -> bool
    ensures { result ≡ f.args_hold_long (args_before (a.now ∷ []) x.NoArgs) }
{
    match a {
        Argument::Null => false,
        Argument::Value(e) => holds_long(e),
    }
}

/// One of these arguments holds one.
#[cycle(long)]
#[tactic(auto, using(crate::proofs::LongTexts::longs))]
fn args_hold_long(given: &[Argument]) -> bool
    ensures { result ≡ f.args_hold_long (args_before given.now x.NoArgs) }
{
    let mut all = false;
    for a in given {
        let found = argument_holds_long(a);
        let next = either(all, found);
        all = next;
    }
    all
}
