//! The width and the sign of an expression read for itself (IEEE 1364-2005, clauses 5.4 and 5.5).
//!
//! A width is kept within 129 bits, since one past 128 is refused however many it has.

ghost use Rattle.std.specs.Prelude.{◌≡◌, ◌≤◌, ◌*◌, min, map, option_map};
ghost use Rattle.vl_design.specs.Width as w;
ghost use Rattle.vl_design.specs.Rows.{range_width};
ghost use Rattle.elab_plain.specs.vl_flat.specs.Surface as x;
ghost use Rattle.elab_plain.specs.vl_flat.specs.Scopes as scopes;
ghost use Rattle.elab_plain.specs.vl_flat.specs.Expressions as flat;
ghost use Rattle.elab_plain.specs.Seen.{seen, selects_before, args_before};
ghost use Rattle.elab_plain.specs.Listed.{of_list};
ghost use Rattle.elab_constant.specs.Seen.{seen_scope, binding_of};
ghost use Rattle.elab_constant.specs.Kept.{kept, selects_form};

use crate::constant::text_bits;
use crate::forms::{mark, operated};
use crate::ranges::{Range, bits_in};
use crate::scope::{Known, Scope, found_in, meaning};
use crate::whole::{bound, count};
use elab_plain::surface::{Argument, Ex, Select};
use vl_base::bits::UnOp;
use vl_base::text::is_word;
use vl_design::design::{Form, SigKind};
use vl_eval::form_form::{binary_form, joined, unary_form, unsigned};
use vl_tree::tree::SelectMark;

/// Of these calls a string is an argument as it is.
pub fn keeps_texts(name: &[u8]) -> bool
    ensures { result ≡ flat.keeps_texts name.now }
{
    is_word(name, b"$display".as_slice())
        || is_word(name, b"$write".as_slice())
        || is_word(name, b"$fopen".as_slice())
        || is_word(name, b"$save".as_slice())
        || is_word(name, b"$readmemh".as_slice())
}

/// A number of bits, kept within 129.
fn kept_range(range: Range) -> u32
    ensures { result ≡ min 129 (range_width range.left range.right) }
{
    bits_in(range).min(129) as u32
}

/// How many bits a select with a mark takes, kept within 129.
pub fn taken(scope: &Scope<'_, '_>, mark: SelectMark, left: &Ex, right: &Ex) -> u32
    ensures same { result ≡ flat.taken (seen_scope scope.now) mark (seen left.now) (seen right.now) }
    ensures narrow { result ≤ 129 }
{
    match mark {
        SelectMark::Range => kept_range(Range {
            left: bound(scope, left),
            right: bound(scope, right),
        }),
        SelectMark::Up | SelectMark::Down => u32::from(count(scope, right)),
    }
}

/// The form of what a name stands for.
fn known_form(known: Option<Known>) -> Form
    ensures { result ≡ kept (scopes.form_of (option_map binding_of known)) }
{
    match known {
        None => unsigned(1),
        Some(Known::Constant(v)) => Form {
            width: u32::from(v.bits.width),
            signed: v.signed,
        },
        Some(Known::Signal(_, s)) => Form {
            width: kept_range(Range {
                left: s.left,
                right: s.right,
            }),
            signed: s.signed,
        },
        Some(Known::Function(_, f)) => Form {
            width: f.width.min(129),
            signed: f.signed,
        },
    }
}

/// The name is a memory's.
pub fn is_memory(known: Option<Known>) -> bool
    ensures { result ≡ flat.is_memory (option_map binding_of known) }
{
    match known {
        Some(Known::Signal(_, s)) => match s.kind {
            SigKind::Mem => true,
            _ => false,
        },
        _ => false,
    }
}

/// The form of what is left behind selects on a value of a form.
#[tactic(auto, using(crate::proofs::Kept::keeps))]
fn selects_form(scope: &Scope<'_, '_>, form: Form, selects: &[Select]) -> Form
    ensures { result ≡ kept (selects_form (seen_scope scope.now) form (selects_before selects.now x.NoSelects)) }
{
    match selects {
        [] => Form {
            width: form.width.min(129),
            signed: form.signed,
        },
        [first, rest @ ..] => match first {
            Select::Index(_, _) => selects_form(scope, unsigned(1), rest),
            Select::Range(_, mark, left, right) => {
                selects_form(scope, unsigned(taken(scope, *mark, left, right)), rest)
            }
        },
    }
}

/// The form of a name with its selects.
#[tactic(auto, using(crate::proofs::Kept::keeps))]
pub fn named_form(scope: &Scope<'_, '_>, known: Option<Known>, selects: &[Select]) -> Form
    ensures { result ≡ kept (flat.named_form (seen_scope scope.now) (option_map binding_of known) (selects_before selects.now x.NoSelects)) }
{
    match selects {
        [] => known_form(known),
        [first, rest @ ..] => match first {
            Select::Index(_, _) => {
                if is_memory(known) {
                    selects_form(scope, known_form(known), rest)
                } else {
                    selects_form(scope, unsigned(1), rest)
                }
            }
            Select::Range(_, mark, left, right) => {
                selects_form(scope, unsigned(taken(scope, *mark, left, right)), rest)
            }
        },
    }
}

/// The form of a system function's value, by that of its first argument.
#[tactic(auto, using(crate::proofs::Kept::keeps))]
fn system_form(name: &[u8], first: Form) -> Form
    ensures { result ≡ flat.system_form (scopes.plainly scopes.none) name.now first }
{
    if is_word(name, b"$signed".as_slice()) {
        return Form {
            width: first.width,
            signed: true,
        };
    }
    if is_word(name, b"$unsigned".as_slice()) {
        return Form {
            width: first.width,
            signed: false,
        };
    }
    if is_word(name, b"$time".as_slice()) {
        return unsigned(64);
    }
    Form {
        width: 32,
        signed: true,
    }
}

/// The form of a string as an operand.
fn text_form(text: &[u8]) -> Form
    ensures { result ≡ kept (flat.text_form text.now) }
{
    unsigned(u32::from(text_bits(text).width))
}

/// The form of an operand behind a mark.
fn marked_form(op: Option<UnOp>, f: Form) -> Form
    ensures { result ≡ flat.marked_form op f }
{
    match op {
        None => f,
        Some(op) => unary_form(op, f),
    }
}

/// The form of what a name in a call stands for.
fn called_form(scope: &Scope<'_, '_>, name: &[u8]) -> Form
    ensures { result ≡ kept (scopes.form_of ((seen_scope scope.now).calls name.now)) }
{
    known_form(found_in(scope.module, name))
}

/// The form of an expression read for itself.
#[cycle(form)]
#[tactic(auto, using(crate::proofs::Kept::keeps))]
pub fn form(scope: &Scope<'_, '_>, e: &Ex) -> Form
    ensures { result ≡ kept (flat.form (seen_scope scope.now) (seen e.now)) }
{
    match e {
        Ex::Number(_, n) => Form {
            width: u32::from(n.bits.width),
            signed: n.signed,
        },
        Ex::Text(_, text) => text_form(text.as_slice()),
        Ex::Named(_, name, selects) => {
            named_form(scope, meaning(scope, name.as_slice()), selects.as_slice())
        }
        Ex::Paren(_, a) => form(scope, a),
        Ex::Unary(_, operator, a) => marked_form(mark(*operator), form(scope, a)),
        Ex::Binary(_, operator, a, b) => {
            let f = form(scope, a);
            let g = form(scope, b);
            binary_form(operated(*operator), f, g)
        }
        Ex::Choice(_, _, a, b) => {
            let f = form(scope, a);
            let g = form(scope, b);
            joined(f, g)
        }
        Ex::Joined(_, parts) => unsigned(total_width(scope, parts.as_slice())),
        Ex::Repeated(_, n, parts) => {
            let once = total_width(scope, parts.as_slice());
            unsigned(times(count(scope, n), once))
        }
        Ex::Called(_, name, _) => called_form(scope, name.as_slice()),
        Ex::System(_, name, given) => {
            system_form(name.as_slice(), first_form(scope, given.as_slice()))
        }
    }
}

/// A number of bits so many times, kept within 129.
fn times(n: u8, width: u32) -> u32
    requires { width ≤ 129 }
    ensures { result ≡ min 129 (n * width) }
{
    (u32::from(n) * width).min(129)
}

/// The widths of expressions together, kept within 129.
#[cycle(form)]
#[tactic(auto, using(crate::proofs::Kept::keeps))]
fn total_width(scope: &Scope<'_, '_>, es: &[Ex]) -> u32
    ensures same { result ≡ min 129 (flat.total_width (seen_scope scope.now) (of_list (map seen es.now))) }
    ensures narrow { result ≤ 129 }
{
    let mut total = 0;
    for e in es {
        total = (total + form(scope, e).width).min(129);
    }
    total
}

/// The form of the first argument of a system call; one unsigned bit where there is none.
#[cycle(form)]
#[tactic(auto, using(crate::proofs::Kept::keeps))]
fn first_form(scope: &Scope<'_, '_>, given: &[Argument]) -> Form
    ensures { result ≡ kept (flat.first_form (seen_scope scope.now) (args_before given.now x.NoArgs)) }
{
    match given {
        [Argument::Value(e), ..] => form(scope, e),
        _ => unsigned(1),
    }
}
