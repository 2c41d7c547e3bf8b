//! The faults of system tasks: a string that an item of a format takes is an operand (IEEE 1364-2005, clause 17.1.1).

ghost use Rattle.std.specs.Prelude.{◌≡◌, ◌-◌};
ghost use Rattle.elab_plain.specs.vl_flat.specs.ExpressionFaults as f;
ghost use Rattle.vl_design.specs.Stops as s;
ghost use Rattle.elab_plain.specs.vl_flat.specs.Surface as x;
ghost use Rattle.elab_plain.specs.Seen.{seen, argument, args_before};
ghost use Rattle.elab_constant.specs.Seen.{seen_scope};
ghost use Rattle.elab_faults.specs.Walked.{is_display, taken_by};

use crate::checks::is_text;
use crate::faults::{args_faults, faults};
use elab_constant::form::keeps_texts;
use elab_constant::scope::Scope;
use elab_plain::surface::{Argument, Ex};
use vl_base::text::is_word;
use vl_design::formats::items_in;
use vl_design::stop::Stop;

/// The task displays its arguments.
fn is_display(name: &[u8]) -> bool
    ensures { result ≡ is_display name.now }
{
    is_word(name, b"$display".as_slice()) || is_word(name, b"$write".as_slice())
}

/// The first fault so far, and how many of the next arguments are taken by items.
#[derive(Clone, Copy)]
struct Showing {
    /// The first fault so far.
    best: Option<Stop>,
    /// How many arguments are taken.
    taken: usize,
}

/// How many arguments the items of a format take; what is no string is none.
fn taken_by(e: &Ex) -> usize
    ensures { result ≡ taken_by (seen e.now) }
{
    match e {
        Ex::Text(_, text) => items_in(text.as_slice()),
        Ex::Number(_, _)
        | Ex::Named(_, _, _)
        | Ex::Paren(_, _)
        | Ex::Unary(_, _, _)
        | Ex::Binary(_, _, _, _)
        | Ex::Choice(_, _, _, _)
        | Ex::Joined(_, _)
        | Ex::Repeated(_, _, _)
        | Ex::Called(_, _, _)
        | Ex::System(_, _, _) => 0,
    }
}

/// The faults of an argument that no item takes, and how many of the next ones its items take where it is a format.
fn shown_alone(best: Option<Stop>, scope: &Scope<'_, '_>, e: &Ex) -> Showing
    ensures { (others : x.Args) → s.earliest result.best (f.display_faults (seen_scope scope.now) result.taken others) ≡ s.earliest best (f.display_faults (seen_scope scope.now) 0 (x.MoreArgs (seen e.now) others)) }
{
    if is_text(e) {
        Showing {
            best,
            taken: taken_by(e),
        }
    } else {
        Showing {
            best: faults(best, scope, e),
            taken: 0,
        }
    }
}

/// The faults of an expression among the arguments.
fn shown_value(from: Showing, scope: &Scope<'_, '_>, e: &Ex) -> Showing
    ensures { (others : x.Args) → s.earliest result.best (f.display_faults (seen_scope scope.now) result.taken others) ≡ s.earliest from.best (f.display_faults (seen_scope scope.now) from.taken (x.MoreArgs (seen e.now) others)) }
{
    if from.taken == 0 {
        return shown_alone(from.best, scope, e);
    }
    Showing {
        best: faults(from.best, scope, e),
        taken: from.taken - 1,
    }
}

/// A null argument among the arguments.
fn shown_null(from: Showing) -> Showing
    ensures best { result.best ≡ from.best }
    ensures taken { result.taken ≡ from.taken - 1 }
{
    Showing {
        best: from.best,
        taken: from.taken.saturating_sub(1),
    }
}

/// The faults of one argument.
fn shown(from: Showing, scope: &Scope<'_, '_>, a: &Argument) -> Showing
    ensures { (others : x.Args) → s.earliest result.best (f.display_faults (seen_scope scope.now) result.taken others) ≡ s.earliest from.best (f.display_faults (seen_scope scope.now) from.taken (argument a.now others)) }
{
    match a {
        Argument::Null => shown_null(from),
        Argument::Value(e) => shown_value(from, scope, e),
    }
}

/// The faults of the arguments of a display.
fn display_faults(best: Option<Stop>, scope: &Scope<'_, '_>, given: &[Argument]) -> Option<Stop>
    ensures { result ≡ s.earliest best (f.display_faults (seen_scope scope.now) 0 (args_before given.now x.NoArgs)) }
{
    let mut all = Showing { best, taken: 0 };
    for a in given {
        all = shown(all, scope, a);
    }
    all.best
}

/// The faults of a system task.
pub fn task_faults(
    best: Option<Stop>,
    scope: &Scope<'_, '_>,
    name: &[u8],
    given: &[Argument],
) -> Option<Stop>
    ensures { result ≡ s.earliest best (f.task_faults (seen_scope scope.now) name.now (args_before given.now x.NoArgs)) }
{
    if is_display(name) {
        display_faults(best, scope, given)
    } else {
        args_faults(best, scope, keeps_texts(name), given)
    }
}
