//! The value of an expression from the answers of its calls, whole (IEEE 1364-2005, clause 5).

ghost use Rattle.std.specs.Prelude.{◌≡◌, ◌≤◌, ℕ, List};
ghost use Rattle.vl_base.specs.declared.files.File.{File};
ghost use Rattle.vl_design.specs.Trees.{exp_of};
ghost use Rattle.vl_design.specs.Sound.{IsSoundExp};
ghost use Rattle.vl_design.specs.Laws.{IsFine};
ghost use Rattle.vl_design.specs.Width as w;
ghost use Rattle.vl_design.specs.Value as v;
ghost use Rattle.vl_eval.specs.Answers.{answers_of};
ghost use Rattle.vl_eval.specs.Rooms.{names_of, sample_of, scope_at, GivesFitting};

use crate::eval::eval;
use crate::room::{Room, Sample};
use vl_base::bits::Bits;
use vl_design::design::{Expr, Form};

/// The value of an expression in a context of at most 128 bits, at least as wide as the expression, from what its calls
/// give in text order.
pub fn value(room: &Room<'_>, s: &Sample<'_>, e: &Expr, c: Form, answers: &[u128]) -> Bits
    requires sound { IsSoundExp (names_of room.now) (exp_of e.now) }
    requires fine { IsFine (names_of room.now).rows (sample_of s.now).values }
    requires wide { (w.form (names_of room.now) (exp_of e.now)).width ≤ c.width }
    requires narrow { c.width ≤ 128 }
    ensures value { (files : List File) (call : ℕ → List ℕ → ℕ) → GivesFitting (names_of room.now) call
        → answers.now ≡ answers_of (scope_at (names_of room.now) files call) (sample_of s.now) (exp_of e.now)
        → result.value ≡ v.value (scope_at (names_of room.now) files call) (sample_of s.now) (exp_of e.now) c }
    ensures width { result.width ≡ c.width }
{
    eval(room, s, e, c, answers).bits
}
