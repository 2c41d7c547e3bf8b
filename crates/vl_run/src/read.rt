//! Expressions with their calls of functions (IEEE 1364-2005, clauses 5 and 10.4.3).

ghost use Rattle.std.specs.Prelude.{◌≡◌, ◌≤◌, ◌++◌, IfOk, OnOk};
ghost use Rattle.vl_design.specs.Trees.{exp_of};
ghost use Rattle.vl_design.specs.Sound.{IsSoundExp};
ghost use Rattle.vl_design.specs.Laws.{IsFine};
ghost use Rattle.vl_design.specs.Width as w;
ghost use Rattle.vl_design.specs.Value as v;
ghost use Rattle.vl_eval.specs.Answers.{answers_of};
ghost use Rattle.vl_eval.specs.Rooms.{names_of, sample_of};
ghost use Rattle.vl_eval.specs.Wholes.{whole_of};
ghost use Rattle.vl_run.specs.Scopes.{scope_of, Calls, call_arguments};

use crate::scope::{Scope, input_width};
use std::alloc::AllocError;
use vl_base::bits::{Bits, resize};
use vl_design::design::{Expr, ExprNode, Form};
use vl_eval::form::form_of;
use vl_eval::form_form::assigned;
use vl_eval::room::Sample;
use vl_eval::selects::{Whole, whole_number};
use vl_eval::value::value;

impl<F: Fn(u32, Vec<u128>) -> Result<u128, AllocError>> Scope<'_, F> {
    /// The values of a call's arguments, each as assigned to its input.
    #[cycle(read)]
    #[tactic(auto, using(crate::proofs::Reading::reading))]
    fn arguments(&self, s: &Sample<'_>, e: &Expr) -> Result<Vec<u128>, AllocError>
        requires sound { IsSoundExp (names_of self.now.room) (exp_of e.now) }
        requires fine { IsFine (names_of self.now.room).rows (sample_of s.now).values }
        requires calls { Calls (scope_of self.now) (F.pre self.now.call) (F.post self.now.call) }
        ensures { IfOk result (λ xs. xs.items ≡ call_arguments (scope_of self.now) (sample_of s.now) (exp_of e.now)) }
    {
        let mut values = Vec::new(self.alloc);
        let ExprNode::Call(function, list) = &e.node else {
            return Ok(values);
        };
        for argument in list {
            match input_width(&self.room, *function, values.len()) {
                None => return Ok(values),
                Some(width) => {
                    let context = assigned(width, form_of(&self.room, argument));
                    let bits = self.value(s, argument, context)?;
                    values.push(resize(bits, false, width as u8).value)?;
                }
            }
        }
        Ok(values)
    }

    /// Adds what the calls in an expression give, in text order; not those in arguments of others.
    #[cycle(read)]
    #[tactic(auto, using(crate::proofs::Reading::reading))]
    fn answer(&self, s: &Sample<'_>, e: &Expr, answers: &mut Vec<u128>) -> Result<(), AllocError>
        requires sound { IsSoundExp (names_of self.now.room) (exp_of e.now) }
        requires fine { IsFine (names_of self.now.room).rows (sample_of s.now).values }
        requires calls { Calls (scope_of self.now) (F.pre self.now.call) (F.post self.now.call) }
        ensures { OnOk result (answers.new.items ≡ answers.old.items ++ answers_of (scope_of self.now) (sample_of s.now) (exp_of e.now)) }
    {
        match &e.node {
            ExprNode::Num(_, _) | ExprNode::Label(_) | ExprNode::Sig(_) | ExprNode::Time => Ok(()),
            ExprNode::Sys(_) => Ok(()),
            ExprNode::Word(_, a) | ExprNode::Slice(a, _, _) => self.answer(s, a, answers),
            ExprNode::Un(_, a) | ExprNode::Cast(_, a) => self.answer(s, a, answers),
            ExprNode::Pick(a, b, _, _) | ExprNode::Bin(_, a, b) => {
                self.answer(s, a, answers)?;
                self.answer(s, b, answers)
            }
            ExprNode::Cond(test, a, b) => {
                self.answer(s, test, answers)?;
                self.answer(s, a, answers)?;
                self.answer(s, b, answers)
            }
            ExprNode::Cat(list) | ExprNode::Rep(_, list) => {
                for part in list {
                    self.answer(s, part, answers)?;
                }
                Ok(())
            }
            ExprNode::Call(function, _) => {
                let values = self.arguments(s, e)?;
                let given = self.give(*function, values)?;
                answers.push(given)?;
                Ok(())
            }
        }
    }

    /// The value of an expression in a context of at most 128 bits, at least as wide as the expression.
    #[cycle(read)]
    #[tactic(auto, using(crate::proofs::Reading::reading))]
    pub fn value(&self, s: &Sample<'_>, e: &Expr, c: Form) -> Result<Bits, AllocError>
        requires sound { IsSoundExp (names_of self.now.room) (exp_of e.now) }
        requires fine { IsFine (names_of self.now.room).rows (sample_of s.now).values }
        requires calls { Calls (scope_of self.now) (F.pre self.now.call) (F.post self.now.call) }
        requires wide { (w.form (names_of self.now.room) (exp_of e.now)).width ≤ c.width }
        requires narrow { c.width ≤ 128 }
        ensures value { IfOk result (λ b. b.value ≡ v.value (scope_of self.now) (sample_of s.now) (exp_of e.now) c) }
        ensures width { IfOk result (λ b. b.width ≡ c.width) }
    {
        let mut answers = Vec::new(self.alloc);
        self.answer(s, e, &mut answers)?;
        Ok(value(&self.room, s, e, c, &answers))
    }

    /// The value of an expression read for itself.
    #[tactic(auto, using(crate::proofs::Reading::reading))]
    pub fn own_value(&self, s: &Sample<'_>, e: &Expr) -> Result<Bits, AllocError>
        requires sound { IsSoundExp (names_of self.now.room) (exp_of e.now) }
        requires fine { IsFine (names_of self.now.room).rows (sample_of s.now).values }
        requires calls { Calls (scope_of self.now) (F.pre self.now.call) (F.post self.now.call) }
        ensures { IfOk result (λ b. b.value ≡ v.own_value (scope_of self.now) (sample_of s.now) (exp_of e.now)) }
    {
        self.value(s, e, form_of(&self.room, e))
    }

    /// The whole number of an expression, by its own sign.
    #[tactic(auto, using(crate::proofs::Reading::reading))]
    pub fn reading(&self, s: &Sample<'_>, e: &Expr) -> Result<Whole, AllocError>
        requires sound { IsSoundExp (names_of self.now.room) (exp_of e.now) }
        requires fine { IsFine (names_of self.now.room).rows (sample_of s.now).values }
        requires calls { Calls (scope_of self.now) (F.pre self.now.call) (F.post self.now.call) }
        ensures { IfOk result (λ n. whole_of n ≡ v.own_reading (scope_of self.now) (sample_of s.now) (exp_of e.now)) }
    {
        let form = form_of(&self.room, e);
        let bits = self.value(s, e, form)?;
        Ok(whole_number(bits, form.signed))
    }
}
