//! The branch that a case takes (IEEE 1364-2005, clause 9.5).

ghost use Rattle.std.specs.Prelude.{◌≡◌, ◌≤◌, ◌<◌, ◌^◌, ℕ, List, IfOk, IfSome, length};
ghost use Rattle.vl_design.specs.Acts.{branch_of, chosen_body, default_body};
ghost use Rattle.vl_design.specs.Exec as x;
ghost use Rattle.vl_design.specs.Laws.{IsFine};
ghost use Rattle.vl_design.specs.Sound.{AreSound, IsSoundExp, IsWidth};
ghost use Rattle.vl_design.specs.Syntax as y;
ghost use Rattle.vl_design.specs.Trees.{exp_of, exps_of};
ghost use Rattle.vl_design.specs.Width as w;
ghost use Rattle.vl_eval.specs.Rooms.{names_of, sample_of};
ghost use Rattle.vl_run.specs.Cases.{items_of, body_at, body_or, AreWithin, AreSoundLabels, AreLabelsWithin};
ghost use Rattle.vl_run.specs.Scopes.{scope_of, Calls};

use crate::scope::Scope;
use std::alloc::AllocError;
use vl_base::bits::{Bits, UnOp, resize, unary};
use vl_base::number::Number;
use vl_design::design::{CaseItem, Expr, ExprNode, Form};
use vl_eval::form::form_of;
use vl_eval::form_form::joined;
use vl_eval::room::{Room, Sample};

/// The form of a form and of labels joined.
#[tactic(auto, using(crate::proofs::Casing::labels))]
fn labels_form(room: &Room<'_>, f: Form, labels: &[Expr]) -> Form
    requires labels { AreSound (names_of room.now) (exps_of labels.now) }
    requires form { IsWidth f.width }
    ensures value { result ≡ x.labels_form (names_of room.now) f (exps_of labels.now) }
    ensures width { IsWidth result.width }
{
    let mut all = f;
    for label in labels {
        all = joined(all, form_of(room, label));
    }
    all
}

/// The form of a form and of the labels of items joined.
fn items_form(room: &Room<'_>, f: Form, items: &[CaseItem]) -> Form
    requires items { AreSoundLabels (names_of room.now) items.now }
    requires form { IsWidth f.width }
    ensures value { (path : List ℕ) → result ≡ x.items_form (names_of room.now) f (items_of path items.now) }
    ensures width { IsWidth result.width }
{
    let mut all = f;
    for item in items {
        all = labels_form(room, all, &item.labels);
    }
    all
}

/// The bits of a label that are compared in a context.
#[tactic(auto, using(crate::proofs::Casing::cares))]
fn compared(c: Form, number: &Number) -> u128
    requires wide { 1 ≤ number.now.width }
    requires within { number.now.width ≤ c.width }
    requires narrow { c.width ≤ 128 }
    requires care { number.now.care < 2 ^ number.now.width }
    ensures { result ≡ x.compared c number.now.width number.now.care }
{
    let care = Bits {
        value: number.care,
        width: number.width,
    };
    let width = c.width as u8;
    if c.signed {
        resize(care, true, width).value
    } else {
        unary(UnOp::Not, resize(unary(UnOp::Not, care), false, width)).value
    }
}

/// The place of the default; none where there is none.
fn default_of(items: &[CaseItem]) -> Option<usize>
    ensures there { IfSome result (λ i. i < length items.now) }
    ensures body { (path : List ℕ) → body_at path items.now result ≡ default_body (items_of path items.now) }
{
    for number in 0..items.len() {
        if items[number].labels.as_slice().is_empty() {
            return Some(number);
        }
    }
    None
}

impl<F: Fn(u32, Vec<u128>) -> Result<u128, AllocError>> Scope<'_, F> {
    /// Whether a label matches a value in a context.
    fn matches(
        &self,
        s: &Sample<'_>,
        c: Form,
        subject: u128,
        label: &Expr,
    ) -> Result<bool, AllocError>
        requires label { IsSoundExp (names_of self.now.room) (exp_of label.now) }
        requires wide { (w.form (names_of self.now.room) (exp_of label.now)).width ≤ c.width }
        requires narrow { c.width ≤ 128 }
        requires fine { IsFine (names_of self.now.room).rows (sample_of s.now).values }
        requires calls { Calls (scope_of self.now) (F.pre self.now.call) (F.post self.now.call) }
        ensures { IfOk result (λ b. b ≡ x.label_matches (scope_of self.now) (sample_of s.now) c subject (exp_of label.now)) }
    {
        let bits = self.value(s, label, c)?;
        match &label.node {
            ExprNode::Label(number) => Ok((subject ^ bits.value) & compared(c, number) == 0),
            _ => Ok(bits.value == subject),
        }
    }

    /// Whether some label matches a value in a context.
    #[tactic(auto, using(crate::proofs::Casing::labels))]
    fn some_match(
        &self,
        s: &Sample<'_>,
        c: Form,
        subject: u128,
        labels: &[Expr],
    ) -> Result<bool, AllocError>
        requires labels { AreSound (names_of self.now.room) (exps_of labels.now) }
        requires within { AreWithin (names_of self.now.room) c.width (exps_of labels.now) }
        requires narrow { c.width ≤ 128 }
        requires fine { IsFine (names_of self.now.room).rows (sample_of s.now).values }
        requires calls { Calls (scope_of self.now) (F.pre self.now.call) (F.post self.now.call) }
        ensures { IfOk result (λ b. b ≡ x.some_match (scope_of self.now) (sample_of s.now) c subject (exps_of labels.now)) }
    {
        for label in labels {
            if self.matches(s, c, subject, label)? {
                return Ok(true);
            }
        }
        Ok(false)
    }

    /// The place of the first item with a label that matches a value; none where no item has one.
    fn matching(
        &self,
        s: &Sample<'_>,
        c: Form,
        subject: u128,
        items: &[CaseItem],
    ) -> Result<Option<usize>, AllocError>
        requires items { AreSoundLabels (names_of self.now.room) items.now }
        requires within { AreLabelsWithin (names_of self.now.room) c.width items.now }
        requires narrow { c.width ≤ 128 }
        requires fine { IsFine (names_of self.now.room).rows (sample_of s.now).values }
        requires calls { Calls (scope_of self.now) (F.pre self.now.call) (F.post self.now.call) }
        ensures there { IfOk result (λ r. IfSome r (λ i. i < length items.now)) }
        ensures body { IfOk result (λ r. (path : List ℕ) (otherwise : y.Stm) → body_or path items.now otherwise r
            ≡ chosen_body (scope_of self.now) (sample_of s.now) subject c (items_of path items.now) otherwise) }
    {
        for number in 0..items.len() {
            if self.some_match(s, c, subject, &items[number].labels)? {
                return Ok(Some(number));
            }
        }
        Ok(None)
    }

    /// The place of the item whose body a case does; none where it does nothing.
    pub fn branch(
        &self,
        s: &Sample<'_>,
        subject: &Expr,
        items: &[CaseItem],
    ) -> Result<Option<usize>, AllocError>
        requires subject { IsSoundExp (names_of self.now.room) (exp_of subject.now) }
        requires items { AreSoundLabels (names_of self.now.room) items.now }
        requires fine { IsFine (names_of self.now.room).rows (sample_of s.now).values }
        requires calls { Calls (scope_of self.now) (F.pre self.now.call) (F.post self.now.call) }
        ensures there { IfOk result (λ r. IfSome r (λ i. i < length items.now)) }
        ensures body { IfOk result (λ r. (path : List ℕ) → body_at path items.now r
            ≡ branch_of (scope_of self.now) (sample_of s.now) (y.Case (exp_of subject.now) (items_of path items.now))) }
    {
        let c = items_form(&self.room, form_of(&self.room, subject), items);
        let bits = self.value(s, subject, c)?;
        match self.matching(s, c, bits.value, items)? {
            None => Ok(default_of(items)),
            Some(number) => Ok(Some(number)),
        }
    }
}
