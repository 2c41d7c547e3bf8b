//! The context and the labels of cases (IEEE 1364-2005, clause 9.5).

ghost use Rattle.std.specs.Prelude.{◌≡◌, ◌≤◌, ◌<◌, ◌^◌, ℕ, List, IfSome, length};
ghost use Rattle.vl_design.specs.Acts.{default_body};
ghost use Rattle.vl_design.specs.Exec as x;
ghost use Rattle.vl_design.specs.Sound.{AreSound, IsSoundExp, IsWidth};
ghost use Rattle.vl_design.specs.Trees.{exp_of, exps_of};
ghost use Rattle.vl_design.specs.Width as w;
ghost use Rattle.vl_eval.specs.Rooms.{names_of};
ghost use Rattle.vl_run.specs.Cases.{items_of, body_at, AreSoundLabels};
ghost use Rattle.cell_expr.specs.Labels.{care_in};

use vl_base::bits::{Bits, UnOp, resize, unary};
use vl_base::number::Number;
use vl_design::design::{CaseItem, Expr, ExprNode, Form};
use vl_eval::form::form_of;
use vl_eval::form_form::joined;
use vl_eval::room::Room;

/// The form of a form and of labels joined.
#[tactic(auto, using(vl_run::proofs::Casing::labels))]
pub fn labels_form(room: &Room<'_>, f: Form, labels: &[Expr]) -> Form
    requires labels { AreSound (names_of room.now) (exps_of labels.now) }
    requires form { IsWidth f.width }
    ensures value { result ≡ x.labels_form (names_of room.now) f (exps_of labels.now) }
    ensures width { IsWidth result.width }
{
    let mut all = f;
    for label in labels {
        all = joined(all, form_of(room, label));
    }
    all
}

/// The form of a form and of the labels of items joined.
pub fn items_form(room: &Room<'_>, f: Form, items: &[CaseItem]) -> Form
    requires items { AreSoundLabels (names_of room.now) items.now }
    requires form { IsWidth f.width }
    ensures value { (path : List ℕ) → result ≡ x.items_form (names_of room.now) f (items_of path items.now) }
    ensures width { IsWidth result.width }
{
    let mut all = f;
    for item in items {
        all = labels_form(room, all, &item.labels);
    }
    all
}

/// The bits of a label that are compared in a context.
#[tactic(auto, using(vl_run::proofs::Casing::cares))]
fn compared(c: Form, number: &Number) -> u128
    requires wide { 1 ≤ number.now.width }
    requires within { number.now.width ≤ c.width }
    requires narrow { c.width ≤ 128 }
    requires care { number.now.care < 2 ^ number.now.width }
    ensures { result ≡ x.compared c number.now.width number.now.care }
{
    let care = Bits {
        value: number.care,
        width: number.width,
    };
    let width = c.width as u8;
    if c.signed {
        resize(care, true, width).value
    } else {
        unary(UnOp::Not, resize(unary(UnOp::Not, care), false, width)).value
    }
}

/// The bits of a label that are compared in a context where those aren't all: it is a number with bits of care.
#[tactic(auto, using(vl_run::proofs::Casing::cares))]
pub fn care_of(room: &Room<'_>, c: Form, label: &Expr) -> Option<u128>
    requires label { IsSoundExp (names_of room.now) (exp_of label.now) }
    requires within { (w.form (names_of room.now) (exp_of label.now)).width ≤ c.width }
    requires narrow { c.width ≤ 128 }
    ensures { result ≡ care_in c (exp_of label.now) }
{
    match &label.node {
        ExprNode::Label(number) => Some(compared(c, number)),
        _ => None,
    }
}

/// The place of the default; none where there is none.
pub fn default_of(items: &[CaseItem]) -> Option<usize>
    ensures there { IfSome result (λ i. i < length items.now) }
    ensures body { (path : List ℕ) → body_at path items.now result ≡ default_body (items_of path items.now) }
{
    for number in 0..items.len() {
        if items[number].labels.as_slice().is_empty() {
            return Some(number);
        }
    }
    None
}
