//! The faults in statements.

ghost use Rattle.std.specs.Prelude.{◌≡◌, flat_map};
ghost use Rattle.vl_scope.specs.Faults.{earliest};
ghost use Rattle.vl_uses.specs.Nodes as n;
ghost use Rattle.vl_uses.specs.Walks.{faults, means, pointed};

use crate::alone::{apart, negated};
use crate::expressions::{note_call_of_system, note_expression, note_selects};
use crate::names::Names;
use crate::parts::note_target;
use crate::setting::{Setting, Side, Usage, constantly, of_index};
use vl_scope::fault::Fault;
use vl_tree::parts::Boxed;
use vl_tree::source_tree::{Assignment, CaseItem, CaseKeyword, Lvalue, Statement};
use vl_tree::tree::{Expression, Primary, SystemCall};

/// The call of a system function that a primary is.
fn call_in(primary: Option<&Primary>) -> Option<&SystemCall>
    ensures { pointed result ≡ n.call_in (pointed primary.entry) }
{
    match primary? {
        Primary::System(call) => Some(call),
        _ => None,
    }
}

/// Notes the faults in a right side.
#[tactic(auto, unfolding(crate::specs::Nodes::right_side_nodes))]
pub fn note_right_side(
    names: &Names<'_>,
    setting: Setting,
    value: &Expression,
    best: Option<Fault>,
) -> Option<Fault>
    ensures { result ≡ earliest best (faults (means names.now) (n.right_side_nodes setting value.now)) }
{
    match call_in(apart(value)) {
        Some(call) => note_call_of_system(names, setting, Usage::Whole, call, best),
        None => note_expression(names, setting, value, best),
    }
}

/// Notes the faults in a condition of an `if`.
#[tactic(auto, unfolding(crate::specs::Nodes::condition_nodes))]
fn note_condition(
    names: &Names<'_>,
    setting: Setting,
    condition: &Expression,
    best: Option<Fault>,
) -> Option<Fault>
    ensures { result ≡ earliest best (faults (means names.now) (n.condition_nodes setting condition.now)) }
{
    if let Some(call) = call_in(apart(condition)) {
        return note_call_of_system(names, setting, Usage::Whole, call, best);
    }
    match call_in(negated(condition)) {
        Some(call) => note_call_of_system(names, setting, Usage::Whole, call, best),
        None => note_expression(names, setting, condition, best),
    }
}

/// Whether a primary is a number.
fn is_number(primary: Option<&Primary>) -> bool
    ensures { result ≡ n.is_number (pointed primary.entry) }
{
    match primary {
        None => false,
        Some(primary) => matches!(primary, Primary::Number(_, _)),
    }
}

/// Notes the faults in a label.
#[tactic(auto, unfolding(crate::specs::Nodes::label_nodes))]
fn note_label(
    names: &Names<'_>,
    setting: Setting,
    keyword: CaseKeyword,
    label: &Expression,
    best: Option<Fault>,
) -> Option<Fault>
    ensures { result ≡ earliest best (faults (means names.now) (n.label_nodes setting keyword label.now)) }
{
    match keyword {
        CaseKeyword::Case => note_expression(names, setting, label, best),
        CaseKeyword::Casez => {
            if is_number(apart(label)) {
                return best;
            }
            note_expression(names, setting, label, best)
        }
    }
}

/// Notes the faults in the labels of an item of a case.
fn note_labels(
    names: &Names<'_>,
    setting: Setting,
    keyword: CaseKeyword,
    labels: &[Expression],
    best: Option<Fault>,
) -> Option<Fault>
    ensures { result ≡ earliest best (faults (means names.now) (flat_map (n.label_nodes setting keyword) labels.now)) }
{
    let mut best = best;
    for label in labels {
        best = note_label(names, setting, keyword, label, best);
    }
    best
}

/// Notes the faults in a left side.
#[tactic(auto, using(crate::proofs::StatementParts::statements))]
fn note_lvalue(
    names: &Names<'_>,
    setting: Setting,
    side: Side,
    lvalue: &Lvalue,
    best: Option<Fault>,
) -> Option<Fault>
    ensures { result ≡ earliest best (faults (means names.now) (n.lvalue_nodes side setting lvalue.now)) }
{
    match lvalue {
        Lvalue::Name(name) => {
            let best = note_target(names, setting, side, name, best);
            note_selects(
                names,
                of_index(side, setting),
                name.selects.as_slice(),
                best,
            )
        }
        Lvalue::Concatenation(_, parts) => {
            let mut best = best;
            for part in parts.as_slice() {
                best = note_lvalue(names, setting, side, part, best);
            }
            best
        }
    }
}

/// Notes the faults in an assignment.
#[tactic(auto, unfolding(crate::specs::Nodes::assignment_nodes))]
pub fn note_assignment(
    names: &Names<'_>,
    setting: Setting,
    side: Side,
    assignment: &Assignment,
    best: Option<Fault>,
) -> Option<Fault>
    ensures { result ≡ earliest best (faults (means names.now) (n.assignment_nodes side setting assignment.now)) }
{
    let best = note_lvalue(names, setting, side, &assignment.target, best);
    note_right_side(names, setting, &assignment.value, best)
}

/// Notes the faults in a statement.
#[cycle(statement)]
#[tactic(auto, using(crate::proofs::StatementParts::statements))]
pub fn note_statement(
    names: &Names<'_>,
    setting: Setting,
    statement: &Statement,
    best: Option<Fault>,
) -> Option<Fault>
    ensures { result ≡ earliest best (faults (means names.now) (n.statement_nodes setting statement.now)) }
{
    match statement {
        Statement::Null(_) => best,
        Statement::Block(_, statements) => {
            let mut best = best;
            for statement in statements.as_slice() {
                best = note_statement(names, setting, statement, best);
            }
            best
        }
        Statement::If(_, condition, chosen, otherwise) => {
            let best = note_condition(names, setting, condition, best);
            let best = note_statement(names, setting, chosen.get(), best);
            note_otherwise(names, setting, otherwise, best)
        }
        Statement::Case(_, keyword, subject, items) => {
            let best = note_expression(names, setting, subject, best);
            note_case_items(names, setting, *keyword, items.as_slice(), best)
        }
        Statement::For(_, first, condition, step, body) => {
            let best = note_assignment(names, setting, Side::Procedural, first, best);
            let best = note_expression(names, setting, condition, best);
            let best = note_assignment(names, setting, Side::Procedural, step, best);
            note_statement(names, setting, body.get(), best)
        }
        Statement::Repeat(_, count, body) => {
            let best = note_expression(names, constantly(setting), count, best);
            note_statement(names, setting, body.get(), best)
        }
        Statement::Assign(_, target, _, value) => {
            let best = note_lvalue(names, setting, Side::Procedural, target, best);
            note_right_side(names, setting, value, best)
        }
        Statement::System(_, call) => note_call_of_system(names, setting, Usage::Task, call, best),
    }
}

/// Notes the faults in the second branch of an `if`.
#[cycle(statement)]
fn note_otherwise(
    names: &Names<'_>,
    setting: Setting,
    otherwise: &Option<Boxed<Statement>>,
    best: Option<Fault>,
) -> Option<Fault>
    ensures { result ≡ earliest best (faults (means names.now) (n.given (n.statement_nodes setting) otherwise.now)) }
{
    match otherwise {
        None => best,
        Some(otherwise) => note_statement(names, setting, otherwise.get(), best),
    }
}

/// Notes the faults in the items of a case.
#[cycle(statement)]
fn note_case_items(
    names: &Names<'_>,
    setting: Setting,
    keyword: CaseKeyword,
    items: &[CaseItem],
    best: Option<Fault>,
) -> Option<Fault>
    ensures { result ≡ earliest best (faults (means names.now) (flat_map (n.case_nodes setting keyword) items.now)) }
{
    let mut best = best;
    for item in items {
        best = note_case_item(names, setting, keyword, item, best);
    }
    best
}

/// Notes the faults in an item of a case.
#[cycle(statement)]
#[tactic(auto, using(crate::proofs::StatementParts::statements))]
fn note_case_item(
    names: &Names<'_>,
    setting: Setting,
    keyword: CaseKeyword,
    item: &CaseItem,
    best: Option<Fault>,
) -> Option<Fault>
    ensures { result ≡ earliest best (faults (means names.now) (n.case_nodes setting keyword item.now)) }
{
    match item {
        CaseItem::Labels(_, labels, body) => {
            let best = note_labels(names, setting, keyword, labels.as_slice(), best);
            note_statement(names, setting, body.get(), best)
        }
        CaseItem::Default(_, body) => note_statement(names, setting, body.get(), best),
    }
}
