//! The faults of statements (IEEE 1364-2005, clause 9).

ghost use Rattle.std.specs.Prelude.{◌≡◌, map};
ghost use Rattle.elab_plain.specs.vl_flat.specs.Statements as f;
ghost use Rattle.vl_design.specs.Stops as s;
ghost use Rattle.elab_plain.specs.vl_flat.specs.Surface as x;
ghost use Rattle.elab_plain.specs.Seen.{seen};
ghost use Rattle.elab_plain.specs.SeenStatements.{seen_left, seen_statement, statements_of, item, items_before};
ghost use Rattle.elab_constant.specs.Seen.{seen_scope};

use crate::displays::task_faults;
use crate::faults::{all_faults, faults};
use crate::lefts::target_faults;
use elab_constant::scope::Scope;
use elab_plain::surface::{CaseItem, Ex, Left, Statement};
use vl_design::stop::Stop;

/// The faults of the two sides of an assignment.
fn set_faults(best: Option<Stop>, scope: &Scope<'_, '_>, l: &Left, e: &Ex) -> Option<Stop>
    ensures { result ≡ s.earliest best (f.set_faults (seen_scope scope.now) (seen_left l.now) (seen e.now)) }
{
    let left = target_faults(best, scope, l);
    faults(left, scope, e)
}

/// The faults of a statement.
#[cycle(statements)]
pub fn statement_faults(best: Option<Stop>, scope: &Scope<'_, '_>, a: &Statement) -> Option<Stop>
    ensures { result ≡ s.earliest best (f.statement_faults (seen_scope scope.now) (seen_statement a.now)) }
{
    match a {
        Statement::Null(_) => best,
        Statement::Block(_, parts) => statements_faults(best, scope, parts.as_slice()),
        Statement::If(_, test, chosen, other) => {
            let tested = faults(best, scope, test);
            let first = statement_faults(tested, scope, chosen);
            statement_faults(first, scope, other)
        }
        Statement::Case(_, _, subject, items) => {
            let tested = faults(best, scope, subject);
            items_faults(tested, scope, items.as_slice())
        }
        Statement::For(_, target, start, test, stepped, step, body) => {
            let begun = set_faults(best, scope, target, start);
            let tested = faults(begun, scope, test);
            let gone = set_faults(tested, scope, stepped, step);
            statement_faults(gone, scope, body)
        }
        Statement::Repeat(_, count, body) => {
            let counted = faults(best, scope, count);
            statement_faults(counted, scope, body)
        }
        Statement::Assign(_, _, target, value) => set_faults(best, scope, target, value),
        Statement::Task(_, name, given) => {
            task_faults(best, scope, name.as_slice(), given.as_slice())
        }
    }
}

/// The faults of statements one by one.
#[cycle(statements)]
fn statements_faults(best: Option<Stop>, scope: &Scope<'_, '_>, parts: &[Statement]) -> Option<Stop>
    ensures { result ≡ s.earliest best (f.statements_faults (seen_scope scope.now) (statements_of (map seen_statement parts.now))) }
{
    let mut all = best;
    for a in parts {
        all = statement_faults(all, scope, a);
    }
    all
}

/// The faults of an item of a case.
#[cycle(statements)]
fn item_faults(best: Option<Stop>, scope: &Scope<'_, '_>, a: &CaseItem) -> Option<Stop>
    ensures { (others : x.CaseItems) → s.earliest result (f.items_faults (seen_scope scope.now) others) ≡ s.earliest best (f.items_faults (seen_scope scope.now) (item a.now others)) }
{
    match a {
        CaseItem::Labelled(labels, body) => {
            let labelled = all_faults(best, scope, labels.as_slice());
            statement_faults(labelled, scope, body)
        }
        CaseItem::Default(body) => statement_faults(best, scope, body),
    }
}

/// The faults of the items of a case one by one.
#[cycle(statements)]
fn items_faults(best: Option<Stop>, scope: &Scope<'_, '_>, items: &[CaseItem]) -> Option<Stop>
    ensures { result ≡ s.earliest best (f.items_faults (seen_scope scope.now) (items_before items.now x.NoItems)) }
{
    let mut all = best;
    for a in items {
        all = item_faults(all, scope, a);
    }
    all
}
