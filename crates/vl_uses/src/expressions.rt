//! The faults in expressions.

ghost use Rattle.std.specs.Prelude.{◌≡◌, flat_map};
ghost use Rattle.vl_scope.specs.Faults.{earliest};
ghost use Rattle.vl_uses.specs.Nodes as n;
ghost use Rattle.vl_uses.specs.Walks as w;
ghost use Rattle.vl_uses.specs.Walks.{faults, means};

use crate::alone::{apart, bare, negated};
use crate::names::Names;
use crate::parts::{note_call, note_group, note_number, note_system, note_value};
use crate::setting::{Setting, Usage, before_mark, constantly};
use vl_scope::fault::Fault;
use vl_tree::tree::{
    Choice, Expression, Identifier, Link, Name, Primary, Select, SystemArgument, SystemCall,
};

/// Whether a call loads a memory.
fn is_load(name: &[u8]) -> bool
    ensures { result ≡ n.is_load name.now }
{
    name == b"$readmemh".as_slice()
}

/// Whether an argument is a memory that is loaded.
fn is_loaded(load: bool, argument: &Expression) -> bool
    ensures { result ≡ n.is_loaded load argument.now }
{
    load && bare(argument).is_some()
}

/// Notes the faults in an expression.
#[cycle(expression)]
#[tactic(auto, using(crate::proofs::ExpressionParts::expressions))]
pub fn note_expression(
    names: &Names<'_>,
    setting: Setting,
    expression: &Expression,
    best: Option<Fault>,
) -> Option<Fault>
    ensures { result ≡ earliest best (faults (means names.now) (n.expression_nodes setting expression.now)) }
{
    let binary = expression.binary.get();
    let mut best = note_primary(names, setting, binary.first.primary.get(), best);
    for link in binary.links.as_slice() {
        best = note_primary(names, setting, link.operand.primary.get(), best);
    }
    match &expression.choice {
        None => best,
        Some(choice) => {
            let choice = choice.get();
            let best = note_expression(names, setting, &choice.chosen, best);
            note_expression(names, setting, &choice.otherwise, best)
        }
    }
}

/// Notes the faults in a primary.
#[cycle(expression)]
#[tactic(auto, using(crate::proofs::ExpressionParts::expressions))]
fn note_primary(
    names: &Names<'_>,
    setting: Setting,
    primary: &Primary,
    best: Option<Fault>,
) -> Option<Fault>
    ensures { result ≡ earliest best (faults (means names.now) (n.primary_nodes setting primary.now)) }
{
    match primary {
        Primary::Number(place, number) => note_number(*place, number, best),
        Primary::Str(_, _) => best,
        Primary::Name(name) => {
            let best = note_value(names, setting, name, best);
            note_selects(names, setting, name.selects.as_slice(), best)
        }
        Primary::Parenthesized(_, inner) => note_expression(names, setting, inner.get(), best),
        Primary::Concatenation(place, parts) => {
            let best = note_group(setting, *place, best);
            note_expressions(names, setting, parts.as_slice(), best)
        }
        Primary::Replication(place, count, parts) => {
            let best = note_group(setting, *place, best);
            let best = note_expression(names, constantly(setting), count.get(), best);
            note_expressions(names, setting, parts.as_slice(), best)
        }
        Primary::Call(name, arguments) => {
            let arguments = arguments.as_slice();
            let best = note_call(names, setting, name, arguments.len(), best);
            note_expressions(names, setting, arguments, best)
        }
        Primary::System(call) => note_call_of_system(names, setting, Usage::Operand, call, best),
    }
}

/// Notes the faults in several expressions.
#[cycle(expression)]
fn note_expressions(
    names: &Names<'_>,
    setting: Setting,
    expressions: &[Expression],
    best: Option<Fault>,
) -> Option<Fault>
    ensures { result ≡ earliest best (faults (means names.now) (flat_map (n.expression_nodes setting) expressions.now)) }
{
    let mut best = best;
    for expression in expressions {
        best = note_expression(names, setting, expression, best);
    }
    best
}

/// Notes the faults in the selects of a name.
#[cycle(expression)]
pub fn note_selects(
    names: &Names<'_>,
    setting: Setting,
    selects: &[Select],
    best: Option<Fault>,
) -> Option<Fault>
    ensures { result ≡ earliest best (faults (means names.now) (flat_map (n.select_nodes setting) selects.now)) }
{
    let mut best = best;
    for select in selects {
        best = note_select(names, setting, select, best);
    }
    best
}

/// Notes the faults in a select.
#[cycle(expression)]
#[tactic(auto, using(crate::proofs::ExpressionParts::expressions))]
fn note_select(
    names: &Names<'_>,
    setting: Setting,
    select: &Select,
    best: Option<Fault>,
) -> Option<Fault>
    ensures { result ≡ earliest best (faults (means names.now) (n.select_nodes setting select.now)) }
{
    match &select.second {
        None => note_expression(names, setting, &select.first, best),
        Some(second) => {
            let first = before_mark(second.mark, setting);
            let best = note_expression(names, first, &select.first, best);
            note_expression(names, constantly(setting), &second.bound, best)
        }
    }
}

/// Notes the faults in a call of a system task or function that is used so.
#[cycle(expression)]
#[tactic(auto, using(crate::proofs::ExpressionParts::expressions))]
pub fn note_call_of_system(
    names: &Names<'_>,
    setting: Setting,
    usage: Usage,
    call: &SystemCall,
    best: Option<Fault>,
) -> Option<Fault>
    ensures { result ≡ earliest best (faults (means names.now) (n.system_nodes setting usage call.now)) }
{
    let best = note_system(names, setting, usage, call, best);
    match &call.arguments {
        None => best,
        Some(arguments) => note_arguments(
            names,
            setting,
            is_load(call.name.as_slice()),
            arguments.as_slice(),
            best,
        ),
    }
}

/// Notes the faults in the arguments of a system call, which loads a memory or doesn't.
#[cycle(expression)]
fn note_arguments(
    names: &Names<'_>,
    setting: Setting,
    load: bool,
    arguments: &[SystemArgument],
    best: Option<Fault>,
) -> Option<Fault>
    ensures { result ≡ earliest best (faults (means names.now) (flat_map (w.argument_nodes setting load) arguments.now)) }
{
    let mut best = best;
    for argument in arguments {
        best = note_argument(names, setting, load, argument, best);
    }
    best
}

/// Notes the faults in an argument of a system call, which loads a memory or doesn't.
#[cycle(expression)]
fn note_argument(
    names: &Names<'_>,
    setting: Setting,
    load: bool,
    argument: &SystemArgument,
    best: Option<Fault>,
) -> Option<Fault>
    ensures { result ≡ earliest best (faults (means names.now) (w.argument_nodes setting load argument.now)) }
{
    match &argument.argument {
        None => best,
        Some(value) => {
            if is_loaded(load, value) {
                return best;
            }
            note_expression(names, setting, value, best)
        }
    }
}
