//! Parts of sources as texts. An expression is shown by its place.

use crate::parsing::expressions::show_identifier;
use crate::parsing::printer::Printer;
use vl_tree::parts::Parts;
use vl_tree::source_tree::{Assignment, Lvalue, Range};
use vl_tree::tree::{Expression, Identifier, Name, Select, SystemCall};

/// The place of an expression.
pub fn show_expression(out: &mut Printer, tree: &Expression) {
    out.at("E", tree.place);
}

/// The place of an expression, or `-`.
pub fn show_optional(out: &mut Printer, tree: &Option<Expression>) {
    match tree {
        Some(tree) => show_expression(out, tree),
        None => out.word("-"),
    }
}

/// The place of an expression behind a `=`, if there is one.
pub fn show_value(out: &mut Printer, tree: &Option<Expression>) {
    if let Some(tree) = tree {
        out.word("=");
        show_expression(out, tree);
    }
}

/// Names, each behind a blank.
pub fn show_identifiers(out: &mut Printer, names: &Parts<Identifier>) {
    for name in names.as_slice() {
        out.word(" ");
        show_identifier(out, name);
    }
}

/// A range.
pub fn show_range(out: &mut Printer, range: &Range) {
    out.at("[", range.place);
    out.word(" ");
    show_expression(out, &range.left);
    out.word(" ");
    show_expression(out, &range.right);
    out.word("]");
}

fn show_select(out: &mut Printer, select: &Select) {
    out.word("[");
    show_expression(out, &select.first);
    if let Some(second) = &select.second {
        out.word(":");
        show_expression(out, &second.bound);
    }
    out.word("]");
}

fn show_name(out: &mut Printer, name: &Name) {
    out.place(name.place);
    show_identifier(out, &name.identifier);
    for select in name.selects.as_slice() {
        show_select(out, select);
    }
}

/// A left side.
#[cycle(lvalue)]
pub fn show_lvalue(out: &mut Printer, lvalue: &Lvalue) {
    match lvalue {
        Lvalue::Name(name) => show_name(out, name),
        Lvalue::Concatenation(place, parts) => {
            out.place(*place);
            out.word("{");
            for part in parts.as_slice() {
                show_lvalue(out, part);
                out.word(";");
            }
            out.word("}");
        }
    }
}

/// A left side and its value.
pub fn show_assignment(out: &mut Printer, assignment: &Assignment) {
    out.place(assignment.place);
    out.word(" ");
    show_lvalue(out, &assignment.target);
    out.word("=");
    show_expression(out, &assignment.value);
}

/// A call of a system task.
pub fn show_call(out: &mut Printer, call: &SystemCall) {
    out.text(&call.name);
    out.place(call.place);
    if let Some(arguments) = &call.arguments {
        out.word("(");
        for argument in arguments.as_slice() {
            show_optional(out, &argument.argument);
            out.word(";");
        }
        out.word(")");
    }
}
