//! Expressions as texts, with the place of each node.

use crate::parsing::printer::Printer;
use vl_tree::tree::{
    Binary, BinaryOperator, Bound, Choice, Expression, Identifier, Name, Primary, Select,
    SelectMark, SystemArgument, SystemCall, Unary, UnaryOperator,
};

/// A name and its place.
pub fn show_identifier(out: &mut Printer, name: &Identifier) {
    out.text(&name.name);
    out.place(name.place);
}

fn mark(operator: BinaryOperator) -> &'static str {
    match operator {
        BinaryOperator::Multiply => " * ",
        BinaryOperator::Divide => " / ",
        BinaryOperator::Modulus => " % ",
        BinaryOperator::Add => " + ",
        BinaryOperator::Subtract => " - ",
        BinaryOperator::ShiftLeft => " << ",
        BinaryOperator::ShiftRight => " >> ",
        BinaryOperator::ArithmeticShiftLeft => " <<< ",
        BinaryOperator::ArithmeticShiftRight => " >>> ",
        BinaryOperator::Less => " < ",
        BinaryOperator::LessOrEqual => " <= ",
        BinaryOperator::Greater => " > ",
        BinaryOperator::GreaterOrEqual => " >= ",
        BinaryOperator::Equal => " == ",
        BinaryOperator::NotEqual => " != ",
        BinaryOperator::CaseEqual => " === ",
        BinaryOperator::CaseNotEqual => " !== ",
        BinaryOperator::And => " & ",
        BinaryOperator::Xor => " ^ ",
        BinaryOperator::Xnor => " ^~ ",
        BinaryOperator::Or => " | ",
        BinaryOperator::LogicalAnd => " && ",
        BinaryOperator::LogicalOr => " || ",
    }
}

fn sign(operator: UnaryOperator) -> &'static str {
    match operator {
        UnaryOperator::Plus => "+",
        UnaryOperator::Minus => "-",
        UnaryOperator::LogicalNot => "!",
        UnaryOperator::Not => "~",
        UnaryOperator::And => "&",
        UnaryOperator::Nand => "~&",
        UnaryOperator::Or => "|",
        UnaryOperator::Nor => "~|",
        UnaryOperator::Xor => "^",
        UnaryOperator::Xnor => "~^",
    }
}

fn separator(mark: SelectMark) -> &'static str {
    match mark {
        SelectMark::Range => ":",
        SelectMark::Up => "+:",
        SelectMark::Down => "-:",
    }
}

/// An expression whole.
#[cycle(show)]
pub fn show_expression(out: &mut Printer, tree: &Expression) {
    out.at("E", tree.place);
    out.word("(");
    show_binary(out, tree.binary.get());
    if let Some(choice) = &tree.choice {
        show_choice(out, choice.get());
    }
    out.word(")");
}

#[cycle(show)]
fn show_choice(out: &mut Printer, tree: &Choice) {
    out.word(" ? ");
    show_expression(out, &tree.chosen);
    out.word(" : ");
    show_expression(out, &tree.otherwise);
}

#[cycle(show)]
fn show_binary(out: &mut Printer, tree: &Binary) {
    show_unary(out, &tree.first);
    for link in tree.links.as_slice() {
        out.word(mark(link.operator));
        show_unary(out, &link.operand);
    }
}

#[cycle(show)]
fn show_unary(out: &mut Printer, tree: &Unary) {
    out.place(tree.place);
    for mark in tree.operators.as_slice() {
        out.at(sign(mark.operator), mark.place);
    }
    show_primary(out, tree.primary.get());
}

#[cycle(show)]
fn show_primary(out: &mut Printer, tree: &Primary) {
    match tree {
        Primary::Number(place, number) => {
            out.word("#");
            out.number(number.value);
            out.place(*place);
        }
        Primary::Str(place, text) => {
            out.word("'");
            out.text(text);
            out.place(*place);
        }
        Primary::Name(name) => show_name(out, name),
        Primary::Parenthesized(place, inner) => {
            out.at("(", *place);
            show_expression(out, inner.get());
            out.word(")");
        }
        Primary::Concatenation(place, items) => {
            out.at("{", *place);
            show_expressions(out, items.as_slice());
            out.word("}");
        }
        Primary::Replication(place, count, items) => {
            out.at("{", *place);
            show_expression(out, count.get());
            out.word("{");
            show_expressions(out, items.as_slice());
            out.word("}}");
        }
        Primary::Call(identifier, items) => {
            show_identifier(out, identifier);
            out.word("(");
            show_expressions(out, items.as_slice());
            out.word(")");
        }
        Primary::System(call) => show_system(out, call),
    }
}

#[cycle(show)]
fn show_expressions(out: &mut Printer, items: &[Expression]) {
    for item in items {
        show_expression(out, item);
        out.word(";");
    }
}

#[cycle(show)]
fn show_name(out: &mut Printer, tree: &Name) {
    show_identifier(out, &tree.identifier);
    for select in tree.selects.as_slice() {
        show_select(out, select);
    }
}

#[cycle(show)]
fn show_select(out: &mut Printer, tree: &Select) {
    out.at("[", tree.place);
    show_expression(out, &tree.first);
    if let Some(second) = &tree.second {
        show_bound(out, second);
    }
    out.word("]");
}

#[cycle(show)]
fn show_bound(out: &mut Printer, tree: &Bound) {
    out.word(separator(tree.mark));
    show_expression(out, &tree.bound);
}

#[cycle(show)]
fn show_system(out: &mut Printer, tree: &SystemCall) {
    out.text(&tree.name);
    out.place(tree.place);
    if let Some(arguments) = &tree.arguments {
        out.word("(");
        for argument in arguments.as_slice() {
            show_argument(out, argument);
            out.word(";");
        }
        out.word(")");
    }
}

#[cycle(show)]
fn show_argument(out: &mut Printer, tree: &SystemArgument) {
    if let Some(argument) = &tree.argument {
        show_expression(out, argument);
    }
}
