//! Declarations as texts.

use crate::parsing::expressions::show_identifier;
use crate::parsing::parts::{show_expression, show_identifiers, show_range, show_value};
use crate::parsing::printer::Printer;
use crate::parsing::statements::show_statement;
use vl_tree::parts::Parts;
use vl_tree::source_tree::{
    DeclarationAssignment, Direction, Function, FunctionDeclaration, FunctionPort,
    ParameterAssignment, ParameterType, PortDeclaration, Range, VariableMore, VariableType,
};

/// `signed` and a range, as they stand there.
pub fn show_vector(out: &mut Printer, signed: bool, range: &Option<Range>) {
    if signed {
        out.word(" signed");
    }
    if let Some(range) = range {
        out.word(" ");
        show_range(out, range);
    }
}

/// The type of a parameter, or of a function's input or result.
pub fn show_type(out: &mut Printer, kind: &ParameterType) {
    match kind {
        ParameterType::Integer => out.word(" integer"),
        ParameterType::Vector(signed, range) => show_vector(out, *signed, range),
    }
}

/// Parameters with their values.
pub fn show_parameters(out: &mut Printer, assignments: &Parts<ParameterAssignment>) {
    for each in assignments.as_slice() {
        out.at(" ", each.place);
        show_identifier(out, &each.name);
        out.word("=");
        show_expression(out, &each.value);
    }
}

/// Names with the values that they have.
pub fn show_assigned(out: &mut Printer, assignments: &Parts<DeclarationAssignment>) {
    for each in assignments.as_slice() {
        out.at(" ", each.place);
        show_identifier(out, &each.name);
        show_value(out, &each.value);
    }
}

fn show_more(out: &mut Printer, more: &VariableMore) {
    match more {
        VariableMore::Words(range) => show_range(out, range),
        VariableMore::Value(value) => {
            out.word("=");
            show_expression(out, value);
        }
    }
}

/// Variables, each with its addresses or its first value.
pub fn show_variables(out: &mut Printer, variables: &Parts<VariableType>) {
    for each in variables.as_slice() {
        out.at(" ", each.place);
        show_identifier(out, &each.name);
        if let Some(more) = &each.more {
            show_more(out, more);
        }
    }
}

fn word(direction: Direction) -> &'static str {
    match direction {
        Direction::Input => "input",
        Direction::Output => "output",
    }
}

/// Ports.
pub fn show_port(out: &mut Printer, port: &PortDeclaration) {
    match port {
        PortDeclaration::Net(place, direction, wire, signed, range, names) => {
            out.at(word(*direction), *place);
            if *wire {
                out.word(" wire");
            }
            show_vector(out, *signed, range);
            show_identifiers(out, names);
        }
        PortDeclaration::Reg(place, signed, range, names) => {
            out.at("output reg", *place);
            show_vector(out, *signed, range);
            show_assigned(out, names);
        }
        PortDeclaration::Integer(place, names) => {
            out.at("output integer", *place);
            show_assigned(out, names);
        }
    }
}

fn show_function_port(out: &mut Printer, port: &FunctionPort) {
    out.at("input", port.place);
    show_type(out, &port.kind);
    show_identifiers(out, &port.names);
}

fn show_function_ports(out: &mut Printer, ports: &Parts<FunctionPort>) {
    out.word("(");
    for port in ports.as_slice() {
        show_function_port(out, port);
        out.word(";");
    }
    out.word(")");
}

fn show_declaration(out: &mut Printer, declaration: &FunctionDeclaration) {
    match declaration {
        FunctionDeclaration::Input(port) => show_function_port(out, port),
        FunctionDeclaration::Reg(place, signed, range, names) => {
            out.at("reg", *place);
            show_vector(out, *signed, range);
            show_identifiers(out, names);
        }
        FunctionDeclaration::Integer(place, names) => {
            out.at("integer", *place);
            show_identifiers(out, names);
        }
    }
}

/// A function.
pub fn show_function(out: &mut Printer, function: &Function) {
    out.at("function", function.place);
    if function.automatic {
        out.word(" automatic");
    }
    show_type(out, &function.kind);
    out.word(" ");
    show_identifier(out, &function.name);
    if let Some(ports) = &function.ports {
        show_function_ports(out, ports);
    }
    out.word("{");
    for declaration in function.declarations.as_slice() {
        show_declaration(out, declaration);
        out.word(";");
    }
    out.word("} ");
    show_statement(out, &function.statement);
}
