//! Sources as texts.

use crate::parsing::declarations::{
    show_assigned, show_function, show_parameters, show_port, show_type, show_variables,
    show_vector,
};
use crate::parsing::expressions::show_identifier;
use crate::parsing::parts::{show_assignment, show_identifiers, show_optional};
use crate::parsing::printer::Printer;
use crate::parsing::statements::show_statement;
use vl_tree::parts::Parts;
use vl_tree::source_tree::{
    Connection, Edge, Event, Instance, Item, Module, NamedInstance, ParameterGroup,
    ParameterKeyword, Ports, Source, Trigger,
};

fn show_connection(out: &mut Printer, connection: &Connection) {
    match connection {
        Connection::Ordered(place, value) => {
            out.place(*place);
            show_optional(out, value);
        }
        Connection::Named(place, name, value) => {
            out.at(".", *place);
            show_identifier(out, name);
            show_optional(out, value);
        }
    }
}

fn show_connections(out: &mut Printer, connections: &Parts<Connection>) {
    out.word("(");
    for connection in connections.as_slice() {
        show_connection(out, connection);
        out.word(";");
    }
    out.word(")");
}

fn show_named(out: &mut Printer, instance: &NamedInstance) {
    out.at(" ", instance.place);
    show_identifier(out, &instance.name);
    show_connections(out, &instance.connections);
}

fn show_instance(out: &mut Printer, instance: &Instance) {
    out.place(instance.place);
    show_identifier(out, &instance.definition);
    if let Some(overrides) = &instance.overrides {
        out.word("#");
        show_connections(out, overrides);
    }
    for each in instance.instances.as_slice() {
        show_named(out, each);
    }
}

fn edge(edge: Option<Edge>) -> &'static str {
    match edge {
        Some(Edge::Rising) => "posedge ",
        Some(Edge::Falling) => "negedge ",
        None => "",
    }
}

fn show_event(out: &mut Printer, event: &Event) {
    out.place(event.place);
    out.word(edge(event.edge));
    show_identifier(out, &event.name);
}

fn show_trigger(out: &mut Printer, trigger: &Trigger) {
    match trigger {
        Trigger::Star => out.word("*"),
        Trigger::Parenthesized => out.word("(*)"),
        Trigger::Events(events) => {
            out.word("(");
            for event in events.as_slice() {
                show_event(out, event);
                out.word(";");
            }
            out.word(")");
        }
    }
}

fn word(keyword: ParameterKeyword) -> &'static str {
    match keyword {
        ParameterKeyword::Parameter => "parameter",
        ParameterKeyword::Local => "localparam",
    }
}

fn show_item(out: &mut Printer, item: &Item) {
    match item {
        Item::Port(port) => show_port(out, port),
        Item::Parameter(place, keyword, kind, assignments) => {
            out.at(word(*keyword), *place);
            show_type(out, kind);
            show_parameters(out, assignments);
        }
        Item::Wire(place, signed, range, nets) => {
            out.at("wire", *place);
            show_vector(out, *signed, range);
            show_assigned(out, nets);
        }
        Item::Reg(place, signed, range, variables) => {
            out.at("reg", *place);
            show_vector(out, *signed, range);
            show_variables(out, variables);
        }
        Item::Integer(place, variables) => {
            out.at("integer", *place);
            show_variables(out, variables);
        }
        Item::Assign(place, assignments) => {
            out.at("assign", *place);
            for assignment in assignments.as_slice() {
                out.word(" ");
                show_assignment(out, assignment);
            }
        }
        Item::Initial(place, statement) => {
            out.at("initial", *place);
            out.word(" ");
            show_statement(out, statement);
        }
        Item::Always(place, trigger, statement) => {
            out.at("always", *place);
            show_trigger(out, trigger);
            out.word(" ");
            show_statement(out, statement);
        }
        Item::Function(function) => show_function(out, function),
        Item::Instance(instance) => show_instance(out, instance),
    }
}

fn show_group(out: &mut Printer, group: &ParameterGroup) {
    out.place(group.place);
    show_type(out, &group.kind);
    show_parameters(out, &group.assignments);
    out.word(";");
}

fn show_groups(out: &mut Printer, groups: &Parts<ParameterGroup>) {
    out.word(" #(");
    for group in groups.as_slice() {
        show_group(out, group);
    }
    out.word(")");
}

fn show_ports(out: &mut Printer, ports: &Ports) {
    out.word(" (");
    match ports {
        Ports::Empty => {}
        Ports::Names(names) => show_identifiers(out, names),
        Ports::Declarations(ports) => {
            for port in ports.as_slice() {
                show_port(out, port);
                out.word(";");
            }
        }
    }
    out.word(")");
}

fn show_module(out: &mut Printer, module: &Module) {
    out.place(module.place);
    show_identifier(out, &module.name);
    if let Some(groups) = &module.parameters {
        show_groups(out, groups);
    }
    if let Some(ports) = &module.ports {
        show_ports(out, ports);
    }
    out.word(" {");
    for item in module.items.as_slice() {
        show_item(out, item);
        out.word(";");
    }
    out.word("}");
}

/// A source.
pub fn show_source(out: &mut Printer, source: &Source) {
    out.place(source.place);
    for module in source.modules.as_slice() {
        out.word(" ");
        show_module(out, module);
    }
}
