//! The faults in declarations and items.

ghost use Rattle.std.specs.Prelude.{◌≡◌, ◌+◌, ◌^◌, ◌<◌, flat_map, is_some, length};
ghost use Rattle.std.specs.List.{list_any};
ghost use Rattle.vl_scope.specs.Faults.{earliest};
ghost use Rattle.vl_uses.specs.Settings.{constantly};
ghost use Rattle.vl_uses.specs.Nodes as n;
ghost use Rattle.vl_uses.specs.Walks.{faults, means};

use crate::expressions::note_expression;
use crate::names::Names;
use crate::parts::note_event;
use crate::setting::{Setting, Side, constantly, later, timely};
use crate::statements::{note_assignment, note_right_side, note_statement};
use vl_scope::fault::Fault;
use vl_tree::parts::Parts;
use vl_tree::source_tree::{
    Assignment, Connection, DeclarationAssignment, Event, Function, FunctionDeclaration,
    FunctionPort, Item, NamedInstance, ParameterAssignment, ParameterGroup, ParameterType,
    PortDeclaration, Ports, Range, Statement, Trigger, VariableMore, VariableType,
};
use vl_tree::tree::Expression;

/// Notes the faults in a range.
fn note_range(
    names: &Names<'_>,
    setting: Setting,
    range: &Range,
    best: Option<Fault>,
) -> Option<Fault>
    ensures { result ≡ earliest best (faults (means names.now) (n.range_nodes setting range.now)) }
{
    let setting = constantly(setting);
    let best = note_expression(names, setting, &range.left, best);
    note_expression(names, setting, &range.right, best)
}

/// Notes the faults in a range, if one is there.
fn note_optional_range(
    names: &Names<'_>,
    setting: Setting,
    range: &Option<Range>,
    best: Option<Fault>,
) -> Option<Fault>
    ensures { result ≡ earliest best (faults (means names.now) (n.given (n.range_nodes setting) range.now)) }
{
    match range {
        None => best,
        Some(range) => note_range(names, setting, range, best),
    }
}

/// Notes the faults in the type of a parameter or of a function's input or result.
fn note_type(
    names: &Names<'_>,
    setting: Setting,
    kind: &ParameterType,
    best: Option<Fault>,
) -> Option<Fault>
    ensures { result ≡ earliest best (faults (means names.now) (n.type_nodes setting kind.now)) }
{
    match kind {
        ParameterType::Integer => best,
        ParameterType::Vector(_, range) => note_optional_range(names, setting, range, best),
    }
}

/// Notes the faults in the values of parameters.
#[tactic(auto, unfolding(crate::specs::Nodes::parameter_nodes))]
fn note_parameters(
    names: &Names<'_>,
    setting: Setting,
    assignments: &[ParameterAssignment],
    best: Option<Fault>,
) -> Option<Fault>
    requires { setting.parameters + length assignments.now < 2 ^ 64 }
    ensures { result ≡ earliest best (faults (means names.now) (n.parameter_nodes setting assignments.now)) }
{
    let mut best = best;
    let mut setting = setting;
    for assignment in assignments {
        best = note_expression(names, constantly(setting), &assignment.value, best);
        setting = later(setting, 1);
    }
    best
}

/// Notes the faults in the parameters of a module's header.
#[tactic(auto, unfolding(crate::specs::Nodes::group_nodes))]
pub fn note_groups(
    names: &Names<'_>,
    setting: Setting,
    groups: &[ParameterGroup],
    best: Option<Fault>,
) -> Option<Fault>
    requires { setting.parameters + n.group_parameters groups.now < 2 ^ 64 }
    ensures { result ≡ earliest best (faults (means names.now) (n.group_nodes setting groups.now)) }
{
    let mut best = best;
    let mut setting = setting;
    for group in groups {
        let assignments = group.assignments.as_slice();
        best = note_type(names, setting, &group.kind, best);
        best = note_parameters(names, setting, assignments, best);
        setting = later(setting, assignments.len());
    }
    best
}

/// Notes the faults in the first value of a variable.
#[tactic(auto, unfolding(crate::specs::Nodes::first_value_nodes))]
fn note_first_value(
    names: &Names<'_>,
    setting: Setting,
    value: &Expression,
    best: Option<Fault>,
) -> Option<Fault>
    ensures { result ≡ earliest best (faults (means names.now) (n.first_value_nodes setting value.now)) }
{
    note_right_side(names, timely(setting), value, best)
}

/// Notes the faults in the first value of a variable, if it has one.
fn note_optional_first_value(
    names: &Names<'_>,
    setting: Setting,
    value: &Option<Expression>,
    best: Option<Fault>,
) -> Option<Fault>
    ensures { result ≡ earliest best (faults (means names.now) (n.given (n.first_value_nodes setting) value.now)) }
{
    match value {
        None => best,
        Some(value) => note_first_value(names, setting, value, best),
    }
}

/// Notes the faults in the first values of variables that are ports.
fn note_output_variables(
    names: &Names<'_>,
    setting: Setting,
    variables: &[DeclarationAssignment],
    best: Option<Fault>,
) -> Option<Fault>
    ensures { result ≡ earliest best (faults (means names.now) (n.output_variables_nodes setting variables.now)) }
{
    let mut best = best;
    for variable in variables {
        best = note_optional_first_value(names, setting, &variable.value, best);
    }
    best
}

/// Notes the faults in a port's declaration.
fn note_port(
    names: &Names<'_>,
    setting: Setting,
    port: &PortDeclaration,
    best: Option<Fault>,
) -> Option<Fault>
    ensures { result ≡ earliest best (faults (means names.now) (n.port_nodes setting port.now)) }
{
    match port {
        PortDeclaration::Net(_, _, _, _, range, _) => {
            note_optional_range(names, setting, range, best)
        }
        PortDeclaration::Reg(_, _, range, variables) => {
            let best = note_optional_range(names, setting, range, best);
            note_output_variables(names, setting, variables.as_slice(), best)
        }
        PortDeclaration::Integer(_, variables) => {
            note_output_variables(names, setting, variables.as_slice(), best)
        }
    }
}

/// Notes the faults in what stands in a module's parentheses.
pub fn note_ports(
    names: &Names<'_>,
    setting: Setting,
    ports: &Ports,
    best: Option<Fault>,
) -> Option<Fault>
    ensures { result ≡ earliest best (faults (means names.now) (n.ports_nodes setting ports.now)) }
{
    match ports {
        Ports::Empty | Ports::Names(_) => best,
        Ports::Declarations(ports) => {
            let mut best = best;
            for port in ports.as_slice() {
                best = note_port(names, setting, port, best);
            }
            best
        }
    }
}

/// Notes the faults in the values of nets.
fn note_nets(
    names: &Names<'_>,
    setting: Setting,
    nets: &[DeclarationAssignment],
    best: Option<Fault>,
) -> Option<Fault>
    ensures { result ≡ earliest best (faults (means names.now) (n.nets_nodes setting nets.now)) }
{
    let mut best = best;
    for net in nets {
        best = note_optional_expression(names, setting, &net.value, best);
    }
    best
}

/// Notes the faults in an expression, if one is there.
fn note_optional_expression(
    names: &Names<'_>,
    setting: Setting,
    expression: &Option<Expression>,
    best: Option<Fault>,
) -> Option<Fault>
    ensures { result ≡ earliest best (faults (means names.now) (n.given (n.expression_nodes setting) expression.now)) }
{
    match expression {
        None => best,
        Some(expression) => note_expression(names, setting, expression, best),
    }
}

/// Notes the faults in what stands behind a variable's name, if anything does.
fn note_variable(
    names: &Names<'_>,
    setting: Setting,
    more: &Option<VariableMore>,
    best: Option<Fault>,
) -> Option<Fault>
    ensures { result ≡ earliest best (faults (means names.now) (n.given (n.variable_nodes setting) more.now)) }
{
    match more {
        None => best,
        Some(VariableMore::Words(addresses)) => note_range(names, setting, addresses, best),
        Some(VariableMore::Value(value)) => note_first_value(names, setting, value, best),
    }
}

/// Notes the faults in the declarations of variables.
fn note_variables(
    names: &Names<'_>,
    setting: Setting,
    variables: &[VariableType],
    best: Option<Fault>,
) -> Option<Fault>
    ensures { result ≡ earliest best (faults (means names.now) (n.variables_nodes setting variables.now)) }
{
    let mut best = best;
    for variable in variables {
        best = note_variable(names, setting, &variable.more, best);
    }
    best
}

/// Notes the faults in continuous assignments.
fn note_assignments(
    names: &Names<'_>,
    setting: Setting,
    assignments: &[Assignment],
    best: Option<Fault>,
) -> Option<Fault>
    ensures { result ≡ earliest best (faults (means names.now) (n.continuous_nodes setting assignments.now)) }
{
    let mut best = best;
    for assignment in assignments {
        best = note_assignment(names, setting, Side::Continuous, assignment, best);
    }
    best
}

/// Whether one of the events has an edge.
fn have_edge(events: &[Event]) -> bool
    ensures { result ≡ list_any (λ a. is_some a.edge) events.now }
{
    for event in events {
        if event.edge.is_some() {
            return true;
        }
    }
    false
}

/// Whether a trigger has an edge.
fn is_clocked(trigger: &Trigger) -> bool
    ensures { result ≡ n.is_clocked trigger.now }
{
    match trigger {
        Trigger::Star | Trigger::Parenthesized => false,
        Trigger::Events(events) => have_edge(events.as_slice()),
    }
}

/// Notes the faults in a trigger.
fn note_trigger(
    names: &Names<'_>,
    setting: Setting,
    trigger: &Trigger,
    best: Option<Fault>,
) -> Option<Fault>
    ensures { result ≡ earliest best (faults (means names.now) (n.trigger_nodes setting trigger.now)) }
{
    match trigger {
        Trigger::Star | Trigger::Parenthesized => best,
        Trigger::Events(events) => {
            let mut best = best;
            for event in events.as_slice() {
                best = note_event(names, setting, &event.name, best);
            }
            best
        }
    }
}

/// Notes the faults in an `always`.
#[tactic(auto, unfolding(crate::specs::Nodes::always_nodes))]
fn note_always(
    names: &Names<'_>,
    setting: Setting,
    trigger: &Trigger,
    statement: &Statement,
    best: Option<Fault>,
) -> Option<Fault>
    ensures { result ≡ earliest best (faults (means names.now) (n.always_nodes setting trigger.now statement.now)) }
{
    let best = note_trigger(names, setting, trigger, best);
    if is_clocked(trigger) {
        note_statement(names, timely(setting), statement, best)
    } else {
        note_statement(names, setting, statement, best)
    }
}

/// Notes the faults in a connection or an override.
fn note_connection(
    names: &Names<'_>,
    setting: Setting,
    connection: &Connection,
    best: Option<Fault>,
) -> Option<Fault>
    ensures { result ≡ earliest best (faults (means names.now) (n.connection_nodes setting connection.now)) }
{
    match connection {
        Connection::Ordered(_, value) => note_optional_expression(names, setting, value, best),
        Connection::Named(_, _, value) => note_optional_expression(names, setting, value, best),
    }
}

/// Notes the faults in connections or overrides.
fn note_connections(
    names: &Names<'_>,
    setting: Setting,
    connections: &[Connection],
    best: Option<Fault>,
) -> Option<Fault>
    ensures { result ≡ earliest best (faults (means names.now) (n.connections_nodes setting connections.now)) }
{
    let mut best = best;
    for connection in connections {
        best = note_connection(names, setting, connection, best);
    }
    best
}

/// Notes the faults in the overrides of instances, if they have any.
fn note_overrides(
    names: &Names<'_>,
    setting: Setting,
    overrides: &Option<Parts<Connection>>,
    best: Option<Fault>,
) -> Option<Fault>
    ensures { result ≡ earliest best (faults (means names.now) (n.given (n.connections_nodes (constantly setting)) overrides.now)) }
{
    match overrides {
        None => best,
        Some(overrides) => {
            note_connections(names, constantly(setting), overrides.as_slice(), best)
        }
    }
}

/// Notes the faults in instances.
fn note_instances(
    names: &Names<'_>,
    setting: Setting,
    instances: &[NamedInstance],
    best: Option<Fault>,
) -> Option<Fault>
    ensures { result ≡ earliest best (faults (means names.now) (flat_map (n.named_instance_nodes setting) instances.now)) }
{
    let mut best = best;
    for instance in instances {
        best = note_connections(names, setting, instance.connections.as_slice(), best);
    }
    best
}

/// Notes the faults in an item that is no function.
pub fn note_item(
    names: &Names<'_>,
    setting: Setting,
    item: &Item,
    best: Option<Fault>,
) -> Option<Fault>
    requires { setting.parameters + n.item_parameters item.now < 2 ^ 64 }
    ensures { result ≡ earliest best (faults (means names.now) (n.item_nodes setting item.now)) }
{
    match item {
        Item::Port(port) => note_port(names, setting, port, best),
        Item::Parameter(_, _, kind, assignments) => {
            let best = note_type(names, setting, kind, best);
            note_parameters(names, setting, assignments.as_slice(), best)
        }
        Item::Wire(_, _, range, nets) => {
            let best = note_optional_range(names, setting, range, best);
            note_nets(names, setting, nets.as_slice(), best)
        }
        Item::Reg(_, _, range, variables) => {
            let best = note_optional_range(names, setting, range, best);
            note_variables(names, setting, variables.as_slice(), best)
        }
        Item::Integer(_, variables) => note_variables(names, setting, variables.as_slice(), best),
        Item::Assign(_, assignments) => {
            note_assignments(names, setting, assignments.as_slice(), best)
        }
        Item::Initial(_, statement) => note_statement(names, timely(setting), statement, best),
        Item::Always(_, trigger, statement) => {
            note_always(names, setting, trigger, statement, best)
        }
        Item::Function(_) => best,
        Item::Instance(instance) => {
            let best = note_overrides(names, setting, &instance.overrides, best);
            note_instances(names, setting, instance.instances.as_slice(), best)
        }
    }
}

/// Notes the faults in the types of a function's inputs.
fn note_inputs(
    names: &Names<'_>,
    setting: Setting,
    inputs: &[FunctionPort],
    best: Option<Fault>,
) -> Option<Fault>
    ensures { result ≡ earliest best (faults (means names.now) (n.inputs_nodes setting inputs.now)) }
{
    let mut best = best;
    for input in inputs {
        best = note_type(names, setting, &input.kind, best);
    }
    best
}

/// Notes the faults in the inputs in a function's parentheses, if they stand there.
fn note_optional_inputs(
    names: &Names<'_>,
    setting: Setting,
    inputs: &Option<Parts<FunctionPort>>,
    best: Option<Fault>,
) -> Option<Fault>
    ensures { result ≡ earliest best (faults (means names.now) (n.given (n.inputs_nodes setting) inputs.now)) }
{
    match inputs {
        None => best,
        Some(inputs) => note_inputs(names, setting, inputs.as_slice(), best),
    }
}

/// Notes the faults in a declaration of a function.
fn note_function_declaration(
    names: &Names<'_>,
    setting: Setting,
    declaration: &FunctionDeclaration,
    best: Option<Fault>,
) -> Option<Fault>
    ensures { result ≡ earliest best (faults (means names.now) (n.function_declaration_nodes setting declaration.now)) }
{
    match declaration {
        FunctionDeclaration::Input(input) => note_type(names, setting, &input.kind, best),
        FunctionDeclaration::Reg(_, _, range, _) => {
            note_optional_range(names, setting, range, best)
        }
        FunctionDeclaration::Integer(_, _) => best,
    }
}

/// Notes the faults in the declarations of a function.
fn note_function_declarations(
    names: &Names<'_>,
    setting: Setting,
    declarations: &[FunctionDeclaration],
    best: Option<Fault>,
) -> Option<Fault>
    ensures { result ≡ earliest best (faults (means names.now) (flat_map (n.function_declaration_nodes setting) declarations.now)) }
{
    let mut best = best;
    for declaration in declarations {
        best = note_function_declaration(names, setting, declaration, best);
    }
    best
}

/// Notes the faults in a function.
pub fn note_function(
    names: &Names<'_>,
    setting: Setting,
    function: &Function,
    best: Option<Fault>,
) -> Option<Fault>
    ensures { result ≡ earliest best (faults (means names.now) (n.function_nodes setting function.now)) }
{
    let best = note_type(names, setting, &function.kind, best);
    let best = note_optional_inputs(names, setting, &function.ports, best);
    let best = note_function_declarations(names, setting, function.declarations.as_slice(), best);
    note_statement(names, setting, &function.statement, best)
}
