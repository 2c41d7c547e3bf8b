//! The trees of sources (IEEE 1364-2005, annexes A.1 to A.6).
//!
//! Each production has a type of its name. A declaration, as of a parameter, a net or a variable, has the place of its
//! name, an empty connection that of its instance's name, and each other node that of its first token.

use crate::parts::{Boxed, Parts};
use crate::tree::{Expression, Identifier, Name, SystemCall};
use vl_base::place::Place;

/// `source = module { module }` (annex A.1.2).
#[derive(Drop)]
pub struct Source {
    /// The place of its first token.
    pub place: Place,
    /// The modules, in order: at least one.
    pub modules: Parts<Module>,
}

/// `"module" id [ "#" "(" pgroup { "," pgroup } ")" ] [ "(" [ plist | alist ] ")" ] ";" { item } "endmodule"` (clause 12.1).
#[derive(Drop)]
pub struct Module {
    /// The place of `module`.
    pub place: Place,
    /// Its name.
    pub name: Identifier,
    /// What stands behind the `#`, if it does.
    pub parameters: Option<Parts<ParameterGroup>>,
    /// What stands in parentheses, if they do.
    pub ports: Option<Ports>,
    /// The items, in order.
    pub items: Parts<Item>,
}

/// `pgroup = "parameter" ptype pset { "," pset }` (clause 4.10.1).
#[derive(Drop)]
pub struct ParameterGroup {
    /// The place of `parameter`.
    pub place: Place,
    /// The type of each.
    pub kind: ParameterType,
    /// The parameters: at least one.
    pub assignments: Parts<ParameterAssignment>,
}

/// `ptype = "integer" | [ "signed" ] [ range ]`: the type of a parameter or of a function's input or result.
#[derive(Drop)]
pub enum ParameterType {
    /// `integer`
    Integer,
    /// Whether `signed` stands there, and the range.
    Vector(bool, Option<Range>),
}

/// `pset = id "=" expr` (annex A.2.4, param_assignment).
#[derive(Drop)]
pub struct ParameterAssignment {
    /// The place of the name.
    pub place: Place,
    /// The name.
    pub name: Identifier,
    /// The value.
    pub value: Expression,
}

/// What stands in a module's parentheses (clause 12.3).
#[derive(Drop)]
pub enum Ports {
    /// Nothing.
    Empty,
    /// `plist = id { "," id }`: names, declared by items.
    Names(Parts<Identifier>),
    /// `alist = aport { "," aport }`: declarations.
    Declarations(Parts<PortDeclaration>),
}

/// `aport` (clauses 12.3.3 and 12.3.4).
#[derive(Drop)]
pub enum PortDeclaration {
    /// `("input" | "output") [ "wire" ] [ "signed" ] [ range ] id { "," id }`
    Net(Place, Direction, bool, bool, Option<Range>, Parts<Identifier>),
    /// `"output" "reg" [ "signed" ] [ range ] aset { "," aset }`
    Reg(Place, bool, Option<Range>, Parts<DeclarationAssignment>),
    /// `"output" "integer" aset { "," aset }`
    Integer(Place, Parts<DeclarationAssignment>),
}

/// The direction of a port (clause 12.3.3).
#[derive(Clone, Copy, Debug, PartialEq, Eq)]
pub enum Direction {
    /// `input`
    Input,
    /// `output`
    Output,
}

/// `aset = id [ "=" expr ]` (annex A.2.4, net_decl_assignment).
#[derive(Drop)]
pub struct DeclarationAssignment {
    /// The place of the name.
    pub place: Place,
    /// The name.
    pub name: Identifier,
    /// The value, if one stands there.
    pub value: Option<Expression>,
}

/// `range = "[" expr ":" expr "]"` (clause 4.3.1).
#[derive(Drop)]
pub struct Range {
    /// The place of its `[`.
    pub place: Place,
    /// What stands on the left.
    pub left: Expression,
    /// What stands on the right.
    pub right: Expression,
}

/// `item` (annex A.1.4, module_item).
#[derive(Drop)]
pub enum Item {
    /// `aport ";"` (clause 12.3.3).
    Port(PortDeclaration),
    /// `("parameter" | "localparam") ptype pset { "," pset } ";"` (clause 4.10).
    Parameter(Place, ParameterKeyword, ParameterType, Parts<ParameterAssignment>),
    /// `"wire" [ "signed" ] [ range ] aset { "," aset } ";"` (clauses 4.2 and 6.1.1).
    Wire(Place, bool, Option<Range>, Parts<DeclarationAssignment>),
    /// `"reg" [ "signed" ] [ range ] vset { "," vset } ";"` (clauses 4.2.2 and 4.9).
    Reg(Place, bool, Option<Range>, Parts<VariableType>),
    /// `"integer" vset { "," vset } ";"` (clause 4.8).
    Integer(Place, Parts<VariableType>),
    /// `"assign" lset { "," lset } ";"` (clause 6.1.2).
    Assign(Place, Parts<Assignment>),
    /// `"initial" stmt` (clause 9.9.1).
    Initial(Place, Statement),
    /// `"always" "@" trigger stmt` (clauses 9.7 and 9.9.2).
    Always(Place, Trigger, Statement),
    /// `function`
    Function(Function),
    /// `instance`
    Instance(Instance),
}

/// Which word declares a parameter (clause 4.10.2).
#[derive(Clone, Copy, Debug, PartialEq, Eq)]
pub enum ParameterKeyword {
    /// `parameter`
    Parameter,
    /// `localparam`
    Local,
}

/// `vset = id [ range | "=" expr ]` (annex A.2.4, variable_type).
#[derive(Drop)]
pub struct VariableType {
    /// The place of the name.
    pub place: Place,
    /// The name.
    pub name: Identifier,
    /// What stands behind it, if anything does.
    pub more: Option<VariableMore>,
}

/// What stands behind a variable's name in its declaration.
#[derive(Drop)]
pub enum VariableMore {
    /// The addresses of a memory (clause 4.9).
    Words(Range),
    /// The first value (clause 6.2.1).
    Value(Expression),
}

/// `lset = lvalue "=" expr` (annex A.6.1, net_assignment, and A.6.2, variable_assignment).
#[derive(Drop)]
pub struct Assignment {
    /// The place of the left side.
    pub place: Place,
    /// The left side.
    pub target: Lvalue,
    /// The right side.
    pub value: Expression,
}

/// `trigger` (clause 9.7.5 and annex A.6.5, event_control).
#[derive(Drop)]
pub enum Trigger {
    /// `"*"`
    Star,
    /// `"(" "*" ")"`
    Parenthesized,
    /// `"(" event { ("or" | ",") event } ")"`
    Events(Parts<Event>),
}

/// `event = [ "posedge" | "negedge" ] id` (annex A.6.5, event_expression).
#[derive(Drop)]
pub struct Event {
    /// The place of its first token.
    pub place: Place,
    /// The edge, if one stands there.
    pub edge: Option<Edge>,
    /// The name.
    pub name: Identifier,
}

/// An edge (clause 9.7.2).
#[derive(Clone, Copy, Debug, PartialEq, Eq)]
pub enum Edge {
    /// `posedge`
    Rising,
    /// `negedge`
    Falling,
}

/// `"function" [ "automatic" ] ptype id ( "(" fport { "," fport } ")" ";" | ";" ) { fdecl } stmt "endfunction"` (clause 10.4).
#[derive(Drop)]
pub struct Function {
    /// The place of `function`.
    pub place: Place,
    /// Whether `automatic` stands there.
    pub automatic: bool,
    /// The type of the result.
    pub kind: ParameterType,
    /// The name.
    pub name: Identifier,
    /// What stands in parentheses, if they do.
    pub ports: Option<Parts<FunctionPort>>,
    /// The declarations, in order.
    pub declarations: Parts<FunctionDeclaration>,
    /// The statement.
    pub statement: Statement,
}

/// `fport = "input" ptype id { "," id }` (annex A.2.7, tf_input_declaration).
#[derive(Drop)]
pub struct FunctionPort {
    /// The place of `input`.
    pub place: Place,
    /// The type of each.
    pub kind: ParameterType,
    /// The names: at least one.
    pub names: Parts<Identifier>,
}

/// `fdecl` (annex A.2.6, function_item_declaration).
#[derive(Drop)]
pub enum FunctionDeclaration {
    /// `fport ";"`
    Input(FunctionPort),
    /// `"reg" [ "signed" ] [ range ] id { "," id } ";"`
    Reg(Place, bool, Option<Range>, Parts<Identifier>),
    /// `"integer" id { "," id } ";"`
    Integer(Place, Parts<Identifier>),
}

/// `instance = id [ "#" "(" conns ")" ] inst { "," inst } ";"` (annex A.4.1, module_instantiation).
#[derive(Drop)]
pub struct Instance {
    /// The place of its first token.
    pub place: Place,
    /// The name of the module.
    pub definition: Identifier,
    /// What stands behind the `#`, if it does.
    pub overrides: Option<Parts<Connection>>,
    /// The instances: at least one.
    pub instances: Parts<NamedInstance>,
}

/// `inst = id "(" conns ")"` (annex A.4.1, module_instance).
#[derive(Drop)]
pub struct NamedInstance {
    /// The place of its first token.
    pub place: Place,
    /// The name.
    pub name: Identifier,
    /// The connections: at least one, which may be empty.
    pub connections: Parts<Connection>,
}

/// `conn = [ expr ] | "." id "(" [ expr ] ")"` (clauses 12.3.5 and 12.3.6).
#[derive(Drop)]
pub enum Connection {
    /// `[ expr ]`: by its place in the list.
    Ordered(Place, Option<Expression>),
    /// `"." id "(" [ expr ] ")"`: by name.
    Named(Place, Identifier, Option<Expression>),
}

/// `stmt` (annex A.6.4).
#[cycle(statement)]
#[derive(Drop)]
pub enum Statement {
    /// `";"`
    Null(Place),
    /// `"begin" [ ":" id ] { stmt } "end"` (clause 9.8.1). The label isn't kept.
    Block(Place, Parts<Statement>),
    /// `"if" "(" expr ")" stmt [ "else" stmt ]` (clause 9.4).
    If(Place, Expression, Boxed<Statement>, Option<Boxed<Statement>>),
    /// `("case" | "casez") "(" expr ")" citem { citem } "endcase"` (clause 9.5).
    Case(Place, CaseKeyword, Expression, Parts<CaseItem>),
    /// `"for" "(" lset ";" expr ";" lset ")" stmt` (clause 9.6).
    For(Place, Assignment, Expression, Assignment, Boxed<Statement>),
    /// `"repeat" "(" expr ")" stmt` (clause 9.6).
    Repeat(Place, Expression, Boxed<Statement>),
    /// `lvalue ("=" | "<=") expr ";"` (clause 9.2).
    Assign(Place, Lvalue, AssignMark, Expression),
    /// `system [ "(" sarg { "," sarg } ")" ] ";"` (clause 17).
    System(Place, SystemCall),
}

/// Which word begins a case (clauses 9.5 and 9.5.1).
#[derive(Clone, Copy, Debug, PartialEq, Eq)]
pub enum CaseKeyword {
    /// `case`
    Case,
    /// `casez`
    Casez,
}

/// The mark of a procedural assignment (clauses 9.2.1 and 9.2.2).
#[derive(Clone, Copy, Debug, PartialEq, Eq)]
pub enum AssignMark {
    /// `=`
    Blocking,
    /// `<=`
    Nonblocking,
}

/// `citem` (annex A.6.7, case_item).
#[cycle(statement)]
#[derive(Drop)]
pub enum CaseItem {
    /// `expr { "," expr } ":" stmt`
    Labels(Place, Parts<Expression>, Boxed<Statement>),
    /// `"default" [ ":" ] stmt`
    Default(Place, Boxed<Statement>),
}

/// `lvalue = name | "{" lvalue { "," lvalue } "}"` (annex A.8.5).
#[cycle(lvalue)]
#[derive(Drop)]
pub enum Lvalue {
    /// A name with its selects.
    Name(Name),
    /// `"{" lvalue { "," lvalue } "}"`
    Concatenation(Place, Parts<Lvalue>),
}
