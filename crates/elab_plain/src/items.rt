//! Modules and their items with their operators bound (IEEE 1364-2005, clause 12).
//!
//! Items stand in text order, those of the header first.

use crate::surface::{Ex, Left, Statement};
use vl_tree::source_tree::{Direction, Trigger};
use vl_tree::tree::Identifier;
use vl_tree::{Place, Text};

/// What stands around the colon of a range.
#[derive(Drop)]
pub struct Bounds {
    /// The left one.
    pub left: Ex,
    /// The right one.
    pub right: Ex,
}

/// The type of a declaration.
#[derive(Drop)]
pub enum DataType {
    /// `integer`
    Integer,
    /// Whether it is signed, and its range.
    Vector(bool, Option<Bounds>),
}

/// A declaration of a signal, but for its type.
#[derive(Drop)]
pub struct Declared {
    /// The name.
    pub name: Identifier,
    /// The direction, if it gives one.
    pub direction: Option<Direction>,
    /// It is of a variable.
    pub variable: bool,
    /// The addresses of a memory.
    pub words: Option<Bounds>,
    /// The value.
    pub value: Option<Ex>,
}

/// A parameter with its default.
#[derive(Drop)]
pub struct Parameter {
    /// The name.
    pub name: Identifier,
    /// The default.
    pub value: Ex,
}

/// A left side with its right side.
#[derive(Drop)]
pub struct Setting {
    /// The left side.
    pub target: Left,
    /// The right side.
    pub value: Ex,
}

/// Variables of a function that are declared together.
#[derive(Drop)]
pub struct Locals {
    /// The type of each.
    pub kind: DataType,
    /// They are inputs.
    pub is_input: bool,
    /// They are neither inputs nor the result.
    pub is_free: bool,
    /// The names.
    pub names: Vec<Identifier>,
}

/// A function (IEEE 1364-2005, clause 10.4.1).
#[derive(Drop)]
pub struct Function {
    /// The name.
    pub name: Identifier,
    /// The type of its result.
    pub kind: DataType,
    /// Its variables but for the result, in text order.
    pub locals: Vec<Locals>,
    /// What it does.
    pub body: Statement,
}

/// A connection or an override.
#[derive(Drop)]
pub struct Connection {
    /// Where it stands.
    pub place: Place,
    /// The name, if it has one.
    pub name: Option<Text>,
    /// What is connected.
    pub value: Option<Ex>,
}

/// One instance of a list.
#[derive(Drop)]
pub struct NamedUnit {
    /// The name.
    pub name: Identifier,
    /// Its connections.
    pub connections: Vec<Connection>,
}

/// Instances of one module with the same overrides.
#[derive(Drop)]
pub struct Instances {
    /// The place of the first token.
    pub place: Place,
    /// The name of the module.
    pub definition: Text,
    /// The overrides.
    pub overrides: Vec<Connection>,
    /// The instances.
    pub units: Vec<NamedUnit>,
}

/// An item of a module.
#[derive(Drop)]
pub enum Item {
    /// Parameters of one type.
    Parameters(DataType, Vec<Parameter>),
    /// Signals of one type.
    Signals(DataType, Vec<Declared>),
    /// Continuous assignments.
    Assigns(Vec<Setting>),
    /// What is done once.
    Initial(Place, Statement),
    /// What is done at each event.
    Always(Place, Trigger, Statement),
    /// A function.
    Functions(Function),
    /// Instances.
    Instantiates(Instances),
}

/// A module.
#[derive(Drop)]
pub struct Module {
    /// The name.
    pub name: Identifier,
    /// The ports in order.
    pub ports: Vec<Identifier>,
    /// The parameters that an instance may override, in order.
    pub parameters: Vec<Identifier>,
    /// The items.
    pub items: Vec<Item>,
}
