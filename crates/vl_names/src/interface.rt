//! The ports of modules and the parameters that instances may override.

ghost use Rattle.std.specs.Prelude.{◌≡◌, ◌++◌, flat_map, map, IfOk, OnOk, length};
ghost use Rattle.std.specs.Option.{option_map_or};
ghost use Rattle.vl_scope.specs.DeclarationFaults.{names_have};
ghost use Rattle.vl_scope.specs.vl_tree.specs.Hierarchy as spec;
ghost use Rattle.vl_names.specs.Seen as seen;

use indexmap::IndexMap;
use std::alloc::{AllocError, Global};
use vl_scope::parts::Parts;
use vl_scope::source_tree::{
    DeclarationAssignment, Item, Module, ParameterAssignment, ParameterGroup, ParameterKeyword,
    PortDeclaration, Ports, Source,
};
use vl_scope::tree::Identifier;

/// Names, by their spelling.
pub type Known<'a> = IndexMap<&'a [u8], usize>;

/// Names in an order: how many they are, and their spellings.
#[derive(Drop)]
pub struct Listed<'a> {
    /// How many they are.
    pub count: usize,
    /// Their spellings.
    pub known: Known<'a>,
}

/// What an instance of a module may be given.
#[derive(Drop)]
pub struct Interface<'a> {
    /// The module's ports.
    pub ports: Listed<'a>,
    /// The parameters that may be overridden.
    pub parameters: Listed<'a>,
}

/// Adds names.
fn add_names<'a>(names: &mut Vec<&'a Identifier>, more: &'a [Identifier]) -> Result<(), AllocError>
    ensures { OnOk result (seen.nows names.new.items ≡ seen.nows names.old.items ++ more.now) }
{
    for name in more {
        names.push(name)?;
    }
    Ok(())
}

/// Adds the names of declared outputs.
fn add_outputs<'a>(
    names: &mut Vec<&'a Identifier>,
    more: &'a [DeclarationAssignment],
) -> Result<(), AllocError>
    ensures { OnOk result (seen.nows names.new.items ≡ seen.nows names.old.items ++ map (λ a. a.name) more.now) }
{
    for output in more {
        names.push(&output.name)?;
    }
    Ok(())
}

/// Adds the names of parameters.
fn add_parameters<'a>(
    names: &mut Vec<&'a Identifier>,
    more: &'a [ParameterAssignment],
) -> Result<(), AllocError>
    ensures { OnOk result (seen.nows names.new.items ≡ seen.nows names.old.items ++ spec.assigned more.now) }
{
    for parameter in more {
        names.push(&parameter.name)?;
    }
    Ok(())
}

/// Adds the names that a port declaration declares.
fn add_declared<'a>(
    names: &mut Vec<&'a Identifier>,
    declaration: &'a PortDeclaration,
) -> Result<(), AllocError>
    ensures { OnOk result (seen.nows names.new.items ≡ seen.nows names.old.items ++ spec.declared_names declaration.now) }
{
    match declaration {
        PortDeclaration::Net(_, _, _, _, _, more) => add_names(names, more.as_slice()),
        PortDeclaration::Reg(_, _, _, more) => add_outputs(names, more.as_slice()),
        PortDeclaration::Integer(_, more) => add_outputs(names, more.as_slice()),
    }
}

/// The names that port declarations declare, in order.
fn declared_names<'a>(
    alloc: Global,
    declarations: &'a [PortDeclaration],
) -> Result<Vec<&'a Identifier>, AllocError>
    ensures { IfOk result (λ names. seen.nows names.items ≡ flat_map spec.declared_names declarations.now) }
{
    let mut names = Vec::new(alloc);
    for declaration in declarations {
        add_declared(&mut names, declaration)?;
    }
    Ok(names)
}

/// The ports that stand in a module's parentheses, in order.
pub fn ports(alloc: Global, header: &Option<Ports>) -> Result<Vec<&Identifier>, AllocError>
    ensures { IfOk result (λ names. seen.nows names.items ≡ spec.header_names header.now) }
{
    match header {
        None => Ok(Vec::new(alloc)),
        Some(Ports::Empty) => Ok(Vec::new(alloc)),
        Some(Ports::Names(more)) => {
            let mut names = Vec::new(alloc);
            add_names(&mut names, more.as_slice())?;
            Ok(names)
        }
        Some(Ports::Declarations(declarations)) => declared_names(alloc, declarations.as_slice()),
    }
}

/// The parameters that a module's header declares, in order.
fn header_parameters<'a>(
    alloc: Global,
    groups: &'a [ParameterGroup],
) -> Result<Vec<&'a Identifier>, AllocError>
    ensures { IfOk result (λ names. seen.nows names.items ≡ flat_map (λ g. spec.assigned g.assignments) groups.now) }
{
    let mut names = Vec::new(alloc);
    for group in groups {
        add_parameters(&mut names, group.assignments.as_slice())?;
    }
    Ok(names)
}

/// Adds the names of parameters that the keyword `parameter` declares.
fn add_by_keyword<'a>(
    names: &mut Vec<&'a Identifier>,
    keyword: ParameterKeyword,
    more: &'a [ParameterAssignment],
) -> Result<(), AllocError>
    ensures { OnOk result (seen.nows names.new.items ≡ seen.nows names.old.items ++ spec.keyword_parameters keyword more.now) }
{
    match keyword {
        ParameterKeyword::Parameter => add_parameters(names, more),
        ParameterKeyword::Local => Ok(()),
    }
}

/// The parameters that items declare and that may be overridden, in order.
fn item_parameters<'a>(alloc: Global, items: &'a [Item]) -> Result<Vec<&'a Identifier>, AllocError>
    ensures { IfOk result (λ names. seen.nows names.items ≡ flat_map spec.item_parameters items.now) }
{
    let mut names = Vec::new(alloc);
    for item in items {
        if let Item::Parameter(_, keyword, _, more) = item {
            add_by_keyword(&mut names, *keyword, more.as_slice())?;
        }
    }
    Ok(names)
}

/// The parameters of a module that may be overridden, in order.
fn overridable(alloc: Global, tree: &Module) -> Result<Vec<&Identifier>, AllocError>
    ensures { IfOk result (λ names. seen.nows names.items ≡ spec.overridable tree.now) }
{
    match &tree.parameters {
        Some(groups) => header_parameters(alloc, groups.as_slice()),
        None => item_parameters(alloc, tree.items.as_slice()),
    }
}

/// Adds a spelling to those that are known.
pub fn add<'a>(known: &mut Known<'a>, name: &'a [u8]) -> Result<(), AllocError>
    ensures { OnOk result (seen.has known.new ≡ seen.with_name (seen.has known.old) name.now) }
{
    known.insert(name, 0)?;
    Ok(())
}

/// The spellings of names.
#[tactic(auto, using(crate::proofs::Steps::walks))]
fn known_of<'a>(alloc: Global, names: &[&'a Identifier]) -> Result<Known<'a>, AllocError>
    ensures { IfOk result (λ known. seen.has known ≡ names_have (seen.nows names.now)) }
{
    let mut known = IndexMap::new(alloc);
    for name in names {
        add(&mut known, name.name.as_slice())?;
    }
    Ok(known)
}

/// Names by their spellings and their count.
fn listed_of<'a>(alloc: Global, names: &[&'a Identifier]) -> Result<Listed<'a>, AllocError>
    ensures { IfOk result (λ l. seen.Lists l (seen.nows names.now)) }
{
    Ok(Listed {
        count: names.len(),
        known: known_of(alloc, names)?,
    })
}

/// What an instance of a module may be given.
fn interface_of(alloc: Global, tree: &Module) -> Result<Interface<'_>, AllocError>
    ensures { IfOk result (λ i. seen.Describes i tree.now) }
{
    let names = ports(alloc, &tree.ports)?;
    let parameters = overridable(alloc, tree)?;
    Ok(Interface {
        ports: listed_of(alloc, &names)?,
        parameters: listed_of(alloc, &parameters)?,
    })
}

/// What an instance of each module may be given.
pub fn interfaces(alloc: Global, source: &Source) -> Result<Vec<Interface<'_>>, AllocError>
    ensures { IfOk result (λ all. seen.DescribeAll all.items source.now.modules) }
{
    let mut all = Vec::new(alloc);
    for tree in source.modules.as_slice() {
        all.push(interface_of(alloc, tree)?)?;
    }
    Ok(all)
}

/// Whether one of the names is spelled so.
fn is_among(names: &[&Identifier], text: &[u8]) -> bool
    ensures { result ≡ names_have (seen.nows names.now) text.now }
{
    for name in names {
        if text == name.name.as_slice() {
            return true;
        }
    }
    false
}

/// Whether a port declaration declares a name.
pub fn declares(
    alloc: Global,
    declaration: &PortDeclaration,
    text: &[u8],
) -> Result<bool, AllocError>
    ensures { IfOk result (λ yes. yes ≡ names_have (spec.declared_names declaration.now) text.now) }
{
    let mut names = Vec::new(alloc);
    add_declared(&mut names, declaration)?;
    Ok(is_among(&names, text))
}
