//! What the declarations of a module say of each name.

ghost use Rattle.std.specs.Prelude.{◌≡◌, ◌∷◌, [], map, flat_map, IfOk, OnOk};
ghost use Rattle.elab_plain.specs.vl_flat.specs.Items as x;
ghost use Rattle.elab_plain.specs.vl_flat.specs.Kinds.{gives_input as gives_input_lem, signals_in};
ghost use Rattle.elab_plain.specs.SeenItems.{seen_type, seen_declared, seen_item};
ghost use Rattle.elab_kinds.specs.Said as spec;

use elab_plain::items::{DataType, Declared, Item};
use elab_plain::source_tree::Direction;
use indexmap::IndexMap;
use std::alloc::{AllocError, Global};

/// What the declarations of a name say, each by any of them.
#[derive(Clone, Copy)]
pub struct Declaration {
    /// It is an input.
    pub input: bool,
    /// It has a value of its own.
    pub valued: bool,
    /// It is a memory.
    pub memory: bool,
    /// It is a variable.
    pub variable: bool,
}

/// What is said of each name.
pub type Declarations<'m> = IndexMap<&'m [u8], Declaration>;

/// It is the direction input.
fn gives_input(direction: Option<Direction>) -> bool
    ensures { result ≡ gives_input_lem direction }
{
    matches!(direction, Some(Direction::Input))
}

/// What a declaration says.
fn declaration_of(d: &Declared) -> Declaration
    ensures { result ≡ spec.declaration_of d.now }
{
    Declaration {
        input: gives_input(d.direction),
        valued: d.value.is_some(),
        memory: d.words.is_some(),
        variable: d.variable,
    }
}

/// What one or the other says.
fn either(a: Declaration, b: Declaration) -> Declaration
    ensures { result ≡ spec.either a b }
{
    Declaration {
        input: a.input || b.input,
        valued: a.valued || b.valued,
        memory: a.memory || b.memory,
        variable: a.variable || b.variable,
    }
}

/// What is said of a name.
pub(crate) fn declaration_at(declared: &Declarations<'_>, name: &[u8]) -> Declaration
    ensures { result ≡ spec.declaration_at declared.now name.now }
{
    declared.get(name).copied().unwrap_or(Declaration {
        input: false,
        valued: false,
        memory: false,
        variable: false,
    })
}

/// Adds what a declaration says.
fn add_declaration<'m>(declared: &mut Declarations<'m>, d: &'m Declared) -> Result<(), AllocError>
    ensures { OnOk result ((type : x.DataType) → spec.declaration_at declared.new ≡ (λ t. spec.either (spec.declaration_at declared.old t) (spec.said (seen_declared type d.entry.now ∷ []) t))) }
{
    let name = d.name.name.as_slice();
    let before = declaration_at(declared, name);
    declared.insert(name, either(before, declaration_of(d)))?;
    Ok(())
}

/// Adds what declarations of one type say.
fn add_declarations<'m>(
    declared: &mut Declarations<'m>,
    ds: &'m [Declared],
) -> Result<(), AllocError>
    ensures { OnOk result ((type : x.DataType) → spec.declaration_at declared.new ≡ (λ t. spec.either (spec.declaration_at declared.old t) (spec.said (map (seen_declared type) ds.entry.now) t))) }
{
    for d in ds {
        add_declaration(declared, d)?;
    }
    Ok(())
}

/// Adds what the declarations of an item say.
fn add_item<'m>(declared: &mut Declarations<'m>, item: &'m Item) -> Result<(), AllocError>
    ensures { OnOk result (spec.declaration_at declared.new ≡ (λ t. spec.either (spec.declaration_at declared.old t) (spec.said (signals_in (seen_item item.entry.now)) t))) }
{
    match item {
        Item::Signals(_, ds) => add_declarations(declared, ds.as_slice()),
        _ => Ok(()),
    }
}

/// Adds what the declarations of items say.
fn add_items<'m>(declared: &mut Declarations<'m>, items: &'m [Item]) -> Result<(), AllocError>
    ensures { OnOk result (spec.declaration_at declared.new ≡ (λ t. spec.either (spec.declaration_at declared.old t) (spec.said (flat_map signals_in (map seen_item items.entry.now)) t))) }
{
    for item in items {
        add_item(declared, item)?;
    }
    Ok(())
}

/// What the declarations of a module say.
pub(crate) fn declarations(alloc: Global, items: &[Item]) -> Result<Declarations<'_>, AllocError>
    ensures { IfOk result (λ r. spec.declaration_at r ≡ spec.said (flat_map signals_in (map seen_item items.entry.now))) }
{
    let mut declared = IndexMap::new(alloc);
    add_items(&mut declared, items).and(Ok(declared))
}
