//! What is known of the declarations of a name so far.

ghost use Rattle.std.specs.Prelude.{◌≡◌, ℕ, List, OnOk};
ghost use Rattle.vl_scope.specs.Declarations.{seen};
ghost use Rattle.vl_scope.specs.DeclarationFaults.{is_input as is_input_lem, is_no_port as is_no_port_lem, is_memory as is_memory_lem, is_stored as is_stored_lem};
ghost use Rattle.vl_scope.specs.Marks as spec;

use crate::declaration::Declaration;
use crate::kind::Class;
use indexmap::IndexMap;
use std::alloc::AllocError;
use vl_tree::source_tree::Direction;

/// What some declarations of a name say, as far as later ones depend on it.
#[derive(Clone, Copy)]
pub struct Marks {
    /// One gives a direction.
    pub directed: bool,
    /// One says what the name is.
    pub typed: bool,
    /// One says that it is a parameter, a function or an instance.
    pub no_port: bool,
    /// One gives the direction input.
    pub input: bool,
    /// One says that it is a variable or a memory.
    pub stored: bool,
    /// One says that it is a memory.
    pub memory: bool,
}

/// What is known of names.
pub type Known<'a> = IndexMap<&'a [u8], Marks>;

/// Whether it is the direction input.
fn is_input(direction: Option<Direction>) -> bool
    ensures { result ≡ is_input_lem direction }
{
    matches!(direction, Some(Direction::Input))
}

/// Whether a class is a parameter, a function or an instance.
fn is_no_port(class: Class) -> bool
    ensures { result ≡ is_no_port_lem class }
{
    match class {
        Class::Parameter(_) => true,
        Class::Function(_) => true,
        Class::Instance => true,
        _ => false,
    }
}

/// Whether a class is a memory.
fn is_memory(class: Class) -> bool
    ensures { result ≡ is_memory_lem class }
{
    matches!(class, Class::Memory)
}

/// Whether a class is a variable or a memory.
fn is_stored(class: Class) -> bool
    ensures { result ≡ is_stored_lem class }
{
    match class {
        Class::Variable => true,
        class => is_memory(class),
    }
}

/// What a declaration says.
pub fn marks_of(declaration: Declaration<'_>) -> Marks
    ensures { result ≡ spec.marks_of (seen declaration.entry) }
{
    let class = declaration.kind.class;
    Marks {
        directed: declaration.direction.is_some(),
        typed: declaration.typed,
        no_port: is_no_port(class),
        input: is_input(declaration.direction),
        stored: is_stored(class),
        memory: is_memory(class),
    }
}

/// What one or the other says.
fn either(a: Marks, b: Marks) -> Marks
    ensures { result ≡ spec.either a b }
{
    Marks {
        directed: a.directed || b.directed,
        typed: a.typed || b.typed,
        no_port: a.no_port || b.no_port,
        input: a.input || b.input,
        stored: a.stored || b.stored,
        memory: a.memory || b.memory,
    }
}

/// Whether one of the declarations known clashes with a further one.
pub fn clash(known: Marks, marks: Marks) -> bool
    ensures { result ≡ spec.clash_of known marks }
{
    known.directed && marks.directed
        || known.typed && marks.typed
        || known.directed && marks.no_port
        || known.no_port && marks.directed
}

/// Whether one of the declarations known doesn't match a further one.
pub fn mismatch(known: Marks, marks: Marks) -> bool
    ensures { result ≡ spec.mismatch_of known marks }
{
    known.input && marks.stored
        || known.stored && marks.input
        || known.directed && marks.memory
        || known.memory && marks.directed
}

/// What is known of a name.
pub fn marks_at(known: &Known<'_>, name: &[u8]) -> Marks
    ensures { result ≡ spec.marks_at known.now name.now }
{
    known.get(name).copied().unwrap_or(Marks {
        directed: false,
        typed: false,
        no_port: false,
        input: false,
        stored: false,
        memory: false,
    })
}

/// Adds what a declaration says to what is known.
pub fn add_marks<'a>(known: &mut Known<'a>, declaration: Declaration<'a>) -> Result<(), AllocError>
    ensures { OnOk result ((t : List ℕ) → spec.marks_at known.new t ≡ spec.marks_after t (spec.marks_at known.old t) (seen declaration.entry)) }
{
    let name = declaration.name.name.as_slice();
    let before = marks_at(known, name);
    known.insert(name, either(before, marks_of(declaration)))?;
    Ok(())
}
