//! What names stand for in an instance.

ghost use Rattle.std.specs.Prelude.{◌≡◌, option_map, OnOk};
ghost use Rattle.elab_plain.specs.vl_flat.specs.Scopes as spec;
ghost use Rattle.elab_constant.specs.Seen.{binding_of, look, seen_scope};

use elab_plain::binding::Shape;
use indexmap::IndexMap;
use std::alloc::AllocError;
use vl_base::bits::Bits;
use vl_design::design::Form;

/// A parameter's value and its sign, and the numbers of its highest and lowest bit (IEEE 1364-2005, clause 4.10).
#[derive(Clone, Copy)]
pub struct Value {
    /// The value and its width.
    pub bits: Bits,
    /// The value is signed.
    pub signed: bool,
    /// The number of its highest bit.
    pub left: i32,
    /// The number of its lowest bit.
    pub right: i32,
}

/// What a name stands for.
#[derive(Clone, Copy)]
pub enum Known {
    /// A parameter.
    Constant(Value),
    /// A signal, by its number in the design, or a function's local.
    Signal(u32, Shape),
    /// A function, by its number in the design, and the form of its result.
    Function(u32, Form),
}

/// What each name of a module, or of a function, stands for.
pub type Names<'a> = IndexMap<&'a [u8], Known>;

/// The names of a module, and in a function those of the function too.
#[derive(Clone, Copy)]
pub struct Scope<'s, 'a> {
    /// The module's.
    pub module: &'s Names<'a>,
    /// The function's, which come first.
    pub locals: Option<&'s Names<'a>>,
}

/// Gives a name a meaning.
pub fn bind<'a>(names: &mut Names<'a>, name: &'a [u8], known: Known) -> Result<(), AllocError>
    ensures { OnOk result (look names.new ≡ spec.bind (look names.old) name.entry.now (binding_of known)) }
{
    names.insert(name, known)?;
    Ok(())
}

/// What a name stands for in a table.
pub fn found_in(names: &Names<'_>, name: &[u8]) -> Option<Known>
    ensures { option_map binding_of result ≡ look names.now name.now }
{
    names.get(name).copied()
}

/// What a name stands for.
pub fn meaning(scope: &Scope<'_, '_>, name: &[u8]) -> Option<Known>
    ensures { option_map binding_of result ≡ (seen_scope scope.now).names name.now }
{
    match scope.locals {
        None => found_in(scope.module, name),
        Some(locals) => match found_in(locals, name) {
            None => found_in(scope.module, name),
            Some(found) => Some(found),
        },
    }
}

/// The scope of a module's own expressions.
pub fn module_scope<'s, 'a>(names: &'s Names<'a>) -> Scope<'s, 'a>
    ensures { seen_scope result ≡ spec.plainly (look names.now) }
{
    Scope {
        module: names,
        locals: None,
    }
}
