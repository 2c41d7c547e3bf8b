//! What an instance is given by the item above it (IEEE 1364-2005, clauses 12.2.2 and 12.3).

ghost use Rattle.std.specs.Prelude.{◌≡◌, option_map};
ghost use Rattle.elab_plain.specs.vl_flat.specs.Expressions as flat;
ghost use Rattle.elab_kinds.specs.Facts.{facts_of};
ghost use Rattle.elab_instance.specs.Given as spec;

use crate::connections::{Connected, expression};
use crate::scope::is_clock_name;
use elab_constant::scope::Names;
use elab_kinds::roles::{Roles, is_input};
use elab_plain::surface::Ex;

/// What stands above an instance.
#[derive(Clone, Copy)]
pub enum Above<'a, 'b, 'c, 'm> {
    /// Nothing: it is the top.
    Top,
    /// An item of an instance.
    Item(Surroundings<'a, 'b, 'c, 'm>),
}

/// What an item gives an instance.
#[derive(Clone, Copy)]
pub struct Surroundings<'a, 'b, 'c, 'm> {
    /// The names of the instance in which it stands.
    pub names: &'a Names<'m>,
    /// The overrides of its parameters.
    pub overrides: &'b Connected<'m>,
    /// The connections of its ports.
    pub ports: &'c Connected<'m>,
}

/// What is connected to a port is just a clock name.
fn takes_clock(given: &Surroundings<'_, '_, '_, '_>, name: &[u8]) -> bool
    ensures { result ≡ spec.takes_clock given.now name.now }
{
    match expression(given.ports, name) {
        Some(e) => is_clock_name(given.names, e),
        None => false,
    }
}

/// Something is connected to a port.
fn is_joined(given: &Surroundings<'_, '_, '_, '_>, name: &[u8]) -> bool
    ensures { result ≡ spec.is_joined given.now name.now }
{
    expression(given.ports, name).is_some()
}

/// A name is an input that is a clock: of the top each is.
pub fn is_clock(roles: &Roles<'_>, above: &Above<'_, '_, '_, '_>, name: &[u8]) -> bool
    ensures { result ≡ spec.clocks_by (facts_of roles.now) above.now name.now }
{
    match above {
        Above::Top => is_input(roles, name),
        Above::Item(given) => is_input(roles, name) && takes_clock(given, name),
    }
}

/// A name is an output that is connected.
pub fn is_wired(roles: &Roles<'_>, above: &Above<'_, '_, '_, '_>, name: &[u8]) -> bool
    ensures { result ≡ spec.wired_by (facts_of roles.now) above.now name.now }
{
    match above {
        Above::Top => false,
        Above::Item(given) => !is_input(roles, name) && is_joined(given, name),
    }
}
