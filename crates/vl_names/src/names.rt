//! The names of a source: whether one of the constructs 1 to 9 is refused.

ghost use Rattle.std.specs.Prelude.{◌≡◌, ◌⊎◌, ℕ, Some, IfOk, OnOk};
ghost use Rattle.vl_scope.specs.vl_base.specs.declared.place.Place.{Place as Where};
ghost use Rattle.vl_scope.specs.declared.fault.Fault.{Fault as AFault};
ghost use Rattle.vl_scope.specs.Faults.{IsFirst, at};
ghost use Rattle.vl_names.specs.NameFaults.{IsNameFault};
ghost use Rattle.vl_names.specs.declared.names.NamesFault.TheVariants as fault;

use crate::hierarchy::first_hierarchy_fault;
use std::alloc::{AllocError, Global};
use vl_scope::Place;
use vl_scope::fault::Fault;
use vl_scope::faults::first_declaration_fault;
use vl_scope::source_tree::Source;
use vl_uses::faults::first_use_fault;

/// Why the names of a source don't pass.
#[derive(Clone, Copy, Debug, PartialEq, Eq)]
pub enum NamesFault {
    /// A refused construct: where it stands, and its number, from 1 to 9.
    Construct(Place, u8),
    /// Memory ran out.
    Memory,
}

impl From<AllocError> for NamesFault {
    ghost use Rattle.vl_names.specs.declared.names.NamesFault.TheVariants.{Memory};

    ghost from_gives = { λ _ e. e ≡ Memory };

    fn from(_error: AllocError) -> Self {
        NamesFault::Memory
    }
}

/// The first fault of the names of a source, if there is one.
fn first_fault(alloc: Global, source: &Source) -> Result<Option<Fault>, AllocError>
    ensures { IfOk result (IsFirst (IsNameFault source.now)) }
{
    let best = first_declaration_fault(alloc, source, None)?;
    let best = first_use_fault(alloc, source, best)?;
    first_hierarchy_fault(alloc, source, best)
}

/// The first fault of the names of a source, or that there is none.
pub fn names(alloc: Global, source: &Source) -> Result<(), NamesFault>
    // No fault is there, or this is the first.
    ensures fine { OnOk result ((f : AFault) → IsNameFault source.now f → ⊥) }
    ensures fault { (p : Where) (n : ℕ) → result ≡ Err (fault.Construct p n) → IsFirst (IsNameFault source.now) (Some (at p n)) }

    // Each comes where it holds, unless memory runs out.
    ensures accepts { ((f : AFault) → IsNameFault source.now f → ⊥) → (result ≡ Ok tt) ⊎ (result ≡ Err fault.Memory) }
    ensures refuses { (p : Where) (n : ℕ) → IsFirst (IsNameFault source.now) (Some (at p n))
        → (result ≡ Err (fault.Construct p n)) ⊎ (result ≡ Err fault.Memory) }
{
    match first_fault(alloc, source)? {
        None => Ok(()),
        Some(found) => Err(NamesFault::Construct(found.place, found.construct)),
    }
}
