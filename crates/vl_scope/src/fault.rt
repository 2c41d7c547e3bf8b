//! A fault of a source, and the earlier of two.

ghost use Rattle.std.specs.Prelude.{◌≡◌};
ghost use Rattle.vl_scope.specs.Faults as spec;

use vl_base::place::{Place, comes_before};

/// A refused construct of a source, where it stands.
#[derive(Clone, Copy, Debug, PartialEq, Eq)]
pub struct Fault {
    /// Where it stands.
    pub place: Place,
    /// The number of the construct.
    pub construct: u8,
}

/// Whether a fault comes before another: by its place, then by its number.
fn is_before(a: Fault, b: Fault) -> bool
    ensures { result ≡ spec.is_before a b }
{
    comes_before(a.place, a.construct, b.place, b.construct)
}

/// The earlier of what was found and a further fault.
pub fn earlier(best: Option<Fault>, fault: Fault) -> Option<Fault>
    ensures { result ≡ spec.earlier best fault }
{
    match best {
        None => Some(fault),
        Some(b) => {
            if is_before(fault, b) {
                Some(fault)
            } else {
                Some(b)
            }
        }
    }
}
