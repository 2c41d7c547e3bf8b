//! Tenants that are to run, taken apart.

ghost use Rattle.std.specs.Prelude.{◌≡◌, ◌∷◌, map, IfOk, OnOk};

use host_judge::origin::Origin;
use host_judge::verdict::Ready;
use std::alloc::{AllocError, Global};

/// What tenants start from, and the numbers of the fabrics where they begin, both in the order of the tenants.
#[derive(Drop)]
pub(crate) struct Parts {
    pub(crate) origins: Vec<Origin>,
    pub(crate) fabrics: Vec<u32>,
}

impl Parts {
    /// One tenant more, before the others. An `Err` is want of memory alone.
    fn add(&mut self, ready: Ready) -> Result<(), AllocError>
        ensures origins { OnOk result (self.new.origins.items ≡ ready.origin ∷ self.old.origins.items) }
        ensures fabrics { OnOk result (self.new.fabrics.items ≡ ready.fabric ∷ self.old.fabrics.items) }
    {
        self.fabrics.insert(0, ready.fabric)?;
        self.origins.insert(0, ready.origin)?;
        Ok(())
    }
}

/// What these tenants start from, and where they begin. An `Err` is want of memory alone.
pub(crate) fn parts_of(alloc: Global, readies: Vec<Ready>) -> Result<Parts, AllocError>
    ensures origins { IfOk result (λ p. p.origins.items ≡ map (λ r. r.origin) readies.items) }
    ensures fabrics { IfOk result (λ p. p.fabrics.items ≡ map (λ r. r.fabric) readies.items) }
{
    let mut parts = Parts {
        origins: Vec::new(alloc),
        fabrics: Vec::new(alloc),
    };
    let mut readies = readies;
    while let Some(ready) = readies.pop() {
        parts.add(ready)?;
    }
    Ok(parts)
}
