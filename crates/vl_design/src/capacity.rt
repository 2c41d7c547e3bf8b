//! Costs, and whether they fit a capacity.

ghost use Rattle.std.specs.Prelude.{◌↔◌, IsTrue};
ghost use Rattle.vl_design.specs.Costs.{Fits};

/// What a design takes of a fabric.
#[derive(Clone, Copy, Debug, PartialEq, Eq)]
pub struct Cost {
    /// Bits of registers.
    pub regs: u64,
    /// Cells.
    pub cells: u64,
    /// Bits of memories.
    pub mem: u64,
}

/// Whether what is used and what comes are within a capacity together, in each of the three numbers.
pub fn fits(used: Cost, more: Cost, capacity: Cost) -> bool
    ensures { IsTrue result ↔ Fits used more capacity }
{
    u128::from(used.regs) + u128::from(more.regs) <= u128::from(capacity.regs)
        && u128::from(used.cells) + u128::from(more.cells) <= u128::from(capacity.cells)
        && u128::from(used.mem) + u128::from(more.mem) <= u128::from(capacity.mem)
}
