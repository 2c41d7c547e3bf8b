//! What fits the fabrics of a script.

ghost use Rattle.std.specs.Prelude.{◌≡◌, true};
ghost use Rattle.ten_core.specs.vl_design.specs.Costs.{saturated_cost};
ghost use Rattle.ten_core.specs.vl_design.specs.Cost.{Cost as Sums};
ghost use Rattle.host_files.specs.host_form.specs.Origins as tenants;
ghost use Rattle.host_judge.specs.Deciding.{sums_of};

use host_files::script::FabricLine;
use ten_core::Cost;

/// Whether the numbers of a cost are those of its sums: 2 ^ 64 - 1 may stand for a greater one.
pub fn is_exact(cost: Cost) -> bool
    ensures { result ≡ true → (sums : Sums) → cost ≡ saturated_cost sums → sums_of cost ≡ sums }
{
    cost.regs < u64::MAX && cost.cells < u64::MAX && cost.mem < u64::MAX
}

/// Whether a cost fits a fabric: each of its numbers does.
pub(crate) fn fits_in(cost: Cost, fabric: &FabricLine) -> bool
    ensures { result ≡ tenants.fits (sums_of cost) fabric.now.capacity }
{
    cost.regs <= fabric.capacity.registers
        && cost.cells <= fabric.capacity.cells
        && cost.mem <= fabric.capacity.memory
}

/// Whether the fabric of a number is there, and a cost fits it.
pub(crate) fn has_room(fabrics: &[FabricLine], cost: Cost, number: u32) -> bool
    ensures { result ≡ tenants.has_room fabrics.now (sums_of cost) number }
{
    match fabrics.get(number as usize) {
        Some(fabric) => fits_in(cost, fabric),
        None => false,
    }
}
