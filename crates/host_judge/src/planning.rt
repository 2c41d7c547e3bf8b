//! Plans of tenants.

ghost use Rattle.std.specs.Prelude.{◌≡◌, ◌++◌, [], ◌∷◌, IfOk, OnOk, if◌then◌else◌};
ghost use Rattle.elab_laws.specs.ten_plan.specs.Plans as known;
ghost use Rattle.host_files.specs.host_form.specs.Origins as tenants;
ghost use Rattle.host_judge.specs.Deciding.{sums_of};

use crate::room::has_room;
use elab_laws::plan::{Due, Errand, Plan};
use host_files::script::{FabricLine, TenantLine};
use std::alloc::{AllocError, Global};
use ten_core::{Cost, Items};
use ten_files::name::copy_text;

/// What is to be done, but not a move to a fabric that is too small.
fn planned(
    alloc: Global,
    fabrics: &[FabricLine],
    cost: Cost,
    due: &Due,
) -> Result<Option<Due>, AllocError>
    ensures { IfOk result (λ d. d ≡ (if tenants.is_planned fabrics.now (sums_of cost) due.now then Some due.now else None)) }
{
    match due {
        Due::Save(name) => {
            let name = copy_text(alloc, name)?;
            Ok(Some(Due::Save(name)))
        }
        Due::Move(fabric) => {
            if has_room(fabrics, cost, *fabric) {
                Ok(Some(Due::Move(*fabric)))
            } else {
                Ok(None)
            }
        }
        Due::Stop => Ok(Some(Due::Stop)),
    }
}

/// Adds an errand, but not a move to a fabric that is too small.
fn add_errand(
    alloc: Global,
    fabrics: &[FabricLine],
    cost: Cost,
    errand: &Errand,
    errands: &mut Vec<Errand>,
) -> Result<(), AllocError>
    ensures { OnOk result (errands.new.items ≡ errands.old.items ++ (if tenants.is_planned fabrics.now (sums_of cost) errand.now.due then errand.now ∷ [] else [])) }
{
    match planned(alloc, fabrics, cost, &errand.due)? {
        Some(due) => {
            errands.push(Errand {
                tick: errand.tick,
                due,
            })?;
            Ok(())
        }
        None => Ok(()),
    }
}

/// The plan of a tenant of a cost: its budget, and its errands but for moves to fabrics that are too small.
pub(crate) fn plan_for(
    alloc: Global,
    fabrics: &[FabricLine],
    cost: Cost,
    line: &TenantLine,
) -> Result<Plan, AllocError>
    ensures { IfOk result (λ plan. known.plan_of plan ≡ tenants.plan_of fabrics.now (sums_of cost) line.now) }
{
    let mut errands = Vec::new(alloc);
    for errand in line.errands.as_slice() {
        add_errand(alloc, fabrics, cost, errand, &mut errands)?;
    }
    Ok(Plan {
        budget: line.budget,
        errands: Items::from_vec(errands),
    })
}
