//! Tenants that are stopped, or of which a snapshot is made, where they rest.

ghost use Rattle.std.specs.Prelude.{◌≡◌, ◌++◌, ◌∷◌, [], true, None, IfOk, OnOk};
ghost use Rattle.fab_core.specs.fab_model.specs.Points.{ended, Point};
ghost use Rattle.fab_core.specs.Standing.{IsPointOf};
ghost use Rattle.fab_rounds.specs.Tries.{IsStopped, Saves};

use fab_core::Text;
use fab_core::parcel::Parcel;
use fab_core::transit::Transit;
use std::alloc::{AllocError, Global};

/// Ends a run that goes on where it rests.
fn stop(parcel: &mut Parcel)
    requires { (p : Point) × IsPointOf parcel.old p × (ended p ≡ None) }
    ensures { (p : Point) → IsPointOf parcel.old p → IsPointOf parcel.new (record p { stopped = true }) }
{
    match parcel {
        Parcel::Rests(tenant) => tenant.shell.stop(),
        Parcel::Over(_) => unreachable!(),
    }
}

/// Makes a snapshot of a run that goes on where it rests. An `Err` is want of memory alone.
fn save(alloc: Global, parcel: &mut Parcel, name: Text) -> Result<(), AllocError>
    requires { (p : Point) × IsPointOf parcel.old p × (ended p ≡ None) }
    ensures { OnOk result ((p : Point) → IsPointOf parcel.old p → ended p ≡ None → IsPointOf parcel.new (record p { free = p.free ++ record { name = name; tick = p.stage.state.ticks } ∷ [] })) }
{
    match parcel {
        Parcel::Rests(tenant) => tenant.shell.save(alloc, &tenant.bank, name),
        Parcel::Over(_) => unreachable!(),
    }
}

/// Stops a tenant that goes on where it rests.
pub(crate) fn stopped(transit: Transit) -> Transit
    requires { (p : Point) × IsPointOf transit.parcel p × (ended p ≡ None) }
    ensures { IsStopped transit result }
{
    let Transit {
        mut parcel,
        stays,
        resident,
    } = transit;
    stop(&mut parcel);
    Transit {
        parcel,
        stays,
        resident,
    }
}

/// Makes a snapshot of a tenant that goes on where it rests. An `Err` is want of memory alone.
pub(crate) fn saved(alloc: Global, transit: Transit, name: Text) -> Result<Transit, AllocError>
    requires { (p : Point) × IsPointOf transit.parcel p × (ended p ≡ None) }
    ensures { IfOk result (Saves name transit) }
{
    let Transit {
        mut parcel,
        stays,
        resident,
    } = transit;
    save(alloc, &mut parcel, name)?;
    Ok(Transit {
        parcel,
        stays,
        resident,
    })
}
