//! Tenants of rows: what they start from, at their first boundaries, and at the ends of their runs alone.

ghost use Rattle.std.specs.Prelude.{IfOk, IfSome};
ghost use Rattle.ten_alone.specs.Alone.{IsRunnable};
ghost use Rattle.fab_model.specs.ten_parcel.specs.Parcels.{IsParcel};

use crate::fabrics::arrivals::{Arrival, plan_of};
use crate::fabrics::row::Row;
use fab_model::parcel::Parcel;
use fab_model::transit::Transit;
use std::alloc::{AllocError, Global};
use ten_alone::alone::run_alone;
use ten_alone::laws::a_tenants_image_can_be_run;
use ten_build::build::build;
use ten_core::origin::Origin;
use vl_design::files::FileSet;

/// What a tenant starts from. None where its source is refused, or its plan is none.
fn origin_of(alloc: Global, row: &Row, arrival: &Arrival) -> Result<Option<Origin>, AllocError>
    ensures { IfOk result (λ o. IfSome o IsRunnable) }
{
    let plan = plan_of(alloc, arrival)?;
    if !plan.is_in_order() {
        return Ok(None);
    }
    match build(alloc, row.source(arrival.number).as_bytes()) {
        Err(_) => Ok(None),
        Ok(image) => Ok(Some(Origin {
            image,
            files: FileSet::new(alloc),
            plan,
            start: None,
        })),
    }
}

/// A tenant at its first boundary. None where it can't be one.
pub fn loaded(alloc: Global, row: &Row, arrival: &Arrival) -> Result<Option<Parcel>, AllocError>
    ensures { IfOk result (λ o. IfSome o IsParcel) }
{
    a_tenants_image_can_be_run();
    match origin_of(alloc, row, arrival)? {
        None => Ok(None),
        Some(origin) => Ok(Some(Parcel::load(alloc, arrival.number, origin)?)),
    }
}

/// A tenant at its first boundary, without stays. None where it can't be one.
pub fn begun(alloc: Global, row: &Row, arrival: &Arrival) -> Result<Option<Transit>, AllocError>
    ensures { IfOk result (λ o. IfSome o (λ t. IsParcel t.parcel)) }
{
    a_tenants_image_can_be_run();
    match origin_of(alloc, row, arrival)? {
        None => Ok(None),
        Some(origin) => Ok(Some(Transit::load(alloc, arrival.number, origin)?)),
    }
}

/// A tenant at the end of its run alone. None where it can't be one.
pub fn alone(alloc: Global, row: &Row, arrival: &Arrival) -> Result<Option<Parcel>, AllocError>
    ensures { IfOk result (λ o. IfSome o IsParcel) }
{
    match origin_of(alloc, row, arrival)? {
        None => Ok(None),
        Some(origin) => Ok(Some(run_alone(alloc, arrival.number, origin)?)),
    }
}
