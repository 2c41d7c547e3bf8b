//! A tenant's run alone.

ghost use Rattle.std.specs.Prelude.{IfOk};
ghost use Rattle.ten_alone.specs.Alone.{IsRunAlone, IsRunnable};

use crate::laws::a_tenants_image_can_be_run;
use std::alloc::{AllocError, Global};
use ten_core::origin::Origin;
use ten_parcel::laws::a_run_over_in_time_zero_has_ended;
use ten_parcel::parcel::Parcel;
use ten_shell::laws::a_shell_at_rest_is_at_a_boundary;

/// The tenant of a number at the end of its run alone, from what it starts from. An `Err` is want of memory alone.
pub fn run_alone(alloc: Global, number: u32, origin: Origin) -> Result<Parcel, AllocError>
    requires { IsRunnable origin }
    ensures { IfOk result (IsRunAlone number origin) }
{
    a_tenants_image_can_be_run();
    a_shell_at_rest_is_at_a_boundary();
    a_run_over_in_time_zero_has_ended();
    match Parcel::load(alloc, number, origin)? {
        Parcel::Rests(mut tenant) => {
            tenant.run(alloc)?;
            Ok(tenant.into_parcel())
        }
        Parcel::Over(over) => Ok(Parcel::Over(over)),
    }
}
