//! What holds of tenants' images. Each function does nothing; its contract is the law.

ghost use Rattle.ten_core.specs.declared.origin.Origin.{Origin as From};
ghost use Rattle.ten_alone.specs.Alone.{IsRunnable};
ghost use Rattle.ten_shell.specs.Shells.{CanRunOn};

use ten_core::hold_laws::words_that_fit_are_fine;
use ten_make::design_laws::runs_of_a_tenants_design_are_tame;

/// What a run of a tenant's image starts from can be run.
pub fn a_tenants_image_can_be_run()
    ensures { (x : From) → IsRunnable x → CanRunOn x }
{
    runs_of_a_tenants_design_are_tame();
    words_that_fit_are_fine();
}
