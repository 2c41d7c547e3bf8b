//! The faults in the body of a process or a function.

ghost use Rattle.std.specs.Prelude.{◌≡◌, ◌++◌, [], IfOk, flat_map, map};
ghost use Rattle.vl_design.specs.Seen as seen;
ghost use Rattle.vl_design.specs.Stops.{earliest};
ghost use Rattle.vl_sites.specs.Seen.{site_of};
ghost use Rattle.vl_sites.specs.Sites.{sites};
ghost use Rattle.vl_check.specs.Standing.{body_faults};
ghost use Rattle.vl_check.specs.Rules as r;
ghost use Rattle.vl_check.specs.Seen.{setting_of};

use crate::loops::loop_fault;
use crate::place::Setting;
use crate::rules::site_fault;
use std::alloc::{AllocError, Global};
use vl_design::design::Stmt;
use vl_design::stop::Stop;
use vl_sites::site::Site;

/// The first of a fault so far and those at sites.
fn sites_fault(best: Option<Stop>, s: &Setting<'_>, all: &[Site<'_>]) -> Option<Stop>
    ensures { result ≡ earliest best (flat_map (r.site_faults (setting_of s.now)) (map site_of all.now)) }
{
    let mut first = best;
    for site in all {
        first = site_fault(first, s, site);
    }
    first
}

/// The first of a fault so far and those in a body, whose sites these are.
pub(crate) fn body_fault(
    alloc: Global,
    s: &Setting<'_>,
    best: Option<Stop>,
    a: &Stmt,
    all: &[Site<'_>],
) -> Result<Option<Stop>, AllocError>
    requires { map site_of all.now ≡ sites (seen.stm_of a.now) }
    ensures { IfOk result (λ r. r ≡ earliest best (body_faults (setting_of s.now) (seen.stm_of a.now))) }
{
    let first = sites_fault(best, s, all);
    loop_fault(alloc, s, &[], first, a)
}
