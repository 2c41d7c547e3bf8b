//! Residents.

use fab_model::tenant::Tenant;

/// A tenant whose bank is a part of a fabric's joined bank.
#[derive(Drop)]
pub struct Resident {
    /// The tenant. Its own bank has the shape of its part, and changes places with it where the tenant is looked at alone.
    pub tenant: Tenant,
    /// The number of its part.
    pub part: u32,
}
