//! Why tenants are refused.

use host_text::{Place, Text};

/// Why a tenant is refused.
#[derive(Drop)]
pub struct Refusal {
    /// The place in its source; 0 0 where its cost or its snapshot is refused.
    pub place: Place,
    /// The kind, in words.
    pub kind: Text,
}
