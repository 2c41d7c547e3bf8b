//! What a run of all tenants begins with.

use fab_rounds::noted::Label;
use fab_rounds::outcomes::Start;

/// What a run of all tenants begins with.
#[derive(Drop)]
pub(crate) struct Begun {
    /// The labels of the fabrics, in their order.
    pub(crate) labels: Vec<Label>,
    /// The tenants, in their order.
    pub(crate) starts: Vec<Start>,
}
