//! What runs of tenants start from.

use crate::image::Image;
use ten_plan::held::Held;
use ten_plan::plan::Plan;
use vl_design::files::FileSet;

/// What a tenant's run starts from. It doesn't change while the run goes on, and is shared.
#[derive(Drop)]
pub struct Origin {
    /// The image of its design.
    pub image: Image,
    /// The files that the design may open.
    pub files: FileSet,
    /// How long it may run, and what it is to do on its way.
    pub plan: Plan,
    /// What it is resumed from; nothing where it begins with time zero.
    pub start: Option<Held>,
}
