//! What a report says of the tenants of a script.

ghost use Rattle.std.specs.Prelude.{◌≡◌, length, IfOk};
ghost use Rattle.host_report.specs.Telling.{AreTellable, IsToldOf};

use crate::lines::say;
use fab_model::transit::Transit;
use host_files::block::Block;
use host_files::kept::Kept;
use host_files::refusal::Refusal;
use host_files::script::Script;
use std::alloc::{AllocError, Global};

/// What a report says of the tenants of a script, in their order, and the snapshots that they keep; None where one is refused.
#[derive(Drop)]
pub struct Told {
    /// What is said of each tenant.
    pub blocks: Vec<Block>,
    /// The snapshots that each keeps.
    pub kept: Vec<Option<Kept>>,
}

/// What a report says of the tenants of a script: each is refused so, or is the next that has ended. An `Err` is want of memory.
pub fn tell(
    alloc: Global,
    script: &Script,
    refusals: Vec<Option<Refusal>>,
    ended: Vec<Transit>,
) -> Result<Told, AllocError>
    requires count { length refusals.items ≡ length script.now.tenants }
    requires each { AreTellable refusals.items ended.items }
    ensures { IfOk result (IsToldOf script.now refusals.items ended.items) }
{
    let mut blocks = Vec::new(alloc);
    let mut kept = Vec::new(alloc);
    let mut refusals = refusals.into_iter();
    let mut ended = ended.into_iter();
    for tenant in script.tenants.as_slice() {
        let Some(refusal) = refusals.next() else {
            unreachable!()
        };
        let said = say(alloc, script, &tenant.name, refusal, &mut ended)?;
        blocks.push(said.block)?;
        kept.push(said.kept)?;
    }
    Ok(Told { blocks, kept })
}
