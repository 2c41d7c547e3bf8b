//! Sites in left sides (IEEE 1364-2005, clause 9.2).

ghost use Rattle.std.specs.Prelude.{◌≡◌, ◌++◌, map, OnOk};
ghost use Rattle.vl_design.specs.Seen as seen;
ghost use Rattle.vl_sites.specs.Lists.{targets_of};
ghost use Rattle.vl_sites.specs.Seen.{site_of};
ghost use Rattle.vl_sites.specs.Sites as x;

use crate::expressions::expression;
use crate::site::{Site, What, add};
use std::alloc::AllocError;
use vl_design::design::{Target, TargetNode};

/// Adds the sites in a left side of an assignment, which is nonblocking or not.
#[cycle(targets)]
#[tactic(auto, using(crate::proofs::Rows::rows))]
pub(crate) fn target<'a>(
    sites: &mut Vec<Site<'a>>,
    later: bool,
    t: &'a Target,
) -> Result<(), AllocError>
    ensures { OnOk result (map site_of sites.new.items ≡ map site_of sites.old.items ++ x.target_sites later (seen.target_of t.now)) }
{
    match &t.node {
        TargetNode::Sig(number) => add(sites, t.place, What::Sets(*number, false, later)),
        TargetNode::Word(memory, address) => {
            add(sites, t.place, What::Sets(*memory, true, later))?;
            expression(sites, address)
        }
        TargetNode::Pick(base, index, _, _) => {
            target(sites, later, base)?;
            expression(sites, index)
        }
        TargetNode::Slice(base, _, _) => target(sites, later, base),
        TargetNode::List(parts) => targets(sites, later, parts.as_slice()),
    }
}

/// Adds the sites in the parts of a left side.
#[cycle(targets)]
#[tactic(auto, using(crate::proofs::Rows::rows))]
fn targets<'a>(sites: &mut Vec<Site<'a>>, later: bool, ts: &'a [Target]) -> Result<(), AllocError>
    ensures { OnOk result (map site_of sites.new.items ≡ map site_of sites.old.items ++ x.targets_sites later (targets_of ts.now)) }
{
    for t in ts {
        target(sites, later, t)?;
    }
    Ok(())
}
