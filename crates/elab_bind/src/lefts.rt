//! Left sides as plain trees.

ghost use Rattle.std.specs.Prelude.{◌≡◌, map, IfOk};
ghost use Rattle.elab_plain.specs.vl_flat.specs.Binding as f;
ghost use Rattle.elab_plain.specs.SeenStatements.{seen_left};

use crate::expressions::{bind_selects, copied};
use elab_plain::surface::Left;
use std::alloc::{AllocError, Global};
use vl_tree::source_tree::Lvalue;

/// A left side.
#[cycle(lefts)]
#[tactic(auto, using(elab_plain::proofs::LeftSides::lefts))]
pub fn bind_left(alloc: Global, l: &Lvalue) -> Result<Left, AllocError>
    ensures { IfOk result (λ a. seen_left a ≡ f.left l.now) }
{
    match l {
        Lvalue::Name(n) => {
            let selects = bind_selects(alloc, n.selects.as_slice())?;
            Ok(Left::Name(n.place, copied(alloc, &n.identifier.name)?, selects))
        }
        Lvalue::Concatenation(at, parts) => {
            Ok(Left::List(*at, bind_lefts(alloc, parts.as_slice())?))
        }
    }
}

/// Left sides one by one.
#[cycle(lefts)]
#[tactic(auto, using(elab_plain::proofs::LeftSides::lefts))]
fn bind_lefts(alloc: Global, ls: &[Lvalue]) -> Result<Vec<Left>, AllocError>
    ensures { IfOk result (λ v. map seen_left v.items ≡ map f.left ls.now) }
{
    let mut all = Vec::new(alloc);
    for l in ls {
        all.push(bind_left(alloc, l)?)?;
    }
    Ok(all)
}
