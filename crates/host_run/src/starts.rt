//! Tenants at the first boundaries of their runs.

ghost use Rattle.std.specs.Prelude.{◌≡◌, ◌≤◌, ◌∷◌, length, All, IfOk, OnOk};
ghost use Rattle.fab_rounds.specs.ten_shell.specs.Shells.{CanRunOn};
ghost use Rattle.host_run.specs.Made.{AreLoadedOn, IsLoadedOn};

use fab_rounds::outcomes::Start;
use host_judge::origin::Origin;
use host_report::transit::Transit;
use std::alloc::{AllocError, Global};

/// A tenant at the first boundary of its run, on a fabric. An `Err` is want of memory alone.
fn start_of(alloc: Global, number: u32, fabric: u32, origin: Origin) -> Result<Start, AllocError>
    requires { CanRunOn origin }
    ensures { IfOk result (IsLoadedOn number fabric origin) }
{
    match Transit::load(alloc, number, origin) {
        Err(error) => Err(error),
        Ok(transit) => Ok(Start { fabric, transit }),
    }
}

/// A start more, before the others. An `Err` is want of memory alone.
fn add_first(starts: &mut Vec<Start>, start: Start) -> Result<(), AllocError>
    ensures { OnOk result (starts.new.items ≡ start ∷ starts.old.items) }
{
    starts.insert(0, start)?;
    Ok(())
}

/// Tenants at the first boundaries of their runs, numbered in order, each on the fabric of the number beside. An `Err` is want of memory
/// alone.
pub(crate) fn starts_of(
    alloc: Global,
    origins: Vec<Origin>,
    fabrics: &[u32],
) -> Result<Vec<Start>, AllocError>
    requires can { All CanRunOn origins.items }
    requires few { length origins.items ≤ 64 }
    requires beside { length fabrics.now ≡ length origins.items }
    ensures { IfOk result (λ starts. AreLoadedOn 0 fabrics.now origins.items starts.items) }
{
    let mut origins = origins;
    let mut starts = Vec::new(alloc);
    while let Some(origin) = origins.pop() {
        let number = origins.len();
        let start = start_of(alloc, number as u32, fabrics[number], origin)?;
        add_first(&mut starts, start)?;
    }
    Ok(starts)
}
