//! Taking over tenants that are loaded or that came out.

ghost use Rattle.std.specs.Prelude.{◌≡◌, ℕ, ◌<◌, [], length, slice_get, All, OnOk, Some};
ghost use Rattle.fab_core.specs.fab_model.specs.Tokens.{token_of};
ghost use Rattle.fab_core.specs.ten_parcel.specs.Parcels.{number_of};
ghost use Rattle.fab_orders.specs.Starts.{IsStart};
ghost use Rattle.fab_rounds.specs.Ledgers.{leaving_sum, pile_sum, worker_piles, AreHandedOver, AreLeft, IsKept, IsLeft, TakesOver};

use crate::ledgers::{Ledger, Moving};
use crate::sorting::{insert_done, insert_moving};
use crate::workers::Worker;
use fab_core::laws::{points_tell_of_tenants, tenants_at_rest_have_points};
use fab_core::shell::Why;
use fab_desk::leaving::Leaving;
use fab_orders::outcomes::{Reason, Start};
use std::alloc::{AllocError, Global};

impl Ledger {
    /// Takes over a tenant as it is loaded: it has ended, or it is to be put in line.
    pub(crate) fn take_start(&mut self, start: Start) -> Result<(), AllocError>
        requires kept { IsKept self.old }
        requires start { IsStart self.old.labels.value.items (number_of start.transit.parcel) start }
        requires loaded { slice_get self.old.loaded.value.items (number_of start.transit.parcel) ≡ Some start }
        ensures { OnOk result (TakesOver self.old self.new (λ f. f (token_of start.transit))) }
    {
        tenants_at_rest_have_points();
        points_tell_of_tenants();
        let Start { fabric, transit } = start;
        if transit.parcel.ended().is_some() {
            insert_done(&mut self.done, transit)
        } else {
            let next = Moving {
                reason: Reason::First,
                fabric,
                transit,
            };
            insert_moving(&mut self.moving, next)
        }
    }

    /// Takes over a tenant that came out: it has ended, or it moves.
    fn take_one(&mut self, leaving: Leaving) -> Result<(), AllocError>
        requires kept { IsKept self.old }
        requires left { IsLeft self.old.loaded.value.items leaving }
        ensures { OnOk result (TakesOver self.old self.new (λ f. f (token_of leaving.transit))) }
    {
        points_tell_of_tenants();
        let Leaving { transit, why } = leaving;
        match why {
            Why::Move(fabric) => {
                let next = Moving {
                    reason: Reason::Errand,
                    fabric,
                    transit,
                };
                insert_moving(&mut self.moving, next)
            }
            Why::Ended(_) => {
                let ended = transit.parcel.ended().is_some();
                prove!(ended);
                insert_done(&mut self.done, transit)
            }
        }
    }

    /// Takes over what came out in a turn.
    fn take_pile(&mut self, pile: Vec<Leaving>) -> Result<(), AllocError>
        requires kept { IsKept self.old }
        requires left { All (IsLeft self.old.loaded.value.items) pile.items }
        ensures { OnOk result (TakesOver self.old self.new (λ f. leaving_sum f pile.items)) }
    {
        let mut pile = pile;
        while let Some(leaving) = pile.pop() {
            self.take_one(leaving)?;
        }
        Ok(())
    }

    /// Takes over what came out in several turns.
    fn take_piles(&mut self, piles: Vec<Vec<Leaving>>) -> Result<(), AllocError>
        requires kept { IsKept self.old }
        requires left { AreLeft self.old.loaded.value.items piles.items }
        ensures { OnOk result (TakesOver self.old self.new (λ f. pile_sum f piles.items)) }
    {
        let mut piles = piles;
        while let Some(pile) = piles.pop() {
            self.take_pile(pile)?;
        }
        Ok(())
    }

    /// Takes over what came out at the workers' seats.
    pub(crate) fn take_all(
        &mut self,
        alloc: Global,
        workers: &mut Vec<Worker>,
    ) -> Result<(), AllocError>
        requires kept { IsKept self.old }
        requires left { All (λ w. AreLeft self.old.loaded.value.items w.out.items) workers.old.items }
        ensures takes { OnOk result (TakesOver self.old self.new (λ f. worker_piles f workers.old.items)) }
        ensures workers { OnOk result (AreHandedOver workers.old.items workers.new.items) }
    {
        for i in 0..workers.len() {
            let worker = &mut workers[i];
            if worker.failed {
                return Err(AllocError);
            }
            let piles = worker.emptied(alloc);
            self.take_piles(piles)?;
        }
        Ok(())
    }
}
