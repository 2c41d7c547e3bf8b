//! Worked rows of the definitions.

ghost use Rattle.std.specs.Prelude.{◌≡◌, ℕ, List, [], ◌∷◌, Option, Some, Ok, codes};
ghost use Rattle.host_text.specs.vl_design.specs.Cost.{cost};
ghost use Rattle.host_text.specs.vl_design.specs.Examples.{counter, greets};
ghost use Rattle.host_text.specs.Reading.{reading};
ghost use Rattle.fab_io.specs.Outside.{Files, with_file};
ghost use Rattle.host_form.specs.Origins.{Source, Accepted, plan_of, IsOrigin, IsRefused, no_place};
ghost use Rattle.host_form.specs.Reports.{IsReport};
ghost use Rattle.host_form.specs.Saves.{LeavesFiles};
ghost use Rattle.host_form.specs.Laws.{Judges};
ghost use Rattle.host_form.specs.Examples.{lone_text, lone_script, lone_histories, moving_text, moving_script, moving_line, moving_origin, moving_histories, tight_text, tight_script, stopping_text, stopping_script, stopping_histories, counter_bytes, narrow, resumed_tenant, resumed_origin, greeting_text, greeting_script, ordered_text, ordered_script, ordered_histories, ordered_bytes};

/// A counter that runs three ticks on one fabric is reported so, whatever text its source is.
pub fn three_ticks_on_one_fabric_are_reported()
    ensures script { reading lone_text ≡ Ok lone_script }
    ensures report { (judge : List ℕ → Option Source) (told : Files) (text : List ℕ) → told (codes "m.v") ≡ Some text → judge text ≡ Some (Accepted counter) →
        IsReport (Judges judge) told lone_script lone_histories (codes "tenant A budget 3 11 6\n0\n1\n2\n\nstay A F 0 3\n") }
{}

/// A counter that moves twice is reported so; a move to a fabric that is too small is not planned.
pub fn two_moves_of_a_counter_are_reported()
    ensures script { reading moving_text ≡ Ok moving_script }
    ensures plan { plan_of moving_script.fabrics (cost counter) moving_line ≡ moving_origin.plan }
    ensures report { (judge : List ℕ → Option Source) (told : Files) (text : List ℕ) → told (codes "m.v") ≡ Some text → judge text ≡ Some (Accepted counter) →
        IsReport (Judges judge) told moving_script moving_histories
        (codes "tenant A budget 4 14 8\n0\n1\n2\n3\n\nstay A F1 0 1\nstay A F2 1 2\nstay A F1 2 4\nfree move A F3 small\nfree watch A 3\n") }
{}

/// A counter whose fabric has one cell too few is refused so.
pub fn a_cost_is_refused()
    ensures script { reading tight_text ≡ Ok tight_script }
    ensures report { (judge : List ℕ → Option Source) (told : Files) (text : List ℕ) → told (codes "m.v") ≡ Some text → judge text ≡ Some (Accepted counter) →
        IsReport (Judges judge) told tight_script ([] ∷ []) (codes "refused A 0 0 cost 128 48 0 128 47 0\n") }
{}

/// A counter that a free order stops is reported so, and its snapshot is in the store.
pub fn a_stop_is_reported_and_a_snapshot_is_left()
    ensures script { reading stopping_text ≡ Ok stopping_script }
    ensures report { (judge : List ℕ → Option Source) (told : Files) (text : List ℕ) → told (codes "m.v") ≡ Some text → judge text ≡ Some (Accepted counter) →
        (r : IsReport (Judges judge) told stopping_script stopping_histories (codes "tenant A stopped 2 8 4\n0\n1\n\nstay A F 0 2\nfree stop A 2\n"))
        × LeavesFiles (Judges judge) told stopping_script stopping_histories (codes "tenant A stopped 2 8 4\n0\n1\n\nstay A F 0 2\nfree stop A 2\n") r
        (with_file (codes "A.s") (counter_bytes 1 8 1) told) }
{}

/// Where the budget is 0, what a source prints at time zero is reported, and no stay.
pub fn a_tenant_that_ends_at_once_has_no_stay()
    ensures script { reading greeting_text ≡ Ok greeting_script }
    ensures report { (judge : List ℕ → Option Source) (told : Files) (text : List ℕ) → told (codes "m.v") ≡ Some text → judge text ≡ Some (Accepted greets) →
        IsReport (Judges judge) told greeting_script ([] ∷ []) (codes "tenant A budget 0 3 3\nhi\n\n") }
{}

/// A counter is resumed from a snapshot of tick 2 where its budget is 5; not from one of 4 bits with the value 18, nor where its
/// budget is 1.
pub fn snapshots_are_resumed_or_refused()
    ensures resumed { IsOrigin lone_script.fabrics (resumed_tenant 5 counter (counter_bytes 2 8 2)) resumed_origin }
    ensures wide { IsRefused lone_script.fabrics (resumed_tenant 5 narrow (counter_bytes 2 4 18)) no_place (codes "snapshot 6") }
    ensures late { IsRefused lone_script.fabrics (resumed_tenant 1 counter (counter_bytes 2 8 2)) no_place (codes "snapshot 8") }
{}

/// A counter that free orders move, save and find ended is reported so, and its snapshot is in the store.
pub fn free_orders_are_reported()
    ensures script { reading ordered_text ≡ Ok ordered_script }
    ensures report { (judge : List ℕ → Option Source) (told : Files) (text : List ℕ) → told (codes "m.v") ≡ Some text → judge text ≡ Some (Accepted counter) →
        (r : IsReport (Judges judge) told ordered_script ordered_histories ordered_bytes)
        × LeavesFiles (Judges judge) told ordered_script ordered_histories ordered_bytes r (with_file (codes "A.s") (counter_bytes 2 8 2) told) }
{}
