//! What holds of the runs of tables.

ghost use Rattle.std.specs.Prelude.{◌≡◌, ℕ, ◌+◌, ◌*◌, ◌<◌, ◌≤◌, true, false, List, [], ◌∷◌, length, map, slice_get};
ghost use Rattle.vl_sites.specs.vl_base.specs.declared.files.File.{File};
ghost use Rattle.vl_sites.specs.vl_design.specs.declared.design.End.TheVariants.{Finished, Budget};
ghost use Rattle.vl_sites.specs.vl_design.specs.Syntax.{Flat};
ghost use Rattle.vl_sites.specs.vl_design.specs.Width.{Scope};
ghost use Rattle.vl_sites.specs.vl_design.specs.State.{State};
ghost use Rattle.vl_sites.specs.vl_design.specs.Queue.{Queue};
ghost use Rattle.vl_sites.specs.vl_design.specs.Alone.{Origin, Ends};
ghost use Rattle.vl_sites.specs.vl_design.specs.Laws.{HasQuietNets};
ghost use Rattle.sub_nodes.specs.Nodes.{Table};
ghost use Rattle.sub_nodes.specs.Code.{table_of};
ghost use Rattle.sub_nodes.specs.Cycles.{Stage, cycle, served, rises};
ghost use Rattle.sub_nodes.specs.Stands.{CanRun, Comes, at_trap};
ghost use Rattle.sub_nodes.specs.Samples.{branching_table};
ghost use Rattle.sub_runs.specs.Left.{left, most_left};

/// Where the run of a table has finished within its budget, and no errand is to be done, the run alone ends in the same state,
/// at the boundary of as many ticks. It hasn't ended before: from each earlier boundary it has gone on, and that was of fewer
/// ticks than the budget allows.
pub fn a_run_that_has_finished_has_ended()
    ensures { (o : Origin) (T : Table) (nets : State → List (List ℕ)) (c : ℕ) (i : Stage) → CanRun o T nets → HasQuietNets o.flat →
        o.plan.errands ≡ [] → Comes o T nets c i → i.state.finished ≡ true → i.state.ticks ≤ o.plan.budget →
        (q : Queue) × Ends o i.state.ticks Finished q × (q.state ≡ i.state) }
{}

/// So it ends, if it hasn't finished, where the clock would rise next and the budget is spent.
pub fn a_run_that_has_spent_its_budget_has_ended()
    ensures { (o : Origin) (T : Table) (nets : State → List (List ℕ)) (c : ℕ) (i : Stage) → CanRun o T nets → HasQuietNets o.flat →
        o.plan.errands ≡ [] → Comes o T nets c i → i.state.finished ≡ false → rises (slice_get T.nodes i.node) ≡ true →
        i.state.ticks ≡ o.plan.budget → (q : Queue) × Ends o i.state.ticks Budget q × (q.state ≡ i.state) }
{}

/// A run that has finished, or at which no call is next, has counted as many acts as it has done.
pub fn a_run_counts_its_acts()
    ensures running { (o : Origin) (T : Table) (nets : State → List (List ℕ)) (c : ℕ) (i : Stage) → CanRun o T nets → HasQuietNets o.flat →
        o.plan.errands ≡ [] → Comes o T nets c i → at_trap T i ≡ false → i.state.count ≡ c }
    ensures finished { (o : Origin) (T : Table) (nets : State → List (List ℕ)) (c : ℕ) (i : Stage) → CanRun o T nets → HasQuietNets o.flat →
        o.plan.errands ≡ [] → Comes o T nets c i → i.state.finished ≡ true → i.state.count ≡ c }
{}

/// With each cycle but that in which the clock rises, and with each served call, fewer are left before it rises next; and at no
/// node more than four for each node of the table. So each tick ends.
pub fn each_tick_ends()
    ensures cycle { (d : Flat) (files : List File) (nets : State → List (List ℕ)) (i : Stage) → i.node < length (table_of d).nodes →
        at_trap (table_of d) i ≡ false → rises (slice_get (table_of d).nodes i.node) ≡ false →
        left (table_of d) (cycle d files nets (table_of d).nodes i).node < left (table_of d) i.node }
    ensures serve { (d : Flat) (scope : Scope) (i : Stage) → at_trap (table_of d) i ≡ true →
        left (table_of d) (served scope (table_of d).nodes i).node < left (table_of d) i.node }
    ensures most { (d : Flat) (n : ℕ) → left (table_of d) n < most_left (table_of d) }
    ensures none { (d : Flat) (n : ℕ) → rises (slice_get (table_of d).nodes n) ≡ true → left (table_of d) n ≡ 0 }
{}

/// A run of a table stays among its nodes.
pub fn a_run_stays_among_the_nodes()
    ensures { (o : Origin) (nets : State → List (List ℕ)) (c : ℕ) (i : Stage) → Comes o (table_of o.flat) nets c i →
        i.node < length (table_of o.flat).nodes }
{}

/// For each tick that it has begun, and for time zero, a run does at most so many acts.
pub fn the_acts_of_a_tick_are_few()
    ensures { (o : Origin) (nets : State → List (List ℕ)) (c : ℕ) (i : Stage) → Comes o (table_of o.flat) nets c i →
        c ≤ most_left (table_of o.flat) * (i.state.ticks + 1) }
{}

/// What is left at each node of a small table: at the updates 1 each, at the first node of the rise's wave nothing.
pub fn what_is_left_in_a_small_table()
    ensures left { map (left branching_table) (0 ∷ 1 ∷ 2 ∷ 3 ∷ 4 ∷ 5 ∷ 6 ∷ 7 ∷ 8 ∷ 9 ∷ 10 ∷ []) ≡
        1 ∷ 1 ∷ 27 ∷ 29 ∷ 28 ∷ 33 ∷ 30 ∷ 37 ∷ 28 ∷ 0 ∷ 21 ∷ [] }
    ensures most { most_left branching_table ≡ 44 }
{}
