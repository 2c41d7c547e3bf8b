//! What holds of the tables of designs whose loops are unrolled.

ghost use Rattle.std.specs.Prelude.{◌≡◌, ◌≢◌, ◌↔◌, ◌+◌, ◌*◌, ◌≤◌, ℕ, suc, Bool, true, false, List, [], length, slice_get, All};
ghost use Rattle.vl_design.specs.Syntax.{Flat, Stm, Task};
ghost use Rattle.vl_design.specs.State.{State};
ghost use Rattle.vl_design.specs.Functions.{scope_of};
ghost use Rattle.vl_design.specs.Queue.{Queue, is_comb, is_fall};
ghost use Rattle.vl_design.specs.Alone.{Origin, Boundary, blocks};
ghost use Rattle.vl_design.specs.Laws.{HasQuietNets};
ghost use Rattle.vl_design.specs.Acts.{Point, After, Before, state_at, at_boundary};
ghost use Rattle.sub_nodes.specs.Nodes.{Node, Segment, Table};
ghost use Rattle.sub_nodes.specs.Implements.{Impls, IsTableOf};
ghost use Rattle.sub_nodes.specs.Code.{HasFrom, wave_nodes, wave_first, table_of};
ghost use Rattle.sub_nodes.specs.Cycles.{Stage, cycle, served, rises};
ghost use Rattle.sub_nodes.specs.Shape.{IsClosed, IsApart, all_cuts};
ghost use Rattle.sub_nodes.specs.Stands.{Stands, StandsAtTrap, AreNets, CanRun, Comes, IsAt, at_trap};
ghost use Rattle.sub_nodes.specs.Samples.{no_nets};

/// The nodes that statements of a wave are split into implement them.
pub fn the_nodes_of_statements_implement_them()
    ensures { (nodes : List Node) (from update : ℕ) (xs : List Stm) (g : Segment) → HasFrom nodes from (wave_nodes from update xs g) →
        Impls nodes update xs g (wave_first from update xs) }
{}

/// The table that is made of a design is a table of it.
pub fn a_table_made_of_a_design_is_one_of_it()
    ensures { (d : Flat) → IsTableOf d (table_of d) }
{}

/// The nodes of a wave lead to nodes of the wave alone, and past its end to its update; to a trap just the node before it leads.
/// So it is where statements of a wave are split, and of the waves of a table that is made of a design.
pub fn the_nodes_of_a_wave_are_closed()
    ensures statements { (nodes : List Node) (from update : ℕ) (xs : List Stm) (g : Segment) → HasFrom nodes from (wave_nodes from update xs g) →
        IsClosed nodes update from (from + length (wave_nodes from update xs g)) }
    ensures zero { (d : Flat) → IsApart (table_of d).nodes (table_of d).zero }
    ensures rise { (d : Flat) → IsApart (table_of d).nodes (table_of d).rise }
    ensures fall { (d : Flat) → blocks is_fall d.procs ≢ [] → IsApart (table_of d).nodes (table_of d).fall }
{}

/// The nodes of a wave are at most two for each of its calls and for each branch of a choice that holds one, and two: what
/// stands behind a choice isn't multiplied.
pub fn the_nodes_of_a_wave_are_few()
    ensures { (from update : ℕ) (xs : List Stm) (g : Segment) → length (wave_nodes from update xs g) ≤ 2 * all_cuts xs + 2 }
{}

/// One cycle of a table does the next act of the run alone; or, just where this is a call, it comes to the trap right before
/// it.
pub fn a_cycle_is_an_act()
    ensures act { (o : Origin) (T : Table) (nets : State → List (List ℕ)) (c : ℕ) (p : Point) (i : Stage) → CanRun o T nets → After o c p →
        (state_at p).finished ≡ false → Stands T i p → at_trap T (cycle o.flat o.files nets T.nodes i) ≡ false →
        (r : Point) × After o (suc c) r × Stands T (cycle o.flat o.files nets T.nodes i) r }
    ensures trap { (o : Origin) (T : Table) (nets : State → List (List ℕ)) (c : ℕ) (p : Point) (i : Stage) → CanRun o T nets → After o c p →
        (state_at p).finished ≡ false → Stands T i p → at_trap T (cycle o.flat o.files nets T.nodes i) ≡ true →
        (task : Task) × (r : Point) × Before o (suc c) task r × StandsAtTrap T task (cycle o.flat o.files nets T.nodes i) r }
    ensures exactly { (o : Origin) (T : Table) (nets : State → List (List ℕ)) (c : ℕ) (p : Point) (i : Stage) → CanRun o T nets → After o c p →
        (state_at p).finished ≡ false → Stands T i p →
        (at_trap T (cycle o.flat o.files nets T.nodes i) ≡ true) ↔ ((task : Task) × (r : Point) × Before o (suc c) task r) }
{}

/// Serving the call of a trap does its act.
pub fn serving_a_trap_is_its_act()
    ensures { (o : Origin) (T : Table) (c : ℕ) (task : Task) (p : Point) (i : Stage) → Before o c task p → StandsAtTrap T task i p →
        (r : Point) × After o c r × Stands T (served (scope_of o.flat o.files) T.nodes i) r }
{}

/// At each moment the run of a table stands for the run alone after as many acts, or is at a trap right before the next.
pub fn a_run_of_a_table_stands_for_the_run_alone()
    ensures { (o : Origin) (T : Table) (nets : State → List (List ℕ)) (c : ℕ) (i : Stage) → CanRun o T nets → Comes o T nets c i → IsAt o T c i }
{}

/// The run of a table comes to each point of the run alone.
pub fn a_run_of_a_table_comes_to_each_point()
    ensures { (o : Origin) (T : Table) (nets : State → List (List ℕ)) (c : ℕ) (p : Point) → CanRun o T nets → After o c p →
        (i : Stage) × Comes o T nets c i × Stands T i p }
{}

/// At each boundary the run of a table is in the state of the run alone, after as many acts as this has counted, and the clock
/// rises next unless the run has finished; where no combinational process holds a system call.
pub fn a_run_of_a_table_comes_to_each_boundary()
    ensures { (o : Origin) (T : Table) (nets : State → List (List ℕ)) (k : ℕ) (q : Queue) → CanRun o T nets → HasQuietNets o.flat → Boundary o k q →
        (i : Stage) × Comes o T nets q.state.count i × (i.state ≡ q.state) × (q.state.finished ≡ false → rises (slice_get T.nodes i.node) ≡ true) }
{}

/// The clock rises next just where the run is at a boundary; and at no point is it at a trap.
pub fn the_clock_rises_behind_a_boundary()
    ensures rises { (d : Flat) (T : Table) (i : Stage) (p : Point) → IsTableOf d T → Stands T i p →
        rises (slice_get T.nodes i.node) ≡ at_boundary p }
    ensures none { (d : Flat) (T : Table) (i : Stage) (p : Point) → IsTableOf d T → Stands T i p → at_trap T i ≡ false }
{}

/// Of a table that is made of a design just one node rises, the first one of a rise's wave: so a run is at a boundary where
/// this is next.
pub fn one_node_rises()
    ensures { (d : Flat) (n : ℕ) → (rises (slice_get (table_of d).nodes n) ≡ true) ↔ (n ≡ (table_of d).rise.first) }
{}

/// Where a design has no combinational process, no net settles: its runs are those of its table.
pub fn a_design_without_nets_settles_nothing()
    ensures { (o : Origin) → All (λ p. is_comb p.kind ≡ false) o.flat.procs → AreNets o no_nets }
{}
