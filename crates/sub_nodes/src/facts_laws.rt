//! What holds of each node of the table that is made of a design.

ghost use Rattle.std.specs.Prelude.{◌≡◌, ◌≢◌, ℕ, ◌+◌, ◌*◌, ◌<◌, ◌≤◌, Bool, true, false, [], length, Some, slice_get, All};
ghost use Rattle.vl_design.specs.Syntax.{Flat, Stm, Exp, Exps, Task};
ghost use Rattle.vl_design.specs.Queue.{is_comb, is_fall};
ghost use Rattle.vl_design.specs.Alone.{blocks};
ghost use Rattle.vl_design.specs.Laws.{IsUnrolled};
ghost use Rattle.sub_nodes.specs.Nodes.{Segment, Go, Commit, Node, Run, Trap, Apply};
ghost use Rattle.sub_nodes.specs.Code.{table_of};
ghost use Rattle.sub_nodes.specs.Cycles.{is_trap};
ghost use Rattle.sub_nodes.specs.Shape.{targets};
ghost use Rattle.sub_nodes.specs.Pairs.{ArePaired};
ghost use Rattle.sub_nodes.specs.Early.{next_of, early_from, IsEarly};
ghost use Rattle.sub_nodes.specs.Passing.{Passes, IsNodeOf};
ghost use Rattle.sub_nodes.specs.Size.{table_cuts};

/// Each node that comes to a trap has this right behind it, and no trap stands elsewhere.
pub fn calls_stand_in_pairs()
    ensures all { (d : Flat) → ArePaired 0 (table_of d).nodes }
    ensures each { (d : Flat) (n m : ℕ) (g : Segment) → slice_get (table_of d).nodes n ≡ Some (Run g (Go m)) →
        (m ≡ n + 1) × ((task : Task) × (to : ℕ) × (slice_get (table_of d).nodes m ≡ Some (Trap task to))) }
{}

/// To a call's node leads just the segment that comes to it.
pub fn other_nodes_lead_to_no_calls()
    ensures { (d : Flat) (n : ℕ) (x : Node) → slice_get (table_of d).nodes n ≡ Some x → ((g : Segment) (m : ℕ) → x ≡ Run g (Go m) → ⊥) →
        All (λ m. is_trap (slice_get (table_of d).nodes m) ≡ false) (next_of x) }
{}

/// Behind a node of time zero's wave only such are done until the wave ends, whose update is node 0.
pub fn early_nodes_lead_to_early_ones()
    ensures leads { (d : Flat) (n : ℕ) (x : Node) → IsEarly d n → slice_get (table_of d).nodes n ≡ Some x → All (IsEarly d) (targets x) }
    ensures ends { (d : Flat) (n to : ℕ) (g : Segment) → IsEarly d n → slice_get (table_of d).nodes n ≡ Some (Run g (Commit to)) → to ≡ 0 }
    ensures first { (d : Flat) → IsEarly d (table_of d).zero.first }
{}

/// Once time zero's wave has ended no node of it is done again. Updates aren't nodes of it, nor where a rise or a fall begins.
pub fn other_nodes_lead_to_others()
    ensures leads { (d : Flat) (n : ℕ) (x : Node) → n < early_from d → slice_get (table_of d).nodes n ≡ Some x → All (λ m. m < early_from d) (next_of x) }
    ensures updates { (d : Flat) (n to : ℕ) → slice_get (table_of d).nodes n ≡ Some (Apply to) → n < early_from d }
    ensures rise { (d : Flat) → (table_of d).rise.first < early_from d }
    ensures fall { (d : Flat) → blocks is_fall d.procs ≢ [] → (table_of d).fall.first < early_from d }
{}

/// Nodes hold what blocks hold: what passes from a statement to its parts, and holds of each block of a design without loops,
/// holds of its nodes. No statement of a node holds a call.
pub fn nodes_hold_what_blocks_hold()
    ensures { (d : Flat) (p : Stm → Bool) (e : Exp → Bool) (l : Exps → Bool) (r : Task → Bool) → IsUnrolled d →
        Passes (λ a. p a ≡ true) (λ x. e x ≡ true) (λ xs. l xs ≡ true) (λ t. r t ≡ true) →
        All (λ x. is_comb x.kind ≡ false → p x.body ≡ true) d.procs →
        All (IsNodeOf (λ a. p a ≡ true) (λ x. e x ≡ true) (λ xs. l xs ≡ true) (λ t. r t ≡ true)) (table_of d).nodes }
{}

/// Each number that a table names is one of a node.
pub fn nodes_lead_to_nodes()
    ensures next { (d : Flat) (n : ℕ) (x : Node) → slice_get (table_of d).nodes n ≡ Some x → All (λ m. m < length (table_of d).nodes) (next_of x) }
    ensures zero { (d : Flat) → (table_of d).zero.first < length (table_of d).nodes }
    ensures rise { (d : Flat) → (table_of d).rise.first < length (table_of d).nodes }
    ensures fall { (d : Flat) → (table_of d).fall.first < length (table_of d).nodes }
{}

/// The nodes of a table are at most two for each of a design's cuts, and nine.
pub fn the_nodes_of_a_table_are_few()
    ensures { (d : Flat) → length (table_of d).nodes ≤ 2 * table_cuts d + 9 }
{}
