//! What holds of the stores of a table's nodes.

ghost use Rattle.std.specs.Prelude.{◌≡◌, ℕ, ◌+◌, ◌*◌, ◌<◌, ◌≤◌, ◌++◌, Bool, true, false, List, length, map, drop, take, Some, slice_get};
ghost use Rattle.std.specs.List.{AllByRecursion};
ghost use Rattle.vl_design.specs.Syntax.{Flat, Task};
ghost use Rattle.vl_design.specs.Laws.{IsUnrolled};
ghost use Rattle.vl_design.specs.Sound.{IsMemory, IsSound};
ghost use Rattle.vl_design.specs.Width.{names_of};
ghost use Rattle.sub_split.specs.sub_nodes.specs.Nodes.{Segment, WayOn, Go, Node, Run, Trap};
ghost use Rattle.sub_split.specs.sub_nodes.specs.Code.{table_of};
ghost use Rattle.sub_split.specs.sub_nodes.specs.Cycles.{is_trap};
ghost use Rattle.sub_split.specs.sub_nodes.specs.Shape.{leads_to};
ghost use Rattle.ten_form.specs.declared.store.Store.{Store};
ghost use Rattle.ten_form.specs.Holding.{mask_register};
ghost use Rattle.ten_form.specs.Stores.{node_words, words_down, stores_from, stores_of, stores_above, stores_below, AreDisjoint, IsBeside};

/// No two stores of nodes have a register in common, and each has its registers among those from `r` on, four for each store.
pub fn stores_are_apart()
    ensures disjoint { (r : ℕ) (nodes : List Node) → AreDisjoint (stores_of r nodes) }
    ensures within { (r : ℕ) (nodes : List Node) →
        AllByRecursion (λ x. (r ≤ x.first) × (mask_register x < r + 4 * length (words_down nodes))) (stores_of r nodes) }
    ensures many { (r : ℕ) (nodes : List Node) → length (stores_of r nodes) ≡ length (words_down nodes) }
    ensures beside { (k r : ℕ) (nodes : List Node) → k < r → AllByRecursion (IsBeside k) (stores_of r nodes) }
{}

/// The stores of nodes are those of the nodes from one on, and then those of the nodes before it; of a node they are as many as the
/// words that it makes pending, in order.
pub fn the_stores_of_a_node()
    ensures node { (r n : ℕ) (nodes : List Node) (x : Node) → slice_get nodes n ≡ Some x →
        stores_of r nodes ≡ stores_above r nodes (n + 1) ++ (stores_from (r + 4 * length (words_down (drop (n + 1) nodes))) (node_words x) ++ stores_below r nodes n) }
    ensures cut { (r n : ℕ) (nodes : List Node) → stores_of r nodes ≡ stores_above r nodes n ++ stores_below r nodes n }
    ensures memories { (r : ℕ) (memories : List ℕ) → map (λ s. s.memory) (stores_from r memories) ≡ memories }
    ensures many { (r : ℕ) (x : Node) → length (stores_from r (node_words x)) ≡ length (node_words x) }
{}

/// What holds of the stores of the nodes before one holds of those of the nodes before an earlier one: with these they end.
pub fn stores_of_fewer_nodes()
    ensures below { (r n m : ℕ) (nodes : List Node) → m ≤ n → (more : List Store) × (stores_below r nodes n ≡ more ++ stores_below r nodes m) }
    ensures fewer { (p : Store → Bool) (r n m : ℕ) (nodes : List Node) → AllByRecursion (λ x. p x ≡ true) (stores_below r nodes n) → m ≤ n →
        AllByRecursion (λ x. p x ≡ true) (stores_below r nodes m) }
    ensures all { (p : Store → Bool) (r n : ℕ) (nodes : List Node) → AllByRecursion (λ x. p x ≡ true) (stores_of r nodes) →
        AllByRecursion (λ x. p x ≡ true) (stores_below r nodes n) }
{}

/// The stores of a sound design without loops are of memories (IEEE 1364-2005, clause 4.9).
pub fn stores_are_of_memories()
    ensures all { (d : Flat) (r : ℕ) → IsSound d → IsUnrolled d →
        AllByRecursion (λ x. IsMemory (names_of d) x.memory) (stores_of r (table_of d).nodes) }
    ensures first { (d : Flat) (r k : ℕ) → IsSound d → IsUnrolled d →
        AllByRecursion (λ x. IsMemory (names_of d) x.memory) (stores_of r (take k (table_of d).nodes)) }
{}

/// A segment's node leads to nodes of smaller numbers, but to a trap; and this to a smaller one than that of its segment.
pub fn waves_go_down()
    ensures segments { (d : Flat) (n m : ℕ) (g : Segment) (on : WayOn) → slice_get (table_of d).nodes n ≡ Some (Run g on) → leads_to (Run g on) m ≡ true →
        is_trap (slice_get (table_of d).nodes m) ≡ false → m < n }
    ensures traps { (d : Flat) (n m to : ℕ) (g : Segment) (task : Task) → slice_get (table_of d).nodes n ≡ Some (Run g (Go m)) →
        slice_get (table_of d).nodes m ≡ Some (Trap task to) → to < n }
{}
