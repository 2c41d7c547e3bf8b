//! What unrolling keeps.

ghost use Rattle.std.specs.Prelude.{◌≡◌, ◌+◌, ◌*◌, ℕ, Bool, true, false, List, [], sum_by};
ghost use Rattle.vl_base.specs.declared.files.File.{File};
ghost use Rattle.vl_design.specs.Syntax.{Flat, Stm};
ghost use Rattle.vl_design.specs.State.{State};
ghost use Rattle.vl_design.specs.Exec.{exec};
ghost use Rattle.vl_design.specs.Functions.{scope_of, calls_within};
ghost use Rattle.vl_design.specs.Cost.{cost};
ghost use Rattle.vl_design.specs.Width.{Scope};
ghost use Rattle.vl_design.specs.Reads.{stm_reads};
ghost use Rattle.vl_design.specs.Queue.{Queue};
ghost use Rattle.vl_design.specs.Alone.{Origin, Boundary};
ghost use Rattle.vl_design.specs.Observed.{IsSameRun};
ghost use Rattle.vl_design.specs.Sound.{IsSound};
ghost use Rattle.vl_design.specs.Laws.{IsUnrolled, IsUnrolledStm};
ghost use Rattle.vl_design.specs.Turns.{turns_read};
ghost use Rattle.vl_loops.specs.Unroll.{is_loop, unrolled, unrolled_flat};
ghost use Rattle.vl_loops.specs.Fits.{CanUnroll, IsStill, IsBlock, IsOf, IsClosed, block_put, queue_put, origin_put};
ghost use Rattle.vl_design.specs.Placed.{Design};
ghost use Rattle.vl_design.specs.Plainly.{flat};
ghost use Rattle.vl_loops.specs.Placed.{unrolled_placed};
ghost use Rattle.vl_design.specs.declared.stop.Stop.TheVariants.{Limit};
ghost use Rattle.vl_design.specs.Placed.{Nop};
ghost use Rattle.vl_design.specs.Plain.{plain_scope};
ghost use Rattle.vl_design.specs.Functions.{fresh};
ghost use Rattle.vl_loops.specs.Limits.{first_limit, stm_count, process_count, statements, nodes};
ghost use Rattle.vl_loops.specs.Examples.{looping, loop, two_turns, calling, calling_unrolled, at, repeating, branch, calling_twice};

/// A block whose loops are unrolled does what the block does, its count of acts included, from every state in which the
/// loop variables are 0; and they are so again behind it.
pub fn blocks_do_the_same()
    ensures state { (d : Flat) (files : List File) (b : Stm) (s : State) → CanUnroll d → IsBlock d b → IsStill d.rows s →
        exec (scope_of (unrolled_flat d) files) (block_put d b) s ≡ exec (scope_of d files) b s }
    ensures still { (d : Flat) (files : List File) (b : Stm) (s : State) → CanUnroll d → IsBlock d b → IsStill d.rows s →
        IsStill d.rows (exec (scope_of d files) b s) }
{}

/// And so it does from every state of the design's signals, whatever the loop variables hold.
pub fn blocks_do_the_same_from_every_state()
    ensures { (d : Flat) (files : List File) (b : Stm) (s : State) → CanUnroll d → IsBlock d b → IsClosed d.rows (λ j. false) b → IsOf d.rows s →
        exec (scope_of (unrolled_flat d) files) (block_put d b) s ≡ exec (scope_of d files) b s }
{}

/// Functions whose loops are unrolled give what they gave, with calls that nest at most so deep.
pub fn functions_give_the_same()
    ensures { (d : Flat) (files : List File) (n f : ℕ) (args : List ℕ) → CanUnroll d →
        calls_within (unrolled_flat d) files n f args ≡ calls_within d files n f args }
{}

/// A design whose loops are unrolled costs what the design costs.
pub fn costs_the_same()
    ensures { (d : Flat) → cost (unrolled_flat d) ≡ cost d }
{}

/// The run of a design whose loops are unrolled is the run of the design, from every origin, also a snapshot: the same is
/// observed of both at each boundary.
pub fn runs_the_same()
    ensures { (o : Origin) → CanUnroll o.flat → IsSameRun o (record o { flat = unrolled_flat o.flat }) }
{}

/// At each boundary the two runs are in equal states, and what is left to do is what was left with its loops unrolled.
pub fn boundaries_are_the_same()
    ensures there { (o : Origin) (k : ℕ) (q : Queue) → CanUnroll o.flat → Boundary o k q → Boundary (origin_put o) k (queue_put o.flat q) }
    ensures back { (o : Origin) (k : ℕ) (s : Queue) → CanUnroll o.flat → Boundary (origin_put o) k s →
        (q : Queue) × Boundary o k q × (s ≡ queue_put o.flat q) }
{}

/// A statement whose loops are unrolled reads what the statement reads in its turns.
pub fn turns_read_the_same()
    ensures { (scope : Scope) (p : ℕ → Bool) → ((j : ℕ) → is_loop scope.names.rows j ≡ true → p j ≡ false) →
        (a : Stm) (e : State) → stm_reads p (unrolled scope a e) ≡ turns_read scope p a e }
{}

/// A statement whose loops are unrolled has no loop; nor has the design.
pub fn no_loop_is_left()
    ensures statement { (scope : Scope) (a : Stm) (e : State) → IsUnrolledStm (unrolled scope a e) }
    ensures design { (d : Flat) → IsUnrolled (unrolled_flat d) }
{}

/// A sound design whose loops are unrolled is sound.
pub fn stays_sound()
    ensures { (d : Flat) → IsSound d → IsSound (unrolled_flat d) }
{}

/// The plain tree of a placed design with its loops unrolled is the plain design with its loops unrolled.
pub fn places_do_not_matter()
    ensures { (d : Design) → CanUnroll (flat d) → flat (unrolled_placed d) ≡ unrolled_flat (flat d) }
{}

/// A loop of two turns is unrolled to its two turns, and the design is one of which the laws speak.
pub fn two_turns_are_unrolled()
    ensures text { block_put looping loop ≡ two_turns }
    ensures premises { CanUnroll looping × IsClosed looping.rows (λ j. false) loop }
{}

/// A call stays where it is, and the loop of its function is unrolled once; the design is one of which the laws speak.
pub fn a_call_stays()
    ensures text { unrolled_flat calling ≡ calling_unrolled }
    ensures premises { CanUnroll calling }
{}

/// A loop of 4,096 turns is within limit 8, and one of 4,097 turns passes it, at its process.
pub fn a_loop_of_4096_turns_is_allowed()
    ensures within { first_limit (repeating 4096) ≡ None }
    ensures past { first_limit (repeating 4097) ≡ Some (Limit (at 1) 8) }
{}

/// An `if` without `else` and its null statement are two statements, and `else ;` is a third; a function's body counts at
/// each of its calls, its statements and its nodes.
pub fn counts()
    ensures missing { stm_count (statements (λ f. 0)) (plain_scope []) (branch (Nop (at 1))) (fresh []) ≡ 2 }
    ensures written { stm_count (statements (λ f. 0)) (plain_scope []) (branch (Nop (at 4))) (fresh []) ≡ 3 }
    ensures called_statements { sum_by (process_count calling_twice statements) calling_twice.processes ≡ 1 + 2 * (1 + 1) }
    ensures called_nodes { sum_by (process_count calling_twice nodes) calling_twice.processes ≡ 2 * (2 + 3) }
{}
