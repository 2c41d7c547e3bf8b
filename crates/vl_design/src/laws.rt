//! What the definitions say of every run.

ghost use Rattle.std.specs.Prelude.{◌≡◌, ◌+◌, ◌≤◌, ◌<◌, ◌^◌, ℕ, suc, Bool, true, false, List, [], codes, slice_get};
ghost use Rattle.vl_base.specs.declared.files.File.{File};
ghost use Rattle.vl_design.specs.declared.design.End.{End as Reason};
ghost use Rattle.vl_design.specs.declared.design.Form.{Form as Context};
ghost use Rattle.vl_design.specs.Snapshots.{snapshot_of, kept_values};
ghost use Rattle.vl_design.specs.Syntax.{Row, Flat, Exp, Stm, Case, Items, Task};
ghost use Rattle.vl_design.specs.Width.{Scope};
ghost use Rattle.vl_design.specs.Value.{Sample, value, words_of};
ghost use Rattle.vl_design.specs.State.{State, sample};
ghost use Rattle.vl_design.specs.Exec.{exec, counted_if, items_hold};
ghost use Rattle.vl_design.specs.Reads.{reads, stm_reads, stm_writes};
ghost use Rattle.vl_design.specs.Nesting.{AreRanked};
ghost use Rattle.vl_design.specs.Functions.{scope_of, result_of};
ghost use Rattle.vl_design.specs.Tasks.{called};
ghost use Rattle.vl_base.specs.Value.{reading, resized};
ghost use Rattle.vl_design.specs.Queue.{Queue};
ghost use Rattle.vl_design.specs.Laws.{DifferIn, StatesDifferIn, Grows, Adds, InRange, SameShape, IsFine, StartsFine, IsTable, StartsOpen, can_act, IsUnrolled, HasQuietNets, IsReached};
ghost use Rattle.vl_design.specs.Examples.{tried, counter};
ghost use Rattle.vl_design.specs.Alone.{Origin, Settles, Boundary, Ends};
ghost use Rattle.vl_design.specs.Observed.{observed, IsSameRun};
ghost use Rattle.vl_design.specs.Acts.{Point, After, Before, state_at, queue_at, at_boundary, tick_of, branch_of};

/// A run settles in one state.
pub fn settles_in_one_state()
    ensures { (d : Flat) (files : List File) (q a b : Queue) → Settles d files q a → Settles d files q b → a ≡ b }
{}

/// A run is in one state at each boundary.
pub fn has_one_state_at_a_boundary()
    ensures { (o : Origin) (k : ℕ) (a b : Queue) → Boundary o k a → Boundary o k b → a ≡ b }
{}

/// A run ends at one boundary, for one reason, in one state.
pub fn ends_once()
    ensures { (o : Origin) (j k : ℕ) (r s : Reason) (a b : Queue) →
        Ends o j r a → Ends o k s b → (j ≡ k) × (r ≡ s) × (a ≡ b) }
{}

/// Being the same run is an equivalence.
pub fn the_same_run_is_an_equivalence()
    ensures reflexive { (o : Origin) → IsSameRun o o }
    ensures symmetric { (o u : Origin) → IsSameRun o u → IsSameRun u o }
    ensures transitive { (o u v : Origin) → IsSameRun o u → IsSameRun u v → IsSameRun o v }
{}

/// The same runs with one plan end at the same boundary for the same reason, and there is observed the same of both.
pub fn the_same_runs_end_alike()
    ensures { (o u : Origin) (k : ℕ) (reason : Reason) (q : Queue) → IsSameRun o u → o.plan ≡ u.plan → Ends o k reason q →
        (r : Queue) × Ends u k reason r × (observed o.flat.rows q.state ≡ observed u.flat.rows r.state) }
{}

/// The value of an expression depends only on the signals that it reads.
pub fn unread_signals_do_not_matter()
    ensures { (scope : Scope) (p : ℕ → Bool) (s t : Sample) → DifferIn p s t →
        (e : Exp) → reads p e ≡ false → (c : Context) → value scope s e c ≡ value scope t e c }
{}

/// What a statement does depends only on the signals that it reads: states that differ only in others differ only in these
/// behind it.
pub fn unread_signals_do_not_matter_to_statements()
    ensures { (scope : Scope) (p : ℕ → Bool) (a : Stm) → stm_reads p a ≡ false →
        (s t : State) → StatesDifferIn p s t → StatesDifferIn p (exec scope a s) (exec scope a t) }
{}

/// In a design without recursion a call gives what the function's body gives, however deep calls nest.
pub fn a_call_gives_what_the_body_gives()
    ensures { (d : Flat) (rank : ℕ → ℕ) (files : List File) (f : ℕ) (args : List ℕ) → AreRanked d rank →
        (scope_of d files).call f args ≡ result_of (scope_of d files) (slice_get d.funs f) args }
{}

/// A statement changes only signals that it writes.
pub fn other_signals_are_kept()
    ensures { (scope : Scope) (p : ℕ → Bool) (k : ℕ) → p k ≡ true →
        (a : Stm) → stm_writes p a ≡ false → (s : State) → words_of s.values k ≡ words_of (exec scope a s).values k }
{}

/// What is printed at a boundary is printed at each later one.
pub fn printed_text_only_grows()
    ensures { (o : Origin) (j k : ℕ) (a b : Queue) → Boundary o j a → Boundary o k b → j ≤ k → Grows a.state b.state }
{}

/// A run that has finished stays as it is.
pub fn a_finished_run_stays()
    ensures { (o : Origin) (k : ℕ) (q : Queue) → Boundary o k q → q.state.finished ≡ true → Boundary o (suc k) q }
{}

/// At each boundary each signal has as many words as the design says, each below 2 to the signal's width: from nothing, and
/// from a snapshot whose words are so.
pub fn values_stay_in_range()
    ensures { (o : Origin) (k : ℕ) (q : Queue) → StartsFine o.flat.rows o.resume → Boundary o k q → IsFine o.flat.rows q.state.values }
{}

/// The open files stand in ascending order of slots, of which there are 16; each names a file of the set, and its place is
/// not past the file's end: at each boundary, after each act and before each call.
pub fn open_files_stay_in_order()
    ensures boundary { (o : Origin) (k : ℕ) (q : Queue) → StartsOpen o.files o.resume → Boundary o k q → IsTable o.files q.state.table }
    ensures after { (o : Origin) (c : ℕ) (p : Point) → StartsOpen o.files o.resume → After o c p → IsTable o.files (state_at p).table }
    ensures before { (o : Origin) (c : ℕ) (task : Task) (p : Point) → StartsOpen o.files o.resume → Before o c task p →
        IsTable o.files (state_at p).table }
{}

/// A snapshot of such values gives such values.
pub fn snapshots_keep_the_range()
    ensures { (rows : List Row) (s : State) → IsFine rows s.values → IsFine rows (kept_values rows (snapshot_of rows s).words) }
{}

/// A statement keeps each word of a signal below 2 to the signal's width.
pub fn statements_keep_the_range()
    ensures { (scope : Scope) (a : Stm) (s : State) → InRange scope.names.rows s.values → InRange scope.names.rows (exec scope a s).values }
{}

/// A statement leaves as many words of each signal.
pub fn statements_keep_the_words()
    ensures { (scope : Scope) (a : Stm) (s : State) → SameShape (exec scope a s).values s.values }
{}

/// The run right after an act is one.
pub fn is_at_one_point_after_an_act()
    ensures { (o : Origin) (c : ℕ) (p r : Point) → After o c p → After o c r → p ≡ r }
{}

/// The run right before the effect of a call is at one point, and it is one call.
pub fn is_at_one_point_before_a_call()
    ensures { (o : Origin) (c : ℕ) (x y : Task) (p r : Point) → Before o c x p → Before o c y r → (x ≡ y) × (p ≡ r) }
{}

/// Act by act a run comes to each boundary, after as many acts as it has counted there: told of designs whose loops are
/// unrolled and whose combinational processes hold no system call.
pub fn acts_agree_with_the_queue()
    ensures { (o : Origin) (k : ℕ) (q : Queue) → IsUnrolled o.flat → HasQuietNets o.flat → Boundary o k q → IsReached o q }
{}

/// A point at a boundary is the boundary of its tick, and a finished point is the state of that boundary, in such a
/// design.
pub fn a_point_at_a_boundary_is_the_boundary()
    ensures between { (o : Origin) (c : ℕ) (p : Point) → IsUnrolled o.flat → HasQuietNets o.flat → After o c p →
        at_boundary p ≡ true → Boundary o (tick_of p) (queue_at p) }
    ensures finished { (o : Origin) (c : ℕ) (p : Point) → IsUnrolled o.flat → HasQuietNets o.flat → After o c p →
        (state_at p).finished ≡ true → (q : Queue) × Boundary o (tick_of p) q × (q.state ≡ state_at p) }
{}

/// Each act is counted once, in such a design, and a call only with its effect.
pub fn an_act_is_counted_once()
    ensures after { (o : Origin) (c : ℕ) (p : Point) → IsUnrolled o.flat → HasQuietNets o.flat → After o c p → (state_at p).count ≡ c }
    ensures before { (o : Origin) (c : ℕ) (task : Task) (p : Point) → IsUnrolled o.flat → HasQuietNets o.flat →
        Before o c task p → (state_at p).count + 1 ≡ c }
{}

/// The effect of a call leads from the state right before an act to the state right after it.
pub fn a_call_leads_from_before_to_after()
    ensures { (o : Origin) (c : ℕ) (task : Task) (b p : Point) → Before o c task b → After o c p →
        state_at p ≡ called (scope_of o.flat o.files) task (state_at b) }
{}

/// What is printed after an act is printed after each later one.
pub fn printed_text_only_grows_act_by_act()
    ensures { (o : Origin) (b c : ℕ) (p r : Point) → After o b p → After o c r → b ≤ c → Grows (state_at p) (state_at r) }
{}

/// After each act, and before each call, each signal has as many words as the design says, each below 2 to the signal's
/// width.
pub fn values_stay_in_range_act_by_act()
    ensures after { (o : Origin) (c : ℕ) (p : Point) → StartsFine o.flat.rows o.resume → After o c p → IsFine o.flat.rows (state_at p).values }
    ensures before { (o : Origin) (c : ℕ) (task : Task) (p : Point) → StartsFine o.flat.rows o.resume → Before o c task p →
        IsFine o.flat.rows (state_at p).values }
{}

/// A case does what the branch does that it takes; the choice is counted where the case holds a call.
pub fn a_case_does_what_its_branch_does()
    ensures { (scope : Scope) (e : Exp) (items : Items) (s : State) →
        exec scope (Case e items) s ≡ exec scope (branch_of scope (sample s) (Case e items)) (counted_if (items_hold scope s items) s) }
{}

/// Once a run has finished, no statement changes anything.
pub fn nothing_is_done_once_finished()
    ensures { (scope : Scope) (a : Stm) (s : State) → s.finished ≡ true → exec scope a s ≡ s }
{}

/// A statement without system calls does no counted act, and does not finish the run.
pub fn statements_without_calls_do_not_act()
    ensures count { (scope : Scope) (a : Stm) (s : State) → can_act a ≡ false → (exec scope a s).count ≡ s.count }
    ensures finished { (scope : Scope) (a : Stm) (s : State) → can_act a ≡ false → (exec scope a s).finished ≡ s.finished }
{}

/// A statement only adds to the pending updates.
pub fn pending_updates_are_kept()
    ensures { (scope : Scope) (a : Stm) (s : State) → Adds s (exec scope a s) }
{}

/// The count of acts never falls: not over a statement, and not from a boundary to a later one.
pub fn the_count_never_falls()
    ensures statement { (scope : Scope) (a : Stm) (s : State) → s.count ≤ (exec scope a s).count }
    ensures boundary { (o : Origin) (j k : ℕ) (a b : Queue) → Boundary o j a → Boundary o k b → j ≤ k → a.state.count ≤ b.state.count }
{}

/// A value that is extended to a longer width stands for the same number.
pub fn a_longer_width_keeps_the_number()
    ensures { (signed : Bool) (w longer v : ℕ) → w ≤ longer → v < 2 ^ w →
        reading signed longer (resized signed w longer v) ≡ reading signed w v }
{}

/// Act by act: the end of the first wave and its update are two acts, and a counter's third is its first call.
pub fn the_third_act_of_a_counter_is_a_call()
    ensures { (task : Task) × (p : Point) × Before (tried [] counter) 3 task p ×
        ((state_at p).printed ≡ []) × ((state_at p).ticks ≡ 1) × ((state_at p).count ≡ 2) }
{}

/// Act by act: after 11 acts a counter has printed the numbers 0 to 2.
pub fn eleven_acts_of_a_counter_are_three_ticks()
    ensures { (p : Point) × After (tried [] counter) 11 p × ((state_at p).printed ≡ codes "0\n1\n2\n") }
{}
