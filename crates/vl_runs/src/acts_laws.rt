//! What holds of every run act by act.

ghost use Rattle.std.specs.Prelude.{◌≡◌, ◌+◌, ◌≤◌, ℕ, suc, true, false, List, [], ◌∷◌, length, map, codes, All, if◌then◌else◌, Some, None};
ghost use Rattle.vl_paths.specs.vl_base.specs.declared.files.File.{File};
ghost use Rattle.vl_paths.specs.vl_design.specs.Syntax.{Exps, Stm, Task, Print, Finish, Literal, NoExps, Proc, Flat};
ghost use Rattle.vl_paths.specs.vl_design.specs.Width.{Scope};
ghost use Rattle.vl_paths.specs.vl_design.specs.State.{State};
ghost use Rattle.vl_paths.specs.vl_design.specs.Tasks.{called};
ghost use Rattle.vl_paths.specs.vl_design.specs.Exec.{exec};
ghost use Rattle.vl_paths.specs.vl_design.specs.Functions.{scope_of, fresh};
ghost use Rattle.vl_paths.specs.vl_design.specs.Queue.{Queue, Wave, Ended, Updated, wave_ended, updates_done};
ghost use Rattle.vl_paths.specs.vl_design.specs.Alone.{Origin, Boundary, Shows};
ghost use Rattle.vl_paths.specs.vl_design.specs.Acts.{Point, Between, Inside, Completes, state_at, queue_at, committed_at, at_boundary, tick_of, entered, reach, uptos, Act, After, Before};
ghost use Rattle.vl_paths.specs.vl_design.specs.Laws.{StartsFine, IsUnrolledStm, IsUnrolled, HasQuietNets};
ghost use Rattle.vl_runs.specs.Nets.{pass};
ghost use Rattle.vl_runs.specs.NetsOfSettle.{run, AreSolved, SameDriven};
ghost use Rattle.vl_runs.specs.Checked.{IsChecked, IsOrder};
ghost use Rattle.vl_runs.specs.Runs.{Comes, Calmed, with_values};
ghost use Rattle.vl_runs.specs.Sample.{backwards};
ghost use Rattle.vl_runs.specs.Log.{Moment, call_at, moments, all_moments, exec_all, CountsUp, PausesIn};
ghost use Rattle.vl_runs.specs.Blocks.{IsAt, Stage, has_settled, LogAfter, LogBefore};
ghost use Rattle.vl_runs.specs.SampleOfActs.{choosing, chooser, with_c};

/// Each act in the log of a statement raises the count by one, and nothing else does.
pub fn each_act_in_the_log_is_counted()
    ensures one_by_one { (scope : Scope) (a : Stm) (s : State) → CountsUp s.count (moments scope a s) }
    ensures all { (scope : Scope) (a : Stm) (s : State) → (exec scope a s).count ≡ s.count + length (moments scope a s) }
{}

/// Once a run has finished, a statement has no act.
pub fn there_is_no_act_once_finished()
    ensures { (scope : Scope) (a : Stm) (s : State) → s.finished ≡ true → moments scope a s ≡ [] }
{}

/// Act by act statements without loops do what they do as a whole: they pause right before the first act of their log, and
/// what is left behind it does the rest.
pub fn statements_pause_before_the_first_act_of_their_log()
    ensures { (scope : Scope) (rest : List Stm) (s : State) → All IsUnrolledStm rest → s.finished ≡ false →
        PausesIn scope (all_moments scope rest s) (exec_all scope rest s) (uptos scope rest s) }
{}

/// The combinational processes of a checked design hold no system call.
pub fn checked_processes_are_quiet()
    ensures { (d : Flat) → IsChecked d → HasQuietNets d }
{}

/// A point inside a block stands right behind an act of the block's log, or, before a call, at it: the block begins in a queue
/// that the run by events comes to, and what is left of it does the rest of the log and leads to where the block leads as a whole.
pub fn a_point_inside_a_block_stands_at_an_act_of_its_log()
    ensures after { (o : Origin) (c : ℕ) (q : Queue) (rest : List Stm) (from committed : List (List ℕ)) → IsUnrolled o.flat →
        HasQuietNets o.flat → After o c (Inside q rest from committed) → (m : Moment) × IsAt o q rest from committed m × (m.after ≡ q.state) }
    ensures before { (o : Origin) (c : ℕ) (task : Task) (q : Queue) (rest : List Stm) (from committed : List (List ℕ)) →
        IsUnrolled o.flat → HasQuietNets o.flat → Before o c task (Inside q rest from committed) →
        IsAt o q rest from committed (call_at (scope_of o.flat o.files) task q.state) }
{}

/// Between waves the run act by act is where the run by events comes to: before time zero, or behind the end of a wave or an
/// update, where no process is pending.
pub fn a_point_between_waves_is_come_to()
    ensures { (o : Origin) (c : ℕ) (q : Queue) → IsUnrolled o.flat → HasQuietNets o.flat → After o c (Between q) →
        Comes o q × (q.state.finished ≡ false) × Stage o q }
{}

/// Act by act a wave ends where the run by events ends it, and updates are done where it does them.
pub fn waves_end_and_updates_are_done_where_the_run_comes_to()
    ensures wave { (o : Origin) (c : ℕ) (p : Point) (left : List Proc) (q : Queue) → IsUnrolled o.flat → HasQuietNets o.flat → After o c p →
        (state_at p).finished ≡ false → (queue_at (entered o.flat o.files p)).phase ≡ Wave left →
        reach o.flat o.files (entered o.flat o.files p) left ≡ Completes q → Comes o (wave_ended q) × (q.state.finished ≡ false) }
    ensures update { (o : Origin) (c : ℕ) (q : Queue) → IsUnrolled o.flat → HasQuietNets o.flat → After o c (Between q) → q.phase ≡ Ended →
        Comes o (updates_done o.flat o.files q) }
{}

/// The act at the end of a wave, and that of an update, lead to the values of one pass over the combinational processes in order.
pub fn the_end_of_a_wave_and_an_update_lead_to_the_values_of_one_pass()
    ensures wave { (o : Origin) (order : List ℕ) (c : ℕ) (p : Point) (left : List Proc) (q : Queue) → IsChecked o.flat → IsUnrolled o.flat →
        IsOrder o.flat order → StartsFine o.flat.rows o.resume → After o c p → (state_at p).finished ≡ false →
        (queue_at (entered o.flat o.files p)).phase ≡ Wave left → reach o.flat o.files (entered o.flat o.files p) left ≡ Completes q →
        (s : Calmed o.flat o.files (wave_ended q)) × (s.values ≡ pass (run o.flat o.files (wave_ended q).state) order q.state.values) ×
        Act o.flat o.files p (Between (with_values (wave_ended q) s.values s.pending)) }
    ensures update { (o : Origin) (order : List ℕ) (c : ℕ) (q : Queue) → IsChecked o.flat → IsUnrolled o.flat → IsOrder o.flat order →
        StartsFine o.flat.rows o.resume → After o c (Between q) → q.phase ≡ Ended → (s : Calmed o.flat o.files (updates_done o.flat o.files q)) ×
        (s.values ≡ pass (run o.flat o.files (updates_done o.flat o.files q).state) order (updates_done o.flat o.files q).state.values) ×
        Act o.flat o.files (Between q) (Between (with_values (updates_done o.flat o.files q) s.values s.pending)) }
{}

/// From each point of a run that has not finished an act leads on: so after each number of acts the run is at a point, or it has
/// finished after fewer.
pub fn the_run_goes_on_act_by_act()
    ensures on { (o : Origin) (order : List ℕ) (c : ℕ) (p : Point) → IsChecked o.flat → IsUnrolled o.flat → IsOrder o.flat order →
        StartsFine o.flat.rows o.resume → After o c p → (state_at p).finished ≡ false → (r : Point) × Act o.flat o.files p r }
    ensures far { (o : Origin) (order : List ℕ) (c : ℕ) → IsChecked o.flat → IsUnrolled o.flat → IsOrder o.flat order →
        StartsFine o.flat.rows o.resume → (b : ℕ) × (p : Point) × (b ≤ c) × After o b p × ((state_at p).finished ≡ false → b ≡ c) }
{}

/// From the end of time zero's wave on, and always in a run that begins at a snapshot, each combinational process is solved over
/// the committed values, and each bit that one drives is still as it is in these.
pub fn combinational_processes_hold_over_the_committed_values()
    ensures after { (o : Origin) (order : List ℕ) (c : ℕ) (p : Point) → IsChecked o.flat → IsUnrolled o.flat → IsOrder o.flat order →
        StartsFine o.flat.rows o.resume → After o c p → has_settled o.resume p ≡ true →
        AreSolved o.flat o.files (fresh (committed_at p)) × SameDriven o.flat (committed_at p) (state_at p).values }
    ensures before { (o : Origin) (order : List ℕ) (c : ℕ) (task : Task) (q : Queue) (rest : List Stm) (from committed : List (List ℕ)) →
        IsChecked o.flat → IsUnrolled o.flat → IsOrder o.flat order → StartsFine o.flat.rows o.resume →
        Before o c task (Inside q rest from committed) → has_settled o.resume (Inside q rest from committed) ≡ true →
        AreSolved o.flat o.files (fresh committed) × SameDriven o.flat committed q.state.values }
{}

/// Behind an update, and so at a boundary and where the next wave begins, no nonblocking update is pending.
pub fn no_update_is_pending_behind_an_update()
    ensures { (o : Origin) (order : List ℕ) (c : ℕ) (q : Queue) → IsChecked o.flat → IsUnrolled o.flat → IsOrder o.flat order →
        StartsFine o.flat.rows o.resume → After o c (Between q) → q.phase ≡ Updated → q.state.later ≡ [] }
{}

/// The effect of a call, done at the point right before it, is its act.
pub fn serving_a_call_is_its_act()
    ensures { (o : Origin) (c : ℕ) (task : Task) (q : Queue) (rest : List Stm) (from committed : List (List ℕ)) →
        Before o c task (Inside q rest from committed) →
        After o c (Inside (record q { state = called (scope_of o.flat o.files) task q.state }) rest from committed) }
{}

/// A run finishes only by a call of `$finish`: the act right after which it has finished is one.
pub fn a_run_finishes_by_a_call()
    ensures { (o : Origin) (c : ℕ) (p : Point) → IsUnrolled o.flat → HasQuietNets o.flat → After o (suc c) p →
        (state_at p).finished ≡ true → (es : Exps) × (b : Point) × Before o (suc c) (Finish es) b }
{}

/// An act begins a tick exactly where it leaves a boundary.
pub fn an_act_begins_a_tick_where_it_leaves_a_boundary()
    ensures { (d : Flat) (files : List File) (p r : Point) → (state_at p).finished ≡ false → Act d files p r →
        (state_at r).ticks ≡ (if at_boundary p then (state_at p).ticks + 1 else (state_at p).ticks) }
{}

/// A boundary at which the run has not finished is of its tick.
pub fn a_boundary_is_of_its_tick()
    ensures { (o : Origin) (k : ℕ) (q : Queue) → Boundary o k q → q.state.finished ≡ false → q.state.ticks ≡ k }
{}

/// What the run has printed after an act at a boundary, or once it has finished, it has printed alone at the boundary of that
/// tick, in as many acts. And what it has printed alone at a boundary it has printed after as many acts, at that boundary or
/// finished.
pub fn at_a_boundary_the_run_shows_what_it_shows_alone()
    ensures boundary { (o : Origin) (c : ℕ) (p : Point) → IsUnrolled o.flat → HasQuietNets o.flat → After o c p → at_boundary p ≡ true →
        Shows o (tick_of p) (state_at p).printed c }
    ensures finished { (o : Origin) (c : ℕ) (p : Point) → IsUnrolled o.flat → HasQuietNets o.flat → After o c p →
        (state_at p).finished ≡ true → Shows o (tick_of p) (state_at p).printed c }
    ensures back { (o : Origin) (k c : ℕ) (bytes : List ℕ) → IsUnrolled o.flat → HasQuietNets o.flat → Shows o k bytes c →
        (p : Point) × After o c p × ((state_at p).printed ≡ bytes) ×
        ((state_at p).finished ≡ false → (at_boundary p ≡ true) × (tick_of p ≡ k)) }
{}

/// The run act by act is what the log of the run by events says: what is right after an act, and right before a call, is so by
/// the log, and what is so by the log is so act by act.
pub fn the_run_act_by_act_is_what_the_log_says()
    ensures after { (o : Origin) (c : ℕ) (p : Point) → IsUnrolled o.flat → HasQuietNets o.flat → After o c p → LogAfter o c (state_at p) }
    ensures before { (o : Origin) (c : ℕ) (task : Task) (p : Point) → IsUnrolled o.flat → HasQuietNets o.flat → Before o c task p →
        LogBefore o c task (state_at p) }
    ensures after_back { (o : Origin) (c : ℕ) (s : State) → IsUnrolled o.flat → HasQuietNets o.flat → LogAfter o c s →
        (p : Point) × After o c p × (state_at p ≡ s) }
    ensures before_back { (o : Origin) (c : ℕ) (task : Task) (s : State) → IsUnrolled o.flat → HasQuietNets o.flat →
        LogBefore o c task s → (p : Point) × Before o c task p × (state_at p ≡ s) }
{}

/// The choice of an `if` that holds a call is an act, and then the call in its branch; a call behind `$finish` is none.
pub fn the_log_of_a_block_with_a_choice()
    ensures taken { map (λ m. m.task) (moments (scope_of chooser []) choosing (with_c 1)) ≡
        None ∷ Some (Print (Literal (codes "A") ∷ []) true) ∷ Some (Finish NoExps) ∷ [] }
    ensures passed { map (λ m. m.task) (moments (scope_of chooser []) choosing (with_c 0)) ≡ None ∷ Some (Finish NoExps) ∷ [] }
    ensures counts { map (λ m. m.after.count) (moments (scope_of chooser []) choosing (with_c 1)) ≡ 1 ∷ 2 ∷ 3 ∷ [] }
{}

/// The small design that meets the rules of settling meets the other premises too: it has no loop, and its nets hold no call.
pub fn a_backward_design_is_told_act_by_act()
    ensures unrolled { IsUnrolled backwards }
    ensures quiet { HasQuietNets backwards }
{}
