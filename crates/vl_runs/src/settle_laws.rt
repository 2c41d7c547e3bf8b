//! What holds of every run of a checked design.

ghost use Rattle.std.specs.Prelude.{◌≡◌, ◌==◌, ℕ, ◌≤◌, nat_lt, Bool, true, false, if◌then◌else◌, List, [], ◌∷◌, length, count_by, None};
ghost use Rattle.vl_paths.specs.vl_base.specs.declared.files.File.{File};
ghost use Rattle.vl_paths.specs.vl_design.specs.Syntax.{Flat};
ghost use Rattle.vl_paths.specs.vl_design.specs.State.{State};
ghost use Rattle.vl_paths.specs.vl_design.specs.Exec.{exec};
ghost use Rattle.vl_paths.specs.vl_design.specs.Functions.{scope_of};
ghost use Rattle.vl_paths.specs.vl_design.specs.Queue.{Queue, proc_at, first_pending};
ghost use Rattle.vl_paths.specs.vl_design.specs.Alone.{Origin, Settles, Boundary, first_tick};
ghost use Rattle.vl_paths.specs.vl_design.specs.Laws.{IsFine, StartsFine};
ghost use Rattle.vl_paths.specs.Graph.{drives, reads, Levelled};
ghost use Rattle.vl_runs.specs.Nets.{pass};
ghost use Rattle.vl_runs.specs.NetsOfSettle.{Place, bit_at, comb_at, run, IsSolved, AreSolved, SameOthers, SameDriven};
ghost use Rattle.vl_runs.specs.Checked.{IsChecked, IsOrder};
ghost use Rattle.vl_runs.specs.Runs.{Comes, IsAtRest, Calmed};
ghost use Rattle.vl_runs.specs.Sample.{backwards};

/// A run comes to each of its boundaries.
pub fn a_boundary_is_come_to()
    ensures { (o : Origin) (k : ℕ) (q : Queue) → Boundary o k q → Comes o q }
{}

/// In each queue that a run comes to, values are as the design's signals have them.
pub fn values_stay_fine()
    ensures { (o : Origin) (q : Queue) → StartsFine o.flat.rows o.resume → Comes o q → IsFine o.flat.rows q.state.values }
{}

/// From each queue that it comes to a run settles, in one queue. Where it hasn't finished there, no process is pending, and each
/// is solved.
pub fn a_run_settles_from_each_queue_that_it_comes_to()
    ensures settles { (o : Origin) (order : List ℕ) (q : Queue) → IsChecked o.flat → IsOrder o.flat order → StartsFine o.flat.rows o.resume →
        Comes o q → (r : Queue) × Settles o.flat o.files q r × (r.state.finished ≡ false → IsAtRest o.flat o.files r) }
    ensures once { (d : Flat) (files : List File) (q r s : Queue) → Settles d files q r → Settles d files q s → r ≡ s }
{}

/// In each queue that a run comes to, and in which no process is pending, each is solved.
pub fn all_are_solved_where_nobody_is_pending()
    ensures { (o : Origin) (order : List ℕ) (q : Queue) → IsChecked o.flat → IsOrder o.flat order → StartsFine o.flat.rows o.resume →
        Comes o q → q.state.finished ≡ false → first_pending o.flat.procs q.pending ≡ None → AreSolved o.flat o.files q.state }
{}

/// From each queue that a run comes to, evaluations alone lead to a queue in which no process is pending and each is solved. Its
/// values are those of one pass over the combinational processes in order.
pub fn evaluations_come_to_the_values_of_one_pass()
    ensures { (o : Origin) (order : List ℕ) (q : Queue) → IsChecked o.flat → IsOrder o.flat order → StartsFine o.flat.rows o.resume →
        Comes o q → q.state.finished ≡ false → (c : Calmed o.flat o.files q) × (c.values ≡ pass (run o.flat o.files q.state) order q.state.values) }
{}

/// A run comes to each boundary. Where it hasn't finished there, no process is pending, and each is solved.
pub fn a_run_comes_to_each_boundary()
    ensures { (o : Origin) (order : List ℕ) (k : ℕ) → IsChecked o.flat → IsOrder o.flat order → StartsFine o.flat.rows o.resume →
        first_tick o.resume ≤ k → (q : Queue) × Boundary o k q × (q.state.finished ≡ false → IsAtRest o.flat o.files q) }
{}

/// Where a process is solved, each bit that it drives is its equation's value over the bits that the equation reads.
pub fn a_driven_bit_is_its_equation()
    ensures { (d : Flat) (files : List File) (s : State) (i : ℕ) (w : List (List ℕ)) → IsChecked d → s.finished ≡ false →
        IsFine d.rows s.values → IsFine d.rows w → IsSolved d files s i → ((b : Place) → reads d i b.0 ≡ true → bit_at s.values b ≡ bit_at w b) →
        (b : Place) → drives d i b.0 ≡ true → bit_at s.values b ≡ bit_at (run d files s i w) b }
{}

/// Where all are solved, the values are those of one pass in order over any values that are the same but for driven bits.
pub fn solved_values_are_those_of_one_pass()
    ensures { (d : Flat) (files : List File) (order : List ℕ) (s : State) (w : List (List ℕ)) → IsChecked d → IsOrder d order →
        s.finished ≡ false → IsFine d.rows s.values → IsFine d.rows w → AreSolved d files s → SameOthers d s.values w →
        pass (run d files s) order w ≡ s.values }
{}

/// A solved process stays solved where the bits that it reads and those that it drives stay the same, whatever else changes.
pub fn a_solved_process_stays_solved()
    ensures { (d : Flat) (files : List File) (s t : State) (i : ℕ) → IsChecked d → s.finished ≡ false → t.finished ≡ false →
        IsFine d.rows s.values → IsFine d.rows t.values → IsSolved d files s i →
        ((b : Place) → reads d i b.0 ≡ true → bit_at s.values b ≡ bit_at t.values b) →
        ((b : Place) → drives d i b.0 ≡ true → bit_at s.values b ≡ bit_at t.values b) → IsSolved d files t i }
{}

/// A process that isn't combinational keeps all driven bits.
pub fn blocks_keep_driven_bits()
    ensures { (d : Flat) (files : List File) (i : ℕ) (s : State) → IsChecked d → comb_at d i ≡ false →
        SameDriven d s.values (exec (scope_of d files) (proc_at d i).body s).values }
{}

/// As long as driven bits are kept, they are those of one pass over the other values that were there when all were solved.
pub fn kept_driven_bits_are_those_of_one_pass()
    ensures { (d : Flat) (files : List File) (order : List ℕ) (s : State) (v w : List (List ℕ)) → IsChecked d → IsOrder d order →
        s.finished ≡ false → IsFine d.rows s.values → IsFine d.rows w → AreSolved d files s → SameDriven d s.values v →
        SameOthers d s.values w → SameDriven d v (pass (run d files s) order w) }
{}

/// A list of the processes, each once, in which no combinational one reads a bit that it drives itself, or that one behind it
/// drives, is an order.
pub fn a_levelled_list_of_all_processes_is_an_order()
    ensures { (d : Flat) (order : List ℕ) → ((i : ℕ) → count_by (λ j. j == i) order ≡ (if nat_lt i (length d.procs) then 1 else 0)) →
        Levelled d order → IsOrder d order }
{}

/// A small design whose first net reads its second meets the rules, and has an order.
pub fn a_backward_design_is_checked()
    ensures checked { IsChecked backwards }
    ensures order { IsOrder backwards (1 ∷ 0 ∷ 2 ∷ []) }
{}
