//! What holds of every queue of such processes.

ghost use Rattle.std.specs.Prelude.{◌≡◌, ◌<◌, ℕ, Bool, true, List};
ghost use Rattle.vl_runs.specs.Queue.{Settles};
ghost use Rattle.vl_runs.specs.Nets.{IsOrder, Lawful, SameOthers, Waits, IsSolved, AreSolved, pass};

/// A queue in which each process is pending or solved settles: each process is solved there, and the values are those of one
/// pass in order.
pub fn a_waiting_queue_settles<V, B>()
    ensures { (at : V → B → ℕ) (fine : V → Bool) (run : ℕ → V → V) (wakes : V → V → ℕ → Bool) (drives reads : ℕ → B → Bool)
        (n : ℕ) (order : List ℕ) (q : V × List Bool) → Lawful at (λ v. fine v ≡ true) run wakes drives reads n →
        IsOrder drives reads n order → Waits (λ v. fine v ≡ true) run n q →
        (r : V × List Bool) × Settles run wakes q r × AreSolved run n r.0 × (r.0 ≡ pass run order q.0) }
{}

/// A queue settles in one state.
pub fn a_queue_settles_in_one_state<V>()
    ensures { (run : ℕ → V → V) (wakes : V → V → ℕ → Bool) (q a b : V × List Bool) → Settles run wakes q a → Settles run wakes q b → a ≡ b }
{}

/// Behind one pass in order each process is solved, and only driven bits have changed.
pub fn one_pass_solves_all<V, B>()
    ensures solved { (at : V → B → ℕ) (fine : V → Bool) (run : ℕ → V → V) (wakes : V → V → ℕ → Bool) (drives reads : ℕ → B → Bool)
        (n : ℕ) (order : List ℕ) (v : V) → Lawful at (λ v. fine v ≡ true) run wakes drives reads n →
        IsOrder drives reads n order → fine v ≡ true → AreSolved run n (pass run order v) }
    ensures others { (at : V → B → ℕ) (fine : V → Bool) (run : ℕ → V → V) (wakes : V → V → ℕ → Bool) (drives reads : ℕ → B → Bool)
        (n : ℕ) (order : List ℕ) (v : V) → Lawful at (λ v. fine v ≡ true) run wakes drives reads n →
        IsOrder drives reads n order → fine v ≡ true → SameOthers at drives n v (pass run order v) }
{}

/// Values at which each process is solved are those of one pass over any values that are the same but for driven bits.
pub fn solved_values_are_those_of_one_pass<V, B>()
    ensures { (at : V → B → ℕ) (fine : V → Bool) (run : ℕ → V → V) (wakes : V → V → ℕ → Bool) (drives reads : ℕ → B → Bool)
        (n : ℕ) (order : List ℕ) (v w : V) → Lawful at (λ v. fine v ≡ true) run wakes drives reads n →
        IsOrder drives reads n order → fine v ≡ true → fine w ≡ true → AreSolved run n v →
        SameOthers at drives n v w → pass run order w ≡ v }
{}

/// Where a process is solved, a bit that it drives is its equation's value over the bits that the equation reads.
pub fn a_driven_bit_is_its_equation<V, B>()
    ensures { (at : V → B → ℕ) (fine : V → Bool) (run : ℕ → V → V) (wakes : V → V → ℕ → Bool) (drives reads : ℕ → B → Bool)
        (n p : ℕ) (v w : V) → Lawful at (λ v. fine v ≡ true) run wakes drives reads n → fine v ≡ true → fine w ≡ true →
        IsSolved run v p → ((b : B) → reads p b ≡ true → at v b ≡ at w b) →
        (b : B) → drives p b ≡ true → at v b ≡ at (run p w) b }
{}

/// A solved process stays solved where the bits that it reads and those that it drives stay the same.
pub fn a_solved_process_stays_solved<V, B>()
    ensures { (at : V → B → ℕ) (fine : V → Bool) (run : ℕ → V → V) (wakes : V → V → ℕ → Bool) (drives reads : ℕ → B → Bool)
        (n p : ℕ) (v w : V) → Lawful at (λ v. fine v ≡ true) run wakes drives reads n → fine v ≡ true → fine w ≡ true →
        IsSolved run v p → ((b : B) → reads p b ≡ true → at v b ≡ at w b) → ((b : B) → drives p b ≡ true → at v b ≡ at w b) →
        IsSolved run w p }
{}
