//! What the bodies of processes without faults write, and that combinational ones are nets.

ghost use Rattle.std.specs.Prelude.{◌≡◌, ◌++◌, ◌==◌, ℕ, Bool, true, false, List, [], ◌∷◌};
ghost use Rattle.std.specs.List.{list_any};
ghost use Rattle.vl_check.specs.vl_design.specs.declared.design.ProcKind.TheVariants.{Comb};
ghost use Rattle.vl_check.specs.vl_design.specs.Placed.{Stm, Design, Process};
ghost use Rattle.vl_check.specs.vl_design.specs.Plainly.{stm};
ghost use Rattle.vl_check.specs.vl_design.specs.Width.{Scope};
ghost use Rattle.vl_check.specs.vl_design.specs.State.{State};
ghost use Rattle.vl_check.specs.vl_design.specs.Reads.{stm_writes, stm_timed};
ghost use Rattle.vl_check.specs.vl_design.specs.Laws.{can_act};
ghost use Rattle.vl_check.specs.vl_design.specs.Sound.{IsSignal, IsSoundStm};
ghost use Rattle.vl_unroll.specs.vl_loops.specs.Unroll.{unrolled};
ghost use Rattle.vl_runs.specs.vl_paths.specs.Nets.{IsNetStm};
ghost use Rattle.vl_check.specs.vl_sites.specs.Sites.{sites};
ghost use Rattle.vl_check.specs.Bodies.{Setting, role_of, kind_is};
ghost use Rattle.vl_check.specs.Rules.{sets};
ghost use Rattle.vl_check.specs.Writers.{is_store, excludes};
ghost use Rattle.vl_check.specs.Standing.{body_faults, standing_faults};

/// A signal that no site in a body assigns, but in headers of loops, isn't written with the loops unrolled.
pub fn a_body_writes_what_its_sites_assign()
    ensures { (p : ℕ → Bool) (scope : Scope) (path : List ℕ) (a : Stm) (e : State) → list_any (λ s. sets p s.what) (sites a) ≡ false →
        stm_writes p (unrolled scope (stm path a) e) ≡ false }
{}

/// With its loops unrolled, the body of a combinational process without faults, which asks neither for the time nor for the
/// answer of a system function, only tests, and assigns at once to signals of one word.
pub fn a_combinational_body_without_faults_is_a_net()
    ensures net { (b : Setting) (scope : Scope) (is_memory : ℕ → Bool) (path : List ℕ) (a : Stm) (e : State) → b.role ≡ role_of Comb →
        body_faults b a ≡ [] → stm_timed (stm path a) ≡ false → IsSoundStm scope.names (unrolled scope (stm path a) e) →
        ((k : ℕ) → IsSignal scope.names k → is_memory k ≡ false) → IsNetStm is_memory (unrolled scope (stm path a) e) }
    ensures quiet { (b : Setting) (scope : Scope) (path : List ℕ) (a : Stm) (e : State) → b.role ≡ role_of Comb → body_faults b a ≡ [] →
        stm_timed (stm path a) ≡ false → can_act (unrolled scope (stm path a) e) ≡ false }
    ensures timeless { (b : Setting) (scope : Scope) (path : List ℕ) (a : Stm) (e : State) → b.role ≡ role_of Comb → body_faults b a ≡ [] →
        stm_timed (stm path a) ≡ false → stm_timed (unrolled scope (stm path a) e) ≡ false }
{}

/// Of two processes that may not write one variable (two `always` blocks, or a combinational process and any other), not both
/// assign it, but in headers of loops.
pub fn a_variable_has_one_writer()
    ensures { (d : Design) (before : List Process) (a : Process) (between : List Process) (b : Process) (after : List Process) (k : ℕ) →
        standing_faults d ≡ [] → d.processes ≡ (before ++ (a ∷ between)) ++ (b ∷ after) → excludes a.kind b.kind ≡ true →
        kind_is is_store d.signals k ≡ true → list_any (λ s. sets (λ j. j == k) s.what) (sites a.body) ≡ true →
        list_any (λ s. sets (λ j. j == k) s.what) (sites b.body) ≡ false }
{}
