//! What the sets of bits say of paths and of runs.

ghost use Rattle.std.specs.Prelude.{◌≡◌, ◌↔◌, ◌||◌, ℕ, Bool, true, false};
ghost use Rattle.vl_design.specs.Syntax.{Stm, Flat};
ghost use Rattle.vl_design.specs.Width.{Names, Scope};
ghost use Rattle.vl_design.specs.State.{State};
ghost use Rattle.vl_design.specs.Exec.{exec};
ghost use Rattle.vl_design.specs.Reads.{stm_reads};
ghost use Rattle.vl_design.specs.Laws.{InRange, can_act};
ghost use Rattle.vl_paths.specs.Bits.{Bit};
ghost use Rattle.vl_paths.specs.Paths.{IsAssigned, IsReadFirst, always, early};
ghost use Rattle.vl_paths.specs.Touched.{touched, Lone, SameBit};
ghost use Rattle.vl_paths.specs.Nets.{IsNetStm, Twins};

/// A bit is in the set of those assigned exactly if it is assigned on every path.
pub fn the_assigned_are_those_of_all_paths()
    ensures { (names : Names) (b : Bit) (a : Stm) → (always names b a ≡ true) ↔ IsAssigned names b a }
{}

/// A bit is in the set of those read first exactly if it is read first on some path.
pub fn the_read_are_those_of_some_path()
    ensures { (names : Names) (b : Bit) (a : Stm) → (early names b a ≡ true) ↔ IsReadFirst names b a }
{}

/// What a combinational process assigns on every path depends only on the bits that it reads first: states that are the
/// same at these are the same behind it, at these and at the bits that are always assigned.
pub fn a_net_depends_on_what_it_reads_first()
    ensures { (is_memory : ℕ → Bool) (scope : Scope) (a : Stm) (p : Bit → Bool) (s t : State) → IsNetStm is_memory a →
        ((b : Bit) → early scope.names b a ≡ true → p b ≡ true) → Twins is_memory scope.names.rows p s t →
        Twins is_memory scope.names.rows (λ b. p b || always scope.names b a) (exec scope a s) (exec scope a t) }
{}

/// A bit that no assignment can touch is kept.
pub fn untouched_bits_are_kept()
    ensures { (is_memory : ℕ → Bool) (scope : Scope) (b : Bit) (a : Stm) → IsNetStm is_memory a → can_act a ≡ false → touched scope.names b a ≡ false →
        (s : State) → InRange scope.names.rows s.values → Lone is_memory s.values → SameBit b (exec scope a s).values s.values }
{}

/// Who isn't woken reads no bit of a changed signal first.
pub fn who_is_not_woken_reads_what_it_read()
    ensures { (names : Names) (b : Bit) (p : ℕ → Bool) (a : Stm) → early names b a ≡ true → stm_reads p a ≡ false → p b.signal ≡ false }
{}
