//! What a flattening may count on. Each function does nothing; its contract is the law.

ghost use Rattle.std.specs.Prelude.{◌≡◌, List, All};
ghost use Rattle.vl_flat.specs.Items.{Module};
ghost use Rattle.vl_flat.specs.Outcome.{Totals, judged};
ghost use Rattle.vl_sound.specs.Apart.{AreApart};
ghost use Rattle.vl_sound.specs.Sized.{Sizes, parts_by};

/// The first fault of a flat design is the same, however many signals and functions modules are said to have: where no parameter and
/// no function has a signal's name.
pub fn the_first_fault_does_not_depend_on_sizes()
    ensures { (one other : Sizes) (ms : List Module) (m : Module) → All AreApart ms → AreApart m
        → (n : Totals) → judged n (parts_by one ms m) ≡ judged n (parts_by other ms m) }
{}
