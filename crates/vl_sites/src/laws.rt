//! What holds of statements that read no answer but that of the call right before them. Each function does nothing; its contract is
//! the law.

ghost use Rattle.std.specs.Prelude.{◌≡◌, true, false};
ghost use Rattle.vl_design.specs.Exec.{exec};
ghost use Rattle.vl_design.specs.State.{State};
ghost use Rattle.vl_design.specs.Syntax.{Stm};
ghost use Rattle.vl_design.specs.Width.{Scope};
ghost use Rattle.vl_sites.specs.Answers.{answers, asks_before};
ghost use Rattle.vl_sites.specs.Behind.{IsBehind};

/// What such a statement does doesn't hang on the answer before it, nor on what has been printed and counted: states that differ
/// only in these differ only in these behind it. Behind a call that gives an answer they have one answer, unless the run had finished.
pub fn earlier_answers_do_not_matter()
    ensures statement { (scope : Scope) (a : Stm) (first s t : State) → asks_before a ≡ false → IsBehind first s t →
        IsBehind first (exec scope a s) (exec scope a t) }
    ensures answer { (scope : Scope) (a : Stm) (first s t : State) → answers a ≡ true → asks_before a ≡ false → s.finished ≡ false →
        IsBehind first s t → (exec scope a s).answer ≡ (exec scope a t).answer }
{}
