//! What the states of cells may count on. Each function does nothing; its contract is the law.

ghost use Rattle.std.specs.Prelude.{◌≡◌, Ok};
ghost use Rattle.vl_sound.specs.vl_tree.specs.declared.source_tree.Source.{Source};
ghost use Rattle.vl_sound.specs.vl_scope.specs.declared.fault.Fault.{Fault};
ghost use Rattle.vl_sound.specs.vl_scope.specs.DeclarationFaults.{IsDeclarationFault};
ghost use Rattle.vl_sound.specs.vl_uses.specs.UseFaults.{IsUseFault};
ghost use Rattle.ten_plan.specs.vl_design.specs.Placed.{Design};
ghost use Rattle.vl_accept.specs.vl_check.specs.Written.{HasWriters};
ghost use Rattle.vl_sound.specs.vl_flat.specs.Outcome.{flattened};
ghost use Rattle.vl_sound.specs.Meeting.{IsElaboration};

/// In a flat design of a source whose names have no fault, combinational processes assign no variable that isn't said to be
/// computed, and of those that are said to be, each that a process assigns is written by a combinational one (IEEE 1364-2005,
/// clauses 6.1 and 9.2).
pub fn processes_of_a_flat_design_write_what_is_theirs()
    ensures { (s : Source) → ((f : Fault) → IsDeclarationFault s f → ⊥) → ((f : Fault) → IsUseFault s f → ⊥)
        → (d : Design) → flattened s ≡ Ok d → HasWriters d }
{}

/// So it is in the elaboration of every source.
pub fn processes_of_an_elaborated_design_write_what_is_theirs()
    ensures { (s : Source) (d : Design) → IsElaboration s (Ok d) → HasWriters d }
{}
