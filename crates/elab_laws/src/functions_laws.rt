//! What the compiler of functions may count on. Each function does nothing; its contract is the law.

ghost use Rattle.std.specs.Prelude.{◌≡◌, Ok};
ghost use Rattle.vl_sound.specs.vl_tree.specs.declared.source_tree.Source.{Source};
ghost use Rattle.vl_sound.specs.vl_scope.specs.declared.fault.Fault.{Fault};
ghost use Rattle.vl_sound.specs.vl_scope.specs.DeclarationFaults.{IsDeclarationFault};
ghost use Rattle.vl_sound.specs.vl_uses.specs.UseFaults.{IsUseFault};
ghost use Rattle.ten_plan.specs.vl_design.specs.Placed.{Design};
ghost use Rattle.vl_accept.specs.vl_sites.specs.Own.{HasOwnFunctions};
ghost use Rattle.vl_sound.specs.vl_flat.specs.Outcome.{flattened};
ghost use Rattle.vl_sound.specs.Meeting.{IsElaboration};

/// In a flat design of a source whose names have no fault, the inputs and the result of a function are none of the design's
/// signals, its variables are no memories, and its body asks for no time and for no answer of a system function (IEEE
/// 1364-2005, clauses 10.4 and 17).
pub fn functions_of_a_flat_design_keep_to_their_own()
    ensures { (s : Source) → ((f : Fault) → IsDeclarationFault s f → ⊥) → ((f : Fault) → IsUseFault s f → ⊥)
        → (d : Design) → flattened s ≡ Ok d → HasOwnFunctions d }
{}

/// So it is in the elaboration of every source.
pub fn functions_of_an_elaborated_design_keep_to_their_own()
    ensures { (s : Source) (d : Design) → IsElaboration s (Ok d) → HasOwnFunctions d }
{}
