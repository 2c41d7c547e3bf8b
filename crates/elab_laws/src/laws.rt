//! What the checks of flat designs may count on. The function does nothing; its contract is the law.

ghost use Rattle.std.specs.Prelude.{◌≡◌, All, Ok};
ghost use Rattle.vl_sound.specs.vl_tree.specs.declared.source_tree.Source.{Source};
ghost use Rattle.vl_sound.specs.vl_scope.specs.declared.fault.Fault.{Fault};
ghost use Rattle.vl_sound.specs.vl_scope.specs.DeclarationFaults.{IsDeclarationFault};
ghost use Rattle.vl_sound.specs.vl_uses.specs.UseFaults.{IsUseFault};
ghost use Rattle.ten_plan.specs.vl_design.specs.Placed.{Design};
ghost use Rattle.vl_accept.specs.Built.{IsBuilt};
ghost use Rattle.vl_sound.specs.vl_flat.specs.Outcome.{flattened};

/// In a flat design of a source whose names have no fault, continuous assignments are to constant selects, combinational processes
/// ask for no time and for no answer of a system function, and only continuous assignments are to nets (IEEE 1364-2005, clauses
/// 6.1, 9.2 and 17).
pub fn processes_are_as_elaboration_makes_them()
    ensures { (s : Source) → ((f : Fault) → IsDeclarationFault s f → ⊥) → ((f : Fault) → IsUseFault s f → ⊥)
        → (d : Design) → flattened s ≡ Ok d → All (IsBuilt d.signals) d.processes }
{}
