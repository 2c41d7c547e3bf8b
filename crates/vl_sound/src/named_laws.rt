//! What a source without faults promises of its names. Each function does nothing; its contract is the law.

ghost use Rattle.vl_flat.specs.vl_tree.specs.declared.source_tree.Source.{Source};
ghost use Rattle.vl_flat.specs.vl_tree.specs.declared.source_tree.Module.{Module};
ghost use Rattle.vl_names.specs.vl_scope.specs.declared.fault.Fault.{Fault};
ghost use Rattle.vl_names.specs.vl_scope.specs.Faults.{In};
ghost use Rattle.vl_names.specs.vl_scope.specs.Declarations.{declarations};
ghost use Rattle.vl_names.specs.vl_uses.specs.UseFaults.{IsUseFault};
ghost use Rattle.vl_flat.specs.Declarations.{module'};
ghost use Rattle.vl_sound.specs.Used.{classes, AreUsedIn};

/// Where uses of names have no fault, each name in each module is used as what it is (IEEE 1364-2005, clauses 5.2, 9.2, 9.7.2,
/// 10.4.3 and 17); and each number in it fits its width, by how modules are read (clause 3.5.1).
pub fn names_are_used_as_what_they_are()
    ensures { (s : Source) → ((f : Fault) → IsUseFault s f → ⊥) → (m : Module) → In m s.modules → AreUsedIn (classes (declarations m)) (module' m) }
{}
