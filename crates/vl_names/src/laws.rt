//! Laws of the definitions: what their readers may count on. Each function does nothing; its contract is the law.

ghost use Rattle.std.specs.Prelude.{◌≡◌, ◌↔◌, ℕ, Option};
ghost use Rattle.vl_scope.specs.vl_tree.specs.declared.source_tree.Instance.{Instance};
ghost use Rattle.vl_scope.specs.vl_tree.specs.declared.source_tree.Module.{Module};
ghost use Rattle.vl_scope.specs.vl_tree.specs.declared.source_tree.Source.{Source};
ghost use Rattle.vl_scope.specs.vl_tree.specs.Hierarchy.{instances};
ghost use Rattle.vl_names.specs.Modules.{Instantiates, Leads};
ghost use Rattle.vl_scope.specs.declared.fault.Fault.{Fault};
ghost use Rattle.vl_scope.specs.Faults.{In, IsFirst};
ghost use Rattle.vl_names.specs.HierarchyFaults.{IsHierarchyFault, IsOf, hierarchy_faults};
ghost use Rattle.vl_names.specs.NameFaults.{IsNameFault};

/// The list has just the faults of modules.
pub fn the_list_has_the_hierarchy_faults()
    ensures { (s : Source) (f : Fault) → IsHierarchyFault s f ↔ In f (hierarchy_faults s) }
{}

/// A first fault is the only one, and none comes beside it.
pub fn a_first_fault_is_the_only_one()
    ensures { (s : Source) (a b : Option Fault) → IsFirst (IsNameFault s) a → IsFirst (IsNameFault s) b → a ≡ b }
{}

/// In a source without faults each instance is of a module that is there, and no module contains itself.
pub fn the_modules_of_a_source_without_faults_are_a_hierarchy()
    ensures there { (s : Source) → ((f : Fault) → IsNameFault s f → ⊥) → (m : Module) (u : Instance) → In m s.modules → In u (instances m) → (of : Module) × IsOf s u of }
    ensures ends { (s : Source) → ((f : Fault) → IsNameFault s f → ⊥) → (i : ℕ) → Leads (Instantiates s) i i → ⊥ }
{}
