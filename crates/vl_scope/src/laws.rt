//! Laws of the definitions: what their readers may count on. Each function does nothing; its contract is the law.

ghost use Rattle.std.specs.Prelude.{◌≡◌, ℕ, List, ◌∷◌, ◌++◌, None, ◌↔◌, count_by};
ghost use Rattle.vl_tree.specs.declared.source_tree.Module.{Module};
ghost use Rattle.vl_tree.specs.declared.source_tree.Source.{Source};
ghost use Rattle.vl_scope.specs.declared.fault.Fault.{Fault};
ghost use Rattle.vl_scope.specs.declared.kind.Class.TheVariants as class;
ghost use Rattle.vl_scope.specs.Faults.{In, earliest, IsFirst};
ghost use Rattle.vl_scope.specs.Declarations.{Declared, declarations, is_parameter, kind_in};
ghost use Rattle.vl_scope.specs.DeclarationFaults.{IsDeclarationFault, declaration_faults};

/// The earliest of a list of faults is the first of its members.
pub fn the_earliest_is_the_first()
    ensures { (faults : List Fault) → IsFirst (λ f. In f faults) (earliest None faults) }
{}

/// The list has just the faults of declarations.
pub fn the_list_has_the_declaration_faults()
    ensures { (s : Source) (f : Fault) → IsDeclarationFault s f ↔ In f (declaration_faults s) }
{}

/// A spelling means nothing just where no declaration has it.
pub fn what_is_not_declared_means_nothing()
    ensures { (all : List Declared) (t : List ℕ) → (kind_in all t ≡ None) ↔ ((a : Declared) → In a all → a.name.name ≡ t → ⊥) }
{}

/// The number of a parameter is how many are declared before it in its module.
pub fn a_parameter_has_the_number_of_those_before()
    ensures { (m : Module) (before after : List Declared) (a : Declared) (n : ℕ) → declarations m ≡ before ++ a ∷ after → a.kind.class ≡ class.Parameter n
        → n ≡ count_by (λ d. is_parameter d.kind.class) before }
{}
