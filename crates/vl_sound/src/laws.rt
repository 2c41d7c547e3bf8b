//! What the readers of flat designs may count on. Each function does nothing; its contract is the law.

ghost use Rattle.std.specs.Prelude.{◌≡◌, ℕ, List, [], Some, Ok};
ghost use Rattle.vl_flat.specs.vl_tree.specs.declared.source_tree.Source.{Source};
ghost use Rattle.vl_names.specs.vl_scope.specs.declared.fault.Fault.{Fault};
ghost use Rattle.vl_names.specs.vl_scope.specs.DeclarationFaults.{IsDeclarationFault};
ghost use Rattle.vl_names.specs.vl_uses.specs.UseFaults.{IsUseFault};
ghost use Rattle.vl_flat.specs.vl_design.specs.Width as width;
ghost use Rattle.vl_flat.specs.vl_design.specs.Sound.{IsSoundExp, IsSoundStm, IsSound};
ghost use Rattle.vl_flat.specs.vl_design.specs.Placed as placed;
ghost use Rattle.vl_flat.specs.vl_design.specs.Plainly as plain;
ghost use Rattle.vl_flat.specs.Surface.{Ex, Statement};
ghost use Rattle.vl_flat.specs.Items.{Module};
ghost use Rattle.vl_flat.specs.Declarations.{modules};
ghost use Rattle.vl_flat.specs.Scopes.{Scope};
ghost use Rattle.vl_flat.specs.Environments.{Given, size, environment};
ghost use Rattle.vl_flat.specs.Expressions as expressions;
ghost use Rattle.vl_flat.specs.ExpressionFaults.{faults};
ghost use Rattle.vl_flat.specs.Statements.{statement, statement_faults};
ghost use Rattle.vl_flat.specs.Flat.{top_of};
ghost use Rattle.vl_flat.specs.Outcome.{flattened};
ghost use Rattle.vl_sound.specs.Instances.{IsInstance};
ghost use Rattle.vl_sound.specs.Used.{Classes, IsUsed, IsUsedStatement};
ghost use Rattle.vl_sound.specs.Agreeing.{Agrees, StandsFor};
ghost use Rattle.vl_sound.specs.Inputs.{NoLoopInputs};
ghost use Rattle.vl_sound.specs.Widths.{HaveWidths};

/// An expression whose names are used as what they are, and stand in a design for it, has there the width and the sign by which it
/// is judged (IEEE 1364-2005, clauses 5.4 and 5.5).
pub fn a_used_expression_has_the_width_by_which_it_is_judged()
    ensures { (k : Classes) (scope : Scope) → Agrees k scope → (design : width.Names) → StandsFor k scope design → (e : Ex) → IsUsed k e →
        width.form design (plain.exp (expressions.exp scope e)) ≡ expressions.form scope e }
{}

/// Such an expression is sound in the design where it has no fault. The parameters that it may name have from 1 to 128 bits.
pub fn a_used_expression_without_faults_is_sound()
    ensures { (k : Classes) (scope : Scope) → Agrees k scope → (design : width.Names) → StandsFor k scope design → HaveWidths scope.names → (e : Ex) → IsUsed k e → faults scope e ≡ [] →
        IsSoundExp design (plain.exp (expressions.exp scope e)) }
{}

/// So is a statement, in an instance of any path.
pub fn a_used_statement_without_faults_is_sound()
    ensures { (k : Classes) (scope : Scope) → Agrees k scope → (design : width.Names) → StandsFor k scope design → HaveWidths scope.names → (path : List ℕ) (a : Statement) → IsUsedStatement k a →
        statement_faults scope a ≡ [] → IsSoundStm design (plain.stm path (statement scope a)) }
{}

/// The parameters of each instance have from 1 to 128 bits. Uses of names have no faults.
pub fn parameters_have_from_1_to_128_bits()
    ensures { (s : Source) → ((f : Fault) → IsUseFault s f → ⊥) → (top : Module) → top_of s ≡ Some top → (n : ℕ) (g : Given) (m : Module) → IsInstance (modules s) top n g m
        → HaveWidths (environment (size n (modules s)) g m) }
{}

/// The flat design of a source whose names have no fault is sound; and in none of its functions an input is a loop variable.
pub fn a_flat_design_is_sound()
    ensures sound { (s : Source) → ((f : Fault) → IsDeclarationFault s f → ⊥) → ((f : Fault) → IsUseFault s f → ⊥)
        → (d : placed.Design) → flattened s ≡ Ok d → IsSound (plain.flat d) }
    ensures inputs { (s : Source) → ((f : Fault) → IsDeclarationFault s f → ⊥) → ((f : Fault) → IsUseFault s f → ⊥)
        → (d : placed.Design) → flattened s ≡ Ok d → NoLoopInputs (plain.flat d) }
{}
