//! What the names of a flat design stand for. Each function does nothing; its contract is the law.

ghost use Rattle.std.specs.Prelude.{◌≡◌, ℕ, List, All, Some, Ok};
ghost use Rattle.vl_flat.specs.vl_tree.specs.declared.source_tree.Source.{Source};
ghost use Rattle.vl_flat.specs.vl_tree.specs.declared.source_tree.Module.{Module as ModuleTree};
ghost use Rattle.vl_names.specs.vl_scope.specs.declared.fault.Fault.{Fault};
ghost use Rattle.vl_names.specs.vl_scope.specs.Faults.{In};
ghost use Rattle.vl_names.specs.vl_scope.specs.Declarations.{declarations};
ghost use Rattle.vl_names.specs.vl_scope.specs.DeclarationFaults.{IsDeclarationFault};
ghost use Rattle.vl_names.specs.vl_uses.specs.UseFaults.{IsUseFault};
ghost use Rattle.vl_flat.specs.vl_design.specs.declared.design.Signal.{Signal};
ghost use Rattle.vl_flat.specs.vl_design.specs.Rows.{range_width};
ghost use Rattle.vl_flat.specs.vl_design.specs.Sound.{IsWidth};
ghost use Rattle.vl_flat.specs.vl_design.specs.Width.{names_in, names_of};
ghost use Rattle.vl_flat.specs.vl_design.specs.Placed as placed;
ghost use Rattle.vl_flat.specs.vl_design.specs.Plainly as plain;
ghost use Rattle.vl_flat.specs.Items as items;
ghost use Rattle.vl_flat.specs.Declarations.{module', modules};
ghost use Rattle.vl_flat.specs.Scopes.{Env, plainly};
ghost use Rattle.vl_flat.specs.Environments.{Counts, Given, size, environment};
ghost use Rattle.vl_flat.specs.Functions.{function, function_scope};
ghost use Rattle.vl_flat.specs.Flat as flat;
ghost use Rattle.vl_flat.specs.Outcome.{flattened};
ghost use Rattle.vl_sound.specs.Instances.{IsInstance};
ghost use Rattle.vl_sound.specs.Used.{Classes, classes, within};
ghost use Rattle.vl_sound.specs.Agreeing.{Agrees, StandsFor};
ghost use Rattle.vl_sound.specs.Clocks.{ClocksAreInputs};

/// In an instance each name stands for what its declarations say, and a parameter's value is within its width. Only inputs are
/// clocks.
pub fn names_stand_for_what_they_are()
    ensures { (s : Source) → ((f : Fault) → IsDeclarationFault s f → ⊥) → (m : ModuleTree) → In m s.modules
        → (sizes : List ℕ → Counts) (g : Given) → ClocksAreInputs (module' m) g → Agrees (classes (declarations m)) (plainly (environment sizes g (module' m))) }
{}

/// In a function's body its locals are variables, and the other names stand for what they do in its module. The number of the
/// first local may be any.
pub fn names_in_a_function_stand_for_what_they_are()
    ensures { (k : Classes) (env : Env) (a : items.Function) (behind : ℕ) → Agrees k (plainly env) → Agrees (within k a) (function_scope behind env a) }
{}

/// Each instance is of a module of the source, and only its inputs are clocks.
pub fn an_instance_is_of_a_module_of_the_source()
    ensures module { (s : Source) (top : items.Module) → flat.top_of s ≡ Some top → (n : ℕ) (g : Given) (m : items.Module) → IsInstance (modules s) top n g m
        → (tree : ModuleTree) × In tree s.modules × (module' tree ≡ m) }
    ensures clocks { (ms : List items.Module) (top : items.Module) (n : ℕ) (g : Given) (m : items.Module) → IsInstance ms top n g m → ClocksAreInputs m g }
{}

/// The numbers of an instance's names stand in the flat design for the rows of these signals, of 1 to 128 bits, and for these
/// functions. Names have no faults.
pub fn numbers_stand_for_the_names_of_an_instance()
    ensures { (s : Source) → ((f : Fault) → IsDeclarationFault s f → ⊥) → ((f : Fault) → IsUseFault s f → ⊥)
        → (top : items.Module) → flat.top_of s ≡ Some top → (d : placed.Design) → flattened s ≡ Ok d
        → (n : ℕ) (g : Given) (m : ModuleTree) → In m s.modules → IsInstance (modules s) top n g (module' m)
        → StandsFor (classes (declarations m)) (plainly (environment (size n (modules s)) g (module' m))) (names_of (plain.flat d)) }
{}

/// So do those of the names in a function of the instance, whose locals come behind the design's signals.
pub fn numbers_stand_for_the_names_in_a_function()
    ensures { (s : Source) → ((f : Fault) → IsDeclarationFault s f → ⊥) → ((f : Fault) → IsUseFault s f → ⊥)
        → (top : items.Module) → flat.top_of s ≡ Some top → (d : placed.Design) → flattened s ≡ Ok d
        → (n : ℕ) (g : Given) (m : ModuleTree) → In m s.modules → IsInstance (modules s) top n g (module' m)
        → (a : items.Function) → In (items.Functions a) (module' m).items
        → let env = environment (size n (modules s)) g (module' m) in let behind = (flat.whole (modules s) top).signals in
        StandsFor (within (classes (declarations m)) a) (function_scope behind env a) (names_in (names_of (plain.flat d)) (plain.fun (function behind env g.path a))) }
{}

/// Each signal of a flat design has 1 to 128 bits, and so has each variable of its functions.
pub fn a_flat_design_has_signals_of_1_to_128_bits()
    ensures signals { (s : Source) (d : placed.Design) → flattened s ≡ Ok d → All (λ (r : Signal). IsWidth (range_width r.left r.right)) d.signals }
    ensures locals { (s : Source) (d : placed.Design) → flattened s ≡ Ok d → All (λ (f : placed.Func). All (λ (r : Signal). IsWidth (range_width r.left r.right)) f.locals) d.funcs }
{}
