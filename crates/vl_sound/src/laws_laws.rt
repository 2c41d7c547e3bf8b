//! What the readers of flat designs may count on. Each function does nothing; its contract is the law.

ghost use Rattle.std.specs.Prelude.{◌≡◌, ℕ, ◌<◌, ◌≤◌, List, length, flat_map, slice_get, All, Some, Ok};
ghost use Rattle.vl_flat.specs.vl_tree.specs.declared.tree.Identifier.{Identifier};
ghost use Rattle.vl_flat.specs.vl_tree.specs.declared.source_tree.Source.{Source};
ghost use Rattle.vl_names.specs.vl_scope.specs.declared.fault.Fault.{Fault};
ghost use Rattle.vl_names.specs.vl_scope.specs.Faults.{In};
ghost use Rattle.vl_names.specs.vl_scope.specs.DeclarationFaults.{IsDeclarationFault};
ghost use Rattle.vl_flat.specs.vl_design.specs.declared.design.Form.{Form};
ghost use Rattle.vl_flat.specs.declared.binding.Binding.TheVariants.{Signal, Function};
ghost use Rattle.vl_flat.specs.declared.binding.Shape.{Shape};
ghost use Rattle.vl_flat.specs.Items as items;
ghost use Rattle.vl_flat.specs.vl_design.specs.Placed as placed;
ghost use Rattle.vl_flat.specs.Declarations.{modules};
ghost use Rattle.vl_flat.specs.Environments.{Counts, Given, module_named, size, environment};
ghost use Rattle.vl_flat.specs.Functions.{function, signal};
ghost use Rattle.vl_flat.specs.Processes.{Here};
ghost use Rattle.vl_flat.specs.Flat as flat;
ghost use Rattle.vl_flat.specs.Outcome.{flattened};
ghost use Rattle.vl_sound.specs.Apart.{AreApart};
ghost use Rattle.vl_sound.specs.Instances.{IsInstance};
ghost use Rattle.vl_sound.specs.Levels.{AreSpelt, parts_at};

/// Where declarations have no fault, no parameter and no function has a signal's name.
pub fn signals_have_names_of_their_own()
    ensures { (s : Source) → ((f : Fault) → IsDeclarationFault s f → ⊥) → All AreApart (modules s) }
{}

/// An instance has as many signals in the flat design as its module's size says.
pub fn an_instance_has_as_many_signals_as_its_size_says()
    ensures { (s : Source) → ((f : Fault) → IsDeclarationFault s f → ⊥)
        → (n : ℕ) (above : Here) (base : Counts) (us : items.Instances) (u : items.NamedUnit) (m : items.Module) → module_named (modules s) us.definition ≡ Some m
        → length (flat_map (λ (a : flat.Part). a.signals) (flat.instance n (modules s) above base us u m)) ≡ (size n (modules s) us.definition).signals }
{}

/// In the flat design the number of each name of an instance is the place of its signal, which is called so behind the instance's
/// path.
pub fn the_number_of_a_name_is_the_place_of_its_signal()
    ensures { (s : Source) → ((f : Fault) → IsDeclarationFault s f → ⊥)
        → (top : items.Module) → flat.top_of s ≡ Some top
        → (d : placed.Design) → flattened s ≡ Ok d → (n : ℕ) (g : Given) (m : items.Module) → IsInstance (modules s) top n g m
        → (t : List ℕ) (k : ℕ) (r : Shape) → environment (size n (modules s)) g m t ≡ Some (Signal k r)
        → (name : Identifier) × (name.name ≡ t) × (slice_get d.signals k ≡ Some (signal g.path name r)) }
{}

/// In the flat design the number of a function's name is the place of its function, which the module has, in the names and behind
/// the path of the instance that declares it. Its locals come behind all the design's signals.
pub fn the_number_of_a_function_is_its_place()
    ensures { (s : Source) → (top : items.Module) → flat.top_of s ≡ Some top
        → (d : placed.Design) → flattened s ≡ Ok d → (n : ℕ) (g : Given) (m : items.Module) → IsInstance (modules s) top n g m
        → (t : List ℕ) (k : ℕ) (c : Form) → environment (size n (modules s)) g m t ≡ Some (Function k c)
        → (a : items.Function) × In (items.Functions a) m.items × (a.name.name ≡ t)
        × (slice_get d.funcs k
        ≡ Some (function (flat.whole (modules s) top).signals (environment (size n (modules s)) g m) g.path a)) }
{}

/// A flat design has no more than 128 levels of instances: with more, nothing would stand in it that doesn't. Names have a byte at
/// least.
pub fn a_flat_design_has_no_more_than_128_levels()
    ensures { (s : Source) → All AreSpelt (modules s) → (top : items.Module) → flat.top_of s ≡ Some top
        → 0 < length top.name.name
        → (d : placed.Design) → flattened s ≡ Ok d → (n : ℕ) → flat.deepest ≤ n → parts_at n (modules s) top ≡ flat.parts_from (modules s) top }
{}
