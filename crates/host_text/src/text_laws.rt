//! What follows from the definitions alone.

ghost use Rattle.std.specs.Prelude.{◌≡◌, ℕ, List, [], ◌∷◌, ◌++◌, false, Ok, Err, filter, map, flat_map};
ghost use Rattle.ten_plan.specs.declared.plan.Errand.{Errand as Sent};
ghost use Rattle.host_text.specs.declared.script.Script.{Script as Read};
ghost use Rattle.host_text.specs.Statements.{says};
ghost use Rattle.host_text.specs.Laws.{IsScript, IsFault, AreOrdered, is_like, IsWithinLimits, IsSpelt, fabric_said, tenant_said};
ghost use Rattle.host_text.specs.Reading.{reading, script_of, is_bare};
ghost use Rattle.host_text.specs.Scripts.{with_errand};

/// A script is read exactly where no line has a cause and a fabric and a tenant are there, and then in one
/// way; else it has exactly one first fault, and never both.
pub fn a_script_has_one_reading_or_one_first_fault()
    ensures read { (bytes : List ℕ) (s : Read) → reading bytes ≡ Ok s → IsScript bytes s }
    ensures is_read { (bytes : List ℕ) (s : Read) → IsScript bytes s → reading bytes ≡ Ok s }
    ensures fault { (bytes : List ℕ) (line cause : ℕ) → reading bytes ≡ Err (line, cause) → IsFault bytes line cause }
    ensures is_fault { (bytes : List ℕ) (line cause : ℕ) → IsFault bytes line cause → reading bytes ≡ Err (line, cause) }
    ensures not_both { (bytes : List ℕ) (s : Read) (line cause : ℕ) → IsScript bytes s → IsFault bytes line cause → ⊥ }
    ensures one_reading { (bytes : List ℕ) (s t : Read) → IsScript bytes s → IsScript bytes t → s ≡ t }
    ensures one_fault { (bytes : List ℕ) (line cause at why : ℕ) → IsFault bytes line cause → IsFault bytes at why → (line ≡ at) × (cause ≡ why) }
{}

/// An errand stands behind those before it in the script that are like it: the saves of its tick, or those
/// of its tick that are none.
pub fn errands_keep_their_order()
    ensures { (errands : List Sent) (e like : Sent) → AreOrdered errands → filter (is_like like) (with_errand e errands) ≡ filter (is_like like) errands ++ filter (is_like like) (e ∷ []) }
{}

/// A script that is read has 1 to 8 fabrics, 1 to 64 tenants and at most 256 free orders, and each number in it
/// is one of theirs. A tenant has at most 16 files and 256 errands; these stand by their ticks, at one tick
/// saves of different names first, and then at most one other.
pub fn a_script_keeps_to_its_limits()
    ensures whole { (bytes : List ℕ) (s : Read) → reading bytes ≡ Ok s → is_bare s ≡ false }
    ensures limits { (bytes : List ℕ) (s : Read) → reading bytes ≡ Ok s → IsWithinLimits s }
{}

/// The names, paths and numbers of a script that is read are as its lines may have them; a tenant's files have different names.
pub fn words_of_a_script_are_spelt()
    ensures { (bytes : List ℕ) (s : Read) → reading bytes ≡ Ok s → IsSpelt s }
{}

/// A script has the fabrics and the tenants that its lines declare, in their order.
pub fn lines_declare_fabrics_and_tenants()
    ensures fabrics { (lines : List (List ℕ)) → (script_of lines).fabrics ≡ flat_map (λ l. fabric_said (says l)) lines }
    ensures tenants { (lines : List (List ℕ)) → map (λ t. t.name) (script_of lines).tenants ≡ flat_map (λ l. tenant_said (says l)) lines }
{}
