//! What holds of histories. Each function does nothing; its contract is the law.

ghost use Rattle.std.specs.Prelude.{◌≡◌, ℕ, ◌+◌, List, [], ◌∷◌, ◌++◌};
ghost use Rattle.ten_core.specs.vl_design.specs.declared.capacity.Cost.{Cost as Capacity};
ghost use Rattle.fab_model.specs.declared.note.Note.{Note as OneNote};
ghost use Rattle.fab_model.specs.Histories.{after, of_tenant, place_of, replay, Away, HasRoom, IsLawful, IsLegal, May};
ghost use Rattle.fab_model.specs.Moves.{left_for, passed, total, HaveMoveAt};
ghost use Rattle.fab_model.specs.Origins.{AreOwn, Origins};
ghost use Rattle.fab_model.specs.Tokens.{outs, puts};

/// In a legal history the notes of each tenant may follow one another.
pub fn the_notes_of_each_tenant_are_lawful()
    ensures { (g t : ℕ) (c : Capacity) (notes : List OneNote) → IsLegal g c notes → IsLawful g Away (of_tenant t notes) }
{}

/// A history stays legal where one note more may follow and has room.
pub fn a_history_goes_on()
    ensures legal { (g : ℕ) (c : Capacity) (notes : List OneNote) (n : OneNote) → IsLegal g c notes → May g n.entry.kind (place_of n.entry.tenant (replay [] notes)) n →
        HasRoom c n.entry.kind (replay [] notes) n → IsLegal g c (notes ++ n ∷ []) }
    ensures replay { (notes : List OneNote) (n : OneNote) → replay [] (notes ++ n ∷ []) ≡ after n.entry.kind (replay [] notes) n }
{}

/// In a legal history whoever leaves starts from what is named for its number, where whoever is put in line does.
pub fn who_leaves_starts_from_its_own()
    ensures { (all : Origins) (g : ℕ) (c : Capacity) (notes : List OneNote) → IsLegal g c notes → AreOwn all (puts notes) → AreOwn all (outs notes) }
{}

/// In a legal history a tenant that isn't on the fabric has left behind the move of a tick just as often as it was put in line behind it
/// or left for it, where a move stands at that tick in its plan.
pub fn moves_are_told_by_who_comes_and_goes()
    ensures { (g t j : ℕ) (c : Capacity) (notes : List OneNote) → IsLegal g c notes → place_of t (replay [] notes) ≡ Away → HaveMoveAt t j (puts notes) →
        total (passed t j) (outs notes) ≡ total (passed t j) (puts notes) + total (left_for t j) (outs notes) }
{}
