//! What keeping and updating words come to. No function here does anything: each `ensures` is a law.

ghost use Rattle.std.specs.Prelude.{◌≡◌, ◌≢◌, ℕ, ◌<◌, ◌++◌, List, [], length, map, slice_index, slice_index_or, All};
ghost use Rattle.std.specs.List.{AllByRecursion};
ghost use Rattle.ten_form.specs.vl_design.specs.Laws.{IsFine};
ghost use Rattle.ten_form.specs.vl_design.specs.Sound.{IsMemory};
ghost use Rattle.ten_form.specs.vl_design.specs.State.{Update, all_updated};
ghost use Rattle.ten_form.specs.vl_design.specs.Syntax.{Row, Flat};
ghost use Rattle.ten_form.specs.vl_design.specs.Value.{words_of};
ghost use Rattle.ten_form.specs.vl_design.specs.Width.{names_of};
ghost use Rattle.cell_emit.specs.cell_form.specs.declared.cell.Write.{Write};
ghost use Rattle.cell_emit.specs.cell_form.specs.Cycle.{written};
ghost use Rattle.cell_emit.specs.cell_form.specs.Data.{ListData, BankData};
ghost use Rattle.cell_emit.specs.cell_form.specs.Sound.{Shape, shape_of};
ghost use Rattle.cell_emit.specs.Slots.{held, AreSound, Grows};
ghost use Rattle.cell_emit.specs.declared.pending.Site.{Site};
ghost use Rattle.cell_emit.specs.Pendings.{IsSite, stored};
ghost use Rattle.cell_waves.specs.Lasts.{last_write, held_after};
ghost use Rattle.ten_form.specs.declared.store.Store.{Store};
ghost use Rattle.ten_form.specs.Holding.{enable_register, IsIdle, HoldsWords};
ghost use Rattle.cell_waves.specs.Reading.{EachHas, HasStore, IsRead};
ghost use Rattle.cell_waves.specs.Keeping.{IsLeft, IsZero, IsSegment};
ghost use Rattle.cell_waves.specs.Applying.{IsUpdate, behind_update};

/// Sites that say what the registers of stores hold say what the pending updates make of words (IEEE 1364-2005, clause 11.4), and leave
/// words where the stores are idle.
pub fn stores_in_slots_are_what_is_pending()
    ensures sites { (d : Flat) (l : ListData) (stores : List Store) (sites : List Site) → AllByRecursion (λ x. IsMemory (names_of d) x.memory) stores →
        EachHas (IsRead d.rows l) stores sites → All (IsSite (names_of d) l) sites }
    ensures words { (d : Flat) (z : Shape) (b : BankData) (l : ListData) (stores : List Store) (sites : List Site) (later : List Update) →
        AreSound z l → EachHas (IsRead d.rows l) stores sites → HoldsWords d b stores later →
        (base : List (List ℕ)) (m j : ℕ) → IsFine d.rows base → IsMemory (names_of d) m → j < length (words_of base m) →
        slice_index (words_of (all_updated d.rows base later) m) j ≡ stored b l sites m j (slice_index (words_of base m) j) }
    ensures idle { (rows : List Row) (z : Shape) (b : BankData) (l : ListData) (stores : List Store) (sites : List Site) →
        AreSound z l → EachHas (IsRead rows l) stores sites → AllByRecursion (IsIdle b) stores → (m j v : ℕ) → stored b l sites m j v ≡ v }
{}

/// Behind the writes of a segment stores hold all that is pending then (IEEE 1364-2005, clause 9.2.2), and the stores of the segments
/// behind it are idle yet.
pub fn a_segment_keeps_its_updates()
    ensures holds { (d : Flat) (b : BankData) (l : ListData) (kept behind : List Store) (sites : List Site) (sets : List Write) (earlier later : List Update) →
        IsSegment d b l kept behind sites sets later → HoldsWords d b (kept ++ behind) earlier →
        HoldsWords d (written (held b l) sets b) (kept ++ behind) later }
    ensures idle { (d : Flat) (b : BankData) (l : ListData) (kept behind : List Store) (sites : List Site) (sets : List Write) (later : List Update) →
        IsSegment d b l kept behind sites sets later → AllByRecursion (IsIdle (written (held b l) sets b)) behind }
{}

/// What stores hold, those hold alone that aren't idle.
pub fn idle_stores_may_be_left_out()
    ensures { (d : Flat) (b : BankData) (xs ys : List Store) (later : List Update) → HoldsWords d b (xs ++ ys) later →
        AllByRecursion (IsIdle b) ys → HoldsWords d b xs later }
{}

/// Writes that leave the registers of stores leave what they hold.
pub fn other_writes_leave_stores()
    ensures holds { (d : Flat) (b : BankData) (value : ℕ → ℕ) (sets : List Write) (stores : List Store) (later : List Update) →
        AllByRecursion (HasStore (shape_of b)) stores → AllByRecursion (IsLeft sets) stores → HoldsWords d b stores later →
        HoldsWords d (written value sets b) stores later }
    ensures idle { (b : BankData) (value : ℕ → ℕ) (sets : List Write) (stores : List Store) →
        AllByRecursion (HasStore (shape_of b)) stores → AllByRecursion (IsLeft sets) stores → AllByRecursion (IsIdle b) stores →
        AllByRecursion (IsIdle (written value sets b)) stores }
{}

/// Where the registers of stores hold 0, nothing is pending.
pub fn stores_of_zeros_hold_nothing()
    ensures holds { (d : Flat) (b : BankData) (stores : List Store) → AllByRecursion (λ x. IsMemory (names_of d) x.memory) stores →
        AllByRecursion (IsZero b) stores → HoldsWords d b stores [] }
    ensures idle { (b : BankData) (stores : List Store) → AllByRecursion (IsZero b) stores → AllByRecursion (IsIdle b) stores }
{}

/// A register behind writes of any kind holds what its last write set it to.
pub fn the_last_write_of_a_register_stands()
    ensures { (value : ℕ → ℕ) (sets : List Write) (b : BankData) (r : ℕ) → r < length b.regs →
        slice_index (written value sets b).regs r ≡ held_after value (last_write sets r) (slice_index b.regs r) }
{}

/// More cells leave the slots of stores what they hold.
pub fn more_cells_leave_slots()
    ensures { (rows : List Row) (old new : ListData) (stores : List Store) (sites : List Site) → Grows old new →
        EachHas (IsRead rows old) stores sites → EachHas (IsRead rows new) stores sites }
{}

/// Behind an update of words each memory holds what the pending updates make of its words (IEEE 1364-2005, clause 11.4), nothing is
/// pending, other registers are as the writes before it left them, and memories have as many words.
pub fn an_update_writes_the_words_that_are_pending()
    ensures memories { (d : Flat) (b : BankData) (l : ListData) (stores : List Store) (sites : List Site) (here : ℕ) (before : List Write) (values : List (List ℕ)) (later : List Update) →
        IsUpdate d b l stores sites here before values later → (m : ℕ) → IsMemory (names_of d) m →
        slice_index_or (behind_update b l stores sites here before).mems m [] ≡ words_of (all_updated d.rows values later) m }
    ensures empty { (d : Flat) (b : BankData) (l : ListData) (stores : List Store) (sites : List Site) (here : ℕ) (before : List Write) (values : List (List ℕ)) (later : List Update) →
        IsUpdate d b l stores sites here before values later → HoldsWords d (behind_update b l stores sites here before) stores [] }
    ensures idle { (d : Flat) (b : BankData) (l : ListData) (stores : List Store) (sites : List Site) (here : ℕ) (before : List Write) (values : List (List ℕ)) (later : List Update) →
        IsUpdate d b l stores sites here before values later → AllByRecursion (IsIdle (behind_update b l stores sites here before)) stores }
    ensures registers { (d : Flat) (b : BankData) (l : ListData) (stores : List Store) (sites : List Site) (here : ℕ) (before : List Write) (values : List (List ℕ)) (later : List Update) →
        IsUpdate d b l stores sites here before values later → (r : ℕ) → AllByRecursion (λ x. r ≢ enable_register x) stores →
        slice_index (behind_update b l stores sites here before).regs r ≡ slice_index (written (held b l) before b).regs r }
    ensures lengths { (d : Flat) (b : BankData) (l : ListData) (stores : List Store) (sites : List Site) (here : ℕ) (before : List Write) (values : List (List ℕ)) (later : List Update) →
        IsUpdate d b l stores sites here before values later →
        map (λ (ws : List ℕ). length ws) (behind_update b l stores sites here before).mems ≡ map (λ (ws : List ℕ). length ws) b.mems }
{}
