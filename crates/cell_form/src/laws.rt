//! What the definitions say of every cycle. No function here does anything: each `ensures` is a law.

ghost use Rattle.std.specs.Prelude.{◌≡◌, ◌≢◌, ℕ, ◌+◌, ◌-◌, ◌<◌, ◌≤◌, ◌==◌, if◌then◌else◌, false, List, [], ◌∷◌, ◌++◌, map, take, length, slice_get, slice_index, slice_index_or, Some, pos};
ghost use Rattle.std.specs.List.{AllByRecursion, list_any};
ghost use Rattle.vl_base.specs.Selects.{bit_of};
ghost use Rattle.cell_form.specs.declared.cell.Write.{Write};
ghost use Rattle.cell_form.specs.declared.cell.Write.TheVariants as w;
ghost use Rattle.cell_form.specs.Data.{CellData, ListData, BankData};
ghost use Rattle.cell_form.specs.Values.{Slot, slots_of, cell_slot};
ghost use Rattle.cell_form.specs.Cycle.{masked, written, value_at, cycled};
ghost use Rattle.cell_form.specs.Sound.{Shape, AreCells, IsList, IsFit, SameShape, shape_of};
ghost use Rattle.cell_form.specs.Writes.{sets_register, sets_word, word_of};

/// Each cell has one slot: its operation over registers, memories and the slots of the cells before it.
pub fn each_slot_is_its_operation()
    ensures one { (first : ℕ) (regs : List ℕ) (mems : List (List ℕ)) (cells : List CellData) →
        length (slots_of first regs mems cells) ≡ length cells }
    ensures operation { (first : ℕ) (regs : List ℕ) (mems : List (List ℕ)) (before after : List CellData) (c : CellData) →
        slice_get (slots_of first regs mems (before ++ c ∷ after)) (length before)
        ≡ Some (cell_slot first regs mems (slots_of first regs mems before) c) }
{}

/// Slots that were there stay when a list gets longer.
pub fn slots_stay()
    ensures { (first : ℕ) (regs : List ℕ) (mems : List (List ℕ)) (cells more : List CellData) →
        take (length cells) (slots_of first regs mems (cells ++ more)) ≡ slots_of first regs mems cells }
{}

/// Each slot has a value of its cell's width.
pub fn slots_fit()
    ensures widths { (first : ℕ) (regs : List ℕ) (mems : List (List ℕ)) (cells : List CellData) →
        map (λ (x : Slot). x.width) (slots_of first regs mems cells) ≡ map (λ (c : CellData). c.width) cells }
    ensures values { (s : Shape) (first : ℕ) (regs : List ℕ) (mems : List (List ℕ)) (cells : List CellData) →
        AreCells s first [] cells → AllByRecursion IsFit (slots_of first regs mems cells) }
{}

/// After a cycle the bank holds each slot's value, and other slots are as they were.
pub fn slots_are_held()
    ensures held { (l : ListData) (b : BankData) (k : ℕ) → IsList (shape_of b) l → k < length l.cells →
        slice_index (cycled l b).slots (l.first + k) ≡ value_at l.first (slots_of l.first b.regs b.mems l.cells) (l.first + k) }
    ensures before { (l : ListData) (b : BankData) (k : ℕ) → IsList (shape_of b) l → k < l.first →
        slice_index (cycled l b).slots k ≡ slice_index b.slots k }
    ensures behind { (l : ListData) (b : BankData) (k : ℕ) → IsList (shape_of b) l → l.first + length l.cells ≤ k →
        slice_index (cycled l b).slots k ≡ slice_index b.slots k }
{}

/// Of writes to a register the last one stands, with the value that its slot has; a register without one stays.
pub fn the_later_write_of_a_register_stands()
    ensures stands { (value : ℕ → ℕ) (before after : List Write) (r s : ℕ) (b : BankData) → r < length b.regs →
        list_any (sets_register r) after ≡ false →
        slice_index (written value (before ++ w.Reg r s ∷ after) b).regs r ≡ value s }
    ensures stays { (value : ℕ → ℕ) (all : List Write) (r : ℕ) (b : BankData) → list_any (sets_register r) all ≡ false →
        slice_index (written value all b).regs r ≡ slice_index b.regs r }
{}

/// Of writes to a word of a memory the last one stands, in the bits of its mask; a word without one stays.
pub fn the_later_write_of_a_word_stands()
    ensures stands { (value : ℕ → ℕ) (before after : List Write) (m enable word new mask : ℕ) (b : BankData) → m < length b.mems →
        value word < length (slice_index_or b.mems m []) → value enable ≢ 0 → list_any (sets_word value m (value word)) after ≡ false →
        word_of (written value (before ++ w.Mem m enable word new mask ∷ after) b) m (value word)
        ≡ masked (word_of (written value before b) m (value word)) (value new) (value mask) }
    ensures stays { (value : ℕ → ℕ) (all : List Write) (m k : ℕ) (b : BankData) → list_any (sets_word value m k) all ≡ false →
        word_of (written value all b) m k ≡ word_of b m k }
{}

/// A bit of a word that is written under a mask is the new word's where the mask has it set, else the old one's.
pub fn masked_bits()
    ensures { (old new mask i : ℕ) → bit_of (masked old new mask) (pos i)
        ≡ (if bit_of mask (pos i) == 0 then bit_of old (pos i) else bit_of new (pos i)) }
{}

/// A cycle leaves as many registers, memories, words and slots as there were.
pub fn a_cycle_keeps_the_shape()
    ensures { (l : ListData) (b : BankData) → IsList (shape_of b) l → SameShape (cycled l b) b }
{}
