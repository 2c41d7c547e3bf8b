//! What follows from the definitions alone. No function here does anything: each `ensures` is a law.

ghost use Rattle.std.specs.Prelude.{◌≡◌, ℕ, ◌<◌, ◌≤◌, ◌^◌, ◌⊎◌, ◌==◌, if◌then◌else◌, true, false, List, [], ◌∷◌, length, map, sum, replicate, slice_index, slice_index_or, slice_set, All};
ghost use Rattle.std.specs.List.{flat_map};
ghost use Rattle.cell_form.specs.declared.bank.Port.{Port as OnePort};
ghost use Rattle.cell_form.specs.Data.{BankData};
ghost use Rattle.cell_form.specs.Sound.{SameShape};
ghost use Rattle.cell_form.specs.Writes.{word_of};
ghost use Rattle.reg_ports.specs.declared.restore.PortError.{PortError as Refusal};
ghost use Rattle.reg_ports.specs.Elsewhere.{SameElsewhere, CopiesAgree};
ghost use Rattle.reg_ports.specs.Ports.{word_counts, port_widths, held, all_held, captured, widths, with_word, parted, restored, IsMap};
ghost use Rattle.reg_ports.specs.Refusals.{AreFit, Refuses};

/// A variable's one word is its work copy, and the words of a memory are those from its lowest address on.
pub fn words_of_a_port()
    ensures variable { (b : BankData) (p : OnePort) → p.mem ≡ false → held b p ≡ slice_index b.regs p.work ∷ [] }
    ensures memory { (b : BankData) (p : OnePort) (k : ℕ) → p.mem ≡ true → k < p.words → slice_index (held b p) k ≡ word_of b p.value k }
{}

/// Behind a write of a word the ports hold what they held, but for this word. What no port names stays, and values that were their
/// work copies' are so still.
pub fn a_written_word_is_held()
    ensures held { (ports : List OnePort) (b : BankData) (port word v : ℕ) → IsMap ports b → word < slice_index (word_counts ports) port →
        all_held ports (with_word ports port word v b)
        ≡ slice_set (all_held ports b) port (slice_set (slice_index_or (all_held ports b) port []) word v) }
    ensures elsewhere { (ports : List OnePort) (b : BankData) (port word v : ℕ) → IsMap ports b → word < slice_index (word_counts ports) port →
        SameElsewhere ports (with_word ports port word v b) b }
    ensures copies { (ports : List OnePort) (b : BankData) (port word v : ℕ) → IsMap ports b → word < slice_index (word_counts ports) port →
        All (CopiesAgree b) ports → All (CopiesAgree (with_word ports port word v b)) ports }
{}

/// Captured words are those that each port holds, one port behind the other: as many as the ports have, and each fits.
pub fn captured_words_are_those_of_each_port()
    ensures joined { (ports : List OnePort) (b : BankData) → captured ports b ≡ flat_map (λ (ws : List ℕ). ws) (all_held ports b) }
    ensures parted { (ports : List OnePort) (b : BankData) → IsMap ports b → parted (word_counts ports) (captured ports b) ≡ all_held ports b }
    ensures fit { (ports : List OnePort) (b : BankData) → IsMap ports b → AreFit ports (captured ports b) }
{}

/// Words that are taken apart and joined are the same words, and so are parts that are joined and taken apart.
pub fn parted_words_are_joined()
    ensures joined { (ns ws : List ℕ) → length ws ≡ sum ns → flat_map (λ (xs : List ℕ). xs) (parted ns ws) ≡ ws }
    ensures parted { (wss : List (List ℕ)) → parted (map (λ (ws : List ℕ). length ws) wss) (flat_map (λ (xs : List ℕ). xs) wss) ≡ wss }
{}

/// Behind a restore each port holds its part of the words, a capture gives them back, and values are their work copies'.
pub fn restored_ports_hold_the_words()
    ensures held { (ports : List OnePort) (b : BankData) (ws : List ℕ) → IsMap ports b → length ws ≡ sum (word_counts ports) →
        all_held ports (restored ports ws b) ≡ parted (word_counts ports) ws }
    ensures captured { (ports : List OnePort) (b : BankData) (ws : List ℕ) → IsMap ports b → length ws ≡ sum (word_counts ports) →
        captured ports (restored ports ws b) ≡ ws }
    ensures copies { (ports : List OnePort) (b : BankData) (ws : List ℕ) → IsMap ports b → length ws ≡ sum (word_counts ports) →
        All (CopiesAgree (restored ports ws b)) ports }
{}

/// A restore leaves what no port names.
pub fn a_restore_leaves_the_rest()
    ensures { (ports : List OnePort) (b : BankData) (ws : List ℕ) → IsMap ports b → length ws ≡ sum (word_counts ports) →
        SameElsewhere ports (restored ports ws b) b }
{}

/// Banks whose ports hold the same words, that differ at most in what ports name, and whose values are their work copies' are one.
pub fn a_bank_is_its_words()
    ensures { (ports : List OnePort) (a b : BankData) → IsMap ports a → IsMap ports b → SameElsewhere ports a b → captured ports a ≡ captured ports b →
        All (CopiesAgree a) ports → All (CopiesAgree b) ports → a ≡ b }
{}

/// What the ports of a bank hold is restored from its capture, in each bank with these ports; and so is a bank whose values are their
/// work copies', in each bank that differs at most in what ports name.
pub fn a_captured_bank_is_restored()
    ensures ports { (ports : List OnePort) (b c : BankData) → IsMap ports b → IsMap ports c →
        all_held ports (restored ports (captured ports b) c) ≡ all_held ports b }
    ensures whole { (ports : List OnePort) (b c : BankData) → IsMap ports b → All (CopiesAgree b) ports → SameElsewhere ports c b →
        restored ports (captured ports b) c ≡ b }
{}

/// Ports of a bank are so still where a word of one, or all words, are others that fit, and they are those of each bank of its shape
/// whose words fit.
pub fn ports_stay()
    ensures written { (ports : List OnePort) (b : BankData) (port word v : ℕ) → IsMap ports b → word < slice_index (word_counts ports) port →
        v < 2 ^ slice_index (port_widths ports) port → IsMap ports (with_word ports port word v b) }
    ensures restored { (ports : List OnePort) (b : BankData) (ws : List ℕ) → IsMap ports b → AreFit ports ws → IsMap ports (restored ports ws b) }
    ensures same_shape { (ports : List OnePort) (a b : BankData) → IsMap ports b → SameShape a b → AreFit ports (captured ports a) → IsMap ports a }
{}

/// Words are those of the ports or are refused, for one reason, and never both.
pub fn one_outcome()
    ensures either { (ports : List OnePort) (ws : List ℕ) → AreFit ports ws ⊎ ((e : Refusal) × Refuses ports ws e) }
    ensures never_both { (ports : List OnePort) (ws : List ℕ) (e : Refusal) → AreFit ports ws → Refuses ports ws e → ⊥ }
    ensures only { (ports : List OnePort) (ws : List ℕ) (e f : Refusal) → Refuses ports ws e → Refuses ports ws f → e ≡ f }
{}

/// There are as many widths as words. Where ports say 0 words just of variables, as a snapshot's rows do, they are those of a
/// snapshot of such rows.
pub fn widths_are_those_of_rows()
    ensures many { (ports : List OnePort) → length (widths ports) ≡ sum (word_counts ports) }
    ensures rows { (ports : List OnePort) → All (λ (p : OnePort). (p.mem ≡ false → p.words ≡ 0) × (p.mem ≡ true → 1 ≤ p.words)) ports →
        widths ports ≡ flat_map (λ (p : OnePort). replicate (if p.words == 0 then 1 else p.words) p.width) ports }
{}
