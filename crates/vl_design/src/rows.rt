//! Worked rows of the definitions.

ghost use Rattle.std.specs.Prelude.{◌≡◌, ℕ, ◌++◌, [], ◌∷◌, true, false, codes, replicate};
ghost use Rattle.vl_base.specs.declared.bits.UnOp.TheVariants.{Neg, Not};
ghost use Rattle.vl_base.specs.declared.bits.BinOp.TheVariants.{Add, Div, Shr};
ghost use Rattle.vl_base.specs.Display.{Decimal, LeastDecimal, Hexadecimal, Binary};
ghost use Rattle.vl_design.specs.Syntax.{Num, Un, Bin, Cat, NoExps, MoreExps, Literal, Shown};
ghost use Rattle.vl_design.specs.Width.{form, assigned};
ghost use Rattle.vl_design.specs.Value.{value};
ghost use Rattle.vl_design.specs.Tasks.{display_text};
ghost use Rattle.vl_design.specs.Alone.{Shows};
ghost use Rattle.vl_design.specs.Cost.{cost};
ghost use Rattle.vl_design.specs.Examples.{tried, counter, exchange, bit_writes, early_index, filled, mixer, late_net, two_blocks, finishes, finishes_before_loops, high_z, greets, nested_calls, both_edges, reads_empty, empty_file, sum, two_words, operands, fifteen_and_one, a_plus_b, number};

/// Three ticks of a counter print the numbers 0 to 2 in 11 acts.
pub fn three_ticks_of_a_counter()
    ensures { Shows (tried [] counter) 3 (codes "0\n1\n2\n") 11 }
{}

/// Two registers that take each other's value are exchanged.
pub fn two_registers_are_exchanged()
    ensures { Shows (tried [] exchange) 2 (codes "5 9\n9 5\n") 8 }
{}

/// Of two nonblocking updates to one bit the later stands.
pub fn the_later_update_stands()
    ensures { Shows (tried [] bit_writes) 2 (codes "0\n2\n") 8 }
{}

/// The bit that a nonblocking assignment writes is chosen when the assignment is executed.
pub fn an_index_is_read_at_once()
    ensures { Shows (tried [] early_index) 2 (codes "0\n1\n") 8 }
{}

/// A loop runs turn by turn, and its variable has no value outside.
pub fn a_loop_runs_turn_by_turn()
    ensures { Shows (tried [] filled) 0 (codes "21 0\n") 3 }
{}

/// A net keeps its value until the wave has ended, while a later block reads what was assigned.
pub fn nets_wait_for_the_end_of_the_wave()
    ensures { Shows (tried [] late_net) 2 (codes "1 0\n2 1\n") 8 }
{}

/// The blocks of a wave run in text order.
pub fn blocks_run_in_text_order()
    ensures { Shows (tried [] two_blocks) 1 (codes "A\nB\n") 6 }
{}

/// Behind a `$finish` nothing is done.
pub fn nothing_is_done_behind_a_finish()
    ensures { Shows (tried [] finishes) 5 [] 3 }
{}

/// Loops behind a `$finish` make no turns.
pub fn loops_stop_behind_a_finish()
    ensures { Shows (tried [] finishes_before_loops) 5 [] 3 }
{}

/// A signed label of a `casez` with a question mark on top is extended by it: any bits above match.
pub fn a_signed_label_is_extended_by_its_highest_digit()
    ensures signed { Shows (tried [] (high_z true)) 0 (codes "hit\n") 4 }
    ensures unsigned { Shows (tried [] (high_z false)) 0 (codes "no\n") 4 }
{}

/// An initial block runs at time zero.
pub fn an_initial_block_runs_at_time_zero()
    ensures { Shows (tried [] greets) 0 (codes "hi\n") 3 }
{}

/// A call in a function has its arguments in the widths of the called function's inputs.
pub fn a_call_in_a_function_has_the_called_ones_widths()
    ensures { Shows (tried [] nested_calls) 0 (codes "255\n") 3 }
{}

/// The clock rises and falls in a tick.
pub fn the_clock_rises_and_falls()
    ensures { Shows (tried [] both_edges) 1 (codes "p\nn 1\n") 8 }
{}

/// A file has ended once a read of it was short.
pub fn a_short_read_ends_a_file()
    ensures { Shows (tried empty_file reads_empty) 0 (codes "0 0 1\n") 7 }
{}

/// The words of a file are summed, and the sum is shown in the width of 128 bits.
pub fn the_words_of_a_file_are_summed()
    ensures { Shows (tried two_words sum) 3 (replicate 38 32 ++ codes "3\n") 18 }
{}

/// An operand is extended to the context first: `(a + b) >> 1`, `(a + b + 0) >> 1`, `{a + b}` and `a + b`.
pub fn operands_are_extended_first()
    ensures narrow { value operands fifteen_and_one (Bin Shr a_plus_b (number 1)) (assigned 4 (form operands.names (Bin Shr a_plus_b (number 1)))) ≡ 0 }
    ensures wide { let e = Bin Shr (Bin Add a_plus_b (number 0)) (number 1) in value operands fifteen_and_one e (assigned 4 (form operands.names e)) ≡ 8 }
    ensures concatenated { let e = Cat (MoreExps a_plus_b NoExps) in value operands fifteen_and_one e (assigned 4 (form operands.names e)) ≡ 0 }
    ensures longer { value operands fifteen_and_one a_plus_b (assigned 5 (form operands.names a_plus_b)) ≡ 16 }
{}

/// `-12 / 3` is signed, and `-'d12 / 3` is not.
pub fn one_unsigned_operand_makes_all_unsigned()
    ensures signed { let e = Bin Div (Un Neg (number 12)) (number 3) in value operands fifteen_and_one e (assigned 32 (form operands.names e)) ≡ 4294967292 }
    ensures unsigned { let e = Bin Div (Un Neg (Num 12 32 false)) (number 3) in value operands fifteen_and_one e (assigned 32 (form operands.names e)) ≡ 1431655761 }
{}

/// A value of 128 bits is shown whole.
pub fn wide_values_are_shown_whole()
    ensures { display_text operands fifteen_and_one (Shown Decimal (Un Not (Num 0 128 false)) ∷ []) false
        ≡ codes "340282366920938463463374607431768211455" }
{}

/// Each item of a format has its own width.
pub fn items_have_their_widths()
    ensures { let five = Num 5 8 false in let bar = Literal (codes "|") in
        display_text operands fifteen_and_one (Shown Decimal five ∷ bar ∷ Shown LeastDecimal five ∷ bar ∷ Shown Hexadecimal five ∷ bar ∷ Shown Binary five ∷ []) true
        ≡ codes "  5|5|05|00000101\n" }
{}

/// The costs of the counter and of the sum of a file.
pub fn costs()
    ensures counter { cost counter ≡ record { regs = 128; cells = 48; mem = 0 } }
    ensures sum { cost sum ≡ record { regs = 864; cells = 96; mem = 0 } }
    ensures mixer { cost mixer ≡ record { regs = 321; cells = 106; mem = 8192 } }
{}
