//! Worked rows of tables of nodes.

ghost use Rattle.std.specs.Prelude.{◌≡◌, ◌++◌, [], codes, replicate};
ghost use Rattle.vl_design.specs.Examples.{tried, late_net, two_blocks, finishes, both_edges, sum, two_words};
ghost use Rattle.sub_nodes.specs.Code.{table_of};
ghost use Rattle.sub_nodes.specs.Samples.{Shows, no_nets, w_is_x, branching, branching_table, switching, switching_table};

/// The stretch behind an `if` with a call stands once behind each of its branches, and what stands behind the stretch's call
/// once.
pub fn a_stretch_behind_a_choice_stands_behind_each_branch()
    ensures { table_of branching ≡ branching_table }
{}

/// Each item of a case with a call has a node, and the default one behind them; an item without a call is done with what
/// stands behind the case.
pub fn each_item_of_a_case_has_nodes()
    ensures { table_of switching ≡ switching_table }
{}

/// A net keeps its value until the wave has ended, while a later block reads what was assigned.
pub fn nets_wait_for_the_end_of_the_wave()
    ensures { Shows (tried [] late_net) (table_of late_net) w_is_x 3 8 (codes "1 0\n2 1\n") }
{}

/// The blocks of a wave run in text order.
pub fn blocks_run_in_text_order()
    ensures { Shows (tried [] two_blocks) (table_of two_blocks) no_nets 5 6 (codes "A\nB\n") }
{}

/// Behind a `$finish` nothing is done.
pub fn nothing_is_done_behind_a_finish()
    ensures { Shows (tried [] finishes) (table_of finishes) no_nets 5 3 [] }
{}

/// A fall's wave comes behind the update of the rise's.
pub fn the_clock_rises_and_falls()
    ensures { Shows (tried [] both_edges) (table_of both_edges) no_nets 4 8 (codes "p\nn 1\n") }
{}

/// An answer of a system function is taken behind its trap, by an assignment or by a choice.
pub fn answers_are_taken_behind_traps()
    ensures { Shows (tried two_words sum) (table_of sum) no_nets 2 18 (replicate 38 32 ++ codes "3\n") }
{}
