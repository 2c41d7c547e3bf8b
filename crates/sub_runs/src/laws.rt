//! What holds of the nets of every table that is made of a checked design.

ghost use Rattle.std.specs.Prelude.{◌≡◌, ◌==◌, ◌↔◌, ◌<◌, ◌≤◌, ℕ, true, false, List, slice_get, Some, None};
ghost use Rattle.vl_sites.specs.vl_base.specs.declared.files.File.{File};
ghost use Rattle.vl_sites.specs.vl_design.specs.Syntax.{Flat, Task};
ghost use Rattle.vl_sites.specs.vl_design.specs.State.{State};
ghost use Rattle.vl_sites.specs.vl_design.specs.Functions.{scope_of};
ghost use Rattle.vl_sites.specs.vl_design.specs.Reads.{stm_writes, task_writes};
ghost use Rattle.vl_sites.specs.vl_design.specs.Queue.{proc_at};
ghost use Rattle.vl_sites.specs.vl_design.specs.Snapshots.{Snapshot};
ghost use Rattle.vl_sites.specs.vl_design.specs.Alone.{Origin};
ghost use Rattle.vl_sites.specs.vl_design.specs.Laws.{IsFine, StartsFine, IsUnrolled};
ghost use Rattle.vl_runs.specs.NetsOfSettle.{comb_at};
ghost use Rattle.vl_runs.specs.Checked.{IsChecked, IsOrder};
ghost use Rattle.vl_runs.specs.Sample.{backwards};
ghost use Rattle.sub_nodes.specs.Nodes.{Segment, WayOn, Commit, Node, Run, Trap, Apply, Table};
ghost use Rattle.sub_nodes.specs.Code.{table_of};
ghost use Rattle.sub_nodes.specs.Cycles.{Stage, committed_in, segment_done, settled, cycle, served};
ghost use Rattle.sub_nodes.specs.Shape.{leads_to};
ghost use Rattle.sub_nodes.specs.Stands.{AreNets, CanRun, first_stage, Comes};
ghost use Rattle.sub_runs.specs.Nets.{computed_at, nets_of, HoldNets, NetsAreZero, RestIsZero, HasNarrowNets, WritesNoNets, LeavesNets, ends_wave, zero_low};
ghost use Rattle.sub_runs.specs.Tidy.{IsTidy};
ghost use Rattle.sub_runs.specs.Memories.{SetsNoMemories, MemoriesHold};

/// What a checked design's nets settle in are the values of one pass over the combinational processes in order.
pub fn a_designs_nets_are_those_of_one_pass()
    ensures { (o : Origin) (order : List ℕ) → IsChecked o.flat → IsUnrolled o.flat → IsOrder o.flat order →
        StartsFine o.flat.rows o.resume → AreNets o (nets_of o.flat o.files order) }
{}

/// So the table that is made of such a design runs as the design runs alone.
pub fn the_table_of_a_checked_design_can_run()
    ensures { (o : Origin) (order : List ℕ) → IsChecked o.flat → IsUnrolled o.flat → IsOrder o.flat order →
        StartsFine o.flat.rows o.resume → CanRun o (table_of o.flat) (nets_of o.flat o.files order) }
{}

/// Where nets settle they hold over the values that are committed there, if what no process drives of them was 0.
pub fn where_nets_settle_they_hold()
    ensures { (d : Flat) (order : List ℕ) (files : List File) (s : State) (to : ℕ) → IsChecked d → IsOrder d order →
        s.finished ≡ false → IsFine d.rows s.values → RestIsZero d s.values →
        HoldNets d order files (committed_in to (settled d files (nets_of d files order) s)) }
{}

/// What no process drives of nets is 0 in values in which they hold, or are 0, where each has one word.
pub fn what_no_process_drives_is_zero()
    ensures hold { (d : Flat) (order : List ℕ) (files : List File) (i : Stage) → IsChecked d → IsOrder d order → HasNarrowNets d →
        i.state.finished ≡ false → IsFine d.rows i.state.values → IsFine d.rows i.committed → HoldNets d order files i → RestIsZero d i.state.values }
    ensures zero { (d : Flat) (i : Stage) → HasNarrowNets d → IsFine d.rows i.state.values → NetsAreZero d i → RestIsZero d i.state.values }
{}

/// A segment whose statements write no computed signal keeps nets as they are.
pub fn a_segment_keeps_nets()
    ensures hold { (d : Flat) (order : List ℕ) (files : List File) (g : Segment) (i : Stage) → IsChecked d → LeavesNets d g →
        i.state.finished ≡ false → (segment_done (scope_of d files) g i.state).finished ≡ false → HoldNets d order files i →
        HoldNets d order files (record i { state = segment_done (scope_of d files) g i.state }) }
    ensures zero { (d : Flat) (files : List File) (g : Segment) (i : Stage) → LeavesNets d g → NetsAreZero d i →
        NetsAreZero d (record i { state = segment_done (scope_of d files) g i.state }) }
{}

/// A cycle keeps nets as they are, but at the end of a wave and at an update, where they settle and hold.
pub fn a_cycle_keeps_nets()
    ensures hold { (d : Flat) (order : List ℕ) (files : List File) (nodes : List Node) (g : Segment) (on : WayOn) (i : Stage) → IsChecked d →
        slice_get nodes i.node ≡ Some (Run g on) → ends_wave on ≡ false →
        LeavesNets d g → i.state.finished ≡ false → (segment_done (scope_of d files) g i.state).finished ≡ false →
        HoldNets d order files i → HoldNets d order files (cycle d files (nets_of d files order) nodes i) }
    ensures zero { (d : Flat) (files : List File) (nets : State → List (List ℕ)) (nodes : List Node) (g : Segment) (on : WayOn) (i : Stage) →
        slice_get nodes i.node ≡ Some (Run g on) → ends_wave on ≡ false → LeavesNets d g →
        NetsAreZero d i → NetsAreZero d (cycle d files nets nodes i) }
    ensures ends { (d : Flat) (order : List ℕ) (files : List File) (nodes : List Node) (g : Segment) (to : ℕ) (i : Stage) → IsChecked d →
        IsOrder d order → slice_get nodes i.node ≡ Some (Run g (Commit to)) → LeavesNets d g →
        (segment_done (scope_of d files) g i.state).finished ≡ false → IsTidy d i →
        HoldNets d order files (cycle d files (nets_of d files order) nodes i) }
    ensures updates { (d : Flat) (order : List ℕ) (files : List File) (nodes : List Node) (to : ℕ) (i : Stage) → IsChecked d → IsOrder d order →
        slice_get nodes i.node ≡ Some (Apply to) → i.state.finished ≡ false → IsTidy d i →
        HoldNets d order files (cycle d files (nets_of d files order) nodes i) }
{}

/// A served call that reads into no computed signal keeps nets as they are.
pub fn a_served_call_keeps_nets()
    ensures hold { (d : Flat) (order : List ℕ) (files : List File) (nodes : List Node) (task : Task) (to : ℕ) (i : Stage) → IsChecked d →
        slice_get nodes i.node ≡ Some (Trap task to) → task_writes (computed_at d.rows) task ≡ false →
        (served (scope_of d files) nodes i).state.finished ≡ false → HoldNets d order files i →
        HoldNets d order files (served (scope_of d files) nodes i) }
    ensures zero { (d : Flat) (files : List File) (nodes : List Node) (task : Task) (to : ℕ) (i : Stage) →
        slice_get nodes i.node ≡ Some (Trap task to) → task_writes (computed_at d.rows) task ≡ false →
        NetsAreZero d i → NetsAreZero d (served (scope_of d files) nodes i) }
{}

/// Where a run begins nets are 0, or hold over the values of the snapshot.
pub fn nets_where_a_run_begins()
    ensures nothing { (o : Origin) (T : Table) (nets : State → List (List ℕ)) → NetsAreZero o.flat (first_stage o T nets None) }
    ensures snapshot { (o : Origin) (T : Table) (order : List ℕ) (s : Snapshot) → IsChecked o.flat → IsOrder o.flat order →
        StartsFine o.flat.rows (Some s) → HoldNets o.flat order o.files (first_stage o T (nets_of o.flat o.files order) (Some s)) }
{}

/// That only combinational processes write computed signals can be told signal by signal.
pub fn computed_signals_are_written_one_by_one()
    ensures { (d : Flat) → WritesNoNets d ↔ ((i k : ℕ) → comb_at d i ≡ false → computed_at d.rows k ≡ true →
        stm_writes (λ x. x == k) (proc_at d i).body ≡ false) }
{}

/// The nodes of time zero's wave lead to such nodes alone, and past its end to an update before them; other nodes never lead there.
pub fn time_zeros_wave_is_left_once()
    ensures leads { (d : Flat) (n m : ℕ) (x : Node) → slice_get (table_of d).nodes n ≡ Some x → leads_to x m ≡ true →
        (zero_low d ≤ n) ↔ (zero_low d ≤ m) }
    ensures ends { (d : Flat) (n to : ℕ) (g : Segment) → slice_get (table_of d).nodes n ≡ Some (Run g (Commit to)) → to < zero_low d }
    ensures updates { (d : Flat) (n to : ℕ) → slice_get (table_of d).nodes n ≡ Some (Apply to) → (n < zero_low d) × (to < zero_low d) }
{}

/// In a run of a table over what one pass gives, values and committed values are as the design's signals have them.
pub fn values_and_committed_values_stay_fine()
    ensures { (o : Origin) (T : Table) (order : List ℕ) (c : ℕ) (i : Stage) → StartsFine o.flat.rows o.resume →
        Comes o T (nets_of o.flat o.files order) c i → IsFine o.flat.rows i.state.values × IsFine o.flat.rows i.committed }
{}

/// A run of the table that is made of a design whose blocks write no nets stays tidy: values are as its signals have them, no
/// update of a net is pending, and what no process drives of nets is 0.
pub fn a_run_of_a_table_stays_tidy()
    ensures cycle { (d : Flat) (order : List ℕ) (files : List File) (i : Stage) → IsChecked d → IsOrder d order → WritesNoNets d →
        IsTidy d i → IsTidy d (cycle d files (nets_of d files order) (table_of d).nodes i) }
    ensures call { (d : Flat) (files : List File) (i : Stage) → WritesNoNets d → IsTidy d i →
        IsTidy d (served (scope_of d files) (table_of d).nodes i) }
    ensures all { (o : Origin) (order : List ℕ) (c : ℕ) (i : Stage) → IsChecked o.flat → IsOrder o.flat order → StartsFine o.flat.rows o.resume →
        WritesNoNets o.flat → Comes o (table_of o.flat) (nets_of o.flat o.files order) c i → IsTidy o.flat i }
{}

/// In such a run nets are 0 in time zero's wave; and from its end on, until the run has finished, they are what one pass makes of
/// the committed values of the other signals.
pub fn nets_hold_over_the_committed_values()
    ensures zero { (o : Origin) (order : List ℕ) (c : ℕ) (i : Stage) → IsChecked o.flat → IsOrder o.flat order → StartsFine o.flat.rows o.resume →
        WritesNoNets o.flat → Comes o (table_of o.flat) (nets_of o.flat o.files order) c i → zero_low o.flat ≤ i.node → NetsAreZero o.flat i }
    ensures hold { (o : Origin) (order : List ℕ) (c : ℕ) (i : Stage) → IsChecked o.flat → IsOrder o.flat order → StartsFine o.flat.rows o.resume →
        WritesNoNets o.flat → Comes o (table_of o.flat) (nets_of o.flat o.files order) c i → i.node < zero_low o.flat →
        i.state.finished ≡ false → HoldNets o.flat order o.files i }
{}

/// Where clocked blocks write memories by nonblocking assignments alone, memories are as they are in the committed values, from the
/// end of time zero's wave on.
pub fn memories_hold_the_committed_words()
    ensures { (o : Origin) (nets : State → List (List ℕ)) (c : ℕ) (i : Stage) → SetsNoMemories o.flat →
        Comes o (table_of o.flat) nets c i → i.node < zero_low o.flat → MemoriesHold o.flat i }
{}

/// An update is next only where the wave that ended has just committed all values.
pub fn an_update_begins_on_committed_values()
    ensures { (o : Origin) (nets : State → List (List ℕ)) (c : ℕ) (i : Stage) → Comes o (table_of o.flat) nets c i → (to : ℕ) →
        slice_get (table_of o.flat).nodes i.node ≡ Some (Apply to) → i.committed ≡ i.state.values }
{}

/// The small design that meets the rules of settling meets the other premises too.
pub fn a_backward_design_writes_no_nets()
    ensures nets { WritesNoNets backwards }
    ensures narrow { HasNarrowNets backwards }
    ensures memories { SetsNoMemories backwards }
{}
