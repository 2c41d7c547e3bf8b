//! What banks hold of runs at boundaries. Each function does nothing; its contract is the law.

ghost use Rattle.std.specs.Prelude.{◌≡◌, ℕ, List, [], Some};
ghost use Rattle.std.specs.List.{AllByRecursion};
ghost use Rattle.vl_design.specs.vl_base.specs.declared.files.File.{File as OneFile};
ghost use Rattle.vl_design.specs.vl_base.specs.Files.{IsFileSet};
ghost use Rattle.vl_design.specs.Alone.{Origin, FreeSave, Keeps};
ghost use Rattle.vl_design.specs.Functions.{zeros};
ghost use Rattle.vl_design.specs.Laws.{IsFine, IsTable, StartsFine, StartsOpen};
ghost use Rattle.vl_design.specs.Snapshots.{kept_values, kept_words, snapshot_of, Saved};
ghost use Rattle.vl_design.specs.State.{State};
ghost use Rattle.vl_design.specs.Syntax.{Flat};
ghost use Rattle.trap_runtime.specs.cell_form.specs.Data.{BankData};
ghost use Rattle.trap_runtime.specs.cell_form.specs.Sound.{shape_of};
ghost use Rattle.reg_ports.specs.Ports.{captured, restored, IsMap};
ghost use Rattle.reg_ports.specs.Refusals.{AreFit};
ghost use Rattle.snap_form.specs.Spelling.{IsSnapshot, IsSnapshotOf};
ghost use Rattle.snap_form.specs.declared.snapshot.Snapshot.{Snapshot as Read};
ghost use Rattle.ten_form.specs.sub_nodes.specs.Cycles.{Stage, committed_in, settled};
ghost use Rattle.ten_form.specs.Banks.{IsFor};
ghost use Rattle.ten_form.specs.Nets.{nets_of};
ghost use Rattle.ten_form.specs.States.{HoldsStage};
ghost use Rattle.ten_plan.specs.Written.{kept, rows_of, written, HasRows};
ghost use Rattle.ten_core.specs.Holding.{CanBeHeld};
ghost use Rattle.ten_core.specs.Ports.{ports_of};

use vl_design::laws::{open_files_stay_in_order, values_stay_in_range};

/// The ports of a design are ports of each bank that holds a stage of its run, and hold the words that a snapshot keeps there.
pub fn a_stage_is_captured()
    ensures { (d : Flat) (least : ℕ) (b : BankData) (i : Stage) → CanBeHeld d → IsFor d least (shape_of b) → IsFine d.rows i.state.values → HoldsStage d b i →
        IsMap (ports_of d.rows) b × (captured (ports_of d.rows) b ≡ kept_words d.rows i.state.values) }
{}

/// A bank that held zeros at a boundary holds, restored, the values of a snapshot's words.
pub fn words_are_restored()
    ensures holds { (d : Flat) (least node : ℕ) (b : BankData) (s : State) (words : List ℕ) → CanBeHeld d → IsFor d least (shape_of b) → s.values ≡ zeros d.rows → s.later ≡ [] →
        HoldsStage d b (committed_in node s) → AreFit (ports_of d.rows) words →
        HoldsStage d (restored (ports_of d.rows) words b) (committed_in node (record s { values = kept_values d.rows words })) }
    ensures shape { (d : Flat) (b : BankData) (words : List ℕ) → IsMap (ports_of d.rows) b → AreFit (ports_of d.rows) words →
        shape_of (restored (ports_of d.rows) words b) ≡ shape_of b }
{}

/// A bank holds a stage still where nets settle: they have no registers.
pub fn settled_nets_change_no_bank()
    ensures { (d : Flat) (order : List ℕ) (files : List OneFile) (node : ℕ) (b : BankData) (s : State) → CanBeHeld d →
        HoldsStage d b (committed_in node s) → HoldsStage d b (committed_in node (settled d files (nets_of d files order) s)) }
{}

/// What is read as a snapshot of a design and its files fits its ports, and its run can begin with it.
pub fn what_is_read_fits()
    ensures words { (d : Flat) (files : List OneFile) (s : Read) → CanBeHeld d → IsSnapshotOf (rows_of d.rows) files s → AreFit (ports_of d.rows) s.words }
    ensures values { (d : Flat) (files : List OneFile) (s : Read) → CanBeHeld d → IsSnapshotOf (rows_of d.rows) files s → StartsFine d.rows (Some (kept s)) }
    ensures table { (d : Flat) (files : List OneFile) (s : Read) → IsSnapshotOf (rows_of d.rows) files s → IsTable files s.files }
{}

/// What a run has is written as a snapshot of its design, where names of signals have at most 255 bytes.
pub fn a_state_is_written()
    ensures { (d : Flat) (files : List OneFile) (s : State) → CanBeHeld d → HasRows d.rows → IsFileSet files → IsFine d.rows s.values → IsTable files s.table →
        IsSnapshot (written (snapshot_of d.rows s)) }
{}

/// Words that fit the ports of a design are values as its signals have them.
pub fn words_that_fit_are_fine()
    ensures { (d : Flat) (words : List ℕ) → CanBeHeld d → AreFit (ports_of d.rows) words → IsFine d.rows (kept_values d.rows words) }
{}

/// The snapshots that a run keeps are written as ones of its design.
pub fn kept_snapshots_are_written()
    ensures { (o : Origin) (free : List FreeSave) (k : ℕ) (saved : List Saved) → CanBeHeld o.flat → HasRows o.flat.rows → IsFileSet o.files → StartsFine o.flat.rows o.resume →
        StartsOpen o.files o.resume → Keeps o free k saved → AllByRecursion (λ s. IsSnapshot (written s.snapshot)) saved }
{
    values_stay_in_range();
    open_files_stay_in_order();
}
