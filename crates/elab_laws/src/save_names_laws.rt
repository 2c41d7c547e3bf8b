//! Names of snapshots. Each function does nothing; its contract is the law.

ghost use Rattle.std.specs.Prelude.{◌≡◌, ℕ, List, true, Ok};
ghost use Rattle.std.specs.List.{AllByRecursion};
ghost use Rattle.vl_sound.specs.vl_tree.specs.declared.source_tree.Source.{Source};
ghost use Rattle.ten_plan.specs.vl_design.specs.Alone.{Origin, FreeSave, Keeps};
ghost use Rattle.ten_plan.specs.vl_design.specs.Placed.{Design};
ghost use Rattle.ten_plan.specs.vl_design.specs.Plainly.{flat};
ghost use Rattle.ten_plan.specs.vl_design.specs.Snapshots.{Saved};
ghost use Rattle.ten_plan.specs.vl_design.specs.Trees.{flat_of};
ghost use Rattle.vl_accept.specs.Fit.{IsFit};
ghost use Rattle.vl_sound.specs.Meeting.{IsElaboration};
ghost use Rattle.vl_accept.specs.declared.accept.Accepted.{Accepted};
ghost use Rattle.vl_accept.specs.Accepted.{Stands};
ghost use Rattle.elab_laws.specs.Names.{is_named, NamesErrands, NamesFreeSaves, NamesSaves};

/// In the elaboration of every source `$save` is called with names that are fit for files.
pub fn an_elaborated_design_names_its_snapshots()
    ensures { (s : Source) (d : Design) → IsElaboration s (Ok d) → NamesSaves (flat d) }
{}

/// So it is in an accepted design with its loops unrolled.
pub fn unrolled_designs_name_their_snapshots()
    ensures { (d : Design) (a : Accepted) → IsFit d → NamesSaves (flat d) → Stands d a → NamesSaves (flat_of a.design) }
{}

/// Each snapshot that a run of such a design keeps has such a name, where those have that are asked for otherwise.
pub fn kept_snapshots_are_named()
    ensures { (o : Origin) (free : List FreeSave) (k : ℕ) (saved : List Saved) → NamesSaves o.flat → NamesErrands o.plan → NamesFreeSaves free →
        Keeps o free k saved → AllByRecursion (λ s. is_named s.name ≡ true) saved }
{}
