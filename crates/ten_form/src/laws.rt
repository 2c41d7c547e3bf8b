//! Traps of calls in runs.

ghost use Rattle.std.specs.Prelude.{ℕ, List};
ghost use Rattle.vl_design.specs.vl_base.specs.declared.files.File.{File};
ghost use Rattle.vl_design.specs.State.{State};
ghost use Rattle.vl_design.specs.Syntax.{Task, Flat};
ghost use Rattle.cell_emit.specs.cell_form.specs.Data.{BankData};
ghost use Rattle.cell_emit.specs.cell_form.specs.declared.table.Trap.{Trap as TrapData};
ghost use Rattle.trap_runtime.specs.Traps.{IsTrap};
ghost use Rattle.ten_form.specs.Works.{HaveBytes, IsBefore, DoesCall};

/// A trap before which a run is can be served, and served it does its call: the bank then holds the state behind the call, the
/// open files and what is printed are that state's, and the run ends or wants a snapshot just where the call says so.
pub fn a_served_trap_does_its_call()
    ensures can { (d : Flat) (files : List File) (task : Task) (slots : ℕ) (t : TrapData) (b : BankData) (s : State) (committed : List (List ℕ)) →
        IsBefore d files task slots t b s committed → IsTrap b t }
    ensures does { (d : Flat) (files : List File) (task : Task) (slots : ℕ) (t : TrapData) (b : BankData) (s : State) (committed : List (List ℕ)) →
        HaveBytes files → IsBefore d files task slots t b s committed → DoesCall d files task t b s committed }
{}
