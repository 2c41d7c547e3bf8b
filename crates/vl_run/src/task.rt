//! System tasks (IEEE 1364-2005, clause 17).

ghost use Rattle.std.specs.Prelude.{◌≡◌, All, OnOk, map, false};
ghost use Rattle.vl_design.specs.Formats as f;
ghost use Rattle.vl_design.specs.Plainly as plain;
ghost use Rattle.vl_design.specs.Seen as seen;
ghost use Rattle.vl_design.specs.Sound.{IsSoundPiece, IsSoundTask};
ghost use Rattle.vl_design.specs.Syntax as y;
ghost use Rattle.vl_design.specs.Trees.{arg_of, task_of};
ghost use Rattle.vl_eval.specs.Rooms.{names_of};
ghost use Rattle.vl_run.specs.Kinds.{kind_by, file_kind_by, task_by};
ghost use Rattle.vl_run.specs.Machines.{IsMachine, Does};
ghost use Rattle.vl_run.specs.Scopes.{scope_of, Calls};

use crate::machine::Machine;
use crate::scope::Scope;
use std::alloc::AllocError;
use vl_base::text::is_word;
use vl_design::design::{SysArg, SysCall};
use vl_eval::room::Sample;

/// What a task does.
#[derive(Clone, Copy)]
enum Kind {
    /// It prints its arguments and a newline.
    Display,
    /// It prints its arguments.
    Write,
    /// It finishes the run.
    Finish,
    /// It asks for a snapshot.
    Save,
    /// It opens a file.
    Open,
    /// It reads a file to a variable.
    Read,
    /// It reads a byte of a file.
    Character,
    /// It asks whether a file has ended.
    Ended,
    /// It closes a file.
    Close,
    /// It loads a memory from a file.
    Load,
    /// Nothing.
    Other,
}

/// What `$save` or a task on files of this name does.
fn file_kind(name: &[u8]) -> Kind
    ensures { result ≡ file_kind_by name.now }
{
    if is_word(name, b"$save".as_slice()) {
        Kind::Save
    } else if is_word(name, b"$fopen".as_slice()) {
        Kind::Open
    } else if is_word(name, b"$fread".as_slice()) {
        Kind::Read
    } else if is_word(name, b"$fgetc".as_slice()) {
        Kind::Character
    } else if is_word(name, b"$feof".as_slice()) {
        Kind::Ended
    } else if is_word(name, b"$fclose".as_slice()) {
        Kind::Close
    } else if is_word(name, b"$readmemh".as_slice()) {
        Kind::Load
    } else {
        Kind::Other
    }
}

/// What a task of this name does.
fn kind_of(name: &[u8]) -> Kind
    ensures { result ≡ kind_by name.now }
{
    if is_word(name, b"$display".as_slice()) {
        Kind::Display
    } else if is_word(name, b"$write".as_slice()) {
        Kind::Write
    } else if is_word(name, b"$finish".as_slice()) {
        Kind::Finish
    } else {
        file_kind(name)
    }
}

impl<F: Fn(u32, Vec<u128>) -> Result<u128, AllocError>> Scope<'_, F> {
    /// Prints arguments, with a newline behind them or without.
    #[tactic(auto, using(crate::proofs::Tasking::printing))]
    fn print(
        &self,
        path: &[u8],
        args: &[SysArg],
        newline: bool,
        m: &mut Machine,
    ) -> Result<(), AllocError>
        requires sound { All (IsSoundPiece (names_of self.now.room)) (f.pieces_from path.now 0 (map arg_of args.now)) }
        requires machine { IsMachine (names_of self.now.room) m.old }
        requires calls { Calls (scope_of self.now) (F.pre self.now.call) (F.post self.now.call) }
        requires goes_on { m.old.finished ≡ false }
        ensures does { OnOk result (Does (scope_of self.now) (y.Sys (y.Print (f.pieces_from path.now 0 (map arg_of args.now)) newline)) m.old m.new) }
        ensures machine { OnOk result (IsMachine (names_of self.now.room) m.new) }
    {
        let s = Sample {
            values: &m.values,
            time: m.ticks,
            answer: m.answer,
        };
        self.push_arguments(&s, path, args, &mut m.printed)?;
        if newline {
            m.printed.push(b'\n')?;
        }
        Ok(())
    }

    /// Does a task of this kind.
    #[tactic(auto, using(crate::proofs::Tasking::kinds))]
    fn run_kind(
        &self,
        path: &[u8],
        kind: Kind,
        args: &[SysArg],
        m: &mut Machine,
    ) -> Result<(), AllocError>
        requires sound { IsSoundTask (names_of self.now.room) (task_by kind path.now (map arg_of args.now)) }
        requires machine { IsMachine (names_of self.now.room) m.old }
        requires calls { Calls (scope_of self.now) (F.pre self.now.call) (F.post self.now.call) }
        requires goes_on { m.old.finished ≡ false }
        ensures does { OnOk result (Does (scope_of self.now) (y.Sys (task_by kind path.now (map arg_of args.now))) m.old m.new) }
        ensures machine { OnOk result (IsMachine (names_of self.now.room) m.new) }
    {
        match kind {
            Kind::Display => self.print(path, args, true, m),
            Kind::Write => self.print(path, args, false, m),
            Kind::Finish => {
                m.finished = true;
                Ok(())
            }
            Kind::Save => self.save(args, m),
            Kind::Open => self.open_file(args, m),
            Kind::Read => self.read_file(args, m),
            Kind::Character => self.read_character(args, m),
            Kind::Ended => self.ask_end(args, m),
            Kind::Close => self.close_file(args, m),
            Kind::Load => self.load_memory(args, m),
            Kind::Other => Ok(()),
        }
    }

    /// Does a system task. One of an unknown name prints nothing.
    #[tactic(auto, using(crate::proofs::Tasking::over))]
    pub fn task(&self, path: &[u8], call: &SysCall, m: &mut Machine) -> Result<(), AllocError>
        requires sound { IsSoundTask (names_of self.now.room) (task_of path.now call.now.name (plain.args (seen.args_of call.now.args.items))) }
        requires machine { IsMachine (names_of self.now.room) m.old }
        requires calls { Calls (scope_of self.now) (F.pre self.now.call) (F.post self.now.call) }
        ensures does { OnOk result (Does (scope_of self.now) (y.Sys (task_of path.now call.now.name (plain.args (seen.args_of call.now.args.items)))) m.old m.new) }
        ensures machine { OnOk result (IsMachine (names_of self.now.room) m.new) }
    {
        if m.finished {
            return Ok(());
        }
        let kind = kind_of(call.name.as_slice());
        self.run_kind(path, kind, call.args.as_slice(), m)
    }
}
