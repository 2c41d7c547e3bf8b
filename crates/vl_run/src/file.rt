//! System tasks on files, and `$save` (IEEE 1364-2005, clause 17.2).

ghost use Rattle.std.specs.Prelude.{◌≡◌, ◌≤◌, ◌^◌, IfOk, OnOk, map, false};
ghost use Rattle.vl_base.specs.Value.{resized};
ghost use Rattle.vl_design.specs.Calls as k;
ghost use Rattle.vl_design.specs.Laws.{IsFine};
ghost use Rattle.vl_design.specs.Sound.{IsMemory, IsSignal, IsSoundExp, IsSoundTask};
ghost use Rattle.vl_design.specs.Syntax as y;
ghost use Rattle.vl_design.specs.Tasks.{descriptor_of};
ghost use Rattle.vl_design.specs.Trees.{arg_of, exp_of, lower_of, row_of};
ghost use Rattle.vl_eval.specs.Rooms.{names_of, sample_of};
ghost use Rattle.vl_run.specs.Machines.{IsMachine, Does};
ghost use Rattle.vl_run.specs.Scopes.{scope_of, Calls};

use crate::begin::value_of;
use crate::given::{behind, signal_first, text_first, value_first};
use crate::machine::{Machine, put, words_at};
use crate::scope::Scope;
use std::alloc::AllocError;
use ten_files::name::copy_text;
use ten_files::open::{close, open};
use ten_files::read::{at_end, next_character, read};
use vl_base::bits::{Bits, resize};
use vl_base::items::Text;
use vl_design::design::{Expr, Signal, SysArg};
use vl_eval::eval::signal_at;
use vl_eval::form::{form_of, signal_form};
use vl_eval::room::Sample;
use vl_eval::selects::word_count;
use vl_hex::load::{Memory, load};

/// The lower of two addresses.
fn lower(a: i32, b: i32) -> i32
    ensures { result ≡ lower_of a b }
{
    if a <= b { a } else { b }
}

/// The memory that a signal is, whose words have this width.
fn memory_of(signal: &Signal, width: u32) -> Memory
    ensures width { result.width ≡ width }
    ensures lowest { result.lowest ≡ (row_of signal.now).lowest }
    ensures count { result.count ≡ (row_of signal.now).words }
    ensures narrow { result.count ≤ 2 ^ 32 }
{
    Memory {
        width,
        lowest: lower(signal.first, signal.last),
        count: word_count(signal),
    }
}

/// A value as assigned to 32 bits.
fn in_32_bits(bits: Bits, signed: bool) -> u32
    ensures { result ≡ resized signed bits.width 32 bits.value }
{
    resize(bits, signed, 32).value as u32
}

impl<F: Fn(u32, Vec<u128>) -> Result<u128, AllocError>> Scope<'_, F> {
    /// The descriptor that an expression gives.
    #[tactic(auto, using(crate::proofs::Reading::reading))]
    fn descriptor(&self, s: &Sample<'_>, fd: &Expr) -> Result<u32, AllocError>
        requires sound { IsSoundExp (names_of self.now.room) (exp_of fd.now) }
        requires fine { IsFine (names_of self.now.room).rows (sample_of s.now).values }
        requires calls { Calls (scope_of self.now) (F.pre self.now.call) (F.post self.now.call) }
        ensures { IfOk result (λ d. d ≡ descriptor_of (scope_of self.now) (sample_of s.now) (exp_of fd.now)) }
    {
        let form = form_of(&self.room, fd);
        let bits = self.value(s, fd, form)?;
        Ok(in_32_bits(bits, form.signed))
    }

    /// Does `$save`.
    pub fn save(&self, args: &[SysArg], m: &mut Machine) -> Result<(), AllocError>
        requires machine { IsMachine (names_of self.now.room) m.old }
        requires goes_on { m.old.finished ≡ false }
        ensures does { OnOk result (Does (scope_of self.now) (y.Sys (k.save_of (map arg_of args.now))) m.old m.new) }
        ensures machine { OnOk result (IsMachine (names_of self.now.room) m.new) }
    {
        match text_first(args) {
            None => Ok(()),
            Some(name) => {
                let copy = copy_text(self.alloc, name)?;
                m.saves.push(copy)?;
                Ok(())
            }
        }
    }

    /// Does `$fopen`.
    pub fn open_file(&self, args: &[SysArg], m: &mut Machine) -> Result<(), AllocError>
        requires machine { IsMachine (names_of self.now.room) m.old }
        requires goes_on { m.old.finished ≡ false }
        ensures does { OnOk result (Does (scope_of self.now) (y.Sys (k.fopen_of (map arg_of args.now))) m.old m.new) }
        ensures machine { OnOk result (IsMachine (names_of self.now.room) m.new) }
    {
        match text_first(args) {
            None => Ok(()),
            Some(name) => {
                let answer = open(self.alloc, self.files, &mut m.table, name)?;
                m.answer = answer;
                Ok(())
            }
        }
    }

    /// Does `$fgetc`.
    pub fn read_character(&self, args: &[SysArg], m: &mut Machine) -> Result<(), AllocError>
        requires sound { IsSoundTask (names_of self.now.room) (k.file_of y.Fgetc (map arg_of args.now)) }
        requires machine { IsMachine (names_of self.now.room) m.old }
        requires calls { Calls (scope_of self.now) (F.pre self.now.call) (F.post self.now.call) }
        requires goes_on { m.old.finished ≡ false }
        ensures does { OnOk result (Does (scope_of self.now) (y.Sys (k.file_of y.Fgetc (map arg_of args.now))) m.old m.new) }
        ensures machine { OnOk result (IsMachine (names_of self.now.room) m.new) }
    {
        match value_first(args) {
            None => Ok(()),
            Some(fd) => {
                let number = self.descriptor(&m.sample(), fd)?;
                let answer = next_character(self.alloc, self.files, &mut m.table, number)?;
                m.answer = answer;
                Ok(())
            }
        }
    }

    /// Does `$feof`.
    pub fn ask_end(&self, args: &[SysArg], m: &mut Machine) -> Result<(), AllocError>
        requires sound { IsSoundTask (names_of self.now.room) (k.file_of y.Feof (map arg_of args.now)) }
        requires machine { IsMachine (names_of self.now.room) m.old }
        requires calls { Calls (scope_of self.now) (F.pre self.now.call) (F.post self.now.call) }
        requires goes_on { m.old.finished ≡ false }
        ensures does { OnOk result (Does (scope_of self.now) (y.Sys (k.file_of y.Feof (map arg_of args.now))) m.old m.new) }
        ensures machine { OnOk result (IsMachine (names_of self.now.room) m.new) }
    {
        match value_first(args) {
            None => Ok(()),
            Some(fd) => {
                let number = self.descriptor(&m.sample(), fd)?;
                let answer = at_end(&m.table, number);
                m.answer = answer;
                Ok(())
            }
        }
    }

    /// Does `$fclose`.
    pub fn close_file(&self, args: &[SysArg], m: &mut Machine) -> Result<(), AllocError>
        requires sound { IsSoundTask (names_of self.now.room) (k.file_of y.Fclose (map arg_of args.now)) }
        requires machine { IsMachine (names_of self.now.room) m.old }
        requires calls { Calls (scope_of self.now) (F.pre self.now.call) (F.post self.now.call) }
        requires goes_on { m.old.finished ≡ false }
        ensures does { OnOk result (Does (scope_of self.now) (y.Sys (k.file_of y.Fclose (map arg_of args.now))) m.old m.new) }
        ensures machine { OnOk result (IsMachine (names_of self.now.room) m.new) }
    {
        match value_first(args) {
            None => Ok(()),
            Some(fd) => {
                let number = self.descriptor(&m.sample(), fd)?;
                close(&mut m.table, number);
                Ok(())
            }
        }
    }

    /// Reads a file to a variable.
    #[tactic(auto, using(crate::proofs::Spotting::named))]
    fn read_to(&self, signal: u32, fd: &Expr, m: &mut Machine) -> Result<(), AllocError>
        requires signal { IsSignal (names_of self.now.room) signal }
        requires sound { IsSoundExp (names_of self.now.room) (exp_of fd.now) }
        requires machine { IsMachine (names_of self.now.room) m.old }
        requires calls { Calls (scope_of self.now) (F.pre self.now.call) (F.post self.now.call) }
        requires goes_on { m.old.finished ≡ false }
        ensures does { OnOk result (Does (scope_of self.now) (y.Sys (y.Fread signal (exp_of fd.now))) m.old m.new) }
        ensures machine { OnOk result (IsMachine (names_of self.now.room) m.new) }
    {
        let number = self.descriptor(&m.sample(), fd)?;
        let form = signal_form(&self.room, signal);
        let before = value_of(&m.values, signal);
        let given = read(
            self.alloc,
            self.files,
            &mut m.table,
            number,
            form.width,
            before,
        )?;
        let mut words = words_at(self.alloc, &m.values, signal)?;
        words.set(0, given.value);
        put(&mut m.values, signal, words);
        m.answer = given.count;
        Ok(())
    }

    /// Does `$fread`.
    pub fn read_file(&self, args: &[SysArg], m: &mut Machine) -> Result<(), AllocError>
        requires sound { IsSoundTask (names_of self.now.room) (k.fread_of (map arg_of args.now)) }
        requires machine { IsMachine (names_of self.now.room) m.old }
        requires calls { Calls (scope_of self.now) (F.pre self.now.call) (F.post self.now.call) }
        requires goes_on { m.old.finished ≡ false }
        ensures does { OnOk result (Does (scope_of self.now) (y.Sys (k.fread_of (map arg_of args.now))) m.old m.new) }
        ensures machine { OnOk result (IsMachine (names_of self.now.room) m.new) }
    {
        match signal_first(args) {
            None => Ok(()),
            Some(signal) => match value_first(behind(args, 1)) {
                None => Ok(()),
                Some(fd) => self.read_to(signal, fd, m),
            },
        }
    }

    /// Reads a memory from a file.
    #[tactic(auto, using(crate::proofs::Spotting::named))]
    fn load_from(&self, name: &Text, memory: u32, m: &mut Machine) -> Result<(), AllocError>
        requires memory { IsMemory (names_of self.now.room) memory }
        requires machine { IsMachine (names_of self.now.room) m.old }
        requires goes_on { m.old.finished ≡ false }
        ensures does { OnOk result (Does (scope_of self.now) (y.Sys (y.ReadHex name.now memory)) m.old m.new) }
        ensures machine { OnOk result (IsMachine (names_of self.now.room) m.new) }
    {
        match self.files.find(name) {
            None => Ok(()),
            Some(bytes) => {
                let form = signal_form(&self.room, memory);
                let shape = memory_of(signal_at(&self.room, memory), form.width);
                let mut words = words_at(self.alloc, &m.values, memory)?;
                load(shape, bytes.as_slice(), &mut words);
                put(&mut m.values, memory, words);
                Ok(())
            }
        }
    }

    /// Does `$readmemh`.
    pub fn load_memory(&self, args: &[SysArg], m: &mut Machine) -> Result<(), AllocError>
        requires sound { IsSoundTask (names_of self.now.room) (k.read_hex_of (map arg_of args.now)) }
        requires machine { IsMachine (names_of self.now.room) m.old }
        requires goes_on { m.old.finished ≡ false }
        ensures does { OnOk result (Does (scope_of self.now) (y.Sys (k.read_hex_of (map arg_of args.now))) m.old m.new) }
        ensures machine { OnOk result (IsMachine (names_of self.now.room) m.new) }
    {
        match text_first(args) {
            None => Ok(()),
            Some(name) => match signal_first(behind(args, 1)) {
                None => Ok(()),
                Some(memory) => self.load_from(name, memory, m),
            },
        }
    }
}
