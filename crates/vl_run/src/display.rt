//! Displays (IEEE 1364-2005, clause 17.1.1).

ghost use Rattle.std.specs.Prelude.{◌≡◌, ◌≤◌, ◌++◌, ◌∷◌, [], All, IfOk, OnOk, map, false};
ghost use Rattle.vl_base.specs.Display.{format_of};
ghost use Rattle.vl_design.specs.Formats as f;
ghost use Rattle.vl_design.specs.Laws.{IsFine};
ghost use Rattle.vl_design.specs.Sound.{IsSoundExp, IsSoundPiece};
ghost use Rattle.vl_design.specs.Tasks.{pieces_text};
ghost use Rattle.vl_design.specs.Trees.{arg_of, exp_of};
ghost use Rattle.vl_design.specs.Value as v;
ghost use Rattle.vl_design.specs.Width as w;
ghost use Rattle.vl_eval.specs.Rooms.{names_of, sample_of};
ghost use Rattle.vl_run.specs.Scopes.{scope_of, Calls};
ghost use Rattle.fmt_text.specs.Modes.{reading_of};

use crate::given::behind;
use crate::scope::Scope;
use fmt_text::format::{Mode, after, is_path};
use fmt_text::item::{is_item, push_item};
use fmt_text::show_text::text_bits;
use std::alloc::AllocError;
use vl_base::bits::Bits;
use vl_design::design::{Expr, SysArg};
use vl_eval::form::form_of;
use vl_eval::room::Sample;

/// What an item shows.
#[derive(Clone, Copy)]
struct Shown {
    /// The value.
    bits: Bits,
    /// It is signed.
    signed: bool,
}

/// It shows a value that is not signed.
fn unsigned(bits: Bits) -> Shown
    ensures bits { result.bits ≡ bits }
    ensures signed { result.signed ≡ false }
{
    Shown {
        bits,
        signed: false,
    }
}

impl<F: Fn(u32, Vec<u128>) -> Result<u128, AllocError>> Scope<'_, F> {
    /// What an item shows of an expression.
    #[tactic(auto, using(crate::proofs::Reading::reading))]
    fn shown_value(&self, s: &Sample<'_>, e: &Expr) -> Result<Shown, AllocError>
        requires sound { IsSoundExp (names_of self.now.room) (exp_of e.now) }
        requires fine { IsFine (names_of self.now.room).rows (sample_of s.now).values }
        requires calls { Calls (scope_of self.now) (F.pre self.now.call) (F.post self.now.call) }
        ensures value { IfOk result (λ o. o.bits.value ≡ v.own_value (scope_of self.now) (sample_of s.now) (exp_of e.now)) }
        ensures width { IfOk result (λ o. o.bits.width ≡ (w.form (names_of self.now.room) (exp_of e.now)).width) }
        ensures signed { IfOk result (λ o. o.signed ≡ (w.form (names_of self.now.room) (exp_of e.now)).signed) }
    {
        let form = form_of(&self.room, e);
        let bits = self.value(s, e, form)?;
        Ok(Shown {
            bits,
            signed: form.signed,
        })
    }

    /// What an item shows: the next argument.
    #[tactic(auto, using(crate::proofs::Operands::operands))]
    fn shown(&self, s: &Sample<'_>, args: &[SysArg]) -> Result<Shown, AllocError>
        requires sound { IsSoundExp (names_of self.now.room) (f.operand (map arg_of args.now)) }
        requires fine { IsFine (names_of self.now.room).rows (sample_of s.now).values }
        requires calls { Calls (scope_of self.now) (F.pre self.now.call) (F.post self.now.call) }
        ensures value { IfOk result (λ o. o.bits.value ≡ v.own_value (scope_of self.now) (sample_of s.now) (f.operand (map arg_of args.now))) }
        ensures width { IfOk result (λ o. o.bits.width ≡ (w.form (names_of self.now.room) (f.operand (map arg_of args.now))).width) }
        ensures signed { IfOk result (λ o. o.signed ≡ (w.form (names_of self.now.room) (f.operand (map arg_of args.now))).signed) }
    {
        match args {
            [] => Ok(unsigned(Bits { value: 0, width: 1 })),
            [first, ..] => match first {
                SysArg::Null => Ok(unsigned(Bits { value: 0, width: 1 })),
                SysArg::Str(text) => Ok(unsigned(text_bits(text.as_slice()))),
                SysArg::Value(e) => self.shown_value(s, e),
            },
        }
    }

    /// Adds what an item of this letter shows, with a 0 before it or without, and says how many arguments it takes.
    fn push_letter(
        &self,
        s: &Sample<'_>,
        letter: u8,
        least: bool,
        args: &[SysArg],
        printed: &mut Vec<u8>,
    ) -> Result<usize, AllocError>
        requires sound { All (IsSoundPiece (names_of self.now.room)) (f.with_item (format_of letter least) (f.operand (map arg_of args.now)) []) }
        requires fine { IsFine (names_of self.now.room).rows (sample_of s.now).values }
        requires calls { Calls (scope_of self.now) (F.pre self.now.call) (F.post self.now.call) }
        ensures text { OnOk result (printed.new.items ≡ printed.old.items
            ++ pieces_text (scope_of self.now) (sample_of s.now) (f.with_item (format_of letter least) (f.operand (map arg_of args.now)) [])) }
        ensures takes { IfOk result (λ n. n ≡ f.taken (f.with_item (format_of letter least) (f.operand (map arg_of args.now)) [])) }
        ensures small { IfOk result (λ n. n ≤ 1) }
    {
        if !is_item(letter, least) {
            return Ok(0);
        }
        let shown = self.shown(s, args)?;
        push_item(self.alloc, letter, least, shown.bits, shown.signed, printed)?;
        Ok(1)
    }

    /// Adds what a byte behind a `%` shows.
    fn push_behind_percent(
        &self,
        s: &Sample<'_>,
        path: &[u8],
        byte: u8,
        args: &[SysArg],
        printed: &mut Vec<u8>,
    ) -> Result<usize, AllocError>
        requires sound { All (IsSoundPiece (names_of self.now.room)) (f.format_pieces path.now f.Percent (byte ∷ []) (map arg_of args.now)) }
        requires fine { IsFine (names_of self.now.room).rows (sample_of s.now).values }
        requires calls { Calls (scope_of self.now) (F.pre self.now.call) (F.post self.now.call) }
        ensures text { OnOk result (printed.new.items ≡ printed.old.items
            ++ pieces_text (scope_of self.now) (sample_of s.now) (f.format_pieces path.now f.Percent (byte ∷ []) (map arg_of args.now))) }
        ensures takes { IfOk result (λ n. n ≡ f.taken (f.format_pieces path.now f.Percent (byte ∷ []) (map arg_of args.now))) }
        ensures small { IfOk result (λ n. n ≤ 1) }
    {
        if byte == b'0' {
            return Ok(0);
        }
        if byte == b'%' {
            printed.push(byte)?;
            return Ok(0);
        }
        if is_path(byte) {
            printed.extend_from_slice(path)?;
            return Ok(0);
        }
        self.push_letter(s, byte, false, args, printed)
    }

    /// Adds what a byte of a format shows, and says how many arguments it takes.
    fn push_byte(
        &self,
        s: &Sample<'_>,
        path: &[u8],
        mode: Mode,
        byte: u8,
        args: &[SysArg],
        printed: &mut Vec<u8>,
    ) -> Result<usize, AllocError>
        requires sound { All (IsSoundPiece (names_of self.now.room)) (f.format_pieces path.now (reading_of mode) (byte ∷ []) (map arg_of args.now)) }
        requires fine { IsFine (names_of self.now.room).rows (sample_of s.now).values }
        requires calls { Calls (scope_of self.now) (F.pre self.now.call) (F.post self.now.call) }
        ensures text { OnOk result (printed.new.items ≡ printed.old.items
            ++ pieces_text (scope_of self.now) (sample_of s.now) (f.format_pieces path.now (reading_of mode) (byte ∷ []) (map arg_of args.now))) }
        ensures takes { IfOk result (λ n. n ≡ f.taken (f.format_pieces path.now (reading_of mode) (byte ∷ []) (map arg_of args.now))) }
        ensures small { IfOk result (λ n. n ≤ 1) }
    {
        match mode {
            Mode::InText => {
                if byte != b'%' {
                    printed.push(byte)?;
                }
                Ok(0)
            }
            Mode::Percent => self.push_behind_percent(s, path, byte, args, printed),
            Mode::PercentZero => self.push_letter(s, byte, true, args, printed),
        }
    }

    /// Adds what a format shows, and says how many of the arguments behind it its items take.
    fn push_format(
        &self,
        s: &Sample<'_>,
        path: &[u8],
        text: &[u8],
        args: &[SysArg],
        printed: &mut Vec<u8>,
    ) -> Result<usize, AllocError>
        requires sound { All (IsSoundPiece (names_of self.now.room)) (f.format_pieces path.now f.InText text.now (map arg_of args.now)) }
        requires fine { IsFine (names_of self.now.room).rows (sample_of s.now).values }
        requires calls { Calls (scope_of self.now) (F.pre self.now.call) (F.post self.now.call) }
        ensures text { OnOk result (printed.new.items ≡ printed.old.items
            ++ pieces_text (scope_of self.now) (sample_of s.now) (f.format_pieces path.now f.InText text.now (map arg_of args.now))) }
        ensures takes { IfOk result (λ n. n ≡ f.taken (f.format_pieces path.now f.InText text.now (map arg_of args.now))) }
    {
        let mut mode = Mode::InText;
        let mut count = 0;
        for byte in text {
            count += self.push_byte(s, path, mode, *byte, behind(args, count), printed)?;
            mode = after(mode, *byte);
        }
        Ok(count)
    }

    /// Adds what an argument shows that no item takes, and says how many of those behind it its items take.
    fn push_argument(
        &self,
        s: &Sample<'_>,
        path: &[u8],
        first: &SysArg,
        rest: &[SysArg],
        printed: &mut Vec<u8>,
    ) -> Result<usize, AllocError>
        requires sound { All (IsSoundPiece (names_of self.now.room)) (f.pieces_from path.now 0 (arg_of first.now ∷ map arg_of rest.now)) }
        requires fine { IsFine (names_of self.now.room).rows (sample_of s.now).values }
        requires calls { Calls (scope_of self.now) (F.pre self.now.call) (F.post self.now.call) }
        ensures text { IfOk result (λ n. printed.new.items ++ pieces_text (scope_of self.now) (sample_of s.now) (f.pieces_from path.now n (map arg_of rest.now))
            ≡ printed.old.items ++ pieces_text (scope_of self.now) (sample_of s.now) (f.pieces_from path.now 0 (arg_of first.now ∷ map arg_of rest.now))) }
        ensures sound { IfOk result (λ n. All (IsSoundPiece (names_of self.now.room)) (f.pieces_from path.now n (map arg_of rest.now))) }
    {
        match first {
            SysArg::Null => {
                printed.push(b' ')?;
                Ok(0)
            }
            SysArg::Str(text) => {
                let taken = self.push_format(s, path, text.as_slice(), rest, printed)?;
                Ok(taken)
            }
            SysArg::Value(e) => {
                let shown = self.shown_value(s, e)?;
                push_item(self.alloc, b'd', false, shown.bits, shown.signed, printed)?;
                Ok(0)
            }
        }
    }

    /// Adds what an argument shows where no item takes it, and says how many of those behind it items take.
    #[tactic(auto, using(crate::proofs::Pieces::skipping))]
    fn push_next(
        &self,
        s: &Sample<'_>,
        path: &[u8],
        taken: usize,
        first: &SysArg,
        rest: &[SysArg],
        printed: &mut Vec<u8>,
    ) -> Result<usize, AllocError>
        requires sound { All (IsSoundPiece (names_of self.now.room)) (f.pieces_from path.now taken (arg_of first.now ∷ map arg_of rest.now)) }
        requires fine { IsFine (names_of self.now.room).rows (sample_of s.now).values }
        requires calls { Calls (scope_of self.now) (F.pre self.now.call) (F.post self.now.call) }
        ensures text { IfOk result (λ n. printed.new.items ++ pieces_text (scope_of self.now) (sample_of s.now) (f.pieces_from path.now n (map arg_of rest.now))
            ≡ printed.old.items ++ pieces_text (scope_of self.now) (sample_of s.now) (f.pieces_from path.now taken (arg_of first.now ∷ map arg_of rest.now))) }
        ensures sound { IfOk result (λ n. All (IsSoundPiece (names_of self.now.room)) (f.pieces_from path.now n (map arg_of rest.now))) }
    {
        if taken == 0 {
            self.push_argument(s, path, first, rest, printed)
        } else {
            Ok(taken - 1)
        }
    }

    /// Adds what the arguments of a display show.
    pub(crate) fn push_arguments(
        &self,
        s: &Sample<'_>,
        path: &[u8],
        args: &[SysArg],
        printed: &mut Vec<u8>,
    ) -> Result<(), AllocError>
        requires sound { All (IsSoundPiece (names_of self.now.room)) (f.pieces_from path.now 0 (map arg_of args.now)) }
        requires fine { IsFine (names_of self.now.room).rows (sample_of s.now).values }
        requires calls { Calls (scope_of self.now) (F.pre self.now.call) (F.post self.now.call) }
        ensures { OnOk result (printed.new.items ≡ printed.old.items
            ++ pieces_text (scope_of self.now) (sample_of s.now) (f.pieces_from path.now 0 (map arg_of args.now))) }
    {
        let mut taken = 0;
        let mut next = 0;
        for first in args {
            next += 1;
            let now = self.push_next(s, path, taken, first, behind(args, next), printed)?;
            taken = now;
        }
        Ok(())
    }
}
