//! The parts of a display (IEEE 1364-2005, clause 17.1.1).

ghost use Rattle.std.specs.Prelude.{◌≡◌, ◌++◌, ◌∷◌, [], false, length, OnOk, Some, drop, List, ℕ};
ghost use Rattle.vl_base.specs.Display.{Format, format_of};
ghost use Rattle.vl_design.specs.Syntax.{Exp, Literal, Shown};
ghost use Rattle.vl_design.specs.Width.{Names, form};
ghost use Rattle.cell_calls.specs.Displays.{parts_in, Extends};

use crate::own::Own;
use cell_emit::table::FormatPart;
use std::alloc::{AllocError, Global};
use std::mem::replace;
use vl_base::items::Text;

/// A display as far as it is compiled.
#[derive(Drop)]
pub(crate) struct Display {
    /// Its parts.
    pub parts: Vec<FormatPart>,
    /// A text behind them that is no part yet.
    pub text: Vec<u8>,
    /// The slots of what its items show.
    pub slots: Vec<u32>,
}

impl Display {
    /// A display of nothing.
    pub(crate) fn new(alloc: Global) -> Self
        ensures parts { result.parts.items ≡ [] }
        ensures text { result.text.items ≡ [] }
        ensures slots { result.slots.items ≡ [] }
    {
        Display {
            parts: Vec::new(alloc),
            text: Vec::new(alloc),
            slots: Vec::new(alloc),
        }
    }

    /// Adds a text.
    pub(crate) fn push_text(&mut self, text: &[u8]) -> Result<(), AllocError>
        ensures parts { OnOk result ((names : Names) → Extends names (Literal text.now ∷ []) (parts_in self.old) (parts_in self.new)) }
        ensures slots { OnOk result (self.new.slots.items ≡ self.old.slots.items) }
    {
        self.text.extend_from_slice(text)?;
        Ok(())
    }

    /// Makes the text behind the parts one of them, where there is one.
    pub(crate) fn end_text(&mut self, alloc: Global) -> Result<(), AllocError>
        ensures parts { OnOk result ((names : Names) → Extends names [] (parts_in self.old) self.new.parts.items) }
        ensures text { OnOk result (self.new.text.items ≡ []) }
        ensures slots { OnOk result (self.new.slots.items ≡ self.old.slots.items) }
    {
        if self.text.as_slice().is_empty() {
            return Ok(());
        }
        let text = replace(&mut self.text, Vec::new(alloc));
        self.parts.push(FormatPart::Lit(Text::from_vec(text)))?;
        Ok(())
    }

    /// Adds an item that shows a value.
    pub(crate) fn push_item(
        &mut self,
        alloc: Global,
        letter: u8,
        least: bool,
        own: Own,
    ) -> Result<(), AllocError>
        ensures parts { OnOk result ((names : Names) (format : Format) (e : Exp) → format_of letter least ≡ Some format → own.width ≡ (form names e).width →
            own.signed ≡ (form names e).signed → Extends names (Shown format e ∷ []) (parts_in self.old) (parts_in self.new)) }
        ensures slots { OnOk result (self.new.slots.items ≡ self.old.slots.items ++ own.slot ∷ []) }
    {
        self.end_text(alloc)?;
        self.parts
            .push(FormatPart::Item(letter, least, own.width, own.signed))?;
        self.slots.push(own.slot)?;
        Ok(())
    }
}
