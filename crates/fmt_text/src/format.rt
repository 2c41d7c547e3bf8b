//! How a format is read (IEEE 1364-2005, clause 17.1.1).

ghost use Rattle.std.specs.Prelude.{◌≡◌, ◌==◌};
ghost use Rattle.vl_design.specs.vl_base.specs.Display.{lower_case};
ghost use Rattle.fmt_text.specs.Modes.{reading_of, position_after};

/// Where a format is read.
#[derive(Clone, Copy)]
pub enum Mode {
    /// In a text, between items.
    InText,
    /// Behind a `%`.
    Percent,
    /// Behind a `%0`.
    PercentZero,
}

/// Where a format is read on behind a byte.
pub fn after(mode: Mode, byte: u8) -> Mode
    ensures { reading_of result ≡ position_after (reading_of mode) byte }
{
    match mode {
        Mode::InText if byte == b'%' => Mode::Percent,
        Mode::Percent if byte == b'0' => Mode::PercentZero,
        _ => Mode::InText,
    }
}

/// An item of this letter shows the path: `%m`, in either case.
pub fn is_path(letter: u8) -> bool
    ensures { result ≡ (lower_case letter == 109) }
{
    letter.to_ascii_lowercase() == b'm'
}
