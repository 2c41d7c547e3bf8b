//! Texts of displays (IEEE 1364-2005, clause 17.1.1).

ghost use Rattle.std.specs.Prelude.{◌≡◌, ◌+◌, ◌∷◌, [], ℕ, List, is_some};
ghost use Rattle.vl_base.specs.Display as d;
ghost use Rattle.vl_design.specs.FormatReading.{reading_of, one_if, shows_none};
ghost use Rattle.vl_design.specs.Formats.{format_pieces, items_in, taken, InText, Percent};

/// Where a format is read.
#[derive(Clone, Copy)]
enum Mode {
    /// In a text, between items.
    InText,
    /// Behind a `%`.
    Percent,
    /// Behind a `%0`.
    PercentZero,
}

/// Where a format is read on, and whether an item ended.
#[derive(Clone, Copy)]
struct Next {
    /// Where it is read on.
    mode: Mode,
    /// An item ended that takes an argument.
    takes: bool,
}

/// An item has this letter, with a 0 before it or without.
fn is_item(letter: u8, least: bool) -> bool
    ensures { result ≡ is_some (d.format_of letter least) }
{
    match letter.to_ascii_lowercase() {
        b'd' | b'h' | b'x' | b'o' | b'b' | b's' => true,
        b'c' => !least,
        _ => false,
    }
}

/// An item of this letter takes no argument: `%%`, and `%m` in either case.
fn shows_none(letter: u8) -> bool
    ensures { result ≡ shows_none letter }
{
    letter == b'%' || letter.to_ascii_lowercase() == b'm'
}

/// How a format is read on behind a byte between items.
#[tactic(auto, using(crate::proofs::Pieces::pieces))]
fn after_text(byte: u8) -> Next
    ensures { (cs : List ℕ) → taken (format_pieces [] InText (byte ∷ cs) []) ≡ one_if result.takes + taken (format_pieces [] (reading_of result.mode) cs []) }
{
    let mode = if byte == b'%' {
        Mode::Percent
    } else {
        Mode::InText
    };
    Next { mode, takes: false }
}

/// How a format is read on behind a byte behind a `%`.
#[tactic(auto, using(crate::proofs::Pieces::pieces))]
fn after_percent(byte: u8) -> Next
    ensures { (cs : List ℕ) → taken (format_pieces [] Percent (byte ∷ cs) []) ≡ one_if result.takes + taken (format_pieces [] (reading_of result.mode) cs []) }
{
    if byte == b'0' {
        Next {
            mode: Mode::PercentZero,
            takes: false,
        }
    } else if shows_none(byte) {
        Next {
            mode: Mode::InText,
            takes: false,
        }
    } else {
        Next {
            mode: Mode::InText,
            takes: is_item(byte, false),
        }
    }
}

/// How a format is read on behind a byte.
#[tactic(auto, using(crate::proofs::Pieces::pieces))]
fn after(mode: Mode, byte: u8) -> Next
    ensures { (cs : List ℕ) → taken (format_pieces [] (reading_of mode) (byte ∷ cs) []) ≡ one_if result.takes + taken (format_pieces [] (reading_of result.mode) cs []) }
{
    match mode {
        Mode::InText => after_text(byte),
        Mode::Percent => after_percent(byte),
        Mode::PercentZero => Next {
            mode: Mode::InText,
            takes: is_item(byte, true),
        },
    }
}

/// How many arguments the items of a format take.
pub fn items_in(text: &[u8]) -> usize
    ensures { result ≡ items_in text.now }
{
    let mut mode = Mode::InText;
    let mut count = 0;
    for byte in text {
        let next = after(mode, *byte);
        mode = next.mode;
        if next.takes {
            count += 1;
        }
    }
    count
}
