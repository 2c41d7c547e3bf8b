//! Formats of displays (IEEE 1364-2005, clause 17.1.1).

ghost use Rattle.std.specs.Prelude.{◌≡◌, ◌∷◌, ℕ, List, is_some, Some};
ghost use Rattle.vl_tree.specs.vl_base.specs.Display as d;
ghost use Rattle.vl_uses.specs.Calls as spec;
ghost use Rattle.vl_uses.specs.Walks as w;

/// Where in a format a byte stands.
#[derive(Clone, Copy)]
enum Mode {
    /// In what is written as it stands.
    Text,
    /// Behind a `%`.
    Percent,
    /// Behind a `%0`.
    Zero,
}

/// Whether an item has this letter, with a 0 before it or without.
fn is_item(letter: u8, least: bool) -> bool
    ensures { result ≡ is_some (d.format_of letter least) }
{
    match letter.to_ascii_lowercase() {
        b'd' | b'h' | b'x' | b'o' | b'b' | b's' => true,
        b'c' => !least,
        _ => false,
    }
}

/// Whether an item of this letter shows no argument: `%%`, and `%m` in either case.
fn shows_none(letter: u8) -> bool
    ensures { result ≡ spec.shows_none letter }
{
    letter == b'%' || letter.to_ascii_lowercase() == b'm'
}

/// How a format goes on behind a byte that stands behind a `%`, and whether the byte ends an item that shows an argument.
#[tactic(auto, unfolding(crate::specs::Calls::shown_after))]
fn after_percent(byte: u8) -> Option<(Mode, bool)>
    ensures { (cs : List ℕ) → spec.shown_after (byte ∷ cs) ≡ w.shown_next result cs }
{
    if byte == b'0' {
        Some((Mode::Zero, false))
    } else if shows_none(byte) {
        Some((Mode::Text, false))
    } else if is_item(byte, false) {
        Some((Mode::Text, true))
    } else {
        None
    }
}

/// How a format goes on behind a byte, and whether the byte ends an item that shows an argument.
#[tactic(auto, unfolding(crate::specs::Calls::shown_by, crate::specs::Calls::shown_least))]
fn next_mode(mode: Mode, byte: u8) -> Option<(Mode, bool)>
    ensures { (cs : List ℕ) → w.shown_from mode (byte ∷ cs) ≡ w.shown_next result cs }
{
    match mode {
        Mode::Text => {
            let next = if byte == b'%' {
                Mode::Percent
            } else {
                Mode::Text
            };
            Some((next, false))
        }
        Mode::Percent => after_percent(byte),
        Mode::Zero => {
            if is_item(byte, true) {
                Some((Mode::Text, true))
            } else {
                None
            }
        }
    }
}

/// How many arguments the items of a format show, where each item is one that there is.
#[tactic(auto, unfolding(crate::specs::Calls::shown_by, crate::specs::Calls::shown_after, crate::specs::Calls::shown_least))]
pub fn shown_by(text: &[u8]) -> Option<usize>
    ensures { result ≡ spec.shown_by text.now }
{
    let mut mode = Mode::Text;
    let mut count = 0;
    for byte in text {
        let (next, is_item) = next_mode(mode, *byte)?;
        mode = next;
        if is_item {
            count += 1;
        }
    }
    match mode {
        Mode::Text => Some(count),
        Mode::Percent | Mode::Zero => None,
    }
}
