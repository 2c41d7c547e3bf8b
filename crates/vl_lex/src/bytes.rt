//! Kinds of bytes.

ghost use Rattle.std.specs.Prelude.{◌≡◌};
ghost use Rattle.vl_tree.specs.Bytes.{is_white as is_white_lem, is_letter as is_letter_lem, is_figure as is_figure_lem, is_octal as is_octal_lem};
ghost use Rattle.vl_lex.specs.Reading.{first_of as first_of_lem, sign_of as sign_of_lem};

/// What begins with a byte.
#[derive(Clone, Copy)]
pub enum First {
    /// White space.
    White,
    /// A name.
    Letter,
    /// A number.
    Figure,
    /// A number without a size.
    Apostrophe,
    /// A string.
    Quote,
    /// A system name.
    Dollar,
    /// An escaped name.
    Backslash,
    /// A directive.
    Grave,
    /// A mark, a comment or an attribute, if anything.
    Other,
}

#[tactic(auto, unfolding(vl_tree::specs::Bytes::is_white))]
pub fn is_white(byte: u8) -> bool
    ensures { result ≡ is_white_lem byte }
{
    byte == 32 || byte == 10 || byte == 9 || byte == 13 || byte == 12
}

#[tactic(auto, unfolding(vl_tree::specs::Bytes::is_letter))]
pub fn is_letter(byte: u8) -> bool
    ensures { result ≡ is_letter_lem byte }
{
    97 <= byte && byte <= 122 || 65 <= byte && byte <= 90 || byte == 95
}

#[tactic(auto, unfolding(vl_tree::specs::Bytes::is_figure))]
pub fn is_figure(byte: u8) -> bool
    ensures { result ≡ is_figure_lem byte }
{
    48 <= byte && byte <= 57
}

#[tactic(auto, unfolding(vl_tree::specs::Bytes::is_octal))]
pub fn is_octal(byte: u8) -> bool
    ensures { result ≡ is_octal_lem byte }
{
    48 <= byte && byte <= 55
}

/// What begins with a byte.
#[tactic(auto, unfolding(crate::specs::Reading::first_of))]
pub fn first_of(byte: u8) -> First
    ensures { result ≡ first_of_lem byte }
{
    if is_white(byte) {
        First::White
    } else if is_letter(byte) {
        First::Letter
    } else if is_figure(byte) {
        First::Figure
    } else {
        sign_of(byte)
    }
}

#[tactic(auto, unfolding(crate::specs::Reading::sign_of))]
fn sign_of(byte: u8) -> First
    ensures { result ≡ sign_of_lem byte }
{
    if byte == 39 {
        First::Apostrophe
    } else if byte == 34 {
        First::Quote
    } else if byte == 36 {
        First::Dollar
    } else if byte == 92 {
        First::Backslash
    } else if byte == 96 {
        First::Grave
    } else {
        First::Other
    }
}
