//! How the text is read, byte by byte (IEEE 1364-2005, clause 17.2.9).

ghost use Rattle.std.specs.Prelude.{◌≡◌, ◌≤◌, ◌<◌, ◌+◌, ◌*◌, ◌%◌, ◌^◌, ℕ, List, None, Some, IfSome};
ghost use Rattle.vl_design.specs.ReadHex as h;
ghost use Rattle.vl_hex.specs.Alike.{steps_of, position_of, IsAlike, AreAlike, EndsAlike, IsNextAlike, IsNear};

/// A word at the next place, or the next place.
#[derive(Clone, Copy)]
pub(crate) enum Step {
    /// None of them.
    Nothing,
    /// A word of this value, modulo 2^128.
    Loads(u128),
    /// The address of the next place; one of at least 2^40 stands for each of these.
    Goes(u64),
}

/// Where the text is read.
#[derive(Clone, Copy)]
pub(crate) enum Position {
    /// Between words.
    Between,
    /// Behind a `/`, with what stands before it.
    Slash(Step),
    /// In a comment to the end of the line.
    Line,
    /// In a comment up to `*/`.
    Block,
    /// There behind a `*`.
    Star,
    /// In a word that so far has this value.
    InWord(u128),
    /// Behind `@`.
    At,
    /// In an address that so far has this value.
    InAddress(u64),
}

/// What is read at a byte, and where the reading goes on.
#[derive(Clone, Copy)]
pub(crate) struct Next {
    /// What is read.
    pub(crate) step: Step,
    /// Where the reading goes on.
    pub(crate) position: Position,
}

/// On without a step.
fn on(position: Position) -> Option<Next>
    ensures { result ≡ Some (record { step = Step.Nothing; position = position }) }
{
    Some(Next {
        step: Step::Nothing,
        position,
    })
}

/// White space.
fn is_space(byte: u8) -> bool
    ensures { result ≡ h.is_space byte }
{
    byte == b' ' || (9 <= byte && byte <= 10) || (12 <= byte && byte <= 13)
}

/// The value of a hexadecimal digit.
fn hex_digit(byte: u8) -> Option<u8>
    ensures value { result ≡ h.hex_digit byte }
    ensures small { IfSome result (λ d. d < 16) }
{
    match byte {
        b'0'..=b'9' => Some(byte - 48),
        b'A'..=b'F' => Some(byte - 55),
        b'a'..=b'f' => Some(byte - 87),
        _ => None,
    }
}

/// A value with one more digit, modulo 2^128.
#[tactic(auto, using(crate::proofs::Digits::digits))]
fn with_digit(value: u128, digit: u8) -> u128
    requires { digit < 16 }
    ensures { (w v : ℕ) → w ≤ 128 → v % 2 ^ w ≡ value % 2 ^ w → (16 * v + digit) % 2 ^ w ≡ result % 2 ^ w }
{
    value % (1 << 124) * 16 + u128::from(digit)
}

/// An address with one more digit; it stays where it is at least 2^40.
#[tactic(auto, using(crate::proofs::Digits::digits))]
fn address_with_digit(address: u64, digit: u8) -> u64
    requires { digit < 16 }
    ensures { (a : ℕ) → IsNear a address → IsNear (16 * a + digit) result }
{
    if address >= 1 << 40 {
        address
    } else {
        16 * address + u64::from(digit)
    }
}

/// At a byte that may end a step: at white space, or before a comment. None where it is neither.
fn end_next(behind: Step, byte: u8) -> Option<Next>
    ensures { (w : ℕ) (xs : List h.Step) (other : h.Next) → AreAlike w xs (steps_of behind) → EndsAlike w (h.end_next xs byte other) other result }
{
    if is_space(byte) {
        Some(Next {
            step: behind,
            position: Position::Between,
        })
    } else if byte == b'/' {
        on(Position::Slash(behind))
    } else {
        None
    }
}

/// At a byte between words.
fn between_next(byte: u8) -> Option<Next>
    ensures { (w : ℕ) → IsNextAlike w (h.read_next h.BetweenWords byte) result }
{
    if byte == b'@' {
        return on(Position::At);
    }
    match end_next(Step::Nothing, byte) {
        Some(next) => Some(next),
        None => match hex_digit(byte) {
            None => None,
            Some(digit) => on(Position::InWord(u128::from(digit))),
        },
    }
}

/// At a byte behind a `/`.
fn slash_next(behind: Step, byte: u8) -> Option<Next>
    ensures { (w : ℕ) (xs : List h.Step) → AreAlike w xs (steps_of behind) → IsNextAlike w (h.read_next (h.Slash xs) byte) result }
{
    if byte == b'/' {
        Some(Next {
            step: behind,
            position: Position::Line,
        })
    } else if byte == b'*' {
        Some(Next {
            step: behind,
            position: Position::Block,
        })
    } else {
        None
    }
}

/// At a byte in a word that so far has a value.
fn word_next(value: u128, byte: u8) -> Option<Next>
    ensures { (w v : ℕ) → w ≤ 128 → v % 2 ^ w ≡ value % 2 ^ w → IsNextAlike w (h.read_next (h.InWord v) byte) result }
{
    if byte == b'_' {
        return on(Position::InWord(value));
    }
    match end_next(Step::Loads(value), byte) {
        Some(next) => Some(next),
        None => match hex_digit(byte) {
            None => None,
            Some(digit) => on(Position::InWord(with_digit(value, digit))),
        },
    }
}

/// At a byte behind `@`.
fn at_next(byte: u8) -> Option<Next>
    ensures { (w : ℕ) → IsNextAlike w (h.read_next h.At byte) result }
{
    match hex_digit(byte) {
        None => None,
        Some(digit) => on(Position::InAddress(u64::from(digit))),
    }
}

/// At a byte in an address that so far has a value.
fn address_next(address: u64, byte: u8) -> Option<Next>
    ensures { (w a : ℕ) → IsNear a address → IsNextAlike w (h.read_next (h.InAddress a) byte) result }
{
    match end_next(Step::Goes(address), byte) {
        Some(next) => Some(next),
        None => match hex_digit(byte) {
            None => None,
            Some(digit) => on(Position::InAddress(address_with_digit(address, digit))),
        },
    }
}

/// At a byte in a comment to the end of the line.
fn line_next(byte: u8) -> Option<Next>
    ensures { (w : ℕ) → IsNextAlike w (h.read_next h.Line byte) result }
{
    if byte == b'\n' {
        on(Position::Between)
    } else {
        on(Position::Line)
    }
}

/// At a byte in a comment up to `*/`.
fn block_next(byte: u8) -> Option<Next>
    ensures { (w : ℕ) → IsNextAlike w (h.read_next h.Block byte) result }
{
    if byte == b'*' {
        on(Position::Star)
    } else {
        on(Position::Block)
    }
}

/// There, behind a `*`.
fn star_next(byte: u8) -> Option<Next>
    ensures { (w : ℕ) → IsNextAlike w (h.read_next h.Star byte) result }
{
    if byte == b'/' {
        on(Position::Between)
    } else if byte == b'*' {
        on(Position::Star)
    } else {
        on(Position::Block)
    }
}

/// What is read at a byte, and where the reading goes on; none where the text is malformed.
pub(crate) fn read_byte(position: Position, byte: u8) -> Option<Next>
    ensures { (w : ℕ) (r : h.HexPosition) → w ≤ 128 → IsAlike w r (position_of position) → IsNextAlike w (h.read_next r byte) result }
{
    match position {
        Position::Between => between_next(byte),
        Position::Slash(behind) => slash_next(behind, byte),
        Position::Line => line_next(byte),
        Position::Block => block_next(byte),
        Position::Star => star_next(byte),
        Position::InWord(value) => word_next(value, byte),
        Position::At => at_next(byte),
        Position::InAddress(address) => address_next(address, byte),
    }
}

/// What the end of the text ends.
pub(crate) fn last(position: Position) -> Step
    ensures { (w : ℕ) (r : h.HexPosition) → IsAlike w r (position_of position) → AreAlike w (h.last_steps r) (steps_of result) }
{
    match position {
        Position::InWord(value) => Step::Loads(value),
        Position::InAddress(address) => Step::Goes(address),
        _ => Step::Nothing,
    }
}
