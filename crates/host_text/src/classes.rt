//! Which words are names, paths and numbers.

ghost use Rattle.std.specs.Prelude.{◌≡◌, ◌≤◌, length};
ghost use Rattle.std.specs.List.{list_all};
ghost use Rattle.host_text.specs.Words as w;

/// Whether a byte is a letter.
fn is_letter(byte: u8) -> bool
    ensures { result ≡ w.is_letter byte }
{
    (65 <= byte && byte <= 90) || (97 <= byte && byte <= 122)
}

/// Whether a byte is a decimal digit.
fn is_digit(byte: u8) -> bool
    ensures { result ≡ w.is_digit byte }
{
    48 <= byte && byte <= 57
}

/// Whether a byte may stand in the name of a fabric or tenant.
fn is_name_byte(byte: u8) -> bool
    ensures { result ≡ w.is_name_byte byte }
{
    is_letter(byte) || is_digit(byte) || byte == b'_' || byte == b'-'
}

/// Whether a byte may stand in the name of a snapshot.
fn is_save_byte(byte: u8) -> bool
    ensures { result ≡ w.is_save_byte byte }
{
    is_name_byte(byte) || byte == b'.'
}

/// Whether a byte may stand in a path.
fn is_path_byte(byte: u8) -> bool
    ensures { result ≡ w.is_path_byte byte }
{
    33 <= byte && byte <= 126 && byte != b'#'
}

/// Whether each byte may stand in the name of a fabric or tenant.
fn are_name_bytes(word: &[u8]) -> bool
    ensures { result ≡ list_all w.is_name_byte word.now }
{
    word.iter().all(|byte| is_name_byte(*byte))
}

/// Whether each byte may stand in the name of a snapshot.
fn are_save_bytes(word: &[u8]) -> bool
    ensures { result ≡ list_all w.is_save_byte word.now }
{
    word.iter().all(|byte| is_save_byte(*byte))
}

/// Whether each byte may stand in a path.
fn are_path_bytes(word: &[u8]) -> bool
    ensures { result ≡ list_all w.is_path_byte word.now }
{
    word.iter().all(|byte| is_path_byte(*byte))
}

/// Whether a word is the name of a fabric or tenant: 1 to 32 letters, digits, `_` and `-`.
pub(crate) fn is_name(word: &[u8]) -> bool
    ensures { result ≡ w.is_name word.now }
{
    1 <= word.len() && word.len() <= 32 && are_name_bytes(word)
}

/// Whether a word is the name of a snapshot: a name in which `.` may stand too.
pub(crate) fn is_save_name(word: &[u8]) -> bool
    ensures { result ≡ w.is_save_name word.now }
{
    1 <= word.len() && word.len() <= 32 && are_save_bytes(word)
}

/// Whether a word is a path: 1 to 255 bytes from 33 to 126 without `#`.
pub(crate) fn is_path(word: &[u8]) -> bool
    ensures { result ≡ w.is_path word.now }
{
    1 <= word.len() && word.len() <= 255 && are_path_bytes(word)
}

/// Whether each byte is a decimal digit.
fn are_digits(word: &[u8]) -> bool
    ensures { result ≡ list_all w.is_digit word.now }
{
    word.iter().all(|byte| is_digit(*byte))
}

/// The number that at most ten digits write.
fn value(digits: &[u8]) -> u64
    requires { length digits.now ≤ 10 }
    ensures { result ≡ w.value 0 digits.now }
{
    let mut number: u64 = 0;
    for digit in digits {
        number = number * 10 + u64::from(digit.saturating_sub(b'0'));
    }
    number
}

/// The number that a word writes, in 1 to 10 decimal digits, at most 1,000,000,000.
pub(crate) fn number(word: &[u8]) -> Option<u64>
    ensures { result ≡ w.number word.now }
{
    if word.is_empty() || word.len() > 10 || !are_digits(word) {
        return None;
    }
    let number = value(word);
    if number <= 1_000_000_000 {
        Some(number)
    } else {
        None
    }
}
