//! The words of the command line.

ghost use Rattle.std.specs.Prelude.{◌≡◌, is_some, map, option_map};
ghost use Rattle.std.specs.String.{string_bytes};
ghost use Rattle.host_run.specs.Said.{command_in};
ghost use Rattle.host_run.specs.Words as w;

/// What the words ask for.
#[derive(Clone, Copy)]
pub(crate) enum Command<'a> {
    /// The script at this path is to be run.
    Run(&'a str),
    /// The source at this path is to be checked.
    Check(&'a str),
    /// The demonstration is to be run with so many tenants.
    Demo(u32),
}

/// Whether a word is a path: it isn't empty and doesn't begin with `-`.
fn is_path(word: &[u8]) -> bool
    ensures { result ≡ w.is_path word.now }
{
    match word.first() {
        None => false,
        Some(byte) => *byte != b'-',
    }
}

/// Whether a byte is a decimal digit.
fn is_digit(byte: u8) -> bool
    ensures { result ≡ w.is_digit byte }
{
    byte >= b'0' && byte <= b'9'
}

/// The number that one or two decimal digits write.
fn number_of(word: &[u8]) -> Option<u32>
    ensures { result ≡ w.number_of word.now }
{
    match word {
        [digit] => {
            if !is_digit(*digit) {
                return None;
            }
            Some(u32::from(*digit - b'0'))
        }
        [tens, ones] => {
            if !(is_digit(*tens) && is_digit(*ones)) {
                return None;
            }
            Some(u32::from(*tens - b'0') * 10 + u32::from(*ones - b'0'))
        }
        _ => None,
    }
}

/// How many tenants a word says.
fn tenants_of(word: &[u8]) -> Option<u32>
    ensures { result ≡ w.tenants_of word.now }
{
    let number = number_of(word)?;
    if number >= 1 && number <= 32 {
        Some(number)
    } else {
        None
    }
}

/// The command of a verb, with a word.
pub(crate) fn command_by<'a>(verb: &[u8], word: &'a str) -> Option<Command<'a>>
    ensures { option_map command_in result ≡ w.command_by verb.now word.entry.now }
{
    if verb == b"run".as_slice() {
        return Some(Command::Run(word));
    }
    if verb == b"check".as_slice() {
        return Some(Command::Check(word));
    }
    if verb == b"demo".as_slice() {
        return Some(Command::Demo(tenants_of(word.as_bytes())?));
    }
    None
}

/// Whether the words are a command.
pub(crate) fn is_command(words: &[String]) -> bool
    ensures { result ≡ is_some (w.command_of (map string_bytes words.now)) }
{
    let [verb, word] = words else {
        return false;
    };
    is_path(word.as_bytes()) && command_by(verb.as_bytes(), word.as_str()).is_some()
}
