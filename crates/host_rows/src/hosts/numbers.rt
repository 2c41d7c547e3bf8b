//! The numbers of a line.

/// The number that a word is, and 0 where there is none.
pub fn number(word: Option<&str>) -> u32 {
    match word {
        Some(word) => word.parse::<u32>().unwrap_or(0),
        None => 0,
    }
}
