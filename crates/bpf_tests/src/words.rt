//! What lines of each kind take of a word.

/// A number, 0 where the word isn't one.
pub fn number_of(word: Option<&str>) -> u32 {
    match word {
        Some(word) => word.parse::<u32>().unwrap_or(0),
        None => 0,
    }
}
