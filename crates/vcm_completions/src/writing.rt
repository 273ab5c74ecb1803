//! What the files of all shells are written with.

use vcm_usage::{Choice, Files, Rest, Usage};

/// Appends pieces of text; none where memory is refused.
pub(crate) fn put(text: &mut String, pieces: &[&str]) -> Option<()> {
    for piece in pieces {
        text.push_str(piece).ok()?;
    }
    Some(())
}

/// Appends what stands between apostrophes: one within it closes them, stands escaped, and opens them again.
pub(crate) fn put_quoted(text: &mut String, words: &str) -> Option<()> {
    let mut is_first = true;
    for part in words.split('\'') {
        if !is_first {
            put(text, &["'\\''"])?;
        }
        put(text, &[part])?;
        is_first = false;
    }
    Some(())
}

/// The files of the words after a command, one after another.
pub(crate) fn files_of(usage: &Usage, place: usize) -> Option<Files> {
    match usage.words.get(place) {
        Some(word) => Some(word.files),
        None => if place == usage.words.len() && usage.rest == Rest::Programs {
            Some(Files::Programs)
        } else {
            None
        },
    }
}

/// Whether an option has a value.
pub(crate) fn is_valued(choice: Choice) -> bool {
    !choice.spelled().value.is_empty()
}
