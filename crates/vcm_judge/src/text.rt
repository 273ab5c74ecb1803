//! Lengths and words in texts.

use std::alloc::AllocError;
use std::fmt::Write as _;

/// Adds a length in micrometres as millimetres with three decimals.
pub(crate) fn put_length(text: &mut String, micrometres: u64) -> Result<(), AllocError> {
    let whole = micrometres / 1_000;
    let rest = micrometres % 1_000;
    write!(text, "{whole}.{rest:03}")
}

/// Adds a number and a word, which has an s at its end unless the number is 1.
pub(crate) fn put_count(text: &mut String, count: u64, word: &str) -> Result<(), AllocError> {
    write!(text, "{count} {word}")?;
    if count != 1 {
        text.push('s')?;
    }
    Ok(())
}

/// Adds words as the text of XML and HTML; what these have no signs for becomes a question mark.
pub(crate) fn put_escaped(text: &mut String, words: &str) -> Result<(), AllocError> {
    for letter in words.chars() {
        match letter {
            '&' => text.push_str("&amp;")?,
            '<' => text.push_str("&lt;")?,
            '>' => text.push_str("&gt;")?,
            '"' => text.push_str("&quot;")?,
            letter if letter < ' ' => text.push('?')?,
            letter => text.push(letter)?,
        }
    }
    Ok(())
}
