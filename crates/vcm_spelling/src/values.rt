//! The names in an expression.

use vcm_sentences::{is_name_byte, piece};

/// The names and numbers in bytes outside of texts, one by one.
#[derive(Drop)]
pub struct WordsIn<'a> {
    bytes: &'a [u8],
    at: usize,
}

/// The words in bytes.
pub fn words_in(bytes: &[u8]) -> WordsIn<'_> {
    WordsIn { bytes, at: 0 }
}

impl<'a> WordsIn<'a> {
    // The bytes from this place on.
    fn rest(&self) -> &'a [u8] {
        piece(self.bytes, self.at, self.bytes.len())
    }

    /// The next word, if there is one.
    pub fn next_word(&mut self) -> Option<&'a [u8]> {
        let skipped = self.rest().iter().position(|byte| is_name_byte(*byte))?;
        let from = self.at.saturating_add(skipped);
        self.at = from;
        let rest = self.rest();
        let length = rest
            .iter()
            .position(|byte| !is_name_byte(*byte))
            .unwrap_or(rest.len());
        self.at = from.saturating_add(length);
        Some(piece(self.bytes, from, self.at))
    }
}
