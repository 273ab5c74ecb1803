//! One explanation, and which words it explains.

/// What is known of a refusal, a stop or another message: the words that it goes by, and the text, which begins with them.
#[derive(Clone, Copy)]
pub struct Entry {
    pub(crate) keys: &'static [&'static str],
    pub(crate) text: &'static str,
}

// Whether words are these, whatever their case, or go on behind them after a blank, a colon, a comma, a semicolon or a full stop.
fn begins(words: &[u8], key: &[u8]) -> bool {
    if words.len() < key.len() || !words[..key.len()].eq_ignore_ascii_case(key) {
        return false;
    }
    match words.get(key.len()) {
        None => true,
        Some(byte) => byte.is_ascii_whitespace() || matches!(*byte, b':' | b';' | b',' | b'.'),
    }
}

impl Entry {
    /// The text: the code and its name or the words of the message, then what it means, what to do, and examples.
    pub fn text(&self) -> &'static str {
        self.text
    }

    /// The first line of the text.
    pub fn title(&self) -> &'static str {
        match self.text.split_once('\n') {
            Some((title, _)) => title,
            None => self.text,
        }
    }

    // Whether a word is a name of this one, whatever its case.
    pub(crate) fn is_of(&self, word: &[u8]) -> bool {
        self.keys
            .iter()
            .any(|key| word.eq_ignore_ascii_case(key.as_bytes()))
    }

    // Whether words name this one.
    pub(crate) fn explains(&self, words: &[u8]) -> bool {
        self.keys.iter().any(|key| begins(words, key.as_bytes()))
    }
}
