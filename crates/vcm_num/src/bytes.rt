//! Bytes, as readers of texts ask for them.

ghost use Rattle.std.specs.Prelude.{◌≡◌, ◌==◌, map};
ghost use Rattle.std.specs.List.{position};
ghost use Rattle.std.specs.Str.{bytes_eq};
ghost use Rattle.vcm_num.specs.Words.{look_up};

use memchr::memchr;

/// Whether bytes are the word.
#[inline(always)]
pub fn is(bytes: &[u8], word: &[u8]) -> bool
    ensures { result ≡ bytes_eq bytes.now word.now }
{
    bytes == word
}

/// Where the first line feed stands.
#[tactic(auto, using(crate::proofs::LineFeeds::first_byte))]
pub fn line_feed(text: &[u8]) -> Option<usize>
    ensures { result ≡ position (λ b. b == 10) text.now }
{
    memchr(b'\n', text)
}

/// Where the first apostrophe stands.
#[tactic(auto, using(crate::proofs::LineFeeds::first_byte))]
pub fn apostrophe(text: &[u8]) -> Option<usize>
    ensures { result ≡ position (λ b. b == 39) text.now }
{
    memchr(b'\'', text)
}

/// What a word stands for in a table of words: what is beside it where it comes first.
pub fn look_up<T: Copy>(rows: &[(&[u8], T)], word: &[u8]) -> Option<T>
    ensures { result ≡ look_up (map (λ row. (row.0.now, row.1)) rows.now) word.now }
{
    for row in rows {
        if is(word, row.0) {
            return Some(row.1);
        }
    }
    None
}
