//! The words of statements.

ghost use Rattle.std.specs.Prelude.{◌≡◌};
ghost use Rattle.vcm_words.specs.Operands.{any_word_at, word_at};

use crate::words::{Words, table_word};
use vcm_code::{Version, Word, has_word, word_rows};

// The word of a statement of any version, and the words behind it.
fn any_kind<'a>(words: &Words<'a>) -> Option<(Word, Words<'a>)>
    ensures { result ≡ any_word_at words.now }
{
    table_word(word_rows(), words)
}

/// The word of a statement that the version has, and the words behind it.
pub(crate) fn kind<'a>(version: Version, words: &Words<'a>) -> Option<(Word, Words<'a>)>
    ensures { result ≡ word_at version words.now }
{
    let (word, rest) = any_kind(words)?;
    if has_word(version, word) {
        Some((word, rest))
    } else {
        None
    }
}
