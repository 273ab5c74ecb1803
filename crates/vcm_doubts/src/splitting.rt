//! Words that may split a block.

ghost use Rattle.std.specs.Prelude.{◌≡◌, ◌&&◌, not, false};
ghost use Rattle.vcm_heads.specs.Rows.{row_in, words_of};
ghost use Rattle.vcm_doubts.specs.Doubts.{begins_as_splitter, is_nothing, is_splitting, splits_from};

use vcm_heads::{Row, major_at, own_behind, row_in};
use vcm_lines::{Logical, Phrase};

// Whether a word begins as one that splits a block in other languages.
fn begins_as_splitter(word: &[u8]) -> bool
    ensures { result ≡ begins_as_splitter word.now }
{
    word.starts_with(b"ELSE")
        || word.starts_with(b"WHEN")
        || word.starts_with(b"UNTIL")
        || word.starts_with(b"LOOP")
        || word.starts_with(b"NEXT")
        || word.starts_with(b"END")
}

// Whether there are no words.
fn is_nothing(words: &Phrase<'_>) -> bool
    ensures { result ≡ is_nothing words.now }
{
    words.split_first().is_none()
}

// Whether a statement that goes by no row may split a block: its word begins so, or stands alone.
fn is_splitting(logical: &Logical) -> bool
    ensures { result ≡ is_splitting (row_in (words_of logical.now)) (words_of logical.now) }
{
    let words = Phrase::of(logical);
    let (major, behind) = major_at(&words);
    match row_in(&words, major) {
        Row::Other => begins_as_splitter(major) || is_nothing(&behind),
        _ => false,
    }
}

/// Whether one of these statements may split a block; the machine's own say nothing.
pub(crate) fn splits(lines: &[Logical]) -> bool
    ensures { result ≡ splits_from false lines.now }
{
    let mut own = false;
    for logical in lines {
        if !own && is_splitting(logical) {
            return true;
        }
        own = own_behind(own, logical);
    }
    false
}
