//! Words of a text.

ghost use Rattle.std.specs.Prelude.{◌≡◌, ◌≤◌, length, take, is_some, IfSome};
ghost use Rattle.vcm_num.specs.Words.{look_up};
ghost use Rattle.vcm_mesh.specs.Meshes.{is_space, is_dark, run_len, from_word, first_word, behind_word, has_three_words, keywords, is_text};

use crate::text::Keyword;
use vcm_num::{is, look_up};

// Whether a byte stands between words.
fn is_space(byte: u8) -> bool
    ensures { result ≡ is_space byte }
{
    byte == b' ' || 9 <= byte && byte <= 13
}

// How many bytes in front stand between words.
fn space_len(text: &[u8]) -> usize
    ensures value { result ≡ run_len is_space text.now }
    ensures within { result ≤ length text.now }
{
    text.iter().take_while(|byte| is_space(**byte)).count()
}

// How many bytes in front stand in a word.
fn dark_len(text: &[u8]) -> usize
    ensures value { result ≡ run_len is_dark text.now }
    ensures within { result ≤ length text.now }
{
    text.iter().take_while(|byte| !is_space(**byte)).count()
}

// A text from its first word on.
fn from_word(text: &[u8]) -> &[u8]
    ensures { result.now ≡ from_word text.now }
{
    &text[space_len(text)..]
}

/// The first word, which is empty where there is none, and what stands after it.
pub(crate) fn split_word(text: &[u8]) -> (&[u8], &[u8])
    ensures word { result.0.now ≡ first_word text.now }
    ensures behind { result.1.now ≡ behind_word text.now }
{
    let text = from_word(text);
    text.split_at(dark_len(text))
}

/// Three words, if there are no more and no fewer.
pub(crate) fn three_words(text: &[u8]) -> Option<(&[u8], &[u8], &[u8])>
    ensures there { is_some result ≡ has_three_words text.now }
    ensures words { IfSome result (λ w. (w.0.now ≡ first_word text.now) × (w.1.now ≡ first_word (behind_word text.now))
        × (w.2.now ≡ first_word (behind_word (behind_word text.now)))) }
{
    let (first, rest) = split_word(text);
    let (second, rest) = split_word(rest);
    let (third, rest) = split_word(rest);
    let (fourth, _) = split_word(rest);
    if third.is_empty() || !fourth.is_empty() {
        return None;
    }
    Some((first, second, third))
}

/// What a word that begins a line says.
pub(crate) fn keyword_of(word: &[u8]) -> Option<Keyword>
    ensures { result ≡ look_up keywords word.now }
{
    look_up(
        &[
            (b"vertex", Keyword::Vertex),
            (b"facet", Keyword::Facet),
            (b"outer", Keyword::Outer),
            (b"endloop", Keyword::EndLoop),
            (b"endfacet", Keyword::EndFacet),
            (b"solid", Keyword::Solid),
            (b"endsolid", Keyword::EndSolid),
            (b"VERTEX", Keyword::Vertex),
            (b"FACET", Keyword::Facet),
            (b"OUTER", Keyword::Outer),
            (b"ENDLOOP", Keyword::EndLoop),
            (b"ENDFACET", Keyword::EndFacet),
            (b"SOLID", Keyword::Solid),
            (b"ENDSOLID", Keyword::EndSolid),
        ],
        word,
    )
}

// The first five bytes, or all where there are fewer.
fn first_five(text: &[u8]) -> &[u8]
    ensures { result.now ≡ take 5 text.now }
{
    if text.len() < 5 { text } else { &text[..5] }
}

/// Whether a file is a text: its first word begins with `solid`.
pub(crate) fn is_text(bytes: &[u8]) -> bool
    ensures { result ≡ is_text bytes.now }
{
    let front = first_five(from_word(bytes));
    is(front, b"solid") || is(front, b"SOLID")
}
