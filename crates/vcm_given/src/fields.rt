//! Numbers in the fields of statements.

ghost use Rattle.std.specs.Prelude.{◌≡◌};
ghost use Rattle.vcm_lines.specs.Lexemes.{lexeme};
ghost use Rattle.vcm_given.specs.Fields.{number_by, number_in, is_shape, last_number, last_of};

use vcm_lines::{Cutter, Phrase, Token};
use vcm_num::is;
use vcm_plain::millionths_of;

/// The most fields of a statement that are looked at.
pub const MOST_FIELDS: u8 = 40;

// The number that a word is, in millionths.
fn number_by(word: Token<'_>) -> Option<u64>
    ensures { result ≡ number_by (lexeme word.entry) }
{
    match word {
        Token::Run(bytes) => millionths_of(bytes),
        Token::Number(bytes) => millionths_of(bytes),
        _ => None,
    }
}

// The number that a field is, without a sign.
fn number_in(words: &Phrase<'_>) -> Option<u64>
    ensures { result ≡ number_in words.now }
{
    match words.split_first() {
        Some((word, rest)) if rest.split_first().is_none() => number_by(word),
        _ => None,
    }
}

// Whether a field is a word for the shape of a tip.
fn is_shape(words: &Phrase<'_>) -> bool
    ensures { result ≡ is_shape words.now }
{
    match words.split_first() {
        Some((Token::Run(word), _)) => {
            is(word, b"SPHERE") || is(word, b"CYLNDR") || is(word, b"DISK")
        }
        _ => false,
    }
}

// The number that the last of fields is, or the last in front of a shape, behind this one.
#[tactic(auto, unfolding(crate::specs::Fields::last_number))]
fn last_number(left: u8, found: Option<u64>, fields: Option<Phrase<'_>>) -> Option<u64>
    ensures { result ≡ last_number left found fields.entry }
{
    let Some(words) = fields else {
        return found;
    };
    if left == 0 {
        return None;
    }
    if is_shape(&words) {
        return found;
    }
    let (field, rest) = words.cut_at(Cutter::AtComma);
    last_number(left - 1, number_in(&field), rest)
}

/// The number that the last field of a statement is, or the last in front of a shape, in millionths.
pub(crate) fn last_of(fields: Option<Phrase<'_>>) -> Option<u64>
    ensures { result ≡ last_of fields.entry }
{
    last_number(MOST_FIELDS, None, fields)
}
