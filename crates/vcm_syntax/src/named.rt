//! Reads names, and the words that stand for kinds, settings and axes.

ghost use Rattle.std.specs.Prelude.{◌≡◌, ◌∷◌, [], ℕ, List, map, MatchOption};
ghost use Rattle.vcm_num.specs.Words.{look_up};
ghost use Rattle.vcm_lines.specs.Lexemes.{Run, Open, Close};
ghost use Rattle.vcm_expr.specs.Parsing.{ReadAs};
ghost use Rattle.vcm_syntax.specs.inner.Steps.{label_of, at_place};
ghost use Rattle.vcm_syntax.specs.Places.{choice_of, kind_of, setting_of, axis_of, is_scope, unscoped, lengths_in, variable_of, index_of, aim_of, named_of, source_word, source_of};

use crate::places::{field, found, only};
use vcm_forms::Target;
use vcm_items::{Name, VariableName, is_name, is_variable_name};
use vcm_lines::{FaultCode, Phrase, SourceFault, Token, bad_syntax};
use vcm_num::{Kind, is, look_up};
use vcm_spec::{FrameAxis, Setting, Source};

/// What a word stands for in a table of words; `code` is told of another word.
fn choice<T: Copy + Drop>(
    line: u32,
    words: &Phrase<'_>,
    rows: &[(&[u8], T)],
    code: FaultCode,
) -> Result<T, SourceFault>
    ensures { ReadAs line (λ v. v) result (choice_of (look_up (map (λ row. (row.0.now, row.1)) rows.now)) code words.now) }
{
    match words.split_first() {
        Some((Token::Run(word), rest)) => found(line, look_up(rows, word), &rest, code),
        _ => Err(bad_syntax(line)),
    }
}

/// The kind that a word names, in the field at a place.
pub(crate) fn kind(line: u32, fields: &[Phrase<'_>], place: usize) -> Result<Kind, SourceFault>
    ensures { ReadAs line (λ k. k) result (at_place kind_of fields.now place) }
{
    let words = field(line, fields, place)?;
    choice(
        line,
        words,
        &[
            (b"INTGR", Kind::Int),
            (b"LONG", Kind::Int),
            (b"REAL", Kind::Real),
            (b"DOUBLE", Kind::Real),
            (b"BOOL", Kind::Bool),
        ],
        FaultCode::Unsupported,
    )
}

/// The setting that a word names, in the field at a place.
pub(crate) fn setting(
    line: u32,
    fields: &[Phrase<'_>],
    place: usize,
) -> Result<Setting, SourceFault>
    ensures { ReadAs line (λ s. s) result (at_place setting_of fields.now place) }
{
    let words = field(line, fields, place)?;
    choice(
        line,
        words,
        &[
            (b"APPRCH", Setting::Approach),
            (b"RETRCT", Setting::Retract),
            (b"SEARCH", Setting::Search),
            (b"DEPTH", Setting::Depth),
        ],
        FaultCode::Unsupported,
    )
}

/// The axis about which a frame is turned, in the field at a place.
pub(crate) fn axis(line: u32, fields: &[Phrase<'_>], place: usize) -> Result<FrameAxis, SourceFault>
    ensures { ReadAs line (λ a. a) result (at_place axis_of fields.now place) }
{
    let words = field(line, fields, place)?;
    choice(
        line,
        words,
        &[
            (b"XAXIS", FrameAxis::X),
            (b"YAXIS", FrameAxis::Y),
            (b"ZAXIS", FrameAxis::Z),
        ],
        FaultCode::BadSyntax,
    )
}

fn is_scope(word: &[u8]) -> bool
    ensures { result ≡ is_scope word.now }
{
    is(word, b"COMMON") || is(word, b"GLOBAL") || is(word, b"LOCAL")
}

/// The fields behind the word of a scope, all of them where there is none.
pub(crate) fn unscoped<'a, 'b>(fields: &'b [Phrase<'a>]) -> &'b [Phrase<'a>]
    ensures { result.now ≡ unscoped fields.now }
{
    match fields {
        [] => fields,
        [first, rest @ ..] => match only(first) {
            Some(Token::Run(word)) if is_scope(word) => rest,
            _ => fields,
        },
    }
}

/// The lengths of GOTO: the fields behind the word of Cartesian coordinates, where it stands and three or more follow it.
pub(crate) fn lengths<'a, 'b>(fields: &'b [Phrase<'a>]) -> &'b [Phrase<'a>]
    ensures { result.now ≡ lengths_in fields.now }
{
    match fields {
        [] => fields,
        [first, rest @ ..] => match only(first) {
            Some(Token::Run(word)) if 3 <= rest.len() && is(word, b"CART") => rest,
            _ => fields,
        },
    }
}

/// A variable's name.
pub(crate) fn variable(line: u32, words: &Phrase<'_>) -> Result<VariableName, SourceFault>
    ensures { ReadAs line (λ v. v) result (variable_of words.now) }
{
    match only(words) {
        Some(Token::Run(bytes)) => {
            if is_variable_name(bytes) {
                Ok(VariableName::new(bytes))
            } else {
                Err(bad_syntax(line))
            }
        }
        _ => Err(bad_syntax(line)),
    }
}

/// The variable that counts rounds, in the field at a place.
pub(crate) fn index(line: u32, fields: &[Phrase<'_>], place: usize) -> Result<Target, SourceFault>
    ensures { ReadAs line (λ t. t) result (at_place index_of fields.now place) }
{
    match only(field(line, fields, place)?) {
        Some(Token::Run(bytes)) => {
            if is_variable_name(bytes) {
                Ok(Target {
                    name: Name::new(bytes),
                    expansion: 0,
                })
            } else {
                Err(bad_syntax(line))
            }
        }
        _ => Err(bad_syntax(line)),
    }
}

/// What stands between an opening parenthesis, which is there already, and the closing one that is the last word.
fn enclosed<'a>(words: &Phrase<'a>) -> Option<&'a [u8]>
    ensures { MatchOption result ((l : List ℕ) → words.now ≡ Open ∷ Run l ∷ Close ∷ [] → ⊥)
        (λ l. words.now ≡ Open ∷ Run l.now ∷ Close ∷ []) }
{
    let Some((Token::Open, rest)) = words.split_first() else {
        return None;
    };
    let Some((Token::Run(label), rest)) = rest.split_first() else {
        return None;
    };
    match only(&rest) {
        Some(Token::Close) => Some(label),
        _ => None,
    }
}

/// The name that a label is.
fn label(line: u32, bytes: &[u8]) -> Result<Name, SourceFault>
    ensures { ReadAs line (λ l. l) result (label_of bytes.now) }
{
    if is_name(bytes) {
        Ok(Name::new(bytes))
    } else {
        Err(bad_syntax(line))
    }
}

/// A label in parentheses.
pub(crate) fn aim(line: u32, words: &Phrase<'_>) -> Result<Name, SourceFault>
    ensures { ReadAs line (λ l. l) result (aim_of words.now) }
{
    match enclosed(words) {
        None => Err(bad_syntax(line)),
        Some(bytes) => label(line, bytes),
    }
}

/// A word and a label in parentheses behind it, where these are all.
fn labelled<'a>(words: &Phrase<'a>) -> Option<(&'a [u8], &'a [u8])>
    ensures { MatchOption result ((w l : List ℕ) → words.now ≡ Run w ∷ Open ∷ Run l ∷ Close ∷ [] → ⊥)
        (λ r. words.now ≡ Run r.0.now ∷ Open ∷ Run r.1.now ∷ Close ∷ []) }
{
    let Some((Token::Run(first), rest)) = words.split_first() else {
        return None;
    };
    match enclosed(&rest) {
        None => None,
        Some(label) => Some((first, label)),
    }
}

/// The name of a feature, a frame or a macro, as `F(l)`.
#[tactic(auto, using(crate::proofs::NamedPlaces::unnamed))]
fn named_in(line: u32, words: &Phrase<'_>, letter: &[u8]) -> Result<Name, SourceFault>
    ensures { ReadAs line (λ l. l) result (named_of letter.now words.now) }
{
    match labelled(words) {
        None => Err(bad_syntax(line)),
        Some((first, bytes)) => {
            if is(first, letter) {
                label(line, bytes)
            } else {
                Err(bad_syntax(line))
            }
        }
    }
}

/// The name of a feature, a frame or a macro, in the field at a place.
pub(crate) fn named(
    line: u32,
    fields: &[Phrase<'_>],
    place: usize,
    letter: &[u8],
) -> Result<Name, SourceFault>
    ensures { ReadAs line (λ l. l) result (at_place (named_of letter.now) fields.now place) }
{
    named_in(line, field(line, fields, place)?, letter)
}

fn source_word(word: &[u8]) -> Option<Source>
    ensures { result ≡ source_word word.now }
{
    look_up(&[(b"F", Source::Nominal), (b"FA", Source::Actual)], word)
}

/// A feature as it was declared or as it was measured, and its name.
#[tactic(auto, using(crate::proofs::NamedPlaces::unsourced))]
fn source_in(line: u32, words: &Phrase<'_>) -> Result<(Source, Name), SourceFault>
    ensures { ReadAs line (λ r. r) result (source_of words.now) }
{
    match labelled(words) {
        None => Err(bad_syntax(line)),
        Some((first, label)) => match source_word(first) {
            Some(source) => {
                if is_name(label) {
                    Ok((source, Name::new(label)))
                } else {
                    Err(bad_syntax(line))
                }
            }
            None => Err(bad_syntax(line)),
        },
    }
}

/// A feature as it was declared or as it was measured, and its name, in the field at a place.
pub(crate) fn source(
    line: u32,
    fields: &[Phrase<'_>],
    place: usize,
) -> Result<(Source, Name), SourceFault>
    ensures { ReadAs line (λ r. r) result (at_place source_of fields.now place) }
{
    source_in(line, field(line, fields, place)?)
}
