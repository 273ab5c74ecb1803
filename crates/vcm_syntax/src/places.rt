//! Reads what stands at one place of a statement.

ghost use Rattle.std.specs.Prelude.{◌≡◌, ◌∷◌, [], drop, MatchOption};
ghost use Rattle.std.specs.List.{list_all};
ghost use Rattle.vcm_lines.specs.Lexemes.{Lexeme, lexeme, is_spelled};
ghost use Rattle.vcm_expr.specs.Parsing.{ReadAs, expr_of};
ghost use Rattle.vcm_syntax.specs.Readers.{end_of, alone, field, some_field};
ghost use Rattle.vcm_forms.specs.Statements.{as_read};
ghost use Rattle.vcm_syntax.specs.Places.{word_of, single_of, system_of, any_text_of, message_of, unused_of, test_of, spot_of};
ghost use Rattle.vcm_syntax.specs.inner.Steps.{complete, found_of, at_place};

use std::alloc::Global;
use vcm_expr::{Expr, read_expr};
use vcm_forms::{Coordinates, OperatorText, Target};
use vcm_items::Name;
use vcm_lines::{FaultCode, Phrase, SourceFault, Token, bad_syntax};
use vcm_num::is;
use vcm_spec::is_text;

/// The refusal of a form that is left out.
pub(crate) fn unsupported(line: u32) -> SourceFault
    ensures { result ≡ record { code = FaultCode.Unsupported; line = line } }
{
    SourceFault {
        code: FaultCode::Unsupported,
        line,
    }
}

/// The field at a place.
pub(crate) fn field<'a, 'b>(
    line: u32,
    fields: &'b [Phrase<'a>],
    place: usize,
) -> Result<&'b Phrase<'a>, SourceFault>
    ensures { ReadAs line (λ f. f.now) result (field fields.now place) }
{
    match fields.get(place) {
        Some(words) => Ok(words),
        None => Err(bad_syntax(line)),
    }
}

/// The fields from a place on, none where there are fewer.
pub(crate) fn behind<'a, 'b>(fields: &'b [Phrase<'a>], place: usize) -> &'b [Phrase<'a>]
    ensures { result.now ≡ drop place fields.now }
{
    if place < fields.len() {
        &fields[place..]
    } else {
        &[]
    }
}

/// One field at least.
pub(crate) fn some_field(line: u32, fields: &[Phrase<'_>]) -> Result<(), SourceFault>
    ensures { ReadAs line (λ u. u) result (some_field fields.now) }
{
    match fields {
        [] => Err(bad_syntax(line)),
        [_, ..] => Ok(()),
    }
}

/// No field is left.
pub(crate) fn end(line: u32, fields: &[Phrase<'_>]) -> Result<(), SourceFault>
    ensures { ReadAs line (λ u. u) result (end_of fields.now) }
{
    match fields {
        [] => Ok(()),
        [_, ..] => Err(bad_syntax(line)),
    }
}

/// A value, where no word is left behind those that it was read from.
pub(crate) fn sole<T: Drop>(line: u32, words: &Phrase<'_>, value: T) -> Result<T, SourceFault>
    ensures { ReadAs line (λ v. v) result (alone value words.now) }
{
    match words.split_first() {
        None => Ok(value),
        Some(_) => Err(bad_syntax(line)),
    }
}

/// A value, where no field is left behind those that it was read from.
#[inline(always)]
pub(crate) fn complete<T: Drop>(
    line: u32,
    fields: &[Phrase<'_>],
    value: T,
) -> Result<T, SourceFault>
    ensures { ReadAs line (λ v. v) result (complete value fields.now) }
{
    match fields {
        [] => Ok(value),
        [_, ..] => Err(bad_syntax(line)),
    }
}

/// What words stand for, where no word is left behind them; `code` is told of words that stand for nothing.
pub(crate) fn found<T: Drop>(
    line: u32,
    value: Option<T>,
    words: &Phrase<'_>,
    code: FaultCode,
) -> Result<T, SourceFault>
    ensures { ReadAs line (λ v. v) result (found_of code value words.now) }
{
    match value {
        Some(value) => sole(line, words, value),
        None => Err(SourceFault { code, line }),
    }
}

/// The variable that gets a value.
pub(crate) fn target(variable: &Name) -> Target
    ensures { result ≡ as_read variable.now }
{
    Target {
        name: variable.copy(),
        expansion: 0,
    }
}

/// The one word, where there is one.
pub(crate) fn only<'a>(words: &Phrase<'a>) -> Option<Token<'a>>
    ensures { MatchOption result ((w : Lexeme) → words.now ≡ w ∷ [] → ⊥) (λ t. words.now ≡ lexeme t ∷ []) }
{
    let Some((first, rest)) = words.split_first() else {
        return None;
    };
    match rest.split_first() {
        None => Some(first),
        Some(_) => None,
    }
}

/// A word that has to stand there; `other` is told of another word.
fn word(line: u32, words: &Phrase<'_>, wanted: &[u8], other: FaultCode) -> Result<(), SourceFault>
    ensures { ReadAs line (λ u. u) result (word_of wanted.now other words.now) }
{
    match words.split_first() {
        Some((Token::Run(bytes), rest)) => {
            if is(bytes, wanted) {
                sole(line, &rest, ())
            } else {
                Err(SourceFault { code: other, line })
            }
        }
        _ => Err(bad_syntax(line)),
    }
}

/// A word that has to stand in the field at a place; `other` is told of another word.
pub(crate) fn word_at(
    line: u32,
    fields: &[Phrase<'_>],
    place: usize,
    wanted: &[u8],
    other: FaultCode,
) -> Result<(), SourceFault>
    ensures { ReadAs line (λ u. u) result (at_place (word_of wanted.now other) fields.now place) }
{
    word(line, field(line, fields, place)?, wanted, other)
}

/// Any word.
pub(crate) fn single(line: u32, words: &Phrase<'_>) -> Result<(), SourceFault>
    ensures { ReadAs line (λ u. u) result (single_of words.now) }
{
    match only(words) {
        Some(Token::Run(_)) => Ok(()),
        _ => Err(bad_syntax(line)),
    }
}

/// The word of Cartesian coordinates, in the field at a place.
pub(crate) fn system(line: u32, fields: &[Phrase<'_>], place: usize) -> Result<(), SourceFault>
    ensures { ReadAs line (λ u. u) result (at_place system_of fields.now place) }
{
    match field(line, fields, place)?.split_first() {
        Some((Token::Run(word), rest)) => {
            if is(word, b"CART") {
                sole(line, &rest, ())
            } else if is(word, b"POL") {
                Err(unsupported(line))
            } else {
                Err(bad_syntax(line))
            }
        }
        _ => Err(bad_syntax(line)),
    }
}

/// Any text, in the field at a place.
pub(crate) fn quoted(line: u32, fields: &[Phrase<'_>], place: usize) -> Result<(), SourceFault>
    ensures { ReadAs line (λ u. u) result (at_place any_text_of fields.now place) }
{
    match only(field(line, fields, place)?) {
        Some(Token::Quoted(_)) => Ok(()),
        _ => Err(bad_syntax(line)),
    }
}

/// What `TEXT` shows, in the field at a place.
pub(crate) fn message(
    alloc: Global,
    line: u32,
    fields: &[Phrase<'_>],
    place: usize,
) -> Result<OperatorText, SourceFault>
    ensures { ReadAs line (λ t. t) result (at_place message_of fields.now place) }
{
    match only(field(line, fields, place)?) {
        Some(Token::Quoted(bytes)) => {
            if is_text(bytes) {
                Ok(OperatorText::copied(alloc, bytes)?)
            } else {
                Err(bad_syntax(line))
            }
        }
        _ => Err(bad_syntax(line)),
    }
}

fn all_spelled(fields: &[Phrase<'_>]) -> bool
    ensures { result ≡ list_all (list_all is_spelled) fields.now }
{
    fields.iter().all(|field| field.is_spelled())
}

/// Fields that aren't used.
pub(crate) fn unused(line: u32, fields: &[Phrase<'_>]) -> Result<(), SourceFault>
    ensures { ReadAs line (λ u. u) result (unused_of fields.now) }
{
    if all_spelled(fields) {
        Ok(())
    } else {
        Err(bad_syntax(line))
    }
}

/// The expression in the field at a place.
pub(crate) fn expression(
    alloc: Global,
    line: u32,
    fields: &[Phrase<'_>],
    place: usize,
) -> Result<Expr, SourceFault>
    ensures { ReadAs line (λ e. e) result (at_place expr_of fields.now place) }
{
    read_expr(alloc, line, field(line, fields, place)?)
}

/// An expression in parentheses, in the field at a place.
pub(crate) fn test(
    alloc: Global,
    line: u32,
    fields: &[Phrase<'_>],
    place: usize,
) -> Result<Expr, SourceFault>
    ensures { ReadAs line (λ e. e) result (at_place test_of fields.now place) }
{
    match field(line, fields, place)?.split_first() {
        Some((Token::Open, rest)) => {
            let (inner, last) = rest.ends();
            match last {
                Token::Close => read_expr(alloc, line, &inner),
                _ => {
                    read_expr(alloc, line, &rest)?;
                    Err(bad_syntax(line))
                }
            }
        }
        _ => Err(bad_syntax(line)),
    }
}

/// A place, its coordinates in the first three fields.
pub(crate) fn spot(
    alloc: Global,
    line: u32,
    fields: &[Phrase<'_>],
) -> Result<Coordinates, SourceFault>
    ensures { ReadAs line (λ s. s) result (spot_of fields.now) }
{
    let x = expression(alloc, line, fields, 0)?;
    let y = expression(alloc, line, fields, 1)?;
    let z = expression(alloc, line, fields, 2)?;
    Ok(Coordinates { x, y, z })
}
