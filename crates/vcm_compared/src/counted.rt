//! Which variables of texts are counted: those of which each statement that names them is followed.

ghost use Rattle.std.specs.Prelude.{◌≡◌, [], IfOk, if◌then◌else◌};
ghost use Rattle.std.specs.List.{list_any, list_all, filter};
ghost use Rattle.vcm_heads.specs.Rows.{row_in, words_of};
ghost use Rattle.vcm_compared.specs.Counted.{is_name, is_handed, names, mentions, is_lone_word, is_clean, are_clean, is_clean_behind, is_declaration, is_reading, below, follows_by, follows, is_followed, without_others, narrowed, counted};

use crate::puts::{assignment_of, is_choice_of};
use crate::relations::test_of;
use crate::texts::{Held, MOST_FIELDS, Texts, char_at, is_alike, texts_in};
use std::alloc::Global;
use vcm_heads::{Mark, Row, assigned_at, past, row_of_statement, run_at};
use vcm_lines::{Cutter, Logical, OwnedBytes, Phrase, Token};
use vcm_num::{Items, NoMemory, is};

/// How often variables that aren't followed are left out at most: if others would be left out then, none is counted.
pub const MOST_ROUNDS: u8 = 16;

// Whether words name a variable.
fn names(name: &[u8], words: &Phrase<'_>) -> bool
    ensures { result ≡ names name.now words.now }
{
    match words.split_first() {
        None => false,
        Some((Token::Run(word), rest)) => is(word, name) || names(name, &rest),
        Some((_, rest)) => names(name, &rest),
    }
}

// Whether words name a variable, or have a text with its name.
fn hands(name: &[u8], words: &Phrase<'_>) -> bool
    ensures { result ≡ list_any (is_handed name.now) words.now }
{
    match words.split_first() {
        None => false,
        Some((Token::Run(word), rest)) => is(word, name) || hands(name, &rest),
        Some((Token::Quoted(word), rest)) => is_alike(word, name) || hands(name, &rest),
        Some((_, rest)) => hands(name, &rest),
    }
}

// Whether a statement with this row names a variable.
fn mentions(row: Row, name: &[u8], words: &Phrase<'_>) -> bool
    ensures { result ≡ mentions row name.now words.now }
{
    match row {
        Row::Call | Row::Shape => hands(name, words),
        _ => names(name, words),
    }
}

// Whether a field is one word alone.
fn is_lone_word(field: &Phrase<'_>) -> bool
    ensures { result ≡ is_lone_word field.now }
{
    match field.split_first() {
        Some((Token::Run(_), rest)) => rest.split_first().is_none(),
        _ => false,
    }
}

// Whether a field is one word alone, or doesn't name this variable.
fn is_clean(name: &[u8], field: &Phrase<'_>) -> bool
    ensures { result ≡ is_clean name.now field.now }
{
    is_lone_word(field) || !names(name, field)
}

// Whether all fields are so.
#[tactic(auto, unfolding(crate::specs::Counted::are_clean))]
fn are_clean(left: u8, name: &[u8], fields: Option<Phrase<'_>>) -> bool
    ensures { result ≡ are_clean left name.now fields.entry }
{
    let Some(words) = fields else {
        return true;
    };
    if left == 0 {
        return false;
    }
    let (field, rest) = words.cut_at(Cutter::AtComma);
    is_clean(name, &field) && are_clean(left - 1, name, rest)
}

// Whether a declaration of texts names a variable as one of them alone.
fn is_declaration(name: &[u8], words: &Phrase<'_>) -> bool
    ensures { result ≡ is_declaration name.now words.now }
{
    let Some(fields) = char_at(words) else {
        return false;
    };
    match run_at(&fields) {
        Some((word, rest)) => {
            !is(word, name) && are_clean(MOST_FIELDS, name, past(Mark::Comma, &rest))
        }
        None => false,
    }
}

// Whether a statement reads a variable at most.
fn is_reading(name: &[u8], words: &Phrase<'_>) -> bool
    ensures { result ≡ is_reading name.now words.now }
{
    match assigned_at(words) {
        Some((word, _)) => !is(word, name),
        None => !is(b"", name),
    }
}

// The statements behind the one on a line.
fn below<'a>(line: u32, lines: &'a [Logical]) -> &'a [Logical]
    ensures { result.now ≡ below line lines.now }
{
    let mut rest = lines;
    while let Some((logical, behind)) = rest.split_first() {
        if logical.line == line {
            return behind;
        }
        rest = behind;
    }
    rest
}

// Whether a statement with this row that names a variable is followed.
fn follows_by(
    alloc: Global,
    texts: &Texts,
    lines: &[Logical],
    row: Row,
    name: &[u8],
    line: u32,
    words: &Phrase<'_>,
) -> Result<bool, NoMemory>
    ensures { IfOk result (λ b. b ≡ follows_by texts.now lines.now row name.now line words.now) }
{
    match row {
        Row::Stated => Ok(is_declaration(name, words)),
        Row::Value => Ok(assignment_of(texts, words).is_some()),
        Row::Test => {
            let test = test_of(alloc, texts, words)?;
            Ok(test.is_some())
        }
        Row::Choice => is_choice_of(alloc, texts, words, below(line, lines)),
        Row::Values => Ok(true),
        Row::Text | Row::Silent => Ok(is_reading(name, words)),
        _ => Ok(false),
    }
}

// Whether a statement doesn't name a variable, or is followed.
fn follows(
    alloc: Global,
    texts: &Texts,
    lines: &[Logical],
    name: &[u8],
    logical: &Logical,
) -> Result<bool, NoMemory>
    ensures { IfOk result (λ b. b ≡ follows texts.now lines.now name.now logical.now) }
{
    let words = Phrase::of(logical);
    let row = row_of_statement(logical);
    if !mentions(row, name, &words) {
        return Ok(true);
    }
    follows_by(alloc, texts, lines, row, name, logical.line, &words)
}

// Whether all statements of a text are so.
fn is_followed(
    alloc: Global,
    texts: &Texts,
    lines: &[Logical],
    held: &Held,
) -> Result<bool, NoMemory>
    ensures { IfOk result (λ b. b ≡ is_followed texts.now lines.now held.now) }
{
    let name = held.name.name().as_bytes();
    for logical in lines {
        if !follows(alloc, texts, lines, name, logical)? {
            return Ok(false);
        }
    }
    Ok(true)
}

// Whether all variables are followed.
fn are_followed(alloc: Global, texts: &Texts, lines: &[Logical]) -> Result<bool, NoMemory>
    ensures { IfOk result (λ b. b ≡ list_all (is_followed texts.now lines.now) texts.now.held) }
{
    for held in texts.held.as_slice() {
        if !is_followed(alloc, texts, lines, held)? {
            return Ok(false);
        }
    }
    Ok(true)
}

// Those that are followed.
fn followed(alloc: Global, texts: &Texts, lines: &[Logical]) -> Result<Items<Held>, NoMemory>
    ensures { IfOk result (λ hs. hs ≡ filter (is_followed texts.now lines.now) texts.now.held) }
{
    let mut out = Items::new(alloc);
    for held in texts.held.as_slice() {
        if is_followed(alloc, texts, lines, held)? {
            out.push(held.copy())?;
        }
    }
    Ok(out)
}

// The texts of a program with these variables.
fn with_held(texts: Texts, held: Items<Held>) -> Texts
    ensures { result ≡ record texts { held = held } }
{
    let Texts {
        literals,
        parameters,
        ..
    } = texts;
    Texts {
        held,
        literals,
        parameters,
    }
}

// The variables that are followed as long as all of these are counted.
#[tactic(auto, unfolding(crate::specs::Counted::narrowed))]
fn narrowed(alloc: Global, left: u8, lines: &[Logical], texts: Texts) -> Result<Texts, NoMemory>
    ensures { IfOk result (λ t. t ≡ narrowed left lines.now texts) }
{
    if left == 0 {
        return Ok(with_held(texts, Items::new(alloc)));
    }
    if are_followed(alloc, &texts, lines)? {
        return Ok(texts);
    }
    let held = followed(alloc, &texts, lines)?;
    narrowed(alloc, left - 1, lines, with_held(texts, held))
}

/// The texts of a program, and the variables that are counted.
///
/// # Errors
///
/// Out of memory.
pub fn counted_texts(
    alloc: Global,
    given: &[OwnedBytes],
    lines: &[Logical],
) -> Result<Texts, NoMemory>
    ensures { IfOk result (λ t. t ≡ counted given.now lines.now) }
{
    let texts = texts_in(alloc, given, lines)?;
    narrowed(alloc, MOST_ROUNDS, lines, texts)
}
