//! What statements say of the frames, features and variables that they name.

ghost use Rattle.std.specs.Prelude.{◌≡◌, ◌++◌, ◌∷◌, [], Some, None, OnOk, option_map, codes};
ghost use Rattle.std.specs.List.{list_any, flat_map};
ghost use Rattle.vcm_lines.specs.Lexemes.{lexeme};
ghost use Rattle.vcm_events.specs.declared.event.Event.TheVariants as events;
ghost use Rattle.vcm_events.specs.Events.{lost, gained};
ghost use Rattle.vcm_events.specs.Datums.{happens_to};
ghost use Rattle.vcm_heads.specs.declared.heads.Mark.TheVariants as marks;
ghost use Rattle.vcm_heads.specs.Heads.{past, title_at};
ghost use Rattle.vcm_said.specs.All.{on_line};
ghost use Rattle.vcm_said.specs.Named.{to_named, alone, title_in, title_of, all_deleted, deleted_by, deleted, recalled, remade, stored_by, stored, variable_lost, word_lost, words_lost, features_lost, is_open_mark, is_text, all_values, name_all, values_said};

use crate::adding::{add, gains, loses};
use vcm_events::{Event, happens_to, unknown};
use vcm_forms::{Form, Statement, Target};
use vcm_heads::{Mark, past, title_at};
use vcm_items::{Name, is_name, is_variable_name};
use vcm_lines::{Phrase, Token};
use vcm_num::{NoMemory, is};

// A title behind these letters or behind those.
fn title_in<'a>(some: &[u8], others: &[u8], words: &Phrase<'a>) -> Option<(&'a [u8], Phrase<'a>)>
    ensures { option_map (λ r. (r.0.now, r.1)) result ≡ title_in some.now others.now words.now }
{
    match title_at(some, words) {
        Some(title) => Some(title),
        None => title_at(others, words),
    }
}

// The same in fields behind a major word.
fn title_of<'a>(some: &[u8], others: &[u8], behind: &Phrase<'a>) -> Option<(&'a [u8], Phrase<'a>)>
    ensures { option_map (λ r. (r.0.now, r.1)) result ≡ title_of some.now others.now (past marks.Slash behind.now) }
{
    match past(Mark::Slash, behind) {
        Some(fields) => title_in(some, others, &fields),
        None => None,
    }
}

// A title with nothing behind it.
fn alone<'a>(title: Option<(&'a [u8], Phrase<'a>)>) -> Option<(&'a [u8], Phrase<'a>)>
    ensures { option_map (λ r. (r.0.now, r.1)) result ≡ alone (option_map (λ r. (r.0.now, r.1)) title.entry) }
{
    let (label, rest) = title?;
    match rest.split_first() {
        None => Some((label, rest)),
        Some(_) => None,
    }
}

// All frames and all features may be deleted.
fn delete_all(out: &mut Vec<Statement>, line: u32) -> Result<(), NoMemory>
    ensures { OnOk result (out.new.items ≡ out.old.items ++ on_line line all_deleted) }
{
    loses(out, line, Event::Frames)?;
    loses(out, line, Event::Features)
}

// One frame or feature may be deleted, or all where it has no name.
fn delete(
    out: &mut Vec<Statement>,
    line: u32,
    event: Event,
    label: &[u8],
    rest: &Phrase<'_>,
) -> Result<(), NoMemory>
    ensures { OnOk result (out.new.items ≡ out.old.items ++ on_line line (to_named event all_deleted (Some (label.now, rest.now)))) }
{
    if is_name(label) {
        add(out, line, happens_to(event, Name::new(label)))
    } else {
        delete_all(out, line)
    }
}

/// DELETE.
pub(crate) fn say_deleted(
    out: &mut Vec<Statement>,
    line: u32,
    behind: &Phrase<'_>,
) -> Result<(), NoMemory>
    ensures { OnOk result (out.new.items ≡ out.old.items ++ on_line line (deleted (past marks.Slash behind.now))) }
{
    if let Some((label, rest)) = alone(title_of(b"D", b"DA", behind)) {
        return delete(out, line, Event::DropFrame, label, &rest);
    }
    if let Some((label, rest)) = alone(title_of(b"F", b"FA", behind)) {
        return delete(out, line, Event::DropFeature, label, &rest);
    }
    match alone(title_of(b"S", b"SA", behind)) {
        Some(_) => Ok(()),
        None => delete_all(out, line),
    }
}

// Something happens to the feature of a title, or to all where it has no name.
fn say_happening(
    out: &mut Vec<Statement>,
    line: u32,
    event: Event,
    title: Option<(&[u8], Phrase<'_>)>,
) -> Result<(), NoMemory>
    ensures { OnOk result (out.new.items ≡ out.old.items ++ on_line line (to_named event (lost events.Features ∷ []) (option_map (λ r. (r.0.now, r.1)) title.entry))) }
{
    match title {
        Some((label, _)) if is_name(label) => add(out, line, happens_to(event, Name::new(label))),
        _ => loses(out, line, Event::Features),
    }
}

/// A feature that is recalled with its values.
pub(crate) fn say_recalled(
    out: &mut Vec<Statement>,
    line: u32,
    event: Event,
    letters: &[u8],
    behind: &Phrase<'_>,
) -> Result<(), NoMemory>
    ensures { OnOk result (out.new.items ≡ out.old.items ++ on_line line (recalled event letters.now (past marks.Slash behind.now))) }
{
    match past(Mark::Slash, behind) {
        None => loses(out, line, Event::Features),
        Some(fields) => say_happening(out, line, event, title_at(letters, &fields)),
    }
}

/// A feature that is made of others.
pub(crate) fn say_remade(
    out: &mut Vec<Statement>,
    line: u32,
    words: &Phrase<'_>,
) -> Result<(), NoMemory>
    ensures { OnOk result (out.new.items ≡ out.old.items ++ on_line line (remade (title_at (codes "F") words.now))) }
{
    say_happening(out, line, Event::Remake, title_at(b"F", words))
}

/// SAVE.
pub(crate) fn say_stored(
    out: &mut Vec<Statement>,
    line: u32,
    behind: &Phrase<'_>,
) -> Result<(), NoMemory>
    ensures { OnOk result (out.new.items ≡ out.old.items ++ on_line line (stored (past marks.Slash behind.now))) }
{
    match title_of(b"D", b"DA", behind) {
        Some((label, _)) => {
            if is_name(label) {
                add(out, line, happens_to(Event::StoreFrame, Name::new(label)))
            } else {
                gains(out, line, Event::Saving)
            }
        }
        None => Ok(()),
    }
}

// A variable has a value that isn't known.
fn lose_variable(out: &mut Vec<Statement>, line: u32, word: &[u8]) -> Result<(), NoMemory>
    ensures { OnOk result (out.new.items ≡ out.old.items ++ on_line line (variable_lost word.now)) }
{
    if !is_variable_name(word) {
        return Ok(());
    }
    let target = Target {
        name: Name::new(word),
        expansion: 0,
    };
    add(out, line, Form::Assignment(target, unknown()))
}

// What a word names isn't known any more.
fn lose_word(out: &mut Vec<Statement>, line: u32, word: &Token<'_>) -> Result<(), NoMemory>
    ensures { OnOk result (out.new.items ≡ out.old.items ++ on_line line (word_lost (lexeme word.now))) }
{
    match word {
        Token::Run(word) => lose_variable(out, line, word),
        _ => Ok(()),
    }
}

// Variables that words name.
fn lose_words(out: &mut Vec<Statement>, line: u32, words: &Phrase<'_>) -> Result<(), NoMemory>
    ensures { OnOk result (out.new.items ≡ out.old.items ++ on_line line (words_lost words.now)) }
{
    match words.split_first() {
        None => Ok(()),
        Some((word, rest)) => {
            lose_word(out, line, &word)?;
            lose_words(out, line, &rest)
        }
    }
}

// A feature that words begin with.
fn lose_feature(out: &mut Vec<Statement>, line: u32, words: &Phrase<'_>) -> Result<(), NoMemory>
    ensures { OnOk result (out.new.items ≡ out.old.items ++ on_line line (to_named events.DropFeature [] (title_in (codes "F") (codes "FA") words.now))) }
{
    match title_in(b"F", b"FA", words) {
        Some((label, _)) => {
            if is_name(label) {
                add(out, line, happens_to(Event::DropFeature, Name::new(label)))
            } else {
                Ok(())
            }
        }
        None => Ok(()),
    }
}

// Features that words name.
fn lose_features(out: &mut Vec<Statement>, line: u32, words: &Phrase<'_>) -> Result<(), NoMemory>
    ensures { OnOk result (out.new.items ≡ out.old.items ++ on_line line (features_lost words.now)) }
{
    match words.split_first() {
        None => Ok(()),
        Some((_, rest)) => {
            lose_feature(out, line, words)?;
            lose_features(out, line, &rest)
        }
    }
}

// Whether a word may name anything.
fn has_open_mark(words: &Phrase<'_>) -> bool
    ensures { result ≡ list_any is_open_mark words.now }
{
    match words.split_first() {
        None => false,
        Some((Token::Other, _)) => true,
        Some((_, rest)) => has_open_mark(&rest),
    }
}

// Whether one of the words is a text.
fn has_text(words: &Phrase<'_>) -> bool
    ensures { result ≡ list_any is_text words.now }
{
    match words.split_first() {
        None => false,
        Some((Token::Quoted(_), _)) => true,
        Some((_, rest)) => has_text(&rest),
    }
}

// Whether words name all that they change.
fn name_all(major: &[u8], words: &Phrase<'_>) -> bool
    ensures { result ≡ name_all major.now words.now }
{
    if has_open_mark(words) {
        return false;
    }
    if is(major, b"XTRACT") || is(major, b"PTBUFF") {
        !has_text(words)
    } else {
        true
    }
}

/// READ, PROMPT, VALUE, XTRACT and PTBUFF.
pub(crate) fn say_values(
    out: &mut Vec<Statement>,
    line: u32,
    major: &[u8],
    words: &Phrase<'_>,
) -> Result<(), NoMemory>
    ensures { OnOk result (out.new.items ≡ out.old.items ++ on_line line (values_said major.now words.now)) }
{
    if name_all(major, words) {
        lose_words(out, line, words)?;
        lose_features(out, line, words)
    } else {
        loses(out, line, Event::Values)?;
        loses(out, line, Event::Features)
    }
}
