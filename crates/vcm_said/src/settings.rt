//! What SNSET says, pair by pair.

ghost use Rattle.std.specs.Prelude.{◌≡◌, ◌++◌, ◌∷◌, [], OnOk, IfOk, if◌then◌else◌};
ghost use Rattle.vcm_spec.specs.declared.words.Setting.{Setting as Which};
ghost use Rattle.vcm_lines.specs.Lexemes.{Star};
ghost use Rattle.vcm_events.specs.declared.event.Event.TheVariants as events;
ghost use Rattle.vcm_events.specs.Events.{lost, gained};
ghost use Rattle.vcm_expr.specs.Parsing.{expr_of};
ghost use Rattle.vcm_forms.specs.declared.statement.Form.TheVariants.{Configure};
ghost use Rattle.vcm_heads.specs.declared.heads.Mark.TheVariants as marks;
ghost use Rattle.vcm_heads.specs.Heads.{past};
ghost use Rattle.vcm_said.specs.All.{on_line};
ghost use Rattle.vcm_said.specs.Settings.{word_named, word_or, word_of, field_word, all_lost, value_or, set_to, is_off_word, is_off, word_said, takes_value, behind, behind_word, pair_said, behind_pair, pairs_said, settings_by};

use crate::adding::{add, gains, loses};
use std::alloc::Global;
use vcm_events::{Event, unknown};
use vcm_expr::{Expr, read_expr};
use vcm_forms::{Form, Statement};
use vcm_heads::{Mark, past};
use vcm_items::is_variable_name;
use vcm_lines::{Cutter, FaultCode, Phrase, Token};
use vcm_num::{NoMemory, is, look_up};
use vcm_spec::Setting;

/// The most fields of SNSET that are read.
pub const MOST_FIELDS: u8 = 40;

/// A field of SNSET.
#[derive(Clone, Copy)]
pub enum Word {
    /// The approach.
    Approach,
    /// The way back.
    Retract,
    /// The search.
    Search,
    /// A clearance surface.
    Clearance,
    /// What is about points of the machine's own.
    Own,
    /// Another word.
    Other,
    /// A value.
    Value,
}

// The word of SNSET with this name.
fn word_named(word: &[u8]) -> Option<Word>
    ensures { result ≡ word_named word.now }
{
    look_up(
        &[
            (b"APPRCH", Word::Approach),
            (b"RETRCT", Word::Retract),
            (b"SEARCH", Word::Search),
            (b"CLRSRF", Word::Clearance),
            (b"DEPTH", Word::Own),
            (b"VA", Word::Own),
            (b"VF", Word::Own),
            (b"VL", Word::Own),
            (b"VR", Word::Own),
            (b"FOCUSY", Word::Own),
            (b"FOCUSN", Word::Own),
            (b"MINCON", Word::Own),
        ],
        word,
    )
}

// The word that a field is.
fn word_of(word: &[u8]) -> Word
    ensures { result ≡ word_of word.now }
{
    match word_named(word) {
        Some(word) => word,
        None => {
            if is_variable_name(word) {
                Word::Other
            } else {
                Word::Value
            }
        }
    }
}

// The word that words are, if it is one alone.
fn lone_word(words: &Phrase<'_>) -> Word
    ensures { result ≡ field_word words.now }
{
    match words.split_first() {
        Some((Token::Run(word), rest)) => match rest.split_first() {
            None => word_of(word),
            Some(_) => Word::Value,
        },
        Some((Token::Star, rest)) => starred_word(&rest),
        _ => Word::Value,
    }
}

// The word behind a star.
fn starred_word(words: &Phrase<'_>) -> Word
    ensures { result ≡ field_word (Star ∷ words.now) }
{
    match words.split_first() {
        Some((Token::Run(word), rest)) => match rest.split_first() {
            None => word_of(word),
            Some(_) => Word::Value,
        },
        _ => Word::Value,
    }
}

// All distances, and whether there is a clearance surface, aren't known.
fn lose_all(out: &mut Vec<Statement>, line: u32) -> Result<(), NoMemory>
    ensures { OnOk result (out.new.items ≡ out.old.items ++ on_line line all_lost) }
{
    loses(out, line, Event::Approach)?;
    loses(out, line, Event::Search)?;
    loses(out, line, Event::Retract)?;
    loses(out, line, Event::Clearance)
}

// The expression that words spell, or one whose value isn't known.
fn value_or(alloc: Global, words: &Phrase<'_>) -> Result<Expr, NoMemory>
    ensures { IfOk result (λ e. e ≡ value_or (expr_of words.now)) }
{
    match read_expr(alloc, 1, words) {
        Ok(value) => Ok(value),
        Err(fault) => match fault.code {
            FaultCode::NoMemory => Err(NoMemory),
            _ => Ok(unknown()),
        },
    }
}

// The first of fields as a value, if there are fields.
fn first_value(alloc: Global, rest: &Option<Phrase<'_>>) -> Result<Expr, NoMemory>
    ensures { IfOk result (λ e. (which : Which) → Configure which e ∷ [] ≡ set_to which rest.now) }
{
    match rest {
        None => Ok(unknown()),
        Some(words) => {
            let (field, _) = words.cut_at(Cutter::AtComma);
            value_or(alloc, &field)
        }
    }
}

// A setting with the field behind its word.
fn set_to(
    alloc: Global,
    out: &mut Vec<Statement>,
    line: u32,
    which: Setting,
    rest: &Option<Phrase<'_>>,
) -> Result<(), NoMemory>
    ensures { OnOk result (out.new.items ≡ out.old.items ++ on_line line (set_to which rest.now)) }
{
    let value = first_value(alloc, rest)?;
    add(out, line, Form::Configure(which, value))
}

// Whether a field is OFF.
fn is_off_word(words: &Phrase<'_>) -> bool
    ensures { result ≡ is_off_word words.now }
{
    match words.split_first() {
        Some((Token::Run(word), rest)) => rest.split_first().is_none() && is(word, b"OFF"),
        _ => false,
    }
}

// The same of the first of fields, if there are.
fn is_off(rest: &Option<Phrase<'_>>) -> bool
    ensures { result ≡ is_off rest.now }
{
    match rest {
        None => false,
        Some(words) => {
            let (field, _) = words.cut_at(Cutter::AtComma);
            is_off_word(&field)
        }
    }
}

// A clearance surface.
fn say_clearance(out: &mut Vec<Statement>, line: u32, is_off: bool) -> Result<(), NoMemory>
    ensures { OnOk result (out.new.items ≡ out.old.items ++ on_line line (if is_off then gained events.Clearance ∷ [] else lost events.Clearance ∷ [])) }
{
    if is_off {
        gains(out, line, Event::Clearance)
    } else {
        loses(out, line, Event::Clearance)
    }
}

// What a word says, with the fields behind it.
fn say_word(
    alloc: Global,
    out: &mut Vec<Statement>,
    line: u32,
    word: Word,
    rest: &Option<Phrase<'_>>,
) -> Result<(), NoMemory>
    ensures { OnOk result (out.new.items ≡ out.old.items ++ on_line line (word_said word rest.now)) }
{
    match word {
        Word::Approach => set_to(alloc, out, line, Setting::Approach, rest),
        Word::Retract => set_to(alloc, out, line, Setting::Retract, rest),
        Word::Search => set_to(alloc, out, line, Setting::Search, rest),
        Word::Clearance => say_clearance(out, line, is_off(rest)),
        Word::Own => gains(out, line, Event::Depth),
        Word::Other => lose_all(out, line),
        Word::Value => Ok(()),
    }
}

// The fields behind the first one, if there are.
fn behind<'a>(rest: Option<Phrase<'a>>) -> Option<Phrase<'a>>
    ensures { result ≡ behind rest.entry }
{
    let (_, behind) = rest?.cut_at(Cutter::AtComma);
    behind
}

// The fields behind a word and its value.
fn behind_word<'a>(word: Word, rest: Option<Phrase<'a>>) -> Option<Phrase<'a>>
    ensures { result ≡ behind_word word rest.entry }
{
    match word {
        Word::Approach | Word::Retract | Word::Search | Word::Clearance => behind(rest),
        Word::Own | Word::Other | Word::Value => rest,
    }
}

// What the first of fields says, and the fields behind it and its value.
fn say_pair<'a>(
    alloc: Global,
    out: &mut Vec<Statement>,
    line: u32,
    words: Phrase<'a>,
) -> Result<Option<Phrase<'a>>, NoMemory>
    ensures said { OnOk result (out.new.items ≡ out.old.items ++ on_line line (pair_said words.entry)) }
    ensures behind { IfOk result (λ rest. rest ≡ behind_pair words.entry) }
{
    let (field, rest) = words.cut_at(Cutter::AtComma);
    let word = lone_word(&field);
    say_word(alloc, out, line, word, &rest)?;
    Ok(behind_word(word, rest))
}

// What fields say, one pair behind the other.
#[tactic(auto, unfolding(crate::specs::Settings::pairs_said))]
fn say_pairs(
    alloc: Global,
    out: &mut Vec<Statement>,
    line: u32,
    left: u8,
    fields: Option<Phrase<'_>>,
) -> Result<(), NoMemory>
    ensures { OnOk result (out.new.items ≡ out.old.items ++ on_line line (pairs_said left fields.entry)) }
{
    let Some(words) = fields else {
        return Ok(());
    };
    if left == 0 {
        return lose_all(out, line);
    }
    let rest = say_pair(alloc, out, line, words)?;
    say_pairs(alloc, out, line, left - 1, rest)
}

/// What the fields of SNSET say.
pub(crate) fn say_settings_by(
    alloc: Global,
    out: &mut Vec<Statement>,
    line: u32,
    behind: &Phrase<'_>,
) -> Result<(), NoMemory>
    ensures { OnOk result (out.new.items ≡ out.old.items ++ on_line line (settings_by (past marks.Slash behind.now))) }
{
    match past(Mark::Slash, behind) {
        None => lose_all(out, line),
        Some(words) => say_pairs(alloc, out, line, MOST_FIELDS, Some(words)),
    }
}
