//! A CASE with several values.

ghost use Rattle.std.specs.Prelude.{◌≡◌, ◌++◌, ◌∷◌, [], map, ◌-ℤ◌, pos, Some, None, IfOk, OnOk, if◌then◌else◌};
ghost use Rattle.vcm_said.specs.Places.{is_minus};
ghost use Rattle.vcm_said.specs.Cases.{whole_behind, whole_in, value_at, values_onto, values_in, values_or, values_of, case_value, several};
ghost use Rattle.vcm_said.specs.All.{on_line};

use crate::adding::{add, gains};
use crate::places::{expression_at, is_minus};
use std::alloc::Global;
use vcm_compared::is_text_case;
use vcm_events::{Event, numbered};
use vcm_expr::Piece;
use vcm_forms::{Form, Statement};
use vcm_heads::{Mark, major_at, past};
use vcm_lines::Phrase;
use vcm_num::{Items, Literal, NoMemory, is};

/// The most values that a CASE may have besides the first one.
pub const MOST_OTHERS: u8 = 15;

// A whole number with these parts behind it.
fn whole_behind(number: i64, pieces: &[Piece]) -> Option<i64>
    ensures { result ≡ whole_behind number pieces.now }
{
    if pieces.is_empty() {
        return Some(number);
    }
    if is_minus(pieces) && 0 <= number {
        Some(0 - number)
    } else {
        None
    }
}

// The whole number that the parts of an expression are.
fn whole_in(pieces: &[Piece]) -> Option<i64>
    ensures { result ≡ whole_in pieces.now }
{
    match pieces.split_first() {
        Some((Piece::Number(Literal::Int(number)), others)) => whole_behind(*number, others),
        _ => None,
    }
}

// The value that the first of fields is, and the fields behind it.
fn value_at<'a>(
    alloc: Global,
    fields: Option<Phrase<'a>>,
) -> Result<Option<(i64, Option<Phrase<'a>>)>, NoMemory>
    ensures { IfOk result (λ r. r ≡ value_at fields.entry) }
{
    let Some((value, rest)) = expression_at(alloc, fields)? else {
        return Ok(None);
    };
    match whole_in(value.pieces()) {
        Some(number) => Ok(Some((number, rest))),
        None => Ok(None),
    }
}

// Values with those of fields behind them, of which there are so many at most.
#[tactic(auto, unfolding(crate::specs::Cases::values_onto))]
fn values_onto(
    alloc: Global,
    left: u8,
    values: Items<i64>,
    fields: Option<Phrase<'_>>,
) -> Result<Option<Items<i64>>, NoMemory>
    ensures { IfOk result (λ r. r ≡ values_onto left values fields.entry) }
{
    let Some(words) = fields else {
        return Ok(Some(values));
    };
    if left == 0 {
        return Ok(None);
    }
    let Some((number, rest)) = value_at(alloc, Some(words))? else {
        return Ok(None);
    };
    let mut more = values;
    more.push(number)?;
    values_onto(alloc, left - 1, more, rest)
}

// The values of fields: the first one, and the others.
fn values_in(
    alloc: Global,
    fields: Option<Phrase<'_>>,
) -> Result<Option<(i64, Items<i64>)>, NoMemory>
    ensures { IfOk result (λ r. r ≡ values_in fields.entry) }
{
    let Some((first, rest)) = value_at(alloc, fields)? else {
        return Ok(None);
    };
    match values_onto(alloc, MOST_OTHERS, Items::new(alloc), rest)? {
        Some(others) => Ok(Some((first, others))),
        None => Ok(None),
    }
}

/// The values of a CASE.
pub(crate) fn values_of(
    alloc: Global,
    words: &Phrase<'_>,
) -> Result<Option<(i64, Items<i64>)>, NoMemory>
    ensures { IfOk result (λ r. r ≡ values_of words.now) }
{
    let (major, behind) = major_at(words);
    if !is(major, b"CASE") {
        return Ok(None);
    }
    if let Some(values) = values_in(alloc, past(Mark::Slash, &behind))? {
        return Ok(Some(values));
    }
    if is_text_case(alloc, words)? {
        Ok(Some((0, Items::new(alloc))))
    } else {
        Ok(None)
    }
}

// Each value more of a CASE.
fn say_values(out: &mut Vec<Statement>, line: u32, values: &[i64]) -> Result<(), NoMemory>
    ensures { OnOk result (out.new.items ≡ out.old.items ++ on_line line (map case_value values.now)) }
{
    for value in values {
        add(out, line, numbered(Event::CaseValue, *value))?;
    }
    Ok(())
}

/// A CASE with several values.
pub(crate) fn say_several(
    alloc: Global,
    out: &mut Vec<Statement>,
    line: u32,
    words: &Phrase<'_>,
) -> Result<(), NoMemory>
    ensures { OnOk result (out.new.items ≡ out.old.items ++ on_line line (several (values_of words.now))) }
{
    let Some((first, others)) = values_of(alloc, words)? else {
        return Ok(());
    };
    add(out, line, Form::Case(first))?;
    say_values(out, line, others.as_slice())?;
    gains(out, line, Event::CaseBegins)
}
