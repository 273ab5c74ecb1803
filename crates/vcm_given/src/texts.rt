//! Answers that are texts.

ghost use Rattle.std.specs.Prelude.{◌≡◌, ◌++◌, IfOk, OnOk};
ghost use Rattle.std.specs.List.{flat_map};
ghost use Rattle.std.specs.Option.{option_copied};
ghost use Rattle.vcm_compared.specs.Counted.{counted};
ghost use Rattle.vcm_given.specs.Texts.{text_in, given_texts, numbered, counted_value, other_value, value_for, answered_by, fitting, fitting_answers};

use crate::choices::{Answer, Value};
use std::alloc::Global;
use vcm_compared::{Held, Texts, counted_texts, held_named, number_for};
use vcm_lines::{Logical, OwnedBytes};
use vcm_num::{Items, NoMemory};

/// The most literals that have a number.
const MOST_TEXTS: u32 = 100_000;

// The text that a value is.
fn add_text(alloc: Global, out: &mut Items<OwnedBytes>, value: &Value) -> Result<(), NoMemory>
    ensures { OnOk result (out.new ≡ out.old ++ text_in value.now) }
{
    match value {
        Value::Text(text) => {
            out.push(OwnedBytes::copied(alloc, text.as_bytes())?)?;
            Ok(())
        }
        _ => Ok(()),
    }
}

/// The texts that are given.
///
/// # Errors
///
/// Out of memory.
pub fn given_texts(alloc: Global, answers: &[Answer]) -> Result<Items<OwnedBytes>, NoMemory>
    ensures { IfOk result (λ xs. xs ≡ given_texts answers.now) }
{
    let mut out = Items::new(alloc);
    for answer in answers {
        add_text(alloc, &mut out, &answer.value)?;
    }
    Ok(out)
}

// The number of a text, as a value.
fn numbered(number: u32) -> Option<Value>
    ensures { result ≡ numbered number }
{
    if number <= MOST_TEXTS {
        Some(Value::Int(number as i32))
    } else {
        None
    }
}

// The value of a variable that is counted.
fn counted_value(texts: &Texts, held: &Held, value: &Value) -> Option<Value>
    ensures { result ≡ counted_value texts.now held.now value.now }
{
    match value {
        Value::Text(text) => {
            let number = number_for(texts, held.most, text.as_bytes())?;
            numbered(number)
        }
        _ => None,
    }
}

// The value of any other variable.
fn other_value(value: &Value) -> Option<Value>
    ensures { result ≡ other_value value.now }
{
    match value {
        Value::Int(number) => Some(Value::Int(*number)),
        Value::Real(number) => Some(Value::Real(*number)),
        Value::Truth(truth) => Some(Value::Truth(*truth)),
        Value::Text(_) => None,
    }
}

// The value of a variable.
fn value_for(texts: &Texts, held: Option<&Held>, value: &Value) -> Option<Value>
    ensures { result ≡ value_for texts.now (option_copied held.entry) value.now }
{
    match held {
        Some(held) => counted_value(texts, held, value),
        None => other_value(value),
    }
}

// An answer, with the number of its text, if it fits its variable.
fn add_fitting(out: &mut Items<Answer>, texts: &Texts, answer: &Answer) -> Result<(), NoMemory>
    ensures { OnOk result (out.new ≡ out.old ++ fitting texts.now answer.now) }
{
    let name = answer.variable.name().as_bytes();
    let held = held_named(name, texts.held.as_slice());
    let Some(value) = value_for(texts, held, &answer.value) else {
        return Ok(());
    };
    let variable = answer.variable.copy();
    out.push(Answer { variable, value })?;
    Ok(())
}

// The answers that fit their variables, beside these texts.
fn add_all_fitting(
    out: &mut Items<Answer>,
    texts: &Texts,
    answers: &[Answer],
) -> Result<(), NoMemory>
    ensures { OnOk result (out.new ≡ out.old ++ flat_map (fitting texts.now) answers.now) }
{
    for answer in answers {
        add_fitting(out, texts, answer)?;
    }
    Ok(())
}

/// The answers that fit their variables.
pub(crate) fn fitting_answers(
    alloc: Global,
    answers: &[Answer],
    lines: &[Logical],
) -> Result<Items<Answer>, NoMemory>
    ensures { IfOk result (λ found. found ≡ fitting_answers answers.now lines.now) }
{
    let given = given_texts(alloc, answers)?;
    let texts = counted_texts(alloc, given.as_slice(), lines)?;
    let mut out = Items::new(alloc);
    add_all_fitting(&mut out, &texts, answers)?;
    Ok(out)
}
