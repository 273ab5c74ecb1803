//! Answers to the questions of a text.

ghost use Rattle.std.specs.Prelude.{◌≡◌, ◌++◌, ◌||◌, false, IfOk, OnOk, option_map};
ghost use Rattle.std.specs.Option.{option_copied};
ghost use Rattle.std.specs.Str.{bytes_eq};
ghost use Rattle.vcm_events.specs.declared.event.Event.TheVariants as events;
ghost use Rattle.vcm_events.specs.Events.{event_name};
ghost use Rattle.vcm_forms.specs.Statements.{as_read};
ghost use Rattle.vcm_forms.specs.declared.statement.Form.TheVariants as form;
ghost use Rattle.vcm_given.specs.Values.{given_value};
ghost use Rattle.vcm_heads.specs.Heads.{word_in};
ghost use Rattle.vcm_heads.specs.Rows.{row_in, words_of};
ghost use Rattle.vcm_given.specs.Chosen.{queried, asked, answer_for, asked_on, asked_from, asked_at};

use crate::choices::Answer;
use crate::values::given;
use std::alloc::Global;
use vcm_events::Event;
use vcm_forms::{Form, Target};
use vcm_heads::{Mark, Row, assigned_at, label_at, major_at, own_behind, past, past_word, row_in};
use vcm_items::Name;
use vcm_lines::{Logical, Phrase};
use vcm_num::{NoMemory, is};

/// An answer, on the line that asks for it.
#[derive(Drop)]
pub struct Asked {
    pub line: u32,
    pub answer: Answer,
}

impl Answer {
    // The same answer.
    fn copy(&self, alloc: Global) -> Result<Answer, NoMemory>
        ensures { IfOk result (λ a. a ≡ self.now) }
    {
        let variable = self.variable.copy();
        let value = self.value.copy(alloc)?;
        Ok(Answer { variable, value })
    }
}

// The variable of a question: the label behind QUERY.
fn queried<'a>(behind: &Phrase<'a>) -> Option<(&'a [u8], Phrase<'a>)>
    ensures { option_map (λ r. (r.0.now, r.1)) result ≡ queried behind.now }
{
    let fields = past(Mark::Slash, behind)?;
    let rest = past_word(b"QUERY", &fields)?;
    let variable = past(Mark::Comma, &rest)?;
    label_at(&variable)
}

// A word that was found, no bytes where there is none.
fn word_in<'a>(found: Option<(&'a [u8], Phrase<'a>)>) -> &'a [u8]
    ensures { result.now ≡ word_in (option_map (λ r. (r.0.now, r.1)) found.entry) }
{
    match found {
        Some((word, _)) => word,
        None => &[],
    }
}

// The variable that a statement asks the operator for, no bytes where it asks for none.
fn asked_variable<'a>(logical: &'a Logical) -> &'a [u8]
    ensures { result.now ≡ asked (row_in (words_of logical.now)) (words_of logical.now) }
{
    let words = Phrase::of(logical);
    let (major, behind) = major_at(&words);
    match row_in(&words, major) {
        Row::Text => word_in(queried(&behind)),
        Row::Values => {
            if is(major, b"PROMPT") {
                word_in(assigned_at(&words))
            } else {
                &[]
            }
        }
        _ => &[],
    }
}

// The answer for a variable, if it is given.
fn answer_for<'a>(name: &[u8], answers: &'a [Answer]) -> Option<&'a Answer>
    ensures { option_copied result ≡ answer_for name.now answers.now }
{
    for answer in answers {
        if is(answer.variable.name().as_bytes(), name) {
            return Some(answer);
        }
    }
    None
}

// The answer to a question, if one is given.
fn ask(
    alloc: Global,
    out: &mut Vec<Asked>,
    answers: &[Answer],
    logical: &Logical,
) -> Result<(), NoMemory>
    ensures { OnOk result (out.new.items ≡ out.old.items ++ asked_on logical.now.line (answer_for (asked (row_in (words_of logical.now)) (words_of logical.now)) answers.now)) }
{
    let Some(answer) = answer_for(asked_variable(logical), answers) else {
        return Ok(());
    };
    let answer = answer.copy(alloc)?;
    out.push(Asked {
        line: logical.line,
        answer,
    })?;
    Ok(())
}

/// The answers to a text's questions, in order; the machine's own statements ask nothing.
pub(crate) fn ask_all(
    alloc: Global,
    answers: &[Answer],
    lines: &[Logical],
) -> Result<Vec<Asked>, NoMemory>
    ensures { IfOk result (λ qs. qs.items ≡ asked_from answers.now false lines.now) }
{
    let mut out = Vec::new(alloc);
    let mut own = false;
    for logical in lines {
        if !own {
            ask(alloc, &mut out, answers, logical)?;
        }
        own = own_behind(own, logical);
    }
    Ok(out)
}

/// The answer to the question on a line.
pub(crate) fn asked_at<'a>(line: u32, all: &'a [Asked]) -> Option<&'a Answer>
    ensures { option_copied result ≡ asked_at line all.now }
{
    for one in all {
        if one.line == line {
            return Some(&one.answer);
        }
    }
    None
}

/// Whether an answer stands behind a statement that sets this variable: the question itself, or behind PROMPT the last event of its line.
pub(crate) fn stands_behind(name: &Name, answer: &Answer) -> bool
    ensures { result ≡ (bytes_eq name.now answer.now.variable || bytes_eq name.now (event_name events.Features)) }
{
    let name = name.as_bytes();
    is(name, answer.variable.name().as_bytes()) || is(name, Event::Features.name())
}

/// The assignment of an answer.
pub(crate) fn assignment_of(alloc: Global, answer: &Answer) -> Result<Form, NoMemory>
    ensures { IfOk result (λ f. f ≡ form.Assignment (as_read answer.now.variable) (given_value answer.now.value)) }
{
    let target = Target {
        name: answer.variable.copy().into_name(),
        expansion: 0,
    };
    let value = given(alloc, &answer.value)?;
    Ok(Form::Assignment(target, value))
}
