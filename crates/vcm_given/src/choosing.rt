//! The statements of a text, with what is given.

ghost use Rattle.std.specs.Prelude.{◌≡◌, ◌++◌, ◌∷◌, [], take, drop, List, IfOk, OnOk, if◌then◌else◌};
ghost use Rattle.std.specs.List.{flat_map};
ghost use Rattle.std.specs.Option.{option_copied};
ghost use Rattle.std.specs.Vec.Iter.{into_iter_items};
ghost use Rattle.vcm_forms.specs.declared.statement.Form.TheVariants as form;
ghost use Rattle.vcm_forms.specs.Statements.{as_read};
ghost use Rattle.vcm_events.specs.declared.event.Event.TheVariants as events;
ghost use Rattle.vcm_events.specs.Events.{lost};
ghost use Rattle.vcm_given.specs.Values.{given_value};
ghost use Rattle.vcm_given.specs.Chosen.{setting, direction_of, touched, chosen_settings, chosen_first, assigned, answered, shifted, given_form, is_event, is_dropped, is_dropped_by, is_back_by, again, width_said, chosen_statement, chosen_by, chosen, on_line};

use crate::answers::{Asked, ask_all, asked_at, assignment_of, stands_behind};
use crate::choices::{Answer, Choices};
use crate::frames::{frame_named, place, place_all};
use crate::spoken::{Saying, Spoken, saying_at, sayings_of};
use crate::statements::add;
use crate::texts::fitting_answers;
use crate::tips::{OtherTip, is_other_at, other_tips};
use std::alloc::Global;
use std::vec::IntoIter;
use vcm_events::{Event, gained, length as length_of, lost, numbered, pointed, slanted, tip_said};
use vcm_expr::Expr;
use vcm_forms::{Coordinates, Form, Offset, Statement, Target};
use vcm_items::Name;
use vcm_lines::Logical;
use vcm_num::{Axis, Items, NoMemory, is};
use vcm_spec::Setting;

// A setting that is given.
fn set(
    alloc: Global,
    out: &mut Vec<Statement>,
    which: Setting,
    length: Option<i32>,
) -> Result<(), NoMemory>
    ensures { OnOk result (out.new.items ≡ out.old.items ++ on_line 1 (setting which length)) }
{
    match length {
        Some(length) => {
            let length = length_of(alloc, length)?;
            add(out, 1, Form::Configure(which, length))
        }
        None => Ok(()),
    }
}

// The settings that are given.
#[tactic(auto, unfolding(crate::specs::Chosen::chosen_settings))]
fn put_settings(alloc: Global, out: &mut Vec<Statement>, choices: &Choices) -> Result<(), NoMemory>
    ensures { OnOk result (out.new.items ≡ out.old.items ++ on_line 1 (chosen_settings choices.now)) }
{
    set(alloc, out, Setting::Approach, choices.approach)?;
    set(alloc, out, Setting::Retract, choices.retract)?;
    set(alloc, out, Setting::Search, choices.search)
}

// What is said before the first statement: how wide the tip is, the settings, and where the frames lie.
fn put_first(alloc: Global, out: &mut Vec<Statement>, choices: &Choices) -> Result<(), NoMemory>
    ensures { OnOk result (out.new.items ≡ out.old.items ++ on_line 1 (chosen_first choices.now)) }
{
    add(out, 1, tip_said(alloc, choices.tip)?)?;
    put_settings(alloc, out, choices)?;
    place_all(alloc, out, 1, choices.frames.as_slice())
}

// An assignment, and the one of an answer.
fn put_both(
    alloc: Global,
    out: &mut Vec<Statement>,
    line: u32,
    first: Form,
    answer: &Answer,
) -> Result<(), NoMemory>
    ensures { OnOk result (out.new.items ≡ out.old.items ++ on_line line (first ∷ form.Assignment (as_read answer.now.variable) (given_value answer.now.value) ∷ [])) }
{
    add(out, line, first)?;
    let second = assignment_of(alloc, answer)?;
    add(out, line, second)
}

// An assignment, with the answer behind it.
fn put_answered(
    alloc: Global,
    out: &mut Vec<Statement>,
    line: u32,
    target: Target,
    value: Expr,
    answer: Option<&Answer>,
) -> Result<(), NoMemory>
    ensures { OnOk result (out.new.items ≡ out.old.items ++ on_line line (form.Assignment target value ∷ answered target.name (option_copied answer.entry))) }
{
    match answer {
        Some(answer) => {
            if stands_behind(&target.name, answer) {
                put_both(alloc, out, line, Form::Assignment(target, value), answer)
            } else {
                add(out, line, Form::Assignment(target, value))
            }
        }
        None => add(out, line, Form::Assignment(target, value)),
    }
}

// An assignment, with the answer behind it; where MODE/AUTO takes no points of the machine's own, all points are the text's.
fn put_assignment(
    alloc: Global,
    out: &mut Vec<Statement>,
    line: u32,
    is_auto: bool,
    target: Target,
    value: Expr,
    answer: Option<&Answer>,
) -> Result<(), NoMemory>
    ensures { OnOk result (out.new.items ≡ out.old.items ++ on_line line (assigned is_auto target.name (form.Assignment target value) (answered target.name (option_copied answer.entry)))) }
{
    if is_auto && is(target.name.as_bytes(), Event::OwnPoints.name()) {
        add(out, line, gained(Event::OwnPoints))
    } else {
        put_answered(alloc, out, line, target, value, answer)
    }
}

// A frame that the text makes; of something that isn't known it is made as it is given.
fn put_shift(
    alloc: Global,
    out: &mut Vec<Statement>,
    line: u32,
    choices: &Choices,
    name: Name,
    offsets: Items<Offset>,
) -> Result<(), NoMemory>
    ensures { OnOk result (out.new.items ≡ out.old.items ++ on_line line (shifted choices.now.frames name offsets)) }
{
    if offsets.is_empty() {
        if let Some(frame) = frame_named(&name, choices.frames.as_slice()) {
            return place(alloc, out, line, frame);
        }
    }
    add(out, line, Form::Shift(name, offsets))
}

// The direction of an axis, in thousandths.
fn direction_of(axis: Axis) -> (i32, i32, i32)
    ensures { result ≡ direction_of axis }
{
    match axis {
        Axis::PlusX => (1000, 0, 0),
        Axis::MinusX => (-1000, 0, 0),
        Axis::PlusY => (0, 1000, 0),
        Axis::MinusY => (0, -1000, 0),
        Axis::PlusZ => (0, 0, 1000),
        Axis::MinusZ => (0, 0, -1000),
    }
}

// A point, which is approached and left where this is asked for.
fn put_touch(
    alloc: Global,
    out: &mut Vec<Statement>,
    line: u32,
    is_approached: bool,
    place: Coordinates,
    given: Option<Axis>,
) -> Result<(), NoMemory>
    ensures { OnOk result (out.new.items ≡ out.old.items ++ on_line line (touched is_approached place given ∷ [])) }
{
    if !is_approached {
        return add(out, line, Form::Touch(place, given));
    }
    match given {
        Some(axis) => {
            let form = slanted(alloc, place, direction_of(axis))?;
            add(out, line, form)
        }
        None => {
            let form = pointed(alloc, place)?;
            add(out, line, form)
        }
    }
}

// Whether a statement is this event.
fn is_event(event: Event, form: &Form) -> bool
    ensures { result ≡ is_event event form.now }
{
    match form {
        Form::Assignment(target, _) => is(target.name.as_bytes(), event.name()),
        _ => false,
    }
}

// Whether a statement may do anything, or calls something.
fn is_dropped(form: &Form) -> bool
    ensures { result ≡ is_dropped form.now }
{
    match form {
        Form::Call(_, _) => true,
        form => is_event(Event::All, form),
    }
}

// A statement, with what is given.
fn put_given(
    alloc: Global,
    out: &mut Vec<Statement>,
    choices: &Choices,
    asked: &[Asked],
    line: u32,
    form: Form,
) -> Result<(), NoMemory>
    ensures { OnOk result (out.new.items ≡ out.old.items ++ on_line line (given_form choices.now asked.now line form)) }
{
    match form {
        Form::Assignment(target, value) => {
            let answer = asked_at(line, asked);
            put_assignment(alloc, out, line, choices.is_auto, target, value, answer)
        }
        Form::Shift(name, offsets) => put_shift(alloc, out, line, choices, name, offsets),
        Form::Touch(place, given) => {
            put_touch(alloc, out, line, choices.is_approached, place, given)
        }
        form => add(out, line, form),
    }
}

// That a tip of another width is put on.
fn put_width(out: &mut Vec<Statement>, line: u32, is_other: bool) -> Result<(), NoMemory>
    ensures { OnOk result (out.new.items ≡ out.old.items ++ on_line line (if is_other then lost events.Width ∷ [] else [])) }
{
    if is_other {
        add(out, line, lost(Event::Width))
    } else {
        Ok(())
    }
}

// Whether a statement says nothing, by what is said of it.
fn is_dropped_by(saying: Option<Saying>, form: &Form) -> bool
    ensures { result ≡ is_dropped_by saying form.now }
{
    match saying {
        Some(Saying::Harmless) => is_dropped(form),
        _ => false,
    }
}

// Whether it makes the table known again.
fn is_back_by(saying: Option<Saying>, form: &Form) -> bool
    ensures { result ≡ is_back_by saying form.now }
{
    match saying {
        Some(Saying::Back) => is_event(Event::Table, form),
        _ => false,
    }
}

// The selection of a sensor that was selected before, by the line of that; of a probe of a file, by its number.
fn again(saying: Option<Saying>, form: Form) -> Form
    ensures { result ≡ again saying form }
{
    match saying {
        Some(Saying::Same(first)) => {
            if is_event(Event::Sensor, &form) {
                numbered(Event::Sensor, i64::from(first))
            } else {
                form
            }
        }
        Some(Saying::Probe(number)) => {
            if is_event(Event::Sensor, &form) {
                numbered(Event::Probe, i64::from(number))
            } else {
                form
            }
        }
        Some(Saying::Unclear) => {
            if is_event(Event::Sensor, &form) {
                lost(Event::Sensor)
            } else {
                form
            }
        }
        _ => form,
    }
}

// A statement, with what is given and what is said of its line.
fn put(
    alloc: Global,
    out: &mut Vec<Statement>,
    choices: &Choices,
    asked: &[Asked],
    spoken: &[Spoken],
    tips: &[OtherTip],
    statement: Statement,
) -> Result<(), NoMemory>
    ensures { OnOk result (out.new.items ≡ out.old.items ++ chosen_statement choices.now asked.now spoken.now tips.now statement) }
{
    let line = statement.line;
    let form = statement.form;
    let is_other = is_other_at(line, tips) && is_event(Event::Sensor, &form);
    let saying = saying_at(line, spoken);
    if is_dropped_by(saying, &form) {
        return Ok(());
    }
    if is_back_by(saying, &form) {
        return add(out, line, gained(Event::Table));
    }
    put_given(alloc, out, choices, asked, line, again(saying, form))?;
    put_width(out, line, is_other)
}

// Statements, one behind the other, with what is given.
fn put_all(
    alloc: Global,
    out: &mut Vec<Statement>,
    choices: &Choices,
    asked: &[Asked],
    spoken: &[Spoken],
    tips: &[OtherTip],
    said: IntoIter<Statement>,
) -> Result<(), NoMemory>
    ensures { OnOk result (out.new.items ≡ out.old.items ++ flat_map (chosen_statement choices.now asked.now spoken.now tips.now) (into_iter_items said)) }
{
    for statement in said {
        put(alloc, out, choices, asked, spoken, tips, statement)?;
    }
    Ok(())
}

// The next statement, if there is one.
fn put_next(out: &mut Vec<Statement>, said: &mut IntoIter<Statement>) -> Result<(), NoMemory>
    ensures put { OnOk result (out.new.items ≡ out.old.items ++ take 1 (into_iter_items said.old)) }
    ensures left { OnOk result (into_iter_items said.new ≡ drop 1 (into_iter_items said.old)) }
{
    if let Some(statement) = said.next() {
        out.push(statement)?;
    }
    Ok(())
}

// The first two statements, which open a text.
fn put_opening(out: &mut Vec<Statement>, said: &mut IntoIter<Statement>) -> Result<(), NoMemory>
    ensures put { OnOk result (out.new.items ≡ out.old.items ++ take 2 (into_iter_items said.old)) }
    ensures left { OnOk result (into_iter_items said.new ≡ drop 2 (into_iter_items said.old)) }
{
    put_next(out, said)?;
    put_next(out, said)
}

// The same, by what the lines of the text ask for and by what the command line says of them.
fn choose_by(
    alloc: Global,
    choices: &Choices,
    asked: &[Asked],
    spoken: &[Spoken],
    tips: &[OtherTip],
    said: Vec<Statement>,
) -> Result<Vec<Statement>, NoMemory>
    ensures { IfOk result (λ ss. ss.items ≡ chosen_by choices.now asked.now spoken.now tips.now said.items) }
{
    let mut out = Vec::new(alloc);
    let mut said = said.into_iter();
    put_opening(&mut out, &mut said)?;
    put_first(alloc, &mut out, choices)?;
    put_all(alloc, &mut out, choices, asked, spoken, tips, said)?;
    Ok(out)
}

/// The statements that the lines of a text say, of which the first two open it, with what is given on the command line.
///
/// # Errors
///
/// Out of memory.
pub fn choose(
    alloc: Global,
    choices: &Choices,
    lines: &[Logical],
    said: Vec<Statement>,
) -> Result<Vec<Statement>, NoMemory>
    ensures { IfOk result (λ ss. ss.items ≡ chosen choices.now lines.now said.items) }
{
    let answers = fitting_answers(alloc, choices.answers.as_slice(), lines)?;
    let asked = ask_all(alloc, answers.as_slice(), lines)?;
    let spoken = sayings_of(
        alloc,
        choices.probes.as_slice(),
        choices.harmless.as_slice(),
        choices.table,
        lines,
    )?;
    let tips = other_tips(alloc, choices.probes.as_slice(), choices.tip, lines)?;
    choose_by(
        alloc,
        choices,
        &asked,
        spoken.as_slice(),
        tips.as_slice(),
        said,
    )
}
