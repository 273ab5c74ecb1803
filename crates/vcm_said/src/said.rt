//! What each statement of a producer's text says.

ghost use Rattle.std.specs.Prelude.{◌≡◌, ◌++◌, ◌∷◌, [], map, ℤ, pos, Some, None, IfOk, OnOk, option_map};
ghost use Rattle.std.specs.Prelude.{codes, true, false, is_some, List, if◌then◌else◌};
ghost use Rattle.vcm_events.specs.Spots.{spotted};
ghost use Rattle.vcm_said.specs.Polar.{polar_motion, polar_touch};
ghost use Rattle.vcm_said.specs.Places.{place_given, step_at, slant_at, plane_if, names_table, names_head};
ghost use Rattle.vcm_lines.specs.Lexemes.{Lexeme};
ghost use Rattle.vcm_syntax.specs.Statements.{statement_of};
ghost use Rattle.vcm_items.specs.NameBytes.{IsName};
ghost use Rattle.vcm_forms.specs.Statements.{as_read};
ghost use Rattle.vcm_forms.specs.declared.statement.Form.TheVariants.{Assignment, Measure, Shift, Restore};
ghost use Rattle.vcm_events.specs.declared.event.Event.TheVariants as events;
ghost use Rattle.vcm_events.specs.Events.{valued, event_form, lost, gained};
ghost use Rattle.vcm_events.specs.Unknown.{unknown};
ghost use Rattle.vcm_heads.specs.declared.heads.Mark.TheVariants as marks;
ghost use Rattle.vcm_heads.specs.Heads.{past, first_field, assigned_at, title_at, word_in, major_of};
ghost use Rattle.vcm_heads.specs.Rows.{row_in, words_of, own_behind};
ghost use Rattle.vcm_said.specs.Said.{wanted_in, spelled_in, stated, or_said, value_lost, answer_lost, asked_at, text_lost, call_said, feature_lost, measured_at, measure_lost, qualified, setting_said, settings_said, machine_frame, frame_lost, frame_otherwise, fitted, datum_at, recall_lost, recall_otherwise, turning, motion_otherwise, touch_otherwise, is_lone_label, is_plain_sensor, sensor_said, reported, report_at, mode_said, second_field_at, units_said, polar_said, polar_or, is_outside, switched, carried, texts_declared, row_said, said};
ghost use Rattle.vcm_compared.specs.Texts.{char_at};
ghost use Rattle.vcm_said.specs.Cases.{is_shaping};
ghost use Rattle.vcm_said.specs.Named.{deleted, stored, recalled, remade, values_said};
ghost use Rattle.vcm_said.specs.Settings.{settings_by};
ghost use Rattle.std.specs.List.{list_any};
ghost use Rattle.vcm_said.specs.All.{on_line, said_unless, said_from, is_touch, spells_undirected, is_undirected, needs_planes, said_all, shape_fault, refused_at, refused_from};

use crate::adding::{add, gains, loses, turns};
use crate::cases::{say_several, values_of};
use crate::named::{say_deleted, say_recalled, say_remade, say_stored, say_values};
use crate::places::{names_head, names_table, place_given, plane_at, slant_at, step_at};
use crate::polar::{polar_motion, polar_touch};
use crate::settings::say_settings_by;
use crate::wanted::wanted;
use std::alloc::Global;
use vcm_compared::char_at;
use vcm_events::{Event, Spot, numbered, spotted, unknown, unknown_place, unknown_rounds, valued};
use vcm_expr::{Expr, Term};
use vcm_forms::{Coordinates, Form, Offset, Statement, Target};
use vcm_heads::{
    Mark, Row, assigned_at, first_field, label_at, major_at, own_behind, past, past_word, row_in,
    row_of_statement, run_at, title_at,
};
use vcm_items::{Name, is_name, is_variable_name};
use vcm_lines::{FaultCode, Logical, Phrase, SourceFault};
use vcm_num::{Axis, Items, Kind, Literal, NoMemory, is};
use vcm_spec::{FrameAxis, Setting, Source};
use vcm_syntax::parse_statement;

// A variable whose value isn't known.
fn lose_variable(out: &mut Vec<Statement>, line: u32, name: &[u8]) -> Result<(), NoMemory>
    requires { IsName name.now }
    ensures { OnOk result (out.new.items ≡ out.old.items ++ on_line line (Assignment (as_read name.now) unknown ∷ [])) }
{
    let target = Target {
        name: Name::new(name),
        expansion: 0,
    };
    add(out, line, Form::Assignment(target, unknown()))
}

// ASSIGN and OBTAIN of another kind.
fn lose_value(out: &mut Vec<Statement>, line: u32, words: &Phrase<'_>) -> Result<(), NoMemory>
    ensures { OnOk result (out.new.items ≡ out.old.items ++ on_line line (value_lost (assigned_at words.now))) }
{
    match assigned_at(words) {
        Some((name, _)) => {
            if is_variable_name(name) {
                lose_variable(out, line, name)
            } else {
                Ok(())
            }
        }
        None => Ok(()),
    }
}

// The variable of a question.
fn asked_at<'a>(behind: &Phrase<'a>) -> Option<(&'a [u8], Phrase<'a>)>
    ensures { option_map (λ r. (r.0.now, r.1)) result ≡ asked_at behind.now }
{
    let fields = past(Mark::Slash, behind)?;
    let rest = past_word(b"QUERY", &fields)?;
    let variable = past(Mark::Comma, &rest)?;
    label_at(&variable)
}

// An answer of the operator.
fn lose_answer(out: &mut Vec<Statement>, line: u32, behind: &Phrase<'_>) -> Result<(), NoMemory>
    ensures { OnOk result (out.new.items ≡ out.old.items ++ on_line line (answer_lost (asked_at behind.now))) }
{
    match asked_at(behind) {
        Some((name, _)) => {
            if is_variable_name(name) {
                lose_variable(out, line, name)
            } else {
                loses(out, line, Event::Values)
            }
        }
        None => loses(out, line, Event::Values),
    }
}

// TEXT that isn't shown.
fn lose_text(out: &mut Vec<Statement>, line: u32, behind: &Phrase<'_>) -> Result<(), NoMemory>
    ensures { OnOk result (out.new.items ≡ out.old.items ++ on_line line (text_lost (first_field behind.now) behind.now)) }
{
    let word = first_field(behind);
    if is(word, b"QUERY") {
        lose_answer(out, line, behind)
    } else if is(word, b"MAN") {
        loses(out, line, Event::Place)
    } else {
        Ok(())
    }
}

// The place and the axis of a plane, where they are asked for.
fn plane_if(
    alloc: Global,
    planes: bool,
    behind: &Phrase<'_>,
) -> Result<Option<(Coordinates, Axis)>, NoMemory>
    ensures { IfOk result (λ p. p ≡ plane_if planes behind.now) }
{
    if planes {
        plane_at(alloc, behind)
    } else {
        Ok(None)
    }
}

// A feature of another kind than points along an axis.
fn lose_feature(
    alloc: Global,
    out: &mut Vec<Statement>,
    line: u32,
    planes: bool,
    words: &Phrase<'_>,
    behind: &Phrase<'_>,
) -> Result<(), NoMemory>
    ensures { OnOk result (out.new.items ≡ out.old.items ++ on_line line (feature_lost (plane_if planes behind.now) (title_at (codes "F") words.now))) }
{
    match title_at(b"F", words) {
        Some((label, _)) if is_name(label) => {
            let (place, axis) = match plane_if(alloc, planes, behind)? {
                Some(plane) => plane,
                None => (unknown_place(), Axis::PlusZ),
            };
            add(out, line, Form::Feature(Name::new(label), place, axis))
        }
        _ => loses(out, line, Event::Features),
    }
}

// The feature of a measurement, and the words behind it.
fn measured_at<'a>(behind: &Phrase<'a>) -> Option<(&'a [u8], Phrase<'a>)>
    ensures { option_map (λ r. (r.0.now, r.1)) result ≡ measured_at behind.now }
{
    let fields = past(Mark::Slash, behind)?;
    let (_, rest) = run_at(&fields)?;
    let feature = past(Mark::Comma, &rest)?;
    title_at(b"F", &feature)
}

// A measurement of another kind than a point, of the feature with this name.
fn say_measure(
    alloc: Global,
    out: &mut Vec<Statement>,
    line: u32,
    label: &[u8],
    behind: &Phrase<'_>,
) -> Result<(), NoMemory>
    requires { IsName label.now }
    ensures { OnOk result (out.new.items ≡ out.old.items ++ on_line line (Measure label.now ∷ valued events.Points (wanted_in (past marks.Comma behind.now)) ∷ [])) }
{
    let count = wanted(alloc, past(Mark::Comma, behind))?;
    add(out, line, Form::Measure(Name::new(label)))?;
    add(out, line, valued(Event::Points, count))
}

// A measurement of another kind than a point.
fn lose_measure(
    alloc: Global,
    out: &mut Vec<Statement>,
    line: u32,
    behind: &Phrase<'_>,
) -> Result<(), NoMemory>
    ensures { OnOk result (out.new.items ≡ out.old.items ++ on_line line (measure_lost (measured_at behind.now))) }
{
    match measured_at(behind) {
        Some((label, rest)) => {
            if is_name(label) {
                say_measure(alloc, out, line, label, &rest)
            } else {
                loses(out, line, Event::Qualification)
            }
        }
        None => loses(out, line, Event::Qualification),
    }
}

// A measurement whose points aren't tried.
fn say_qualification(
    out: &mut Vec<Statement>,
    line: u32,
    behind: &Phrase<'_>,
) -> Result<(), NoMemory>
    ensures { OnOk result (out.new.items ≡ out.old.items ++ on_line line (qualified (first_field behind.now))) }
{
    gains(out, line, Event::Untried)?;
    loses(out, line, Event::Qualification)?;
    loses(out, line, Event::Features)?;
    if is(first_field(behind), b"RTAB") {
        loses(out, line, Event::Table)
    } else {
        Ok(())
    }
}

// SNSET.
fn say_settings(
    alloc: Global,
    out: &mut Vec<Statement>,
    line: u32,
    form: Option<Form>,
    behind: &Phrase<'_>,
) -> Result<(), NoMemory>
    ensures { OnOk result (out.new.items ≡ out.old.items ++ on_line line (settings_said form behind.now)) }
{
    match form {
        Some(Form::Configure(Setting::Depth, _)) => gains(out, line, Event::Depth),
        Some(form) => add(out, line, form),
        None => say_settings_by(alloc, out, line, behind),
    }
}

// The machine's frame, under a name.
fn say_machine(
    alloc: Global,
    out: &mut Vec<Statement>,
    line: u32,
    label: &[u8],
) -> Result<(), NoMemory>
    requires { IsName label.now }
    ensures { OnOk result (out.new.items ≡ out.old.items ++ on_line line (machine_frame label.now)) }
{
    let mut offsets = Items::new(alloc);
    offsets.push(Offset {
        axis: FrameAxis::X,
        length: Expr::leaf(Term::Number(Literal::Int(0))),
    })?;
    gains(out, line, Event::Machine)?;
    add(out, line, Form::Shift(Name::new(label), offsets))
}

// A frame that isn't known, under a name.
fn lose_frame(
    alloc: Global,
    out: &mut Vec<Statement>,
    line: u32,
    label: &[u8],
) -> Result<(), NoMemory>
    requires { IsName label.now }
    ensures { OnOk result (out.new.items ≡ out.old.items ++ on_line line (frame_lost label.now)) }
{
    add(out, line, Form::Shift(Name::new(label), Items::new(alloc)))
}

// A frame of another kind than shifts and quarter turns.
fn say_frame(
    alloc: Global,
    out: &mut Vec<Statement>,
    line: u32,
    words: &Phrase<'_>,
    word: &[u8],
) -> Result<(), NoMemory>
    ensures { OnOk result (out.new.items ≡ out.old.items ++ on_line line (frame_otherwise word.now (title_at (codes "D") words.now))) }
{
    match title_at(b"D", words) {
        Some((label, _)) if is_name(label) => {
            if is(word, b"MCS") {
                say_machine(alloc, out, line, label)
            } else {
                lose_frame(alloc, out, line, label)
            }
        }
        _ => {
            loses(out, line, Event::Frame)?;
            loses(out, line, Event::Frames)
        }
    }
}

// A frame that is fitted in rounds.
fn say_fitted(
    alloc: Global,
    out: &mut Vec<Statement>,
    line: u32,
    words: &Phrase<'_>,
) -> Result<(), NoMemory>
    ensures { OnOk result (out.new.items ≡ out.old.items ++ on_line line (fitted (title_at (codes "D") words.now))) }
{
    gains(out, line, Event::Untried)?;
    loses(out, line, Event::Values)?;
    lose_both(out, line, Event::Features, Event::Frames)?;
    say_frame(alloc, out, line, words, b"")
}

// The frame of RECALL/DA(l), and the words behind it.
fn datum_at<'a>(behind: &Phrase<'a>) -> Option<(&'a [u8], Phrase<'a>)>
    ensures { option_map (λ r. (r.0.now, r.1)) result ≡ datum_at behind.now }
{
    let fields = past(Mark::Slash, behind)?;
    title_at(b"DA", &fields)
}

// RECALL of another thing than a frame.
fn lose_recalled(
    out: &mut Vec<Statement>,
    line: u32,
    word: &[u8],
    behind: &Phrase<'_>,
) -> Result<(), NoMemory>
    ensures { OnOk result (out.new.items ≡ out.old.items ++ on_line line (recall_lost word.now behind.now)) }
{
    if is(word, b"F") {
        say_recalled(out, line, Event::DropFeature, b"F", behind)
    } else if is(word, b"FA") {
        say_recalled(out, line, Event::Remake, b"FA", behind)
    } else if is(word, b"S") || is(word, b"SA") {
        Ok(())
    } else if is(word, b"D") {
        lose_both(out, line, Event::Frame, Event::Frames)
    } else {
        loses(out, line, Event::All)
    }
}

// RECALL that is none of the language.
fn say_recall(out: &mut Vec<Statement>, line: u32, behind: &Phrase<'_>) -> Result<(), NoMemory>
    ensures { OnOk result (out.new.items ≡ out.old.items ++ on_line line (recall_otherwise (datum_at behind.now) behind.now)) }
{
    match datum_at(behind) {
        None => lose_recalled(out, line, first_field(behind), behind),
        Some((label, rest)) => match rest.split_first() {
            None => {
                if is_name(label) {
                    add(out, line, Form::Restore(Name::new(label)))
                } else {
                    loses(out, line, Event::Frame)
                }
            }
            Some(_) => lose_both(out, line, Event::Frame, Event::Frames),
        },
    }
}

// MODE.
fn say_mode(out: &mut Vec<Statement>, line: u32, word: &[u8]) -> Result<(), NoMemory>
    ensures { OnOk result (out.new.items ≡ out.old.items ++ on_line line (mode_said word.now)) }
{
    if is(word, b"PROG") {
        gains(out, line, Event::Mode)?;
        gains(out, line, Event::OwnPoints)
    } else if is(word, b"AUTO") {
        gains(out, line, Event::Mode)?;
        loses(out, line, Event::OwnPoints)
    } else {
        loses(out, line, Event::Mode)
    }
}

// How the controller goes on.
fn say_switch(out: &mut Vec<Statement>, line: u32, word: &[u8]) -> Result<(), NoMemory>
    ensures { OnOk result (out.new.items ≡ out.old.items ++ on_line line (switched word.now)) }
{
    if is(word, b"COMAND") {
        loses(out, line, Event::All)
    } else if is(word, b"ABORT") {
        gains(out, line, Event::Ends)
    } else {
        Ok(())
    }
}

// Carriages.
fn say_carriage(out: &mut Vec<Statement>, line: u32, word: &[u8]) -> Result<(), NoMemory>
    ensures { OnOk result (out.new.items ≡ out.old.items ++ on_line line (carried word.now)) }
{
    if is(word, b"SEQNTL") || is(word, b"OFF") {
        Ok(())
    } else {
        loses(out, line, Event::All)
    }
}

// A CALL that is none of the language.
fn lose_call(out: &mut Vec<Statement>, line: u32, behind: &Phrase<'_>) -> Result<(), NoMemory>
    ensures { OnOk result (out.new.items ≡ out.old.items ++ on_line line (if is_outside behind.now then [] else lost events.All ∷ [])) }
{
    if is(first_field(behind), b"EXTERN") && is(second_field(behind), b"SYS") {
        Ok(())
    } else {
        loses(out, line, Event::All)
    }
}

// Two things are lost.
fn lose_both(
    out: &mut Vec<Statement>,
    line: u32,
    first: Event,
    second: Event,
) -> Result<(), NoMemory>
    ensures { OnOk result (out.new.items ≡ out.old.items ++ on_line line (lost first ∷ lost second ∷ [])) }
{
    loses(out, line, first)?;
    loses(out, line, second)
}

// A motion or a point by a polar place, with the event that ends it.
fn say_polar(out: &mut Vec<Statement>, line: u32, form: Form, end: Event) -> Result<(), NoMemory>
    ensures { OnOk result (out.new.items ≡ out.old.items ++ on_line line (polar_said form end)) }
{
    gains(out, line, Event::Polar)?;
    add(out, line, form)?;
    gains(out, line, end)
}

// A motion of another form.
fn say_motion(
    alloc: Global,
    out: &mut Vec<Statement>,
    line: u32,
    behind: &Phrase<'_>,
) -> Result<(), NoMemory>
    ensures { OnOk result (out.new.items ≡ out.old.items ++ on_line line (polar_or (polar_motion behind.now) events.PolarMotion (motion_otherwise (step_at behind.now) behind.now))) }
{
    if let Some(form) = polar_motion(alloc, behind)? {
        return say_polar(out, line, form, Event::PolarMotion);
    }
    if let Some(form) = step_at(alloc, behind)? {
        return add(out, line, form);
    }
    gains(out, line, Event::Untried)?;
    say_turning(out, line, behind)
}

// A point of another form.
fn say_touch(
    alloc: Global,
    out: &mut Vec<Statement>,
    line: u32,
    behind: &Phrase<'_>,
) -> Result<(), NoMemory>
    ensures { OnOk result (out.new.items ≡ out.old.items ++ on_line line (polar_or (polar_touch behind.now) events.PolarPoint (touch_otherwise (slant_at behind.now) behind.now))) }
{
    if let Some(form) = polar_touch(alloc, behind)? {
        return say_polar(out, line, form, Event::PolarPoint);
    }
    if let Some(form) = slant_at(alloc, behind)? {
        return add(out, line, form);
    }
    gains(out, line, Event::UntriedPoint)?;
    say_turning(out, line, behind)
}

// The table, where words speak of it.
fn lose_table(out: &mut Vec<Statement>, line: u32, behind: &Phrase<'_>) -> Result<(), NoMemory>
    ensures { OnOk result (out.new.items ≡ out.old.items ++ on_line line (if names_table behind.now then lost events.Table ∷ [] else [])) }
{
    if names_table(behind) {
        loses(out, line, Event::Table)
    } else {
        Ok(())
    }
}

// The sensor, where words speak of the head.
fn lose_sensor(out: &mut Vec<Statement>, line: u32, behind: &Phrase<'_>) -> Result<(), NoMemory>
    ensures { OnOk result (out.new.items ≡ out.old.items ++ on_line line (if names_head behind.now then lost events.Sensor ∷ [] else [])) }
{
    if names_head(behind) {
        loses(out, line, Event::Sensor)
    } else {
        Ok(())
    }
}

// What the words of a motion that isn't tried may do besides.
fn say_turning(out: &mut Vec<Statement>, line: u32, behind: &Phrase<'_>) -> Result<(), NoMemory>
    ensures { OnOk result (out.new.items ≡ out.old.items ++ on_line line (turning behind.now)) }
{
    lose_table(out, line, behind)?;
    lose_sensor(out, line, behind)
}

// Whether nothing stands behind a label.
fn is_lone_label(label: Option<(&[u8], Phrase<'_>)>) -> bool
    ensures { result ≡ is_lone_label (option_map (λ r. (r.0.now, r.1)) label.entry) }
{
    match label {
        Some((_, rest)) => rest.split_first().is_none(),
        None => false,
    }
}

// Whether SNSLCT has one sensor by its name alone.
fn is_plain_sensor(fields: Option<Phrase<'_>>) -> bool
    ensures { result ≡ is_plain_sensor fields.entry }
{
    match fields {
        Some(fields) => {
            is_lone_label(title_at(b"S", &fields)) || is_lone_label(title_at(b"SA", &fields))
        }
        None => false,
    }
}

// SNSLCT.
fn say_sensor(out: &mut Vec<Statement>, line: u32, behind: &Phrase<'_>) -> Result<(), NoMemory>
    ensures { OnOk result (out.new.items ≡ out.old.items ++ on_line line (sensor_said (is_plain_sensor (past marks.Slash behind.now)) line)) }
{
    if is_plain_sensor(past(Mark::Slash, behind)) {
        add(out, line, numbered(Event::Sensor, i64::from(line)))
    } else {
        loses(out, line, Event::Sensor)
    }
}

// The output of a feature, if it is one.
fn say_reported(
    out: &mut Vec<Statement>,
    line: u32,
    side: Source,
    label: Option<(&[u8], Phrase<'_>)>,
) -> Result<(), NoMemory>
    ensures { OnOk result (out.new.items ≡ out.old.items ++ on_line line (reported side (option_map (λ r. (r.0.now, r.1)) label.entry))) }
{
    match label {
        Some((name, _)) => {
            if is_name(name) {
                add(out, line, Form::Report(side, Name::new(name)))
            } else {
                Ok(())
            }
        }
        None => Ok(()),
    }
}

// OUTPUT of a feature with other words behind it.
fn say_report(out: &mut Vec<Statement>, line: u32, behind: &Phrase<'_>) -> Result<(), NoMemory>
    ensures { OnOk result (out.new.items ≡ out.old.items ++ on_line line (report_at (past marks.Slash behind.now))) }
{
    match past(Mark::Slash, behind) {
        Some(fields) => {
            say_reported(out, line, Source::Actual, title_at(b"FA", &fields))?;
            say_reported(out, line, Source::Nominal, title_at(b"F", &fields))
        }
        None => Ok(()),
    }
}

// The word behind the first field.
fn second_field<'a>(behind: &Phrase<'a>) -> &'a [u8]
    ensures { result.now ≡ word_in (second_field_at behind.now) }
{
    match second_field_at(behind) {
        Some((word, _)) => word,
        None => b"",
    }
}

// The same, and the words behind it.
fn second_field_at<'a>(behind: &Phrase<'a>) -> Option<(&'a [u8], Phrase<'a>)>
    ensures { option_map (λ r. (r.0.now, r.1)) result ≡ second_field_at behind.now }
{
    let fields = past(Mark::Slash, behind)?;
    let (_, rest) = run_at(&fields)?;
    let second = past(Mark::Comma, &rest)?;
    run_at(&second)
}

// UNITS.
fn say_units(out: &mut Vec<Statement>, line: u32, behind: &Phrase<'_>) -> Result<(), NoMemory>
    ensures { OnOk result (out.new.items ≡ out.old.items ++ on_line line (units_said behind.now)) }
{
    turns(out, line, Event::Unit, is(first_field(behind), b"MM"))?;
    turns(out, line, Event::Angle, is(second_field(behind), b"ANGDEC"))
}

// A place that is kept for later.
fn say_spot(
    alloc: Global,
    out: &mut Vec<Statement>,
    line: u32,
    spot: Spot,
    behind: &Phrase<'_>,
) -> Result<(), NoMemory>
    ensures { OnOk result (out.new.items ≡ out.old.items ++ on_line line (spotted spot (place_given behind.now) ∷ [])) }
{
    add(out, line, spotted(spot, place_given(alloc, behind)?))
}

// READ, PROMPT and the like.
fn lose_values(out: &mut Vec<Statement>, line: u32, words: &Phrase<'_>) -> Result<(), NoMemory>
    ensures { OnOk result (out.new.items ≡ out.old.items ++ on_line line (values_said (major_of words.now) words.now)) }
{
    let (major, _) = major_at(words);
    say_values(out, line, major, words)
}

// A declaration of texts.
fn say_declared(
    alloc: Global,
    out: &mut Vec<Statement>,
    line: u32,
    words: &Phrase<'_>,
) -> Result<(), NoMemory>
    ensures { OnOk result (out.new.items ≡ out.old.items ++ on_line line (texts_declared (is_some (char_at words.now)))) }
{
    if char_at(words).is_some() {
        add(out, line, Form::Declaration(Kind::Int, Items::new(alloc)))
    } else {
        Ok(())
    }
}

// A statement that is none of the language, by its row.
fn say_otherwise(
    alloc: Global,
    out: &mut Vec<Statement>,
    line: u32,
    planes: bool,
    row: Row,
    words: &Phrase<'_>,
    behind: &Phrase<'_>,
) -> Result<(), NoMemory>
    ensures { OnOk result (out.new.items ≡ out.old.items ++ on_line line (row_said planes row None line words.now behind.now)) }
{
    match row {
        Row::Shape | Row::Silent => Ok(()),
        Row::Stated => say_declared(alloc, out, line, words),
        Row::Case => say_several(alloc, out, line, words),
        Row::Datum => gains(out, line, Event::Bind),
        Row::Output => say_report(out, line, behind),
        Row::Value => lose_value(out, line, words),
        Row::Motion => say_motion(alloc, out, line, behind),
        Row::Aim => say_spot(alloc, out, line, Spot::Target, behind),
        Row::Target => gains(out, line, Event::Target),
        Row::Touch => say_touch(alloc, out, line, behind),
        Row::Scan => gains(out, line, Event::UntriedPoint),
        Row::Text => lose_text(out, line, behind),
        Row::Test => add(out, line, Form::Test(unknown())),
        Row::Loop => add(out, line, Form::Repeat(unknown_rounds())),
        Row::Choice => add(out, line, Form::Choose(unknown())),
        Row::Feature => lose_feature(alloc, out, line, planes, words, behind),
        Row::Measure => lose_measure(alloc, out, line, behind),
        Row::MeasureEnd => add(out, line, Form::MeasureEnd),
        Row::Qualification => say_qualification(out, line, behind),
        Row::Settings => say_settings(alloc, out, line, None, behind),
        Row::Frame => say_frame(alloc, out, line, words, first_field(behind)),
        Row::Recall => say_recall(out, line, behind),
        Row::Save => say_stored(out, line, behind),
        Row::Delete => say_deleted(out, line, behind),
        Row::Mode => say_mode(out, line, first_field(behind)),
        Row::Units => say_units(out, line, behind),
        Row::Scanning => turns(out, line, Event::Scanning, is(first_field(behind), b"OFF")),
        Row::Table => loses(out, line, Event::Table),
        Row::Compensation => turns(
            out,
            line,
            Event::Compensation,
            is(first_field(behind), b"ON"),
        ),
        Row::Plane => turns(out, line, Event::Plane, is(first_field(behind), b"XYPLAN")),
        Row::Sensor => say_sensor(out, line, behind),
        Row::From => say_spot(alloc, out, line, Spot::Home, behind),
        Row::Values => lose_values(out, line, words),
        Row::Features => say_remade(out, line, words),
        Row::Switch => say_switch(out, line, first_field(behind)),
        Row::Carriage => say_carriage(out, line, first_field(behind)),
        Row::Call => lose_call(out, line, behind),
        Row::Fit => say_fitted(alloc, out, line, words),
        Row::Other => loses(out, line, Event::All),
    }
}

// CASE and DFTCAS of the language.
fn say_case(out: &mut Vec<Statement>, line: u32, form: Form) -> Result<(), NoMemory>
    ensures { OnOk result (out.new.items ≡ out.old.items ++ on_line line (form ∷ gained events.CaseBegins ∷ [])) }
{
    add(out, line, form)?;
    gains(out, line, Event::CaseBegins)
}

// A statement that is one of the language, by its row.
fn say_spelled(
    alloc: Global,
    out: &mut Vec<Statement>,
    line: u32,
    planes: bool,
    row: Row,
    form: Form,
    behind: &Phrase<'_>,
) -> Result<bool, NoMemory>
    ensures said { IfOk result (λ done. done ≡ true → (ws : List Lexeme) → out.new.items ≡ out.old.items ++ on_line line (row_said planes row (Some form) line ws behind.now)) }
    ensures left { IfOk result (λ done. done ≡ false → (out.new.items ≡ out.old.items) × ((ws : List Lexeme) → row_said planes row (Some form) line ws behind.now ≡ row_said planes row None line ws behind.now)) }
{
    match row {
        Row::Call => add(out, line, form)?,
        Row::Case => say_case(out, line, form)?,
        Row::Settings => say_settings(alloc, out, line, Some(form), behind)?,
        Row::Shape | Row::Stated | Row::Output | Row::Value => add(out, line, form)?,
        Row::Motion | Row::Touch => add(out, line, form)?,
        Row::Text | Row::Test | Row::Loop | Row::Choice | Row::Feature => add(out, line, form)?,
        Row::Measure | Row::Frame | Row::Recall => add(out, line, form)?,
        _ => return Ok(false),
    }
    Ok(true)
}

// What the words of a statement spell, if they spell one of the language.
fn spelled(alloc: Global, logical: &Logical) -> Result<Option<Form>, NoMemory>
    ensures { IfOk result (λ f. f ≡ spelled_in (statement_of (words_of logical.now))) }
{
    match parse_statement(alloc, logical) {
        Ok(statement) => Ok(Some(statement.form)),
        Err(fault) => match fault.code {
            FaultCode::NoMemory => Err(NoMemory),
            _ => Ok(None),
        },
    }
}

// What a statement says.
fn say(
    alloc: Global,
    out: &mut Vec<Statement>,
    planes: bool,
    logical: &Logical,
) -> Result<(), NoMemory>
    ensures { OnOk result (out.new.items ≡ out.old.items ++ on_line logical.now.line (said planes logical.now.line (words_of logical.now))) }
{
    let line = logical.line;
    let words = Phrase::of(logical);
    let (major, behind) = major_at(&words);
    let row = row_in(&words, major);
    if let Some(form) = spelled(alloc, logical)? {
        if say_spelled(alloc, out, line, planes, row, form, &behind)? {
            return Ok(());
        }
    }
    say_otherwise(alloc, out, line, planes, row, &words, &behind)
}

// Whether words spell a point without a direction.
fn spells_undirected(alloc: Global, logical: &Logical) -> Result<bool, NoMemory>
    ensures { IfOk result (λ b. b ≡ spells_undirected (statement_of (words_of logical.now))) }
{
    match parse_statement(alloc, logical) {
        Ok(statement) => match statement.form {
            Form::Touch(_, None) => Ok(true),
            _ => Ok(false),
        },
        Err(fault) => match fault.code {
            FaultCode::NoMemory => Err(NoMemory),
            _ => Ok(false),
        },
    }
}

// Whether a statement is one.
fn is_undirected(alloc: Global, logical: &Logical) -> Result<bool, NoMemory>
    ensures { IfOk result (λ b. b ≡ is_undirected logical.now) }
{
    match row_of_statement(logical) {
        Row::Touch => spells_undirected(alloc, logical),
        _ => Ok(false),
    }
}

// Whether planes have their place and direction: where points of a text have none of their own.
fn needs_planes(alloc: Global, lines: &[Logical]) -> Result<bool, NoMemory>
    ensures { IfOk result (λ b. b ≡ needs_planes lines.now) }
{
    for logical in lines {
        if is_undirected(alloc, logical)? {
            return Ok(true);
        }
    }
    Ok(false)
}

/// What the statements of a text say, one behind the other; it begins as a program does. Those of the machine's own, from DMIS/OFF up to DMIS/ON, say nothing.
///
/// # Errors
///
/// Out of memory.
pub fn say_all(alloc: Global, lines: &[Logical]) -> Result<Vec<Statement>, NoMemory>
    ensures { IfOk result (λ ss. ss.items ≡ said_all lines.now) }
{
    let mut out = Vec::new(alloc);
    add(&mut out, 1, Form::Opening)?;
    add(&mut out, 1, Form::Measures)?;
    let planes = needs_planes(alloc, lines)?;
    let mut own = false;
    for logical in lines {
        if !own {
            say(alloc, &mut out, planes, logical)?;
        }
        own = own_behind(own, logical);
    }
    Ok(out)
}

// Whether a statement that is none of the language is refused.
fn is_shaping(alloc: Global, logical: &Logical) -> Result<bool, NoMemory>
    ensures { IfOk result (λ b. b ≡ is_shaping (row_in (words_of logical.now)) (words_of logical.now)) }
{
    match row_of_statement(logical) {
        Row::Shape => Ok(true),
        Row::Case => {
            let values = values_of(alloc, &Phrase::of(logical))?;
            Ok(values.is_none())
        }
        _ => Ok(false),
    }
}

// The fault of a statement that is none of the language.
fn fault_of(alloc: Global, logical: &Logical) -> Result<Option<SourceFault>, NoMemory>
    ensures { IfOk result (λ f. f ≡ shape_fault logical.now.line true (statement_of (words_of logical.now))) }
{
    match parse_statement(alloc, logical) {
        Ok(statement) => {
            drop(statement);
            Ok(None)
        }
        Err(fault) => match fault.code {
            FaultCode::NoMemory => Err(NoMemory),
            code => Ok(Some(SourceFault {
                code,
                line: logical.line,
            })),
        },
    }
}

// The fault of a statement that shapes the program and is none of the language.
fn shape_fault(alloc: Global, logical: &Logical) -> Result<Option<SourceFault>, NoMemory>
    ensures { IfOk result (λ f. f ≡ refused_at logical.now) }
{
    if is_shaping(alloc, logical)? {
        fault_of(alloc, logical)
    } else {
        Ok(None)
    }
}

/// The first statement that shapes the program and is none of the language, with its fault: a text that has one isn't followed.
///
/// # Errors
///
/// Out of memory.
pub fn first_refusal(alloc: Global, lines: &[Logical]) -> Result<Option<SourceFault>, NoMemory>
    ensures { IfOk result (λ f. f ≡ refused_from false lines.now) }
{
    let mut own = false;
    for logical in lines {
        if !own {
            if let Some(fault) = shape_fault(alloc, logical)? {
                return Ok(Some(fault));
            }
        }
        own = own_behind(own, logical);
    }
    Ok(None)
}
