//! The rows that an editor shows of where a session stands.

use crate::fault::DapFault;
use crate::looking::without_feed;
use crate::settings::Settings;
use crate::showing::{behind_stop, point_text, stop_line};
use std::alloc::Global;
use vcm_console::{write_variable, write_variable_value};
use vcm_debug::Session;
use vcm_frame::Frame;
use vcm_motion::Part;
use vcm_num::{Axis, Kind, Point, thousandths_text};
use vcm_over::{FIRST_IMPLICIT, known_here};
use vcm_report::write_feature_words;
use vcm_spec::Source;
use vcm_state::World;
use vcm_wire::Message;

// An axis with its sign.
fn axis_text(axis: Axis) -> &'static [u8] {
    match axis {
        Axis::PlusX => b"+X",
        Axis::MinusX => b"-X",
        Axis::PlusY => b"+Y",
        Axis::MinusY => b"-Y",
        Axis::PlusZ => b"+Z",
        Axis::MinusZ => b"-Z",
    }
}

// The word of DMIS for a kind.
fn kind_text(kind: Kind) -> &'static str {
    match kind {
        Kind::Int => "INTGR",
        Kind::Real => "REAL",
        Kind::Bool => "BOOL",
    }
}

// A row that has a name and a value.
fn put_row(message: &mut Message, name: &str, value: &[u8]) -> Result<(), DapFault> {
    message.begin_item()?;
    message.text("name", name)?;
    message.bytes("value", value)?;
    message.number("variablesReference", 0)?;
    message.end()?;
    Ok(())
}

// A row that can be asked for by its name.
fn put_named(message: &mut Message, name: &[u8], value: &[u8], kind: &str) -> Result<(), DapFault> {
    message.begin_item()?;
    message.bytes("name", name)?;
    message.bytes("value", value)?;
    message.number("variablesReference", 0)?;
    message.text("type", kind)?;
    message.bytes("evaluateName", name)?;
    message.end()?;
    Ok(())
}

// The row of a variable, if there is one of this index.
fn put_variable(
    alloc: Global,
    world: &World,
    index: u16,
    message: &mut Message,
) -> Result<(), DapFault> {
    let tables = world.tables();
    let Some(variable) = tables.variables().get(usize::from(index)) else {
        return Ok(());
    };
    let Some(value) = world.variables().get(usize::from(index)) else {
        return Ok(());
    };
    let mut name = Vec::new(alloc);
    write_variable(tables, index, &mut name)?;
    let mut text = Vec::new(alloc);
    write_variable_value(tables, index, *value, &mut text)?;
    put_named(message, &name, &text, kind_text(variable.kind()))
}

// Whether a variable carries what is known.
fn is_implicit(world: &World, index: u16) -> bool {
    match world.tables().variables().get(usize::from(index)) {
        Some(variable) => variable.expansion() >= FIRST_IMPLICIT,
        None => false,
    }
}

/// A row for each variable, but those that carry what is known.
pub(crate) fn put_variables(
    alloc: Global,
    world: &World,
    message: &mut Message,
) -> Result<(), DapFault> {
    for i in 0..world.tables().variables().len() {
        if let Ok(index) = u16::try_from(i) {
            if !is_implicit(world, index) {
                put_variable(alloc, world, index, message)?;
            }
        }
    }
    Ok(())
}

// The row of a feature, from one source, if there is one of this index.
fn put_feature(
    alloc: Global,
    world: &World,
    source: Source,
    index: u16,
    message: &mut Message,
) -> Result<(), DapFault> {
    let tables = world.tables();
    let features = match source {
        Source::Nominal => world.nominal(),
        Source::Actual => world.actual(),
    };
    let Some(label) = tables.features().get(usize::from(index)) else {
        return Ok(());
    };
    let Some(feature) = features.get(usize::from(index)) else {
        return Ok(());
    };
    let mut name = Vec::from_slice(alloc, source.letters())?;
    name.extend_from_slice(label.as_bytes())?;
    name.extend_from_slice(b")")?;
    let mut text = Vec::new(alloc);
    write_feature_words(tables, source, index, *feature, &mut text)?;
    let behind = name.len().saturating_add(1).min(text.len());
    put_named(message, &name, text.split_at(behind).1, "POINT")
}

/// Two rows for each feature.
pub(crate) fn put_features(
    alloc: Global,
    world: &World,
    message: &mut Message,
) -> Result<(), DapFault> {
    for i in 0..world.tables().features().len() {
        if let Ok(index) = u16::try_from(i) {
            put_feature(alloc, world, Source::Nominal, index, message)?;
            put_feature(alloc, world, Source::Actual, index, message)?;
        }
    }
    Ok(())
}

// The rows of the frame.
fn put_frame(alloc: Global, frame: Frame, message: &mut Message) -> Result<(), DapFault> {
    if let Ok(origin) = frame.apply(Point([0, 0, 0])) {
        put_row(message, "frame origin", &point_text(alloc, origin)?)?;
    }
    let mut turn = Vec::from_slice(alloc, axis_text(frame.direction(Axis::PlusX)))?;
    turn.extend_from_slice(b" ")?;
    turn.extend_from_slice(axis_text(frame.direction(Axis::PlusY)))?;
    turn.extend_from_slice(b" ")?;
    turn.extend_from_slice(axis_text(frame.direction(Axis::PlusZ)))?;
    put_row(message, "frame turn", &turn)
}

// The row of a length in micrometres.
fn put_length(message: &mut Message, name: &str, length: u32) -> Result<(), DapFault> {
    put_row(
        message,
        name,
        thousandths_text(i64::from(length)).as_slice(),
    )
}

// The rows of the settings of touching.
fn put_settings(world: &World, message: &mut Message) -> Result<(), DapFault> {
    let settings = world.settings();
    put_length(message, "APPRCH", settings.approach())?;
    put_length(message, "RETRCT", settings.retract())?;
    put_length(message, "SEARCH", settings.search())?;
    put_length(message, "DEPTH", settings.depth())
}

// The row of a number.
fn put_number(message: &mut Message, name: &str, number: u64) -> Result<(), DapFault> {
    let mut digits = itoa::Buffer::new();
    put_row(message, name, digits.format(number).as_bytes())
}

// The row of the stop.
fn put_stop<P: Part>(
    alloc: Global,
    session: &Session<'_, P>,
    message: &mut Message,
) -> Result<(), DapFault> {
    match stop_line(alloc, session)? {
        Some(text) => put_row(message, "stop", behind_stop(without_feed(&text))),
        None => put_row(message, "stop", b"none"),
    }
}

// The row of what is known, of a producer's text.
fn put_known<P: Part>(
    alloc: Global,
    session: &Session<'_, P>,
    settings: &Settings<'_>,
    message: &mut Message,
) -> Result<(), DapFault> {
    if settings.whole.is_none() {
        return Ok(());
    }
    let text = known_here(alloc, session)?;
    put_row(message, "known", &text)
}

/// The rows of the machine.
pub(crate) fn put_machine<P: Part>(
    alloc: Global,
    session: &Session<'_, P>,
    settings: &Settings<'_>,
    message: &mut Message,
) -> Result<(), DapFault> {
    let world = session.world();
    let standing = session.standing();
    put_number(message, "steps", standing.steps)?;
    put_number(message, "next statement", u64::from(standing.next))?;
    put_row(message, "position", &point_text(alloc, world.position())?)?;
    put_length(message, "tip", settings.tip)?;
    put_frame(alloc, world.frame(), message)?;
    put_settings(world, message)?;
    put_number(message, "output lines", world.lines().len() as u64)?;
    put_stop(alloc, session, message)?;
    put_known(alloc, session, settings, message)
}
