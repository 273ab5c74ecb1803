//! What an expression is.

ghost use Rattle.std.specs.Prelude.{◌≡◌, ◌<◌, ◌+◌, ◌^◌};

use crate::fault::DapFault;
use crate::looking::{look, look_text, typed};
use std::alloc::Global;
use vcm_console::{Reply, parse_command, write_variable_value};
use vcm_debug::Session;
use vcm_motion::Part;
use vcm_report::write_feature_words;
use vcm_spec::Source;

// The name of a feature between letters and a parenthesis.
fn between<'e>(expression: &'e [u8], letters: &[u8]) -> Option<&'e [u8]> {
    let count = letters.len();
    if expression.len() <= count {
        return None;
    }
    let (front, behind) = expression.split_at(count);
    if !front.eq_ignore_ascii_case(letters) {
        return None;
    }
    match behind {
        [name @ .., b')'] => Some(name),
        _ => None,
    }
}

// The value of the variable of this name.
fn variable_value<P: Part>(
    alloc: Global,
    session: &mut Session<'_, P>,
    name: &[u8],
) -> Result<Option<Vec<u8>>, DapFault>
    requires { session.old.count + 1000000 < 2 ^ 64 }
    ensures { session.new ≡ session.old }
{
    let Some(command) = typed(alloc, b"show", name)? else {
        return Ok(None);
    };
    let Some(Reply::Value(v, value)) = look(alloc, session, &command) else {
        return Ok(None);
    };
    let mut text = Vec::new(alloc);
    write_variable_value(session.world().tables(), v, value, &mut text)?;
    Ok(Some(text))
}

// Both lines of the feature of this name.
fn feature_lines<P: Part>(
    alloc: Global,
    session: &mut Session<'_, P>,
    name: &[u8],
) -> Result<Option<Vec<u8>>, DapFault>
    requires { session.old.count + 1000000 < 2 ^ 64 }
    ensures { session.new ≡ session.old }
{
    match typed(alloc, b"feat", name)? {
        Some(command) => look_text(alloc, session, &command),
        None => Ok(None),
    }
}

// What stands behind the name of the feature of this name, from one source.
fn feature_value<P: Part>(
    alloc: Global,
    session: &mut Session<'_, P>,
    source: Source,
    name: &[u8],
) -> Result<Option<Vec<u8>>, DapFault>
    requires { session.old.count + 1000000 < 2 ^ 64 }
    ensures { session.new ≡ session.old }
{
    let Some(command) = typed(alloc, b"feat", name)? else {
        return Ok(None);
    };
    let Some(Reply::Features(f, nominal, actual)) = look(alloc, session, &command) else {
        return Ok(None);
    };
    let feature = match source {
        Source::Nominal => nominal,
        Source::Actual => actual,
    };
    let mut text = Vec::new(alloc);
    write_feature_words(session.world().tables(), source, f, feature, &mut text)?;
    // the letters, the name, a parenthesis and an equals sign or a blank
    let behind = source
        .letters()
        .len()
        .saturating_add(name.len())
        .saturating_add(2);
    let (_, value) = text.split_at(behind.min(text.len()));
    Ok(Some(Vec::from_slice(alloc, value)?))
}

// What `FA(P1)` or `F(P1)` is.
fn feature_of<P: Part>(
    alloc: Global,
    session: &mut Session<'_, P>,
    expression: &[u8],
) -> Result<Option<Vec<u8>>, DapFault>
    requires { session.old.count + 1000000 < 2 ^ 64 }
    ensures { session.new ≡ session.old }
{
    for source in [Source::Actual, Source::Nominal] {
        if let Some(name) = between(expression, source.letters()) {
            if let Some(text) = feature_value(alloc, session, source, name)? {
                return Ok(Some(text));
            }
        }
    }
    Ok(None)
}

// The text of what a command of the debugger answers.
fn command_text<P: Part>(
    alloc: Global,
    session: &mut Session<'_, P>,
    line: &[u8],
) -> Result<Option<Vec<u8>>, DapFault>
    requires { session.old.count + 1000000 < 2 ^ 64 }
    ensures { session.new ≡ session.old }
{
    match parse_command(line) {
        Ok(command) => look_text(alloc, session, &command),
        Err(_) => Ok(None),
    }
}

/// What an expression is, as a text: the first that it is of a variable, a feature, one of its sources, and a command of the debugger that only looks.
pub(crate) fn value_of<P: Part>(
    alloc: Global,
    session: &mut Session<'_, P>,
    expression: &[u8],
) -> Result<Option<Vec<u8>>, DapFault>
    requires { session.old.count + 1000000 < 2 ^ 64 }
    ensures { session.new ≡ session.old }
{
    if let Some(text) = variable_value(alloc, session, expression)? {
        return Ok(Some(text));
    }
    if let Some(text) = feature_lines(alloc, session, expression)? {
        return Ok(Some(text));
    }
    if let Some(text) = feature_of(alloc, session, expression)? {
        return Ok(Some(text));
    }
    command_text(alloc, session, expression)
}
