//! The answers that only show where the session stands. Each tells whether the request wasn't refused.

ghost use Rattle.std.specs.Prelude.{◌≡◌, ◌<◌, ◌+◌, ◌^◌, length, IfOk};
ghost use Rattle.vcm_dap.specs.Telling.{SaysSome};

use crate::evaluating::value_of;
use crate::fault::DapFault;
use crate::looking::without_feed;
use crate::output::put_place;
use crate::rows::{put_features, put_machine, put_variables};
use crate::settings::Settings;
use crate::showing::stop_line;
use crate::talk::Talk;
use json::Value;
use std::alloc::Global;
use std::io::Write;
use vcm_console::Reply;
use vcm_debug::Session;
use vcm_motion::Part;
use vcm_wire::{Message, Request};

/// The most bytes of the name of a frame.
const LONGEST_NAME: usize = 200;

// The listing line of a statement.
fn listed<P: Part>(
    alloc: Global,
    session: &Session<'_, P>,
    number: u32,
) -> Result<Vec<u8>, DapFault>
    requires { number < length session.now.code.statements }
{
    let mut text = Vec::new(alloc);
    session.write_reply(&Reply::Listed(number), &mut text)?;
    Ok(text)
}

// Puts the source line of a frame and a column; both are 0 where there is no text to show.
fn put_line<W: Write>(
    talk: &Talk<W>,
    settings: &Settings<'_>,
    line: u32,
    message: &mut Message,
) -> Result<(), DapFault> {
    if settings.source.is_none() {
        message.number("line", 0)?;
        message.number("column", 0)?;
        return Ok(());
    }
    put_place(talk, settings, line, message)?;
    message.number("column", talk.column())?;
    Ok(())
}

// Puts the one frame: the next statement, or the one that stopped.
fn put_frame<P: Part, W: Write>(
    talk: &Talk<W>,
    session: &Session<'_, P>,
    settings: &Settings<'_>,
    message: &mut Message,
) -> Result<(), DapFault> {
    let standing = session.standing();
    let number = match standing.stop {
        Some(place) => place.number,
        None => standing.next,
    };
    message.begin_item()?;
    message.number("id", 1)?;
    if (number as usize) < session.loaded().statement_count() {
        let text = listed(talk.alloc(), session, number)?;
        let text = without_feed(&text);
        message.bytes("name", text.split_at(text.len().min(LONGEST_NAME)).0)?;
        put_line(
            talk,
            settings,
            session.loaded().line(number as usize),
            message,
        )?;
    }
    message.end()?;
    Ok(())
}

// Puts the frames from one on; there is only the first.
fn put_frames<P: Part, W: Write>(
    talk: &Talk<W>,
    session: &Session<'_, P>,
    settings: &Settings<'_>,
    first: u64,
    message: &mut Message,
) -> Result<(), DapFault> {
    message.begin_list("stackFrames")?;
    if first == 0 {
        put_frame(talk, session, settings, message)?;
    }
    message.end_list()?;
    message.number("totalFrames", 1)?;
    Ok(())
}

/// Shows where it stands.
pub(crate) fn stack_trace<P: Part, W: Write>(
    talk: &mut Talk<W>,
    session: &Session<'_, P>,
    settings: &Settings<'_>,
    request: &Request<'_, '_>,
) -> Result<(), DapFault>
    ensures { IfOk result (λ u. SaysSome talk.old talk.new) }
{
    let first = request.argument("startFrame").and_then(Value::as_u64);
    let mut message = talk.answer(request)?;
    let put = put_frames(talk, session, settings, first.unwrap_or(0), &mut message);
    talk.send_put(message, put)
}

// Puts a scope: a list of rows that can be asked for by this number.
fn put_scope(message: &mut Message, name: &str, reference: u64) -> Result<(), DapFault> {
    message.begin_item()?;
    message.text("name", name)?;
    message.number("variablesReference", reference)?;
    message.flag("expensive", false)?;
    message.end()?;
    Ok(())
}

// Puts the lists of rows.
fn put_scopes(message: &mut Message) -> Result<(), DapFault> {
    message.begin_list("scopes")?;
    put_scope(message, "Variables", 1)?;
    put_scope(message, "Machine", 2)?;
    put_scope(message, "Features", 3)?;
    message.end_list()?;
    Ok(())
}

/// Names the lists of rows.
pub(crate) fn scopes<W: Write>(
    talk: &mut Talk<W>,
    request: &Request<'_, '_>,
) -> Result<(), DapFault>
    ensures { IfOk result (λ u. SaysSome talk.old talk.new) }
{
    let mut message = talk.answer(request)?;
    let put = put_scopes(&mut message);
    talk.send_put(message, put)
}

// Puts the rows of this number.
fn put_rows<P: Part>(
    alloc: Global,
    session: &Session<'_, P>,
    settings: &Settings<'_>,
    reference: u64,
    message: &mut Message,
) -> Result<(), DapFault> {
    message.begin_list("variables")?;
    match reference {
        1 => put_variables(alloc, session.world(), message)?,
        2 => put_machine(alloc, session, settings, message)?,
        _ => put_features(alloc, session.world(), message)?,
    }
    message.end_list()?;
    Ok(())
}

/// Shows rows.
pub(crate) fn variables<P: Part, W: Write>(
    talk: &mut Talk<W>,
    session: &Session<'_, P>,
    settings: &Settings<'_>,
    request: &Request<'_, '_>,
) -> Result<bool, DapFault>
    ensures { IfOk result (λ is. SaysSome talk.old talk.new) }
{
    let reference = request
        .argument("variablesReference")
        .and_then(Value::as_u64)
        .unwrap_or(0);
    if reference == 0 || reference > 3 {
        talk.refuse(request, "no such variables")?;
        return Ok(false);
    }
    let mut message = talk.answer(request)?;
    let put = put_rows(talk.alloc(), session, settings, reference, &mut message);
    talk.send_put(message, put)?;
    Ok(true)
}

// Puts what an expression is.
fn put_result(text: &[u8], message: &mut Message) -> Result<(), DapFault> {
    message.bytes("result", without_feed(text))?;
    message.number("variablesReference", 0)?;
    Ok(())
}

// Answers what an expression is.
fn answer_value<W: Write>(
    talk: &mut Talk<W>,
    request: &Request<'_, '_>,
    text: &[u8],
) -> Result<(), DapFault>
    ensures { IfOk result (λ u. SaysSome talk.old talk.new) }
{
    let mut message = talk.answer(request)?;
    let put = put_result(text, &mut message);
    talk.send_put(message, put)
}

/// Tells what an expression is.
pub(crate) fn evaluate<P: Part, W: Write>(
    talk: &mut Talk<W>,
    session: &mut Session<'_, P>,
    request: &Request<'_, '_>,
) -> Result<bool, DapFault>
    requires { session.old.count + 1000000 < 2 ^ 64 }
    ensures same { session.new ≡ session.old }
    ensures says { IfOk result (λ is. SaysSome talk.old talk.new) }
{
    let Some(expression) = request.argument("expression").and_then(Value::as_str) else {
        talk.refuse(request, "evaluate wants expression")?;
        return Ok(false);
    };
    let Some(text) = value_of(talk.alloc(), session, expression.trim().as_bytes())? else {
        talk.refuse(request, "no variable, feature or command of this form")?;
        return Ok(false);
    };
    answer_value(talk, request, &text)?;
    Ok(true)
}

// The word of a stop, in its line.
fn stop_word(line: &[u8]) -> &[u8] {
    match line.split(|byte| *byte == b' ').nth(1) {
        Some(word) => word,
        None => line,
    }
}

// Puts what stopped the machine.
fn put_exception(line: &[u8], message: &mut Message) -> Result<(), DapFault> {
    let text = without_feed(line);
    message.bytes("exceptionId", stop_word(text))?;
    message.bytes("description", text)?;
    message.text("breakMode", "always")?;
    Ok(())
}

// Answers what stopped the machine.
fn answer_exception<W: Write>(
    talk: &mut Talk<W>,
    request: &Request<'_, '_>,
    line: &[u8],
) -> Result<(), DapFault>
    ensures { IfOk result (λ u. SaysSome talk.old talk.new) }
{
    let mut message = talk.answer(request)?;
    let put = put_exception(line, &mut message);
    talk.send_put(message, put)
}

/// Tells what stopped the machine.
pub(crate) fn exception_info<P: Part, W: Write>(
    talk: &mut Talk<W>,
    session: &Session<'_, P>,
    request: &Request<'_, '_>,
) -> Result<bool, DapFault>
    ensures { IfOk result (λ is. SaysSome talk.old talk.new) }
{
    let Some(line) = stop_line(talk.alloc(), session)? else {
        talk.refuse(request, "the machine has not stopped")?;
        return Ok(false);
    };
    answer_exception(talk, request, &line)?;
    Ok(true)
}
