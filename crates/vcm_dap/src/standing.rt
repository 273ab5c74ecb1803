//! What is told where a motion has come to its end.

ghost use Rattle.std.specs.Prelude.{◌≡◌, IfOk};
ghost use Rattle.vcm_dap.specs.inner.Growing.{Grown};
ghost use Rattle.vcm_debug.specs.Debugging.{Debugging};
ghost use Rattle.vcm_dap.specs.Telling.{IsResult, SaysBehind};

use crate::asking::Motion;
use crate::fault::DapFault;
use crate::looking::without_feed;
use crate::output::tell_placed;
use crate::settings::Settings;
use crate::showing::{
    behind_stop, no_stop_text, position_text, steps_text, stop_line, untried_here,
};
use crate::talk::Talk;
use std::alloc::Global;
use std::io::Write;
use vcm_console::{Halted, Reason, Reply, write_variable, write_variable_value};
use vcm_debug::Session;
use vcm_motion::Part;
use vcm_spec::{Stop, StopPlace};
use vcm_wire::Message;

/// Why it stands still.
#[derive(Clone, Copy)]
pub(crate) enum Why {
    Entry,
    Step,
    /// Nothing was done.
    Still,
    NoMemory,
    Ran(Reason),
}

/// What comes behind a motion.
#[derive(Clone, Copy)]
pub(crate) enum Then {
    /// It stands still.
    Stands(Why),
    /// It ran to the end.
    Result,
    /// The session ends.
    Ends,
}

// What comes behind a motion that did nothing.
fn then_unmoved<P: Part>(
    motion: Motion,
    session: &Session<'_, P>,
    settings: &Settings<'_>,
) -> Then {
    match motion {
        Motion::StepOut => Then::Stands(Why::Still),
        Motion::Pause => Then::Stands(Why::Still),
        Motion::StepBack => Then::Stands(Why::Entry),
        Motion::Begin if settings.stop_on_entry => Then::Stands(Why::Entry),
        Motion::Begin if session.is_at_breakpoint() => Then::Stands(Why::Ran(Reason::Break)),
        _ => Then::Ends,
    }
}

// What comes behind a motion that the debugger answered so.
fn then_moved<P: Part>(
    motion: Motion,
    session: &Session<'_, P>,
    settings: &Settings<'_>,
    reply: Reply,
) -> Then {
    if let Reply::Ran(why, _) = reply {
        return Then::Stands(Why::Ran(why));
    }
    match motion {
        Motion::Begin if settings.no_debug => Then::Result,
        Motion::Reverse if session.is_at_breakpoint() => Then::Stands(Why::Ran(Reason::Break)),
        Motion::Reverse => Then::Stands(Why::Entry),
        _ => Then::Stands(Why::Step),
    }
}

/// What comes behind a motion.
pub(crate) fn then_of<P: Part>(
    motion: Motion,
    session: &Session<'_, P>,
    settings: &Settings<'_>,
    came: Result<Option<Reply>, Halted>,
) -> Then {
    match came {
        Err(_) => Then::Stands(Why::NoMemory),
        Ok(None) => then_unmoved(motion, session, settings),
        Ok(Some(reply)) => then_moved(motion, session, settings, reply),
    }
}

// Whether nothing was done.
fn is_still(why: Why) -> bool {
    match why {
        Why::Still => true,
        _ => false,
    }
}

// Whether memory was refused.
fn is_short(why: Why) -> bool {
    match why {
        Why::NoMemory => true,
        _ => false,
    }
}

// The words of the stop, behind `stop ` and up to the place.
fn stop_words(text: &[u8]) -> &[u8] {
    let words = behind_stop(text);
    match memchr::memmem::find(words, b" at ") {
        Some(end) => words.split_at(end.min(words.len())).0,
        None => words,
    }
}

// Puts that all of it stands still.
fn put_still(message: &mut Message) -> Result<(), DapFault>
    ensures { IfOk result (λ u. Grown message.old message.new) }
{
    message.number("threadId", 1)?;
    message.flag("allThreadsStopped", true)?;
    Ok(())
}

// Puts a stop, whose line this is.
fn put_stop(is_end: bool, line: &[u8], message: &mut Message) -> Result<(), DapFault>
    ensures { IfOk result (λ u. Grown message.old message.new) }
{
    let text = without_feed(line);
    message.text("reason", if is_end { "end" } else { "exception" })?;
    message.bytes("description", stop_words(text))?;
    message.bytes("text", text)?;
    put_still(message)
}

// Tells that it stands still at a stop, whose line this is.
fn tell_stopped<W: Write>(talk: &mut Talk<W>, is_end: bool, line: &[u8]) -> Result<(), DapFault>
    ensures { (d : Debugging) → IfOk result (λ u. SaysBehind d talk.old talk.new) }
{
    let mut message = talk.event("stopped")?;
    let put = put_stop(is_end, line, &mut message);
    talk.send_put(message, put)
}

// Tells of a stop, whose line this is. The line is told as it was printed, but where nothing was done.
fn stand_stopped<W: Write>(
    talk: &mut Talk<W>,
    settings: &Settings<'_>,
    why: Why,
    place: StopPlace,
    line: &[u8],
) -> Result<(), DapFault>
    ensures { (d : Debugging) → IsResult d line.now → IfOk result (λ u. SaysBehind d talk.old talk.new) }
{
    let is_end = place.stop == Stop::Ended;
    if is_still(why) {
        return tell_stopped(talk, is_end, line);
    }
    let category = if is_end { "stdout" } else { "stderr" };
    tell_placed(talk, settings, category, line, place.line)?;
    tell_stopped(talk, is_end, line)
}

// Puts which variable has changed.
fn put_change<P: Part>(
    alloc: Global,
    session: &Session<'_, P>,
    v: u16,
    message: &mut Message,
) -> Result<(), DapFault>
    ensures { IfOk result (λ u. Grown message.old message.new) }
{
    let world = session.world();
    let mut text = Vec::new(alloc);
    write_variable(world.tables(), v, &mut text)?;
    message.text("reason", "data breakpoint")?;
    message.bytes("description", &text)?;
    text.extend_from_slice(b" is ")?;
    if let Some(value) = world.variables().get(usize::from(v)) {
        write_variable_value(world.tables(), v, *value, &mut text)?;
    }
    message.bytes("text", &text)?;
    Ok(())
}

// Puts that it stands still without any reason of its own.
fn put_pause(message: &mut Message, description: &str) -> Result<(), DapFault>
    ensures { IfOk result (λ u. Grown message.old message.new) }
{
    message.text("reason", "pause")?;
    message.text("description", description)?;
    Ok(())
}

// Puts a reason that is one word, and what isn't tried where it stands, if there is something.
fn put_reason(message: &mut Message, reason: &str, untried: Option<&[u8]>) -> Result<(), DapFault>
    ensures { IfOk result (λ u. Grown message.old message.new) }
{
    message.text("reason", reason)?;
    match untried {
        Some(words) => message.bytes("description", words)?,
        None => {}
    }
    Ok(())
}

// Puts why it stands still.
fn put_why<P: Part>(
    alloc: Global,
    session: &Session<'_, P>,
    settings: &Settings<'_>,
    why: Why,
    message: &mut Message,
) -> Result<(), DapFault>
    ensures { IfOk result (λ u. Grown message.old message.new) }
{
    let untried = untried_here(session, settings);
    match why {
        Why::Entry => put_reason(message, "entry", untried),
        Why::Step => put_reason(message, "step", untried),
        Why::Still => put_reason(message, "pause", untried),
        Why::NoMemory => put_pause(message, "no memory"),
        Why::Ran(Reason::Break) => put_reason(message, "breakpoint", untried),
        Why::Ran(Reason::Watch(v)) => put_change(alloc, session, v, message),
        Why::Ran(_) => put_pause(message, "as many steps were taken as may be"),
    }
}

// Puts that it stands still, and why.
fn put_standing<P: Part>(
    alloc: Global,
    session: &Session<'_, P>,
    settings: &Settings<'_>,
    why: Why,
    message: &mut Message,
) -> Result<(), DapFault>
    ensures { IfOk result (λ u. Grown message.old message.new) }
{
    put_why(alloc, session, settings, why, message)?;
    put_still(message)
}

// Tells that it stands still where there is no stop, and why.
fn stand_still<P: Part, W: Write>(
    talk: &mut Talk<W>,
    session: &Session<'_, P>,
    settings: &Settings<'_>,
    why: Why,
) -> Result<(), DapFault>
    ensures { (d : Debugging) → IfOk result (λ u. SaysBehind d talk.old talk.new) }
{
    let mut message = talk.event("stopped")?;
    let put = put_standing(talk.alloc(), session, settings, why, &mut message);
    talk.send_put(message, put)
}

/// Tells that it stands still, and why: a stop of the machine before any other reason but want of memory.
pub(crate) fn stand<P: Part, W: Write>(
    talk: &mut Talk<W>,
    session: &Session<'_, P>,
    settings: &Settings<'_>,
    why: Why,
) -> Result<(), DapFault>
    ensures { IfOk result (λ u. SaysBehind session.now talk.old talk.new) }
{
    if is_short(why) {
        return stand_still(talk, session, settings, why);
    }
    if let Some(place) = session.world().stop() {
        if let Some(line) = stop_line(talk.alloc(), session)? {
            return stand_stopped(talk, settings, why, place, &line);
        }
    }
    stand_still(talk, session, settings, why)
}

// The exit status of a run that comes to its end.
fn status_at_end(settings: &Settings<'_>) -> u8 {
    match &settings.whole {
        Some(whole) => whole.status,
        None => 0,
    }
}

// The exit status of a run: 0 at its end, or that of a producer's text; 3 at another stop, 4 at none.
fn status_of(settings: &Settings<'_>, stop: Option<StopPlace>) -> u8 {
    match stop {
        None => 4,
        Some(place) if place.stop == Stop::Ended => status_at_end(settings),
        Some(_) => 3,
    }
}

// Puts the status of the run.
fn put_status(status: u8, message: &mut Message) -> Result<(), DapFault>
    ensures { IfOk result (λ u. Grown message.old message.new) }
{
    message.number("exitCode", u64::from(status))?;
    Ok(())
}

// Tells the status of the run.
fn tell_exit<W: Write>(talk: &mut Talk<W>, status: u8) -> Result<(), DapFault>
    ensures { (d : Debugging) → IfOk result (λ u. SaysBehind d talk.old talk.new) }
{
    let mut message = talk.event("exited")?;
    let put = put_status(status, &mut message);
    talk.send_put(message, put)
}

/// Tells that the session ends, with the status of the run.
pub(crate) fn finish<P: Part, W: Write>(
    talk: &mut Talk<W>,
    session: &Session<'_, P>,
    settings: &Settings<'_>,
) -> Result<(), DapFault>
    ensures { IfOk result (λ u. SaysBehind session.now talk.old talk.new) }
{
    tell_exit(talk, status_of(settings, session.world().stop()))?;
    talk.tell("terminated")
}

// Tells that there is no stop.
fn tell_no_stop<P: Part, W: Write>(
    talk: &mut Talk<W>,
    session: &Session<'_, P>,
) -> Result<(), DapFault>
    ensures { IfOk result (λ u. SaysBehind session.now talk.old talk.new) }
{
    let text = no_stop_text(talk.alloc(), session.standing().steps)?;
    talk.tell_text("stdout", &text)
}

// Tells the stop of a run that came to its end, or that there is none.
fn tell_end<P: Part, W: Write>(
    talk: &mut Talk<W>,
    session: &Session<'_, P>,
    settings: &Settings<'_>,
) -> Result<(), DapFault>
    ensures { IfOk result (λ u. SaysBehind session.now talk.old talk.new) }
{
    if let Some(place) = session.world().stop() {
        if let Some(line) = stop_line(talk.alloc(), session)? {
            return tell_placed(talk, settings, "stdout", &line, place.line);
        }
    }
    tell_no_stop(talk, session)
}

// Tells where the probe is.
fn tell_position<P: Part, W: Write>(
    talk: &mut Talk<W>,
    session: &Session<'_, P>,
) -> Result<(), DapFault>
    ensures { IfOk result (λ u. SaysBehind session.now talk.old talk.new) }
{
    let text = position_text(talk.alloc(), session.world().position())?;
    talk.tell_text("stdout", &text)
}

// Tells how many steps were taken.
fn tell_steps<P: Part, W: Write>(
    talk: &mut Talk<W>,
    session: &Session<'_, P>,
) -> Result<(), DapFault>
    ensures { IfOk result (λ u. SaysBehind session.now talk.old talk.new) }
{
    let text = steps_text(talk.alloc(), session.standing().steps)?;
    talk.tell_text("stdout", &text)
}

/// Tells the result of a run to the end, as `vcm run` prints it.
pub(crate) fn tell_result<P: Part, W: Write>(
    talk: &mut Talk<W>,
    session: &Session<'_, P>,
    settings: &Settings<'_>,
) -> Result<(), DapFault>
    ensures { IfOk result (λ u. SaysBehind session.now talk.old talk.new) }
{
    tell_end(talk, session, settings)?;
    tell_position(talk, session)?;
    tell_steps(talk, session)
}
