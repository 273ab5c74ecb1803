//! Commands of the debugger that only look.

ghost use Rattle.std.specs.Prelude.{◌≡◌, ◌<◌, ◌+◌, ◌^◌, true, IfOk, IfSome};
ghost use Rattle.vcm_console.specs.Replies.{ReplyFits};
ghost use Rattle.vcm_debug.specs.Debugging.{now};
ghost use Rattle.vcm_debug.specs.Session.{Carries};
ghost use Rattle.vcm_dap.specs.Asked.{typed};
ghost use Rattle.vcm_dap.specs.inner.Looking.{is_look};

use crate::fault::DapFault;
use std::alloc::Global;
use vcm_console::{Command, Halted, Reply, parse_command};
use vcm_debug::Session;
use vcm_motion::Part;

// Whether a command only looks.
fn is_look(command: &Command) -> bool
    ensures { result ≡ is_look command.now }
{
    match command {
        Command::Where => true,
        Command::Show(_) => true,
        Command::Feat(_) => true,
        Command::List(_) => true,
        Command::Out(_) => true,
        Command::Line(_) => true,
        _ => false,
    }
}

/// What the session answers to a command that only looks.
pub(crate) fn answer_to<P: Part>(
    alloc: Global,
    session: &mut Session<'_, P>,
    command: &Command,
) -> Result<Reply, Halted>
    requires count { session.old.count + 1000000 < 2 ^ 64 }
    requires looks { is_look command.now ≡ true }
    ensures carried { Carries session.old command.now session.new result }
    ensures same { session.new ≡ session.old }
    ensures fits { IfOk result (ReplyFits session.new.code (now session.new).world.lines) }
{
    session.command(alloc, command)
}

/// What the session answers to a command that only looks; none to another one, and where it is refused.
pub(crate) fn look<P: Part>(
    alloc: Global,
    session: &mut Session<'_, P>,
    command: &Command,
) -> Option<Reply>
    requires { session.old.count + 1000000 < 2 ^ 64 }
    ensures same { session.new ≡ session.old }
    ensures fits { IfSome result (ReplyFits session.new.code (now session.new).world.lines) }
{
    if !is_look(command) {
        return None;
    }
    match answer_to(alloc, session, command) {
        Ok(Reply::Refused(_)) => None,
        Ok(reply) => Some(reply),
        Err(_) => None,
    }
}

/// The same as a text.
pub(crate) fn look_text<P: Part>(
    alloc: Global,
    session: &mut Session<'_, P>,
    command: &Command,
) -> Result<Option<Vec<u8>>, DapFault>
    requires { session.old.count + 1000000 < 2 ^ 64 }
    ensures { session.new ≡ session.old }
{
    let Some(reply) = look(alloc, session, command) else {
        return Ok(None);
    };
    let mut text = Vec::new(alloc);
    session.write_reply(&reply, &mut text)?;
    Ok(Some(text))
}

/// The command of a word, with this behind it, if it is one.
pub(crate) fn typed(alloc: Global, word: &[u8], behind: &[u8]) -> Result<Option<Command>, DapFault>
    ensures { IfOk result (λ o. o ≡ typed word.now behind.now) }
{
    let mut line = Vec::from_slice(alloc, word)?;
    line.extend_from_slice(b" ")?;
    line.extend_from_slice(behind)?;
    match parse_command(&line) {
        Ok(command) => Ok(Some(command)),
        Err(_) => Ok(None),
    }
}

/// Without the line feed at its end.
pub(crate) fn without_feed(text: &[u8]) -> &[u8] {
    match text {
        [rest @ .., b'\n'] => rest,
        _ => text,
    }
}
