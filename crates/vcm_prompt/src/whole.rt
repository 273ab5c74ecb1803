//! Sessions on producers' texts: two words more, `over` and `known`.

ghost use Rattle.std.specs.Prelude.{◌<◌, ◌^◌};

use crate::answering::{MOST_STEPS, exchanged, write_stands};
use crate::talking::Prompts;
use crate::words::{cut_word, joined};
use std::alloc::Global;
use std::io::Write;
use vcm_debug::{Command, CommandRefusal, Reply, Session, parse_command};
use vcm_motion::Part;
use vcm_num::{NoMemory, WriteFault, is, write_all};
use vcm_over::{known_here, over};

/// What a line asks for beside the debugger's words.
enum Asked {
    /// Steps to another source line, so many times.
    Over(u32),
    /// What is known.
    Known,
    /// The line is refused.
    Refused(CommandRefusal),
}

// What a line asks for that the debugger refuses so.
fn refused(reply: Reply) -> Asked {
    match reply {
        Reply::Refused(refusal) => Asked::Refused(refusal),
        _ => Asked::Refused(CommandRefusal::UnknownCommand),
    }
}

// What `over` with these words behind it asks for: it takes what `step` does.
fn over_asked(alloc: Global, behind: &[u8]) -> Result<Asked, NoMemory> {
    let line = joined(alloc, b"step", behind)?;
    Ok(match parse_command(&line) {
        Ok(Command::Step(count)) => Asked::Over(count.get()),
        Ok(_) => Asked::Refused(CommandRefusal::UnknownCommand),
        Err(reply) => refused(reply),
    })
}

// What `known` with these words behind it asks for: it takes none.
fn known_asked(alloc: Global, behind: &[u8]) -> Result<Asked, NoMemory> {
    let line = joined(alloc, b"where", behind)?;
    Ok(match parse_command(&line) {
        Ok(_) => Asked::Known,
        Err(reply) => refused(reply),
    })
}

// What a line asks for beside the debugger's words, if it begins with a word of its own.
fn asked_of(alloc: Global, line: &[u8]) -> Result<Option<Asked>, NoMemory> {
    let (word, behind) = cut_word(line);
    if is(word, b"over") {
        return Ok(Some(over_asked(alloc, behind)?));
    }
    if is(word, b"known") {
        Ok(Some(known_asked(alloc, behind)?))
    } else {
        Ok(None)
    }
}

// Writes what is known where a session stands.
fn write_known<P: Part, W: Write>(
    alloc: Global,
    session: &Session<'_, P>,
    writer: &mut W,
) -> Result<(), WriteFault> {
    match known_here(alloc, session) {
        Ok(text) => {
            write_all(writer, &text)?;
            write_all(writer, b"\n")
        }
        Err(_) => write_all(writer, b"no memory\n"),
    }
}

// Steps to another source line, so many times, and writes where the session stands.
fn write_over<P: Part, W: Write, E: Prompts>(
    alloc: Global,
    session: &mut Session<'_, P>,
    lines: u32,
    writer: &mut W,
    prompts: &E,
) -> Result<Option<Reply>, WriteFault>
    requires { session.old.count < 2 ^ 63 }
{
    match over(alloc, session, lines) {
        Ok(()) => {
            let reply = write_stands(session, writer, prompts)?;
            Ok(Some(reply))
        }
        Err(_) => {
            session.write_halted(writer)?;
            Ok(None)
        }
    }
}

// Answers what is asked for beside the debugger's words, and gives the reply that says where the session stands, if there is one.
fn answer_asked<P: Part, W: Write, E: Prompts>(
    alloc: Global,
    session: &mut Session<'_, P>,
    asked: Asked,
    writer: &mut W,
    prompts: &E,
) -> Result<Option<Reply>, WriteFault>
    requires { session.old.count < 2 ^ 63 }
{
    match asked {
        Asked::Over(lines) => write_over(alloc, session, lines, writer, prompts),
        Asked::Known => {
            write_known(alloc, session, writer)?;
            Ok(None)
        }
        Asked::Refused(refusal) => {
            session.write_reply(&Reply::Refused(refusal), writer)?;
            Ok(None)
        }
    }
}

// Answers a line that isn't one of the debugger's, or else as the debugger does.
fn answer_or<P: Part, W: Write, E: Prompts>(
    alloc: Global,
    session: &mut Session<'_, P>,
    asked: Option<Asked>,
    line: &[u8],
    writer: &mut W,
    prompts: &E,
) -> Result<Option<Reply>, WriteFault>
    requires { session.old.count < 2 ^ 63 }
{
    match asked {
        Some(asked) => answer_asked(alloc, session, asked, writer, prompts),
        None => {
            let told = exchanged(alloc, session, line, writer, prompts)?;
            Ok(told.ok())
        }
    }
}

/// Answers a line of a session on a producer's text, and gives the reply of the debugger, if it has one.
pub(crate) fn exchanged_whole<P: Part, W: Write, E: Prompts>(
    alloc: Global,
    session: &mut Session<'_, P>,
    line: &[u8],
    writer: &mut W,
    prompts: &E,
) -> Result<Option<Reply>, WriteFault> {
    if session.standing().steps >= MOST_STEPS {
        return Ok(None);
    }
    match asked_of(alloc, line) {
        Ok(asked) => answer_or(alloc, session, asked, line, writer, prompts),
        Err(_) => {
            write_all(writer, b"no memory\n")?;
            Ok(None)
        }
    }
}
