//! What is answered to a typed line.

ghost use Rattle.std.specs.Prelude.{◌<◌, ◌^◌, IfOk};
ghost use Rattle.vcm_console.specs.Replies.{ReplyFits};
ghost use Rattle.vcm_debug.specs.Debugging.{now};

use crate::places::{write_position, write_source};
use crate::talking::Prompts;
use crate::whole::exchanged_whole;
use crate::words::{HELP, HELP_WHOLE, HELP_WHY, Own, cut_word, number, own_word};
use itoa::Buffer;
use std::alloc::Global;
use std::io::Write;
use vcm_debug::{Halted, Reply, Session, Standing, parse_command};
use vcm_job::{Given, RunFault};
use vcm_loader::Loaded;
use vcm_motion::Part;
use vcm_num::{WriteFault, write_all, write_pieces};
use vcm_part::PartData;
use vcm_spec::Stop;

/// What a session is on: the text of the program, whether there is one, and whether it is a producer's text as it stands; what was given, and the workpiece.
#[derive(Clone, Copy)]
pub(crate) struct Source<'a> {
    pub(crate) text: &'a [u8],
    pub(crate) has_text: bool,
    pub(crate) is_whole: bool,
    pub(crate) given: &'a Given,
    pub(crate) part: &'a PartData,
}

/// No run has as many steps.
pub(crate) const MOST_STEPS: u64 = 1 << 62;

// What a session answers to a line.
fn told_of<P: Part>(
    alloc: Global,
    session: &mut Session<'_, P>,
    line: &[u8],
) -> Result<Reply, Halted>
    requires { session.old.count < 2 ^ 63 }
    ensures { IfOk result (ReplyFits session.new.code (now session.new).world.lines) }
{
    match parse_command(line) {
        Ok(command) => session.command(alloc, &command),
        Err(reply) => Ok(reply),
    }
}

/// Whether a session stands at a stop that isn't the program's end.
pub(crate) fn is_alarming(standing: Standing) -> bool {
    match standing.stop {
        Some(place) => !matches!(place.stop, Stop::Ended),
        None => false,
    }
}

// Says that a reply tells of a stop, if it does.
fn say_alarm<E: Prompts>(reply: Reply, prompts: &E) {
    if let Some(standing) = standing_of(reply) {
        if is_alarming(standing) {
            prompts.alarm();
        }
    }
}

/// Writes where a session stands, and gives the reply.
pub(crate) fn write_stands<P: Part, W: Write, E: Prompts>(
    session: &Session<'_, P>,
    writer: &mut W,
    prompts: &E,
) -> Result<Reply, WriteFault> {
    let reply = Reply::Stands(session.standing());
    say_alarm(reply, prompts);
    session.write_reply(&reply, writer)?;
    Ok(reply)
}

// Writes a reply, or that memory was refused.
fn write_told<P: Part, W: Write, E: Prompts>(
    session: &Session<'_, P>,
    told: Result<Reply, Halted>,
    writer: &mut W,
    prompts: &E,
) -> Result<(), WriteFault>
    requires { IfOk told (ReplyFits session.now.code (now session.now).world.lines) }
{
    match told {
        Ok(reply) => {
            say_alarm(reply, prompts);
            session.write_reply(&reply, writer)
        }
        Err(_) => session.write_halted(writer),
    }
}

/// Answers a line, and gives the reply.
pub(crate) fn exchanged<P: Part, W: Write, E: Prompts>(
    alloc: Global,
    session: &mut Session<'_, P>,
    line: &[u8],
    writer: &mut W,
    prompts: &E,
) -> Result<Result<Reply, Halted>, WriteFault> {
    if session.standing().steps >= MOST_STEPS {
        return Ok(Err(Halted { done: 0 }));
    }
    let told = told_of(alloc, session, line);
    match write_told(session, told, writer, prompts) {
        Ok(()) => Ok(told),
        Err(fault) => Err(fault),
    }
}

// Where a reply says that the session stands.
fn standing_of(reply: Reply) -> Option<Standing> {
    match reply {
        Reply::Stands(standing) | Reply::Ran(_, standing) => Some(standing),
        _ => None,
    }
}

// The line where a session stands: that of a stop, or of the next statement.
fn line_of(standing: Standing) -> u32 {
    match standing.stop {
        Some(place) => place.line,
        None => standing.line,
    }
}

// Writes the source line where a session stands, or of an image the listing line.
fn write_standing_line<P: Part, W: Write>(
    session: &Session<'_, P>,
    source: Source<'_>,
    standing: Standing,
    writer: &mut W,
) -> Result<(), WriteFault> {
    if source.has_text {
        write_source(source.text, line_of(standing), writer)
    } else {
        session.write_next(writer)
    }
}

// Writes the source line of the statement with this number, or of an image its listing line.
fn write_statement_line<P: Part, W: Write>(
    session: &Session<'_, P>,
    source: Source<'_>,
    number: u32,
    writer: &mut W,
) -> Result<(), WriteFault> {
    let loaded = session.loaded();
    if number as usize >= loaded.statement_count() {
        return Ok(());
    }
    if source.has_text {
        write_source(source.text, loaded.line(number as usize), writer)
    } else {
        session.write_reply(&Reply::Listed(number), writer)
    }
}

// Writes the line that stands below a reply, if one does.
fn write_line_below<P: Part, W: Write>(
    session: &Session<'_, P>,
    source: Source<'_>,
    reply: Reply,
    writer: &mut W,
) -> Result<(), WriteFault> {
    match reply {
        Reply::Stands(standing) | Reply::Ran(_, standing) => write_standing_line(
            session, source, standing, writer,
        ),
        Reply::Set(number) => write_statement_line(session, source, number, writer),
        _ => Ok(()),
    }
}

// Answers a command, and whether it ends the session.
fn answer_command<P: Part, W: Write, E: Prompts>(
    alloc: Global,
    session: &mut Session<'_, P>,
    source: Source<'_>,
    line: &[u8],
    writer: &mut W,
    prompts: &E,
) -> Result<bool, WriteFault> {
    let told = if source.is_whole {
        exchanged_whole(alloc, session, line, writer, prompts)?
    } else {
        let told = exchanged(alloc, session, line, writer, prompts)?;
        told.ok()
    };
    match told {
        Some(Reply::Bye) => Ok(true),
        Some(reply) => {
            write_line_below(session, source, reply, writer)?;
            Ok(false)
        }
        None => Ok(false),
    }
}

// Writes a number behind a blank.
fn write_number<W: Write>(number: usize, writer: &mut W) -> Result<(), WriteFault> {
    let mut digits = Buffer::new();
    write_pieces(writer, &[b" ", digits.format(number).as_bytes()])
}

// Writes the numbers of a line's statements, each behind a blank, and answers whether there is one.
fn write_numbers<W: Write>(
    loaded: &Loaded<'_>,
    line: u64,
    writer: &mut W,
) -> Result<bool, WriteFault> {
    let mut is_some = false;
    for n in 0..loaded.statement_count() {
        if u64::from(loaded.line(n)) == line {
            if !is_some {
                write_all(writer, b"break")?;
            }
            is_some = true;
            write_number(n, writer)?;
        }
    }
    Ok(is_some)
}

// Sets or clears the breakpoints of a source line.
fn answer_line<P: Part, W: Write>(
    session: &mut Session<'_, P>,
    word: &[u8],
    is_set: bool,
    writer: &mut W,
) -> Result<(), WriteFault> {
    let Some(line) = number(word) else {
        return write_all(writer, b"the number of a source line is wanted, as b 6\n");
    };
    let mut digits = Buffer::new();
    let name = digits.format(line).as_bytes();
    if !write_numbers(session.loaded(), line, writer)? {
        return write_pieces(writer, &[b"no statement on line ", name, b"\n"]);
    }
    session.set_line(line, is_set);
    let done: &[u8] = if is_set {
        b" at line "
    } else {
        b" cleared at line "
    };
    write_pieces(writer, &[done, name, b"\n"])
}

// Writes all breakpoints.
fn answer_breakpoints<P: Part, W: Write>(
    session: &Session<'_, P>,
    writer: &mut W,
) -> Result<(), WriteFault> {
    let loaded = session.loaded();
    let mut is_some = false;
    for n in 0..loaded.statement_count() {
        if session.has_break(n) {
            is_some = true;
            write_all(writer, b"break")?;
            write_number(n, writer)?;
            write_all(writer, b" line")?;
            write_number(loaded.line(n) as usize, writer)?;
            write_all(writer, b"\n")?;
        }
    }
    if is_some {
        Ok(())
    } else {
        write_all(writer, b"no breakpoints\n")
    }
}

// Writes the words that may be typed.
fn write_help<W: Write>(is_whole: bool, writer: &mut W) -> Result<(), WriteFault> {
    write_all(writer, HELP)?;
    let besides: &[u8] = if is_whole { HELP_WHOLE } else { HELP_WHY };
    write_all(writer, besides)
}

// Writes why the run stops that has come as far as a session stands.
fn answer_why<P: Part, W: Write, E: Prompts>(
    alloc: Global,
    session: &Session<'_, P>,
    source: Source<'_>,
    writer: &mut W,
    prompts: &E,
) -> Result<(), WriteFault> {
    let steps = session.standing().steps;
    let (given, part) = (source.given, source.part);
    match prompts.why(alloc, session.loaded(), given, part, steps, writer) {
        Ok(_) => Ok(()),
        Err(RunFault::Write { done: _ }) => Err(WriteFault),
        Err(_) => write_all(writer, b"no memory\n"),
    }
}

// Answers a word of the front.
fn answer_own<P: Part, W: Write, E: Prompts>(
    alloc: Global,
    session: &mut Session<'_, P>,
    own: Own,
    source: Source<'_>,
    behind: &[u8],
    writer: &mut W,
    prompts: &E,
) -> Result<(), WriteFault> {
    let (word, _) = cut_word(behind);
    match own {
        Own::Help => write_help(source.is_whole, writer),
        Own::Why => answer_why(alloc, session, source, writer, prompts),
        Own::BreakAt => answer_line(session, word, true, writer),
        Own::ClearAt => answer_line(session, word, false, writer),
        Own::Breakpoints => answer_breakpoints(session, writer),
        Own::Position => write_position(session.world(), writer),
    }
}

/// Answers a line of the debugger or of the front, and tells whether it ends the session.
pub(crate) fn answer<P: Part, W: Write, E: Prompts>(
    alloc: Global,
    session: &mut Session<'_, P>,
    source: Source<'_>,
    line: &[u8],
    writer: &mut W,
    prompts: &E,
) -> Result<bool, WriteFault> {
    let (word, behind) = cut_word(line);
    match own_word(word, source.is_whole) {
        Some(own) => {
            answer_own(alloc, session, own, source, behind, writer, prompts)?;
            Ok(false)
        }
        None => answer_command(alloc, session, source, line, writer, prompts),
    }
}
