//! The debugger over a reader and a writer.

ghost use Rattle.std.specs.Prelude.{◌≡◌, ◌<◌, ◌≤◌, ◌+◌, ◌*◌, ◌^◌, IfSome, IfOk};
ghost use Rattle.std.specs.Io.KnownBytes.{Keeps};
ghost use Rattle.vcm_num.specs.Written.{Wrote};
ghost use Rattle.vcm_console.specs.Parsing.{command_of};
ghost use Rattle.vcm_console.specs.Replies.{ReplyFits};
ghost use Rattle.vcm_debug.specs.Debugging.{now};
ghost use Rattle.vcm_debug.specs.Serving.{without_return, content, answer_text, is_bye, AnswersTo, IsBye, Served};
ghost use Rattle.vcm_debug.specs.inner.Exchanges.{HasExchanged};

use crate::session::Session;
use std::alloc::Global;
use std::io::{Read, Write};
use vcm_console::{Halted, Reply, ServeFault, next_byte, parse_command, read_line};
use vcm_motion::Part;
use vcm_num::{WriteFault, write_all};

// The bytes without the carriage return at their end.
fn without_return(bytes: &[u8]) -> &[u8]
    ensures { result.now ≡ without_return bytes.now }
{
    let n = bytes.len();
    if n > 0 && bytes[n - 1] == b'\r' {
        return bytes.split_at(n - 1).0;
    }
    bytes
}

/// What a line says: a carriage return in front of the line feed that ends it is no part of it.
pub fn content(bytes: &[u8], ended: bool) -> &[u8]
    ensures { result.now ≡ content bytes.now ended }
{
    if ended { without_return(bytes) } else { bytes }
}

/// Whether an answer ends a session.
pub fn is_bye(told: Result<Reply, Halted>) -> bool
    ensures { result ≡ is_bye told }
{
    match told {
        Ok(Reply::Bye) => true,
        _ => false,
    }
}

// What a session answers to a line.
fn answer_to<P: Part>(
    alloc: Global,
    session: &mut Session<'_, P>,
    line: &[u8],
) -> Result<Reply, Halted>
    requires { session.old.count + 1000000 < 2 ^ 64 }
    ensures answers { AnswersTo session.old (command_of line.now) session.new result }
    ensures few { session.new.count ≤ session.old.count + 1000000 }
    ensures fits { IfOk result (ReplyFits session.new.code (now session.new).world.lines) }
{
    match parse_command(line) {
        Ok(command) => session.command(alloc, &command),
        Err(reply) => Ok(reply),
    }
}

// Writes an answer.
fn write_answer<P: Part, W: Write>(
    session: &Session<'_, P>,
    told: Result<Reply, Halted>,
    writer: &mut W,
) -> Result<(), WriteFault>
    requires { IfOk told (ReplyFits session.now.code (now session.now).world.lines) }
    ensures { Wrote (W.contents writer.old) (W.contents writer.new) (answer_text session.now told) result }
{
    match told {
        Ok(reply) => session.write_reply(&reply, writer),
        Err(_) => session.write_halted(writer),
    }
}

/// Hands on what a writer has taken.
///
/// Errors: the writer failed.
pub fn flush<W: Write>(writer: &mut W) -> Result<(), WriteFault>
    ensures { Keeps (W.contents writer.old) (W.contents writer.new) }
{
    match writer.flush() {
        Ok(()) => Ok(()),
        Err(_) => Err(WriteFault),
    }
}

// Answers a line, hands the text on, and tells whether that ends the session.
fn answer<P: Part, W: Write>(
    alloc: Global,
    session: &mut Session<'_, P>,
    line: &[u8],
    writer: &mut W,
) -> Result<bool, WriteFault>
    requires { session.old.count + 1000000 < 2 ^ 64 }
    ensures exchange { HasExchanged session.old line.now session.new (W.contents writer.old) (W.contents writer.new) result }
    ensures few { session.new.count ≤ session.old.count + 1000000 }
{
    if line.is_empty() {
        return Ok(false);
    }
    let told = answer_to(alloc, session, line);
    match write_answer(session, told, writer) {
        Ok(()) => match flush(writer) {
            Ok(()) => Ok(is_bye(told)),
            Err(fault) => Err(fault),
        },
        Err(fault) => Err(fault),
    }
}

/// Writes the last reply, and hands it on.
///
/// Errors: the writer failed, or took no byte; then it has taken the reply or a front of it.
pub fn bye<W: Write>(writer: &mut W) -> Result<(), ServeFault>
    ensures { IsBye result (W.contents writer.old) (W.contents writer.new) }
{
    match write_all(writer, b"bye\n") {
        Ok(()) => match flush(writer) {
            Ok(()) => Ok(()),
            Err(_) => Err(ServeFault::Write),
        },
        Err(_) => Err(ServeFault::Write),
    }
}

// Answers so many lines of so many bytes.
fn serve_lines<P: Part, R: Read, W: Write>(
    alloc: Global,
    session: &mut Session<'_, P>,
    reader: &mut R,
    writer: &mut W,
    lines: usize,
    bytes: usize,
) -> Result<(), ServeFault>
    requires count { session.old.count + 1000000 * lines < 2 ^ 64 }
    requires bytes { bytes < 2 ^ 32 }
    ensures { IfSome (R.remaining reader.old)
        (λ input. Served lines bytes session.old input (R.remaining reader.new) (W.contents writer.old) (W.contents writer.new) result session.new) }
{
    let mut lines = lines;
    let mut left = bytes;
    while lines > 0 {
        match read_line(reader, left) {
            Err(fault) => return Err(fault),
            Ok(None) => return bye(writer),
            Ok(Some(line)) => {
                lines -= 1;
                left -= line.used;
                match answer(
                    alloc,
                    session,
                    content(line.kept.as_slice(), line.ended),
                    writer,
                ) {
                    Ok(true) => return Ok(()),
                    Ok(false) => {}
                    Err(_) => return Err(ServeFault::Write),
                }
            }
        }
    }
    match next_byte(reader) {
        Err(fault) => Err(fault),
        Ok(None) => bye(writer),
        Ok(Some(_)) => Err(ServeFault::TooMuch),
    }
}

/// The most lines.
const MAX_LINES: usize = 10_000;

/// The most bytes.
const MAX_BYTES: usize = 1_048_576;

/// Answers the lines of a reader, in order, up to `quit` or the end of the input, and writes the replies and nothing else. Each reply is handed
/// on at once. At most one byte is read behind 1,048,576.
///
/// Errors: the reader or the writer failed, or there is a byte past 10,000 lines or 1,048,576 bytes. The session then stands behind the lines
/// that were read whole.
pub fn serve<P: Part, R: Read, W: Write>(
    alloc: Global,
    session: &mut Session<'_, P>,
    reader: &mut R,
    writer: &mut W,
) -> Result<(), ServeFault>
    requires { session.old.count < 2 ^ 63 }
    ensures { IfSome (R.remaining reader.old)
        (λ input. Served 10000 1048576 session.old input (R.remaining reader.new) (W.contents writer.old) (W.contents writer.new) result session.new) }
{
    serve_lines(alloc, session, reader, writer, MAX_LINES, MAX_BYTES)
}
