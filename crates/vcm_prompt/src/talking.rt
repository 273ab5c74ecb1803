//! The conversation: a prompt, a line, its answer.

use crate::answering::{Source, answer, is_alarming};
use crate::whole::exchanged_whole;
use crate::words::long_line;
use std::alloc::Global;
use std::io::{Read, Write};
use vcm_console::{RawLine, read_line};
use vcm_debug::{Reply, ServeFault, Session};
use vcm_job::{Given, RunFault};
use vcm_loader::Loaded;
use vcm_motion::Part;
use vcm_num::write_all;
use vcm_part::PartData;

/// What is told of a conversation beside its replies.
pub trait Prompts {
    /// Says what helps, before the first line.
    fn greet(&self);
    /// Says that a line may be typed.
    fn prompt(&self);
    /// Says that what is written next tells of a stop.
    fn alarm(&self);
    /// Says that it no more does.
    fn calm(&self);
    /// Writes why a run of a loaded code stops that has come so many steps far. What was given is what the code was loaded of.
    ///
    /// Errors: see `RunFault`.
    fn why<W: Write>(
        &self,
        alloc: Global,
        loaded: &Loaded<'_>,
        given: &Given,
        part: &PartData,
        steps: u64,
        writer: &mut W,
    ) -> Result<u8, RunFault>;
}

/// Tells nothing.
#[derive(Clone, Copy)]
struct Silence;

impl Prompts for Silence {
    fn greet(&self) {}

    fn prompt(&self) {}

    fn alarm(&self) {}

    fn calm(&self) {}

    fn why<W: Write>(
        &self,
        _alloc: Global,
        _loaded: &Loaded<'_>,
        _given: &Given,
        _part: &PartData,
        _steps: u64,
        _writer: &mut W,
    ) -> Result<u8, RunFault> {
        Ok(0)
    }
}

/// What is answered to the keys of a terminal that nothing reads here.
const KEYS: &[u8] = b"keys that edit, and those of a history, want rlwrap: rlwrap vcm debug ..\n";

/// The byte that the sequence of such a key begins with.
const ESCAPE: u8 = 27;

/// The most lines.
const MAX_LINES: usize = 10_000;

/// The most bytes.
const MAX_BYTES: usize = 1_048_576;

// Writes a text, and hands it on at once.
fn say<W: Write>(text: &[u8], writer: &mut W) -> Result<(), ServeFault> {
    let Ok(()) = write_all(writer, text) else {
        return Err(ServeFault::Write);
    };
    match writer.flush() {
        Ok(()) => Ok(()),
        Err(_) => Err(ServeFault::Write),
    }
}

// What a line says, without a carriage return at its end.
fn content(line: &RawLine) -> &[u8] {
    match line.kept.as_slice() {
        [bytes @ .., b'\r'] => bytes,
        bytes => bytes,
    }
}

// Whether a line has the sequence of a key.
fn has_key(typed: &[u8]) -> bool {
    typed.contains(&ESCAPE)
}

// Answers a line, hands the answer on at once, and tells whether that ends the session.
fn answered<P: Part, W: Write, E: Prompts>(
    alloc: Global,
    session: &mut Session<'_, P>,
    source: Source<'_>,
    line: &[u8],
    replies: &mut W,
    prompts: &E,
) -> Result<bool, ServeFault> {
    let done = answer(alloc, session, source, line, replies, prompts);
    let handed = say(b"", replies);
    if is_alarming(session.standing()) {
        prompts.calm();
    }
    let Ok(is_last) = done else {
        return Err(ServeFault::Write);
    };
    handed?;
    Ok(is_last)
}

// Answers a typed line, or for an empty one the last, and tells whether that ends the session.
fn exchange<P: Part, W: Write, E: Prompts>(
    alloc: Global,
    session: &mut Session<'_, P>,
    source: Source<'_>,
    typed: &[u8],
    last: &mut Vec<u8>,
    replies: &mut W,
    prompts: &E,
) -> Result<bool, ServeFault> {
    if has_key(typed) {
        return say(KEYS, replies).map(|()| false);
    }
    if !typed.is_empty() {
        *last = match long_line(alloc, typed) {
            Ok(line) => line,
            Err(_) => return say(b"no memory\n", replies).map(|()| false),
        };
    }
    if last.is_empty() {
        return Ok(false);
    }
    answered(alloc, session, source, last, replies, prompts)
}

// The next line of a reader, of which so many bytes may be read.
fn next_line<R: Read>(reader: &mut R, left: usize) -> Result<Option<RawLine>, ServeFault> {
    if left > MAX_BYTES {
        return Err(ServeFault::TooMuch);
    }
    read_line(reader, left)
}

/// Reads lines with a prompt before each, and answers them, up to `quit` or the end of the input.
pub(crate) fn talk<P: Part, R: Read, W: Write, E: Prompts>(
    alloc: Global,
    session: &mut Session<'_, P>,
    source: Source<'_>,
    reader: &mut R,
    replies: &mut W,
    prompts: &E,
) -> Result<(), ServeFault> {
    let mut last = Vec::new(alloc);
    let mut left = MAX_BYTES;
    prompts.greet();
    for _ in 0..MAX_LINES {
        prompts.prompt();
        let Some(line) = next_line(reader, left)? else {
            return say(b"bye\n", replies);
        };
        left = left.saturating_sub(line.used);
        if exchange(
            alloc,
            session,
            source,
            content(&line),
            &mut last,
            replies,
            prompts,
        )? {
            return Ok(());
        }
    }
    Err(ServeFault::TooMuch)
}

// Answers a line that is read through a pipe, and tells whether that ends the session.
fn exchange_plain<P: Part, W: Write>(
    alloc: Global,
    session: &mut Session<'_, P>,
    line: &[u8],
    replies: &mut W,
) -> Result<bool, ServeFault> {
    if line.is_empty() {
        return Ok(false);
    }
    let Ok(told) = exchanged_whole(alloc, session, line, replies, &Silence) else {
        return Err(ServeFault::Write);
    };
    say(b"", replies)?;
    Ok(matches!(told, Some(Reply::Bye)))
}

/// Reads lines of a session on a producer's text, and answers them as they stand, up to `quit` or the end of the input.
pub(crate) fn serve_plain<P: Part, R: Read, W: Write>(
    alloc: Global,
    session: &mut Session<'_, P>,
    reader: &mut R,
    replies: &mut W,
) -> Result<(), ServeFault> {
    let mut left = MAX_BYTES;
    for _ in 0..MAX_LINES {
        let Some(line) = next_line(reader, left)? else {
            return say(b"bye\n", replies);
        };
        left = left.saturating_sub(line.used);
        if exchange_plain(alloc, session, content(&line), replies)? {
            return Ok(());
        }
    }
    Err(ServeFault::TooMuch)
}
