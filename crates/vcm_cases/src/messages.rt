//! What is told on standard error of each fault of a kind: its exit status, its words, and the first line of its explanation.

use crate::faults::{
    first_refusal, next_input, next_listing, next_refusal, next_refused_part, next_run,
    next_session, next_text, refused_listing, refused_text,
};
use crate::texts::put;
use std::alloc::Global;
use std::fmt::Write as _;
use vcm_explain::explanation;
use vcm_job::{Fault, InputRefusal, JobFault, SessionFault};
use vcm_lines::FaultCode;
use vcm_listing::ListCode;
use vcm_messages::{Message, Told, message_of, status_of};
use vcm_part::{PartCode, PartFault};

// The name of each file.
const FILE: &str = "a.dmi";

// How many refusals there are of a kind, at most.
const MOST: u32 = 100;

// The other faults of a command that gives something, of one that writes, and of one that runs a program.
const GIVING: &[JobFault] = &[Fault::NoMemory, Fault::Read, Fault::TooLong];

const WRITING: &[JobFault] = &[
    Fault::NoMemory,
    Fault::Read,
    Fault::Write { done: 0 },
    Fault::TooLong,
];

const RUNNING: &[JobFault] = &[
    Fault::Memory { done: 3 },
    Fault::NoMemory,
    Fault::Read,
    Fault::Write { done: 3 },
    Fault::TooLong,
];

/// A message behind its exit status.
pub(crate) fn line_of(alloc: Global, message: Message<'_>) -> String {
    let mut line = String::new(alloc);
    let _ = write!(line, "{} {message}", status_of(message));
    line
}

// Adds a line with a status and a message, and behind it the first line of its explanation.
fn put_line(text: &mut String, line: &str) {
    let words = match line.split_once(' ') {
        Some((_, words)) => words,
        None => line,
    };
    put(text, line);
    if let Some(entry) = explanation(words) {
        put(text, " [");
        put(text, entry.title());
        put(text, "]");
    }
    put(text, "\n");
}

// The lines of all refusals of a kind, from the first one on, and of the other faults of a command.
fn told<R: Told + Copy, N: Fn(R) -> Option<R>>(
    alloc: Global,
    name: &str,
    first: R,
    next: N,
    others: &[JobFault],
) -> String
    requires goes_on { N.IsAlwaysCallable next }
{
    let mut text = String::new(alloc);
    let mut refusal = first;
    for _ in 0..MOST {
        put_line(
            &mut text,
            &line_of(alloc, message_of(Fault::Refused(refusal), name)),
        );
        match next(refusal) {
            Some(behind) => refusal = behind,
            None => break,
        }
    }
    for fault in others {
        put_line(&mut text, &line_of(alloc, message_of(*fault, name)));
    }
    text
}

// What is told of a command line before a command is carried out.
fn usage(alloc: Global) -> String {
    let mut text = String::new(alloc);
    for message in [
        Message::Usage,
        Message::Steps,
        Message::Unknown { words: "E14x" },
    ] {
        put_line(&mut text, &line_of(alloc, message));
    }
    text
}

// The same of the commands that read a program.
fn of_programs(alloc: Global, command: &str) -> String {
    let refusal = first_refusal();
    let input = InputRefusal::Text(refusal);
    match command {
        "build" => told(alloc, FILE, refusal, next_refusal, GIVING),
        "job" => told(alloc, "standard input", refusal, next_refusal, RUNNING),
        "run" => told(alloc, FILE, input, next_run, RUNNING),
        "list" => told(alloc, FILE, input, next_input, WRITING),
        "debug" => told(
            alloc,
            FILE,
            SessionFault::Text(refusal),
            next_session,
            GIVING,
        ),
        _ => String::new(alloc),
    }
}

/// What a command tells of each of its faults; nothing where there is no such command.
pub(crate) fn messages(alloc: Global, command: &str) -> String {
    let text = refused_text(FaultCode::NoMemory);
    let listing = refused_listing(ListCode::NoMemory);
    let part = PartFault {
        code: PartCode::NoMemory,
        block: 0,
    };
    match command {
        "usage" => usage(alloc),
        "part" => told(alloc, FILE, part, next_refused_part, GIVING),
        "check" => told(alloc, FILE, text, next_text, WRITING),
        "asm" => told(alloc, FILE, listing, next_listing, GIVING),
        _ => of_programs(alloc, command),
    }
}
