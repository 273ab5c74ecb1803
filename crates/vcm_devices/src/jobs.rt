//! Jobs from standard input.

use crate::about::about_of;
use crate::parts::tell_unused;
use crate::printing::{fails, output, status_after, written};
use crate::talking::{OF_JOBS, Terminals, Told, Voice, alone, fails_twice};
use std::alloc::Global;
use vcm_job::{Done, JobFault, job, read_all};
use vcm_messages::{Message, message_of};
use vcm_num::{NoMemory, cut_line, is};
use vcm_part::{PartCode, PartFault};
use vcm_run::Refusal;
use vcm_telling::{is_program, second_line};

// Whether a line is the mark between the two texts of a job.
fn is_mark(line: &[u8]) -> bool {
    is(line, b"%%") || is(line, b"%%\r")
}

// How many bytes stand in front of the first mark, if there is one.
fn front_len(input: &[u8]) -> Option<usize> {
    let mut rest = input;
    for _ in 0..=input.len() {
        let (line, behind) = cut_line(rest);
        if is_mark(line) {
            return Some(input.len().saturating_sub(rest.len()));
        }
        if behind.is_empty() {
            return None;
        }
        rest = behind;
    }
    None
}

// What stands in front of the first mark, and whether there is one.
fn part_front(input: &[u8]) -> (&[u8], bool) {
    match front_len(input) {
        Some(count) => {
            if count >= input.len() {
                (input, true)
            } else {
                (input.split_at(count).0, true)
            }
        }
        None => (input, false),
    }
}

// The program of a job: what stands behind its first mark.
fn program_behind(input: &[u8]) -> &[u8] {
    match front_len(input) {
        Some(count) if count < input.len() => cut_line(input.split_at(count).1).1,
        _ => &[],
    }
}

// What is told of a job whose part is refused; none where memory runs out.
fn second_of(alloc: Global, input: &[u8], fault: PartFault) -> Option<String> {
    let (part, has_mark) = part_front(input);
    if has_mark || fault.code != PartCode::NotToml {
        return second_line(alloc, "standard input", part, fault);
    }
    let what = if is_program(input) {
        "it looks like a program: its first line begins with DMISMN"
    } else {
        "a job is a part file, a line %%, and a program"
    };
    format!(in alloc; "standard input has no line %%: {what}").ok()
}

// A fault of a job, with what is told of a refused part, or what a refusal of its program is about.
fn told_of(alloc: Global, input: &[u8], fault: JobFault) -> Told<'static> {
    let message = message_of(fault, "standard input");
    let JobFault::Refused(Refusal::Part(fault)) = fault else {
        return match about_of(alloc, program_behind(input), message) {
            Ok(second) => Told { message, second },
            Err(NoMemory) => alone(Message::NoMemory),
        };
    };
    match second_of(alloc, input, fault) {
        None => alone(Message::NoMemory),
        second => Told { message, second },
    }
}

/// How much is told of a job at a terminal.
const AT_TERMINAL: Voice = Voice {
    tells_more: true,
    is_summary: true,
    is_quiet: false,
    is_by_hand: false,
    is_painted: false,
    may_be_whole: false,
};

// Runs a job, and gives the exit status.
fn run_input<R: Print + Eprint + AllocGlobal>(rt: &R, input: &[u8]) -> u8 {
    let mut out = match output(rt) {
        Ok(out) => out,
        Err(message) => return fails(rt, message),
    };
    let mut reader = input;
    match job(rt.alloc(), &mut reader, &mut out) {
        Ok(done) => match tell_unused(rt, AT_TERMINAL, "the part", part_front(input).0) {
            Ok(()) => status_after(rt, AT_TERMINAL, written(&mut out, Ok(done))),
            Err(NoMemory) => fails(rt, Message::NoMemory),
        },
        Err(fault) => {
            let flushed: Result<Done, _> = written(
                &mut out,
                Err(message_of(fault, "standard input")),
            );
            drop(flushed);
            fails_twice(rt, &told_of(rt.alloc(), input, fault))
        }
    }
}

// Runs the job of standard input.
fn job_done<R: Input + Print + AllocGlobal>(rt: &R) -> Result<Done, Message<'static>> {
    let mut out = output(rt)?;
    let done = job(rt.alloc(), &mut rt.reader(), &mut out).map_err(|fault| message_of(
        fault,
        "standard input",
    ));
    written(&mut out, done)
}

// The same where standard error is a terminal: what it waits for is told where standard input is one too, and more is told of a refusal.
fn talk_job<R: Input + Print + Eprint + AllocGlobal>(rt: &R, terminals: Terminals) -> u8 {
    if terminals.input {
        let _ = eprintln!(rt; "reads a job from standard input; vcm --help tells the commands");
    }
    match read_all(rt.alloc(), &mut rt.reader()) {
        Ok(input) => run_input(rt, &input),
        Err(fault) => fails(rt, message_of(JobFault::from(fault), "standard input")),
    }
}

/// Runs the job of standard input, and gives the exit status.
pub fn run_job<R: Input + Print + Eprint + AllocGlobal>(rt: &R, terminals: Terminals) -> u8 {
    if terminals.errors {
        talk_job(rt, terminals)
    } else {
        status_after(rt, OF_JOBS, job_done(rt))
    }
}
